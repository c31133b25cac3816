//! The named path to a certificate, beside a line that has other paths.
ghost use Rattle.std.specs.BTreeMap.{get};
ghost use Rattle.std.specs.List.{AllZip};
ghost use Rattle.std.specs.Ordering.{nat_cmp};
ghost use Rattle.std.specs.Str.{bytes_eq};
ghost use Rattle.std.specs.Prelude.{◌≡◌, ◌↔◌, ◌≤◌, ◌+◌, ◌++◌, ◌∷◌, [], ℕ, List, MatchOption, length, map, option_copied, reverse, Ok, IfOk, OnErr, OnOk, IsTrue};
ghost use Rattle.rpki_files.specs.Files.{FileFields};
ghost use Rattle.rpki_folder.specs.KeptLines.{AreLines, has_path, paths_in};
ghost use Rattle.rpki_folder.specs.Walks.{Told, told_at};
ghost use Rattle.rpki_verdicts.specs.NamedPaths.{HasSome};
ghost use Rattle.rpki_verdicts.specs.NamedPaths.Steps.{AreNamedKept, AreNames, AreRight, BecameNamed, IsChosen, IsNamedHere, IsPassed, certs_in};
ghost use Rattle.rpki_verdicts.specs.ShownPaths.{NameIssuersAbove, AreNamedFiles, IsNamedIn, is_issuer_file};

use crate::issuers::NamedFiles;
use rpki_cert::laws;
use rpki_ext::beside;
use rpki_files::BareObject;
use rpki_folder::{Accepted, AcceptedPaths, Firsts, FoundPath, Line, Lines, Visitor};
use rpki_path::{Judged, PathFault};
use std::alloc::{AllocError, Global};
use std::collections::BTreeMap;

/// What a name of an issuer's file is compared with: the certificates of a walk and the directory that
/// is named.
#[derive(Drop)]
pub(crate) struct NameRule<'w, 'q, 'n> {
    root: &'w [u8],
    certs: &'w [&'q BareObject<'n>],
    firsts: &'w Firsts,
    anchor: usize,
}

/// A visitor that keeps lines, and the named path to each certificate whose line has others.
#[derive(Drop)]
pub(crate) struct NamedLines<'w, 'q, 'n> {
    alloc: Global,
    rule: NameRule<'w, 'q, 'n>,
    lines: Lines,
    paths: BTreeMap<usize, FoundPath>,
    // For each certificate the place of the file that it names, from the first question on.
    names: Option<Vec<Option<usize>>>,
}

/// Returns whether the file at a place, if there is one, is that of this issuer, or a copy of it.
pub(crate) fn is_of(firsts: &Firsts, named: Option<usize>, issuer: usize) -> bool
    ensures { result ≡ is_issuer_file firsts.now named issuer }
{
    match named {
        Some(place) => firsts.first_of(place) == firsts.first_of(issuer),
        None => false,
    }
}

/// Returns whether one of the paths leads down by the CAs at these places.
pub(crate) fn has_path(paths: &AcceptedPaths, above: &[usize]) -> bool
    ensures { result ≡ has_path (paths_in paths.now) above.now }
{
    if is_down(&paths.first, above) {
        return true;
    }
    has_other(&paths.others, above)
}

// Whether one of these does.
fn has_other(paths: &[FoundPath], above: &[usize]) -> bool
    ensures { result ≡ has_path paths.now above.now }
{
    paths.iter().any(|path| is_down(path, above))
}

// Whether a path does.
fn is_down(path: &FoundPath, above: &[usize]) -> bool
    ensures { result ≡ bytes_eq path.now.above.items above.now }
{
    path.above.as_slice() == above
}

// For each certificate the place of the file that it names.
fn names_of(
    alloc: Global,
    files: &NamedFiles,
    certs: &[&BareObject<'_>],
) -> Result<Vec<Option<usize>>, AllocError>
    ensures { (all : List FileFields) → AreNamedFiles all files.now → IfOk result (λ names.
        AllZip (λ file named. IsNamedIn all file.now.octets named) certs.now names.items) }
{
    let mut names = Vec::new(alloc);
    for file in certs {
        names.push(files.named_in(alloc, *file)?)?;
    }
    Ok(names)
}

// How many certificates name the file of the one above, from that at a place up, below the CAs at these
// places and the trust anchor.
fn count_named(
    names: &[Option<usize>],
    firsts: &Firsts,
    anchor: usize,
    place: usize,
    above: &[usize],
) -> usize
    ensures named { (certs : List FileFields) → AreNames certs names.now
        → NameIssuersAbove certs firsts.now anchor place (reverse above.now) result }
    ensures few { result ≤ length above.now + 1 }
{
    let named = names.get(place).copied().unwrap_or(None);
    let Some((issuer, above)) = above.split_last() else {
        return usize::from(is_of(firsts, named, anchor));
    };
    if !is_of(firsts, named, *issuer) {
        return 0;
    }
    count_named(names, firsts, anchor, *issuer, above) + 1
}

impl<'w, 'q, 'n> NameRule<'w, 'q, 'n> {
    // For each certificate the place of the file that it names.
    fn names(&self, alloc: Global) -> Result<Vec<Option<usize>>, AllocError>
        ensures { IfOk result (λ names. AreNames (certs_in self.now) names.items) }
    {
        let files = NamedFiles::of(alloc, self.root, self.certs)?;
        let names = names_of(alloc, &files, self.certs);
        drop(files);
        names
    }

    // The places that are known, or else found.
    fn names_with(
        &self,
        alloc: Global,
        names: Option<Vec<Option<usize>>>,
    ) -> Result<Vec<Option<usize>>, AllocError>
        ensures { AreRight self.now names
            → IfOk result (λ found. AreNames (certs_in self.now) found.items) }
    {
        match names {
            Some(names) => Ok(names),
            None => self.names(alloc),
        }
    }

    // Whether the path by these CAs is the named one, by the names.
    fn is_named(&self, names: &[Option<usize>], above: &[usize], place: usize) -> bool
        ensures { AreNames (certs_in self.now) names.now
            → (IsTrue result ↔ IsNamedHere self.now place above.now) }
    {
        laws::unambiguous();
        count_named(names, self.firsts, self.anchor, place, above) == above.len() + 1
    }
}

/// Returns whether the line has a path.
pub(crate) fn is_accepted(line: Option<&Line>) -> bool
    ensures { IsTrue result ↔ HasSome (option_copied line.entry) }
{
    match line {
        Some(Line::Accepted(_)) => true,
        Some(Line::Rejected(..)) | Some(Line::Unseen) | None => false,
    }
}

// What an accepted certificate holds, owned.
fn judged_of(alloc: Global, accepted: &Accepted<'_>) -> Result<Judged, AllocError>
    ensures { IfOk result (λ judged. judged ≡ accepted.now) }
{
    let holder = accepted.holder.try_clone(alloc)?;
    match accepted.router {
        Some(cert) => {
            let (holder, cert) = beside(holder, cert.try_clone(alloc))?;
            let router = Some(cert);
            Ok(Judged { holder, router })
        }
        None => Ok(Judged {
            holder,
            router: None,
        }),
    }
}

// The path to a certificate that was accepted below the CAs at these places.
fn path_of(alloc: Global, above: &[usize], accepted: &Accepted<'_>) -> Result<FoundPath, AllocError>
    ensures above { IfOk result (λ path. path.above.items ≡ above.now) }
    ensures judged { IfOk result (λ path. path.judged ≡ accepted.now) }
{
    let mut places = Vec::new(alloc);
    places.extend_from_slice(above)?;
    let judged = judged_of(alloc, accepted)?;
    Ok(FoundPath {
        above: places,
        judged,
    })
}

impl<'w, 'q, 'n> NamedLines<'w, 'q, 'n> {
    /// Makes lines for these certificates, with no verdict and no path.
    ///
    /// # Errors
    ///
    /// Returns an error if memory runs out.
    pub(crate) fn new(
        alloc: Global,
        root: &'w [u8],
        certs: &'w [&'q BareObject<'n>],
        firsts: &'w Firsts,
        anchor: usize,
    ) -> Result<NamedLines<'w, 'q, 'n>, AllocError>
        ensures root { IfOk result (λ it. it.rule.root.now ≡ root.now) }
        ensures certs { IfOk result (λ it. it.rule.certs.now ≡ certs.now) }
        ensures firsts { IfOk result (λ it. it.rule.firsts.now ≡ firsts.now) }
        ensures anchor { IfOk result (λ it. it.rule.anchor ≡ anchor) }
        ensures count { IfOk result (λ it. length it.lines ≡ length certs.now) }
        ensures lines { IfOk result (λ it. AreLines [] it.lines) }
        ensures right { IfOk result (λ it. AreRight it.rule it.names) }
        ensures kept { IfOk result (λ it. AreNamedKept it []) }
    {
        let lines = Lines::new(alloc, certs.len())?;
        let rule = NameRule {
            root,
            certs,
            firsts,
            anchor,
        };
        Ok(NamedLines {
            alloc,
            rule,
            lines,
            paths: BTreeMap::new(alloc),
            names: None,
        })
    }

    /// Returns the lines, and the named paths by the places of their certificates.
    pub(crate) fn into_parts(self) -> (Lines, BTreeMap<usize, FoundPath>)
        ensures lines { result.0 ≡ self.entry.lines }
        ensures paths { result.1 ≡ self.entry.paths }
    {
        (self.lines, self.paths)
    }

    // Whether the path by these CAs is the named one.
    fn is_named(&mut self, above: &[usize], place: usize) -> Result<bool, AllocError>
        ensures rule { self.new.rule ≡ self.old.rule }
        ensures lines { self.new.lines ≡ self.old.lines }
        ensures paths { self.new.paths ≡ self.old.paths }
        ensures right { AreRight self.old.rule self.old.names
            → AreRight self.new.rule self.new.names }
        ensures named { AreRight self.old.rule self.old.names
            → IfOk result (λ it. IsTrue it ↔ IsNamedHere self.old.rule place above.now) }
    {
        let names = self.rule.names_with(self.alloc, self.names.take())?;
        let is_named = self.rule.is_named(&names, above, place);
        self.names = Some(names);
        Ok(is_named)
    }

    // The path of a verdict that accepts the certificate at a place, if it is to be kept: it is the
    // named one, the line has a path, and no named one is kept.
    fn chosen(
        &mut self,
        above: &[usize],
        place: usize,
        accepted: &Accepted<'_>,
    ) -> Result<Option<FoundPath>, AllocError>
        ensures rule { self.new.rule ≡ self.old.rule }
        ensures lines { self.new.lines ≡ self.old.lines }
        ensures paths { self.new.paths ≡ self.old.paths }
        ensures right { AreRight self.old.rule self.old.names
            → AreRight self.new.rule self.new.names }
        ensures chosen { AreRight self.old.rule self.old.names
            → IfOk result (λ found. MatchOption found (IsPassed self.old above.now place)
            (IsChosen self.old above.now place accepted.now)) }
    {
        if !is_accepted(self.lines.as_slice().get(place)) {
            return Ok(None);
        }
        if self.paths.contains_key(&place) {
            return Ok(None);
        }
        if !self.is_named(above, place)? {
            return Ok(None);
        }
        Ok(Some(path_of(self.alloc, above, accepted)?))
    }

    // Keeps that the certificate at a place was accepted. If the lines have no memory for that, no path
    // is kept either.
    fn accept(
        &mut self,
        above: &[usize],
        place: usize,
        accepted: Accepted<'_>,
    ) -> Result<(), AllocError>
        ensures ok { (v : NamedLines) (ts : List Told) → BecameNamed v ts self.old
            → OnOk result
            (BecameNamed v (ts ++ told_at above.now place (Ok accepted.entry) ∷ []) self.new) }
        ensures err { (v : NamedLines) (ts : List Told) → BecameNamed v ts self.old
            → OnErr result (BecameNamed v ts self.new) }
    {
        let Some(path) = self.chosen(above, place, &accepted)? else {
            return self.lines.tell(above, place, Ok(accepted));
        };
        self.paths.insert(place, path)?;
        match self.lines.tell(above, place, Ok(accepted)) {
            Ok(()) => Ok(()),
            Err(error) => {
                drop(self.paths.remove(&place));
                Err(error)
            }
        }
    }
}

impl<'w, 'q, 'n> Visitor for NamedLines<'w, 'q, 'n> {
    ghost use Rattle.rpki_verdicts.specs.NamedPaths.Steps.{BecameNamed, named_begins};

    ghost became = { BecameNamed };

    fn tell(
        &mut self,
        above: &[usize],
        place: usize,
        verdict: Result<Accepted<'_>, PathFault>,
    ) -> Result<(), AllocError> {
        match verdict {
            Ok(accepted) => self.accept(above, place, accepted),
            Err(fault) => self.lines.tell(above, place, Err(fault)),
        }
    }

    ghost begins = { named_begins };
}
