//! Why there is no verdict on a certificate: what became of its issuer.
ghost use Rattle.std.specs.Prelude.{◌≡◌, ◌+◌, ◌++◌, ◌∷◌, [], ℕ, List, None, Some, fold, option_copied, option_map, slice_get, length, map, IfOk, OnOk};
ghost use Rattle.std.specs.BTreeMap.{get};
ghost use Rattle.std.specs.Option.{option_or};
ghost use Rattle.std.specs.Cmp.Lexicographic.{slice_cmp};
ghost use Rattle.std.specs.Ordering.{nat_cmp};
ghost use Rattle.rpki_files.specs.Files.{FileFields, contents};
ghost use Rattle.rpki_folder.specs.FirstPlaces.{first_from};
ghost use Rattle.rpki_folder.specs.UnseenCertificates.{AreIssuersAmong};
ghost use Rattle.rpki_verdicts.specs.ShownPaths.{AreNamedFiles, IsNamedIn, name_below, place_of, placed, uri_of};
ghost use Rattle.rpki_verdicts.specs.TreeParts.{files_of};
ghost use Rattle.rpki_verdicts.specs.UnseenCertificates.{AreTreeIssuers, IsUnseen, error_above, error_at, error_by, error_in, is_looked_at, is_rejected_at, limit_at, looks_below, reached_by, status};

use crate::parts::{Trees, is_told};
use crate::reasons::name_of;
use crate::unordered::TreeAnswer;
use bytes::Bytes;
use rpki_files::{BareObject, Front};
use rpki_folder::{IssuerStatus, IssuersByKey, Limit, Line, Reached, Unseen, is_looked_below};
use rpki_parts::Rsync;
use std::alloc::{AllocError, Global};
use std::collections::BTreeMap;

/// The issuers among certificates, by their keys, and by the URIs of their files: for each file's name
/// below the directory that is named, behind `rsync://`, the first place of a file that has it.
#[derive(Drop)]
pub struct Issuers {
    by_key: IssuersByKey,
    pub(crate) files: NamedFiles,
}

/// The files of certificates, by the URIs that name them: for each the first place of such a file.
#[derive(Drop)]
pub(crate) struct NamedFiles {
    places: BTreeMap<Bytes, usize>,
}

// Adds the certificate at a place, which is that of the file.
fn add_issuer(
    by_key: &mut IssuersByKey,
    trees: &Trees<'_, '_>,
    place: usize,
    file: &BareObject<'_>,
) -> Result<(), AllocError>
    requires { slice_get (files_of trees.now) place ≡ Some file.now }
    ensures { let certs = contents (files_of trees.now) in
        OnOk result (AreIssuersAmong certs (status trees.now) place by_key.old
        → AreIssuersAmong certs (status trees.now) (place + 1) by_key.new) }
{
    let Front::Certificate(said) = file.front() else {
        return Ok(());
    };
    by_key.add(place, said, trees.status(place))?;
    Ok(())
}

// The part of a name below the directory with whose path names there begin.
fn name_below<'n>(root: &[u8], name: &'n [u8]) -> &'n [u8]
    ensures { result.now ≡ name_below root.now name.now }
{
    if name.starts_with(root) {
        &name[root.len()..]
    } else {
        name
    }
}

// The URI that names a file, in a cache that is laid out by URI below that directory.
fn uri_of(alloc: Global, root: &[u8], file: &BareObject<'_>) -> Result<Bytes, AllocError>
    ensures { IfOk result (λ uri. uri ≡ uri_of (placed root.now file.now)) }
{
    let mut uri = Vec::new(alloc);
    uri.extend_from_slice(b"rsync://".as_slice())?;
    uri.extend_from_slice(name_below(root, file.name().as_bytes()))?;
    Bytes::copy_from_slice(alloc, &uri)
}

// Adds a URI, at the place behind those of the others, unless it is there.
fn add_uri(files: &mut BTreeMap<Bytes, usize>, place: usize, uri: Bytes) -> Result<(), AllocError>
    ensures { (uris : List (List ℕ)) → length uris ≡ place
        → ((s : List ℕ) → get (slice_cmp nat_cmp) files.old s ≡ first_from 0 uris s)
        → OnOk result ((s : List ℕ)
        → get (slice_cmp nat_cmp) files.new s ≡ first_from 0 (uris ++ uri ∷ []) s) }
{
    if files.contains_key(&uri) {
        drop(uri);
        return Ok(());
    }
    files.insert(uri, place)?;
    Ok(())
}

// The first places of the URIs of files.
fn places_by_uri(
    alloc: Global,
    root: &[u8],
    certs: &[&BareObject<'_>],
) -> Result<BTreeMap<Bytes, usize>, AllocError>
    ensures { IfOk result (λ files. (uri : List ℕ) → get (slice_cmp nat_cmp) files uri
        ≡ first_from 0 (map uri_of (map (λ f. placed root.now f.now) certs.now)) uri) }
{
    let mut files = BTreeMap::new(alloc);
    for (place, file) in certs.iter().enumerate() {
        let uri = uri_of(alloc, root, *file)?;
        add_uri(&mut files, place, uri)?;
    }
    Ok(files)
}

/// Finds the issuers among the certificates of trees.
///
/// # Errors
///
/// Returns an error only if memory runs out.
pub fn issuers_of(alloc: Global, trees: &Trees<'_, '_>) -> Result<Issuers, AllocError>
    ensures { IfOk result (AreTreeIssuers trees.now) }
{
    let mut by_key = IssuersByKey::new(alloc);
    for (place, file) in trees.certs.iter().enumerate() {
        add_issuer(&mut by_key, trees, place, *file)?;
    }
    let files = NamedFiles::of(alloc, trees.root, &trees.certs)?;
    Ok(Issuers { by_key, files })
}

impl NamedFiles {
    /// Finds the first place of each of these files by its URI, in a cache that is laid out by URI
    /// below that directory.
    pub(crate) fn of(
        alloc: Global,
        root: &[u8],
        certs: &[&BareObject<'_>],
    ) -> Result<NamedFiles, AllocError>
        ensures { IfOk result (AreNamedFiles (map (λ f. placed root.now f.now) certs.now)) }
    {
        let places = places_by_uri(alloc, root, certs)?;
        Ok(NamedFiles { places })
    }

    // The first place of a file that a URI names, if there is one.
    fn place_by(&self, alloc: Global, uri: &Rsync) -> Result<Option<usize>, AllocError>
        ensures { IfOk result (λ place. place ≡ get (slice_cmp nat_cmp) self.now.places uri.now) }
    {
        let key = Bytes::copy_from_slice(alloc, uri.as_bytes())?;
        let place = self.places.get(&key).copied();
        drop(key);
        Ok(place)
    }

    // The first place of the file that a URI names, if there is a URI and such a file: the file's name
    // below the directory that is named is what follows `rsync://` in the URI.
    fn place_of(&self, alloc: Global, uri: Option<&Rsync>) -> Result<Option<usize>, AllocError>
        ensures { (certs : List FileFields) → AreNamedFiles certs self.now
            → IfOk result (λ place.
            place ≡ place_of certs (option_map (λ u. u.now) uri.entry)) }
    {
        match uri {
            Some(uri) => self.place_by(alloc, uri),
            None => Ok(None),
        }
    }

    /// Returns the first place of the file that the certificate with which a file starts names as its
    /// issuer's, if there is one.
    pub(crate) fn named_in(
        &self,
        alloc: Global,
        file: &BareObject<'_>,
    ) -> Result<Option<usize>, AllocError>
        ensures { (certs : List FileFields) → AreNamedFiles certs self.now
            → IfOk result (IsNamedIn certs file.now.octets) }
    {
        let Some(cert) = file.certificate(alloc)? else {
            return Ok(None);
        };
        let named = self.place_of(alloc, cert.as_tbs().ca_issuer());
        drop(cert);
        named
    }
}

// Whether the walk below a trust anchor looked below the CA at a place, on a path to it.
fn looks_below(answer: &TreeAnswer<'_, '_>, place: usize) -> bool
    ensures { result ≡ looks_below place answer.now }
{
    match answer {
        TreeAnswer::NoAnchor(_) => false,
        TreeAnswer::Walked(tree) => {
            is_looked_below(
                tree.is_anchor_at(place),
                tree.line(place),
                tree.reached(place),
            )
        }
    }
}

// The limits that were reached at the certificate at a place, below a trust anchor.
fn reached_by(answer: &TreeAnswer<'_, '_>, place: usize) -> Reached
    ensures { result ≡ reached_by place answer.now }
{
    match answer {
        TreeAnswer::NoAnchor(_) => Reached::nothing(),
        TreeAnswer::Walked(tree) => tree.reached(place),
    }
}

// The name of the error of a line.
fn error_by(line: Option<&Line>) -> Option<&'static str>
    ensures { option_map (λ name. name.now) result ≡ error_by (option_copied line.entry) }
{
    match line {
        Some(Line::Rejected(_, fault)) => Some(name_of(fault)),
        Some(Line::Accepted(_)) | Some(Line::Unseen) | None => None,
    }
}

// The name of the error of the certificate at a place, below a trust anchor.
fn error_in(answer: &TreeAnswer<'_, '_>, place: usize) -> Option<&'static str>
    ensures { option_map (λ name. name.now) result ≡ error_in place answer.now }
{
    match answer {
        TreeAnswer::NoAnchor(_) => None,
        TreeAnswer::Walked(tree) => error_by(tree.line(place)),
    }
}

// The first of two names, if there is one, and else the second.
fn first_of(one: Option<&'static str>, other: Option<&'static str>) -> Option<&'static str>
    ensures { let second = option_map (λ name. name.now) other.entry in
        option_map (λ name. name.now) result
        ≡ option_or (option_map (λ name. name.now) one.entry) second }
{
    match one {
        Some(name) => Some(name),
        None => other,
    }
}

impl<'q, 'n> Trees<'q, 'n> {
    // Whether the certificate at a place is rejected.
    fn is_rejected_at(&self, place: usize) -> bool
        ensures { result ≡ is_rejected_at self.now place }
    {
        is_told(&self.parts, place, 2) || self.wrong_at(place).is_some()
    }
    // Whether a walk looked below the CA at a place.
    fn is_looked_at(&self, place: usize) -> bool
        ensures { result ≡ is_looked_at self.now place }
    {
        self.parts
            .iter()
            .any(|part| looks_below(&part.answer, place))
    }
    /// Returns the limit that a walk reached at the CA at a place. If there are several, at several
    /// paths to the CA or below several trust anchors, the one that takes the fewest steps.
    pub fn limit_at(&self, place: usize) -> Option<Limit>
        ensures { result ≡ limit_at self.now place }
    {
        let mut reached = Reached::nothing();
        for part in &self.parts {
            reached = reached.and(reached_by(&part.answer, place));
        }
        reached.least()
    }
    // The status of the certificate at a place as an issuer.
    fn status(&self, place: usize) -> IssuerStatus
        ensures { result ≡ status self.now place }
    {
        if is_told(&self.parts, place, 1) {
            IssuerStatus::of_accepted(self.is_looked_at(place), self.limit_at(place))
        } else if self.is_rejected_at(place) {
            IssuerStatus::Rejected
        } else {
            IssuerStatus::Unseen
        }
    }
    // The name of the error of the certificate at a place, by the first line that rejects it.
    fn error_by_line(&self, place: usize) -> Option<&'static str>
        ensures { option_map (λ name. name.now) result
            ≡ fold (λ error part. option_or error (error_in place part.answer)) None
            self.now.parts.items }
    {
        let mut error = None;
        for part in &self.parts {
            error = first_of(error, error_in(&part.answer, place));
        }
        error
    }
    // The name of the error of the certificate at a place, if it is rejected.
    fn error_at(&self, place: usize) -> Option<&'static str>
        ensures { option_map (λ name. name.now) result ≡ error_at self.now place }
    {
        let wrong = match self.wrong_at(place) {
            Some(wrong) => Some(wrong.fault.name),
            None => None,
        };
        first_of(self.error_by_line(place), wrong)
    }
    /// Returns the name of the error of the rejected issuer, if a certificate is below one.
    pub fn error_above(&self, why: Unseen) -> Option<&'static str>
        ensures { option_map (λ name. name.now) result ≡ error_above self.now why }
    {
        match why {
            Unseen::BelowRejected(issuer) => self.error_at(issuer),
            Unseen::NoIssuer
            | Unseen::NotBelow(_)
            | Unseen::NotCa(_)
            | Unseen::NotLookedAt(..)
            | Unseen::BelowUnseen(_) => None,
        }
    }
    /// Returns why there is no verdict on the certificate of a file.
    pub fn unseen(&self, issuers: &Issuers, file: &BareObject<'_>) -> Unseen
        requires { AreTreeIssuers self.now issuers.now }
        ensures { IsUnseen self.now file.now result }
    {
        let Front::Certificate(said) = file.front() else {
            return Unseen::NoIssuer;
        };
        issuers.by_key.why_unseen(said)
    }
}
