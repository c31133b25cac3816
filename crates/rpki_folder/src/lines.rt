//! One line for each certificate of a folder.
ghost use Rattle.std.specs.Prelude.{◌≡◌, ◌↔◌, ◌<◌, ◌∷◌, ◌++◌, ℕ, List, [], length, Ok, Err, IsTrue, IfOk, OnOk, OnErr};
ghost use Rattle.std.specs.Str.{bytes_eq};
ghost use Rattle.rpki_folder.specs.Walks.{Told, told_at};
ghost use Rattle.rpki_folder.specs.KeptLines.{AreLines, ArePaths, IsLine, Stays, has_path, paths_in};

use crate::find::{FoundPath, path_of};
use crate::visitor::{Accepted, Visitor};
use rpki_path::PathFault;
use std::alloc::{AllocError, Global};
use std::marker::Model;
use std::mem;

// How many paths a line keeps beside the first.
const MOST_OTHERS: usize = 7;

/// The valid paths by which a walk reached a certificate: all different, in the order in which the
/// walk found them.
#[derive(Drop)]
pub struct AcceptedPaths {
    /// The first path, and the resources that the certificate holds there.
    pub first: FoundPath,
    /// The next paths, at most seven.
    pub others: Vec<FoundPath>,
    /// How many verdicts accepted the certificate by another path than these.
    pub more: usize,
}

/// What [`Lines`] keep of the verdicts on one certificate.
#[derive(Drop)]
pub enum Line {
    /// No verdict: no valid path leads to a CA whose key signed the certificate, the walk didn't
    /// admit it below such a CA, name chaining fails, or the walk reached a limit before.
    Unseen,
    /// The certificate was accepted, by these paths.
    Accepted(AcceptedPaths),
    /// Every verdict rejected the certificate. The number is the highest path index at which it was
    /// rejected (the trust anchor's is 0), and the error is one of those there.
    Rejected(usize, PathFault),
}

/// A visitor that keeps one [`Line`] for each place.
#[derive(Drop)]
pub struct Lines {
    alloc: Global,
    lines: Vec<Line>,
}

impl Model for Lines {
    ghost use Rattle.std.specs.Prelude.{List};
    ghost use Rattle.rpki_folder.specs.declared.lines.Line.{Line};

    ghost Value = { List Line };

    ghost view = { λ l. l.lines.items };
}

// Whether the line stays as it is if the certificate is rejected at this path index.
fn stays(line: &Line, step: usize) -> bool
    ensures { IsTrue result ↔ Stays step line.now }
{
    match line {
        Line::Unseen => false,
        Line::Accepted(_) => true,
        Line::Rejected(other, _) => *other >= step,
    }
}

// Whether a path leads down by the CAs at these places.
fn is_down(path: &FoundPath, above: &[usize]) -> bool
    ensures { result ≡ bytes_eq path.now.above.items above.now }
{
    path.above.as_slice() == above
}

// Whether one of the paths does.
fn has_path(paths: &[FoundPath], above: &[usize]) -> bool
    ensures { result ≡ has_path paths.now above.now }
{
    paths.iter().any(|path| is_down(path, above))
}

impl AcceptedPaths {
    // The paths of a certificate that was accepted by one.
    fn of(alloc: Global, first: FoundPath) -> AcceptedPaths
        ensures first { result.first ≡ first }
        ensures others { result.others.items ≡ [] }
        ensures more { result.more ≡ 0 }
    {
        AcceptedPaths {
            first,
            others: Vec::new(alloc),
            more: 0,
        }
    }

    // Whether a path down by the CAs at these places is kept.
    fn has(&self, above: &[usize]) -> bool
        ensures { result ≡ has_path (paths_in self.now) above.now }
    {
        if is_down(&self.first, above) {
            return true;
        }
        has_path(&self.others, above)
    }

    // Keeps a further path, or counts it if seven are kept beside the first.
    fn add(
        &mut self,
        alloc: Global,
        above: &[usize],
        accepted: &Accepted<'_>,
    ) -> Result<(), AllocError>
        ensures ok { (ts : List Told) (place : ℕ) → ArePaths ts place self.old
            → OnOk result
            (ArePaths (ts ++ told_at above.now place (Ok accepted.now) ∷ []) place self.new) }
        ensures err { (ts : List Told) (place : ℕ) → ArePaths ts place self.old
            → OnErr result (ArePaths ts place self.new) }
    {
        if self.has(above) {
            return Ok(());
        }
        if self.others.len() >= MOST_OTHERS {
            self.more = self.more.saturating_add(1);
            return Ok(());
        }
        let path = path_of(alloc, above, accepted)?;
        self.others.push(path)?;
        Ok(())
    }
}

impl Line {
    // Keeps that the certificate was accepted.
    fn accept(
        &mut self,
        alloc: Global,
        above: &[usize],
        accepted: &Accepted<'_>,
    ) -> Result<(), AllocError>
        ensures ok { (ts : List Told) (place : ℕ) → IsLine ts place self.old
            → OnOk result
            (IsLine (ts ++ told_at above.now place (Ok accepted.now) ∷ []) place self.new) }
        ensures err { (ts : List Told) (place : ℕ) → IsLine ts place self.old
            → OnErr result (IsLine ts place self.new) }
    {
        if let Line::Accepted(paths) = self {
            return paths.add(alloc, above, accepted);
        }
        let first = path_of(alloc, above, accepted)?;
        drop(mem::replace(self, Line::Accepted(AcceptedPaths::of(alloc, first))));
        Ok(())
    }
}

impl Lines {
    /// Makes lines for this many places, each [`Line::Unseen`].
    ///
    /// # Errors
    ///
    /// Returns an error if memory runs out.
    pub fn new(alloc: Global, count: usize) -> Result<Lines, AllocError>
        ensures count { IfOk result (λ lines. length lines ≡ count) }
        ensures nothing { IfOk result (AreLines []) }
    {
        let mut lines = Vec::new(alloc);
        for _ in 0..count {
            lines.push(Line::Unseen)?;
        }
        Ok(Lines { alloc, lines })
    }

    /// Returns the lines, each at its place.
    pub fn as_slice(&self) -> &[Line]
        ensures { result.now ≡ self.now }
    {
        &self.lines
    }

    // Keeps that the certificate was accepted.
    fn accept(
        &mut self,
        above: &[usize],
        place: usize,
        accepted: &Accepted<'_>,
    ) -> Result<(), AllocError>
        requires { place < length self.old }
        ensures ok { (ts : List Told) → AreLines ts self.old
            → OnOk result (AreLines (ts ++ told_at above.now place (Ok accepted.now) ∷ []) self.new) }
        ensures count { length self.new ≡ length self.old }
        ensures err { (ts : List Told) → AreLines ts self.old → OnErr result (AreLines ts self.new) }
    {
        self.lines[place].accept(self.alloc, above, accepted)
    }

    // Keeps that the certificate was rejected, unless it was accepted, or rejected at a higher
    // path index.
    fn reject(&mut self, above: &[usize], place: usize, fault: PathFault)
        requires { place < length self.old }
        ensures lines { (ts : List Told) → AreLines ts self.old
            → AreLines (ts ++ told_at above.now place (Err fault) ∷ []) self.new }
        ensures count { length self.new ≡ length self.old }
    {
        let step = above.len() + 1;
        if stays(&self.lines[place], step) {
            drop(fault);
            return;
        }
        drop(mem::replace(&mut self.lines[place], Line::Rejected(step, fault)));
    }
}

impl Visitor for Lines {
    ghost use Rattle.std.specs.Prelude.{refl};
    ghost use Rattle.rpki_folder.specs.KeptLines.{BecameLines};

    ghost became = { BecameLines };

    fn tell(
        &mut self,
        above: &[usize],
        place: usize,
        verdict: Result<Accepted<'_>, PathFault>,
    ) -> Result<(), AllocError> {
        if place >= self.lines.len() {
            drop(verdict);
            return Ok(());
        }
        match verdict {
            Ok(accepted) => self.accept(above, place, &accepted),
            Err(fault) => {
                self.reject(above, place, fault);
                Ok(())
            }
        }
    }

    ghost begins = { λ lines. (refl, λ none. none) };
}
