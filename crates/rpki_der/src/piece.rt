//! Bytes that are kept.
ghost use Rattle.std.specs.Prelude.{◌≡◌, ◌≤◌, List, ℕ, length, slice_range, IfOk, bytes_eq};
ghost use Rattle.std.proofs.Common.{rules};
ghost use Rattle.std.specs.Cmp.Rules.{comparing};
ghost use Rattle.rpki_der.specs.Place.{remaining};
ghost use Rattle.rpki_der.specs.Values.{AreOctets};

use crate::cursor::Cursor;
use bytes::Bytes;
use std::alloc::{AllocError, Global};
use std::marker::Model;

/// Bytes that are kept: a span of a shared buffer. A piece keeps the whole buffer alive. Neither
/// keeping bytes nor cloning a piece copies them.
#[derive(Drop)]
pub struct Piece {
    source: Bytes,
    from: usize,
    to: usize,
}

impl Model for Piece {
    ghost Value = { List ℕ };

    ghost view = { λ p. slice_range p.source p.from p.to };

    ghost invariant = { λ p. (p.from ≤ p.to) × (p.to ≤ length p.source) };
}

impl From<Bytes> for Piece {
    ghost from_gives = { λ b p. p ≡ b };

    fn from(octets: Bytes) -> Piece {
        let to = octets.len();
        Piece::of_span(octets, 0, to)
    }
}

impl Piece {
    // The octets of the source between these places.
    #[inline(always)]
    pub(crate) fn of_span(source: Bytes, from: usize, to: usize) -> Piece
        requires order { from ≤ to }
        requires inside { to ≤ length source }
        ensures { result ≡ slice_range source from to }
    {
        Piece { source, from, to }
    }

    /// Returns the bytes.
    pub fn as_bytes(&self) -> &[u8]
        ensures { result.now ≡ self.now }
    {
        let octets = self.source.as_slice();
        &octets[self.from..self.to]
    }

    /// Returns a cursor over all of the bytes.
    pub fn cursor(&self) -> Cursor<'_>
        ensures all { remaining result ≡ self.now }
        ensures octets { AreOctets self.now }
    {
        let cursor = Cursor::of_span(&self.source, self.from, self.to);
        // For the proof only: what remains are octets.
        let _octets = cursor.rest();
        cursor
    }

    /// Clones the piece. The copy has the same bytes, in the same buffer.
    ///
    /// # Errors
    ///
    /// Returns an error if memory runs out.
    pub fn try_clone(&self, _alloc: Global) -> Result<Piece, AllocError>
        ensures { IfOk result (λ p. p ≡ self.now) }
    {
        let source = self.source.clone()?;
        Ok(Piece::of_span(source, self.from, self.to))
    }
}

impl PartialEq for Piece {
    ghost eq = { bytes_eq };

    ghost laws = { Prim.search (comparing, rules) };

    fn eq(&self, other: &Piece) -> bool {
        self.as_bytes() == other.as_bytes()
    }
}

impl Eq for Piece {
    ghost laws = { Prim.search (comparing, rules) };
}
