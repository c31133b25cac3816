//! A cursor over shared bytes.
ghost use Rattle.std.specs.Prelude.{◌≡◌, ◌≤◌, ◌-◌, [], length, take, drop, IfOk, IfSome, IfErr, IsOk, OnOk, IsTrue, ◌↔◌, option_map};
ghost use Rattle.rpki_der.specs.Place.{Place, remaining, IsWithin, EndsAt, MovesOn, Keeps, AnswersOptionalBy};
ghost use Rattle.rpki_der.specs.Answers.{AnswersBy};
ghost use Rattle.rpki_der.specs.Formats.{any_octets};
ghost use Rattle.rpki_der.specs.Place.Reading.{TookBy};
ghost use Rattle.rpki_der.specs.Reading.{optional};
ghost use Rattle.rpki_der.specs.Values.Reading.{value_at};
ghost use Rattle.rpki_der.specs.Tags.{SEQUENCE};
ghost use Rattle.rpki_der.specs.Values.{AreOctets, IsEnc};
ghost use Rattle.rpki_der.specs.declared.error.DecodeError.TheVariants.{Trailing, Memory};

use crate::error::DecodeError;
use crate::header::value_of;
use crate::piece::Piece;
use crate::tag;
use bytes::Bytes;
use std::alloc::Global;
use std::marker::Model;

/// A place in shared bytes, and the end up to which they may be read. A reader moves the cursor on.
/// If a reader returns an error, it leaves the cursor unchanged.
#[derive(Drop)]
pub struct Cursor<'a> {
    source: &'a Bytes,
    from: usize,
    to: usize,
}

impl<'a> Model for Cursor<'a> {
    ghost Value = { Place };

    ghost view = { λ c. record { source = c.source.now; from = c.from; to = c.to } };

    ghost invariant = { λ c. (c.from ≤ c.to) × (c.to ≤ length c.source.now) };
}

impl<'a> Cursor<'a> {
    /// Makes a cursor over all bytes of the source.
    #[inline(always)]
    pub fn new(source: &'a Bytes) -> Cursor<'a>
        ensures whole { result
            ≡ record { source = source.now; from = 0; to = length source.now } }
        ensures all { remaining result ≡ source.now }
    {
        Cursor {
            source,
            from: 0,
            to: source.len(),
        }
    }

    // A cursor over the octets of the source between these places.
    #[inline(always)]
    pub(crate) fn of_span(source: &'a Bytes, from: usize, to: usize) -> Cursor<'a>
        requires order { from ≤ to }
        requires inside { to ≤ length source.now }
        ensures { result ≡ record { source = source.now; from = from; to = to } }
    {
        Cursor { source, from, to }
    }

    /// Returns another cursor at this place. Reading from it does not move this one.
    #[inline(always)]
    pub fn fork(&self) -> Cursor<'a>
        ensures same { result ≡ self.now }
        ensures octets { AreOctets (remaining self.now) }
    {
        // For the proof only: what remains are octets.
        let _octets = self.rest();
        Cursor {
            source: self.source,
            from: self.from,
            to: self.to,
        }
    }

    /// Returns where in the source the remaining bytes begin and end, as byte offsets. The end is
    /// exclusive.
    #[inline(always)]
    pub fn span(&self) -> (usize, usize)
        ensures span { result ≡ (self.now.from, self.now.to) }
        ensures order { self.now.from ≤ self.now.to }
        ensures inside { self.now.to ≤ length self.now.source }
    {
        (self.from, self.to)
    }

    /// Returns the remaining bytes.
    #[inline(always)]
    pub fn rest(&self) -> &'a [u8]
        ensures remaining { result.now ≡ remaining self.now }
        ensures octets { AreOctets result.now }
    {
        let octets = self.source.as_slice();
        let rest = &octets[self.from..self.to];
        rest
    }

    /// Returns whether no byte remains.
    #[inline(always)]
    pub fn is_empty(&self) -> bool
        ensures { IsTrue result ↔ (remaining self.now ≡ []) }
    {
        self.from == self.to
    }

    /// Checks that no byte remains, and ends the reading.
    ///
    /// # Errors
    ///
    /// Returns `Trailing` if bytes remain, and no other error.
    #[inline(always)]
    pub fn finish(self) -> Result<(), DecodeError>
        ensures end { IsOk result ↔ (remaining self.entry ≡ []) }
        ensures at_end { OnOk result (self.entry.from ≡ self.entry.to) }
        ensures trailing { IfErr result (λ e. e ≡ Trailing) }
    {
        if self.from == self.to {
            Ok(())
        } else {
            Err(DecodeError::Trailing)
        }
    }

    // Passes over remaining octets.
    #[inline(always)]
    pub(crate) fn advance(&mut self, count: usize)
        requires { count ≤ length (remaining self.old) }
        ensures remaining { remaining self.new ≡ drop count (remaining self.old) }
        ensures keeps { MovesOn self.old self.new }
    {
        self.from += count;
    }

    // A cursor over the octets from here to a later place.
    #[inline(always)]
    pub(crate) fn until(&self, later: &Cursor<'a>) -> Cursor<'a>
        requires { MovesOn self.now later.now }
        ensures { remaining result
            ≡ take (length (remaining self.now) - length (remaining later.now)) (remaining self.now) }
    {
        Cursor {
            source: self.source,
            from: self.from,
            to: later.from,
        }
    }

    // The next value, by the reading function.
    #[inline(always)]
    fn next_value(&mut self, tag: u8) -> Result<Cursor<'a>, DecodeError>
        ensures reads { TookBy remaining (value_at tag) self.old result self.new }
        ensures keeps { Keeps result self.old self.new }
        ensures inside { IfOk result (λ c. IsWithin c self.old) }
        ensures placed { IfOk result (λ c. EndsAt c self.new) }
        ensures octets { AreOctets (remaining self.old) }
    {
        let rest = self.rest();
        let (content, after) = value_of(tag, rest)?;
        let end = self.to - after.len();
        let inner = Cursor {
            source: self.source,
            from: end - content.len(),
            to: end,
        };
        self.from = end;
        Ok(inner)
    }

    /// Reads the next value, which must have this identifier octet (X.690 8.1, 10.1). Returns a
    /// cursor over its content.
    ///
    /// # Errors
    ///
    /// Returns one of these, and no other error:
    ///
    /// - `Truncated`: no byte remains, or the bytes end within the value.
    /// - `BadTag`: the value has another identifier octet, or the tag number is 31 or more (own).
    /// - `BadLength`: the length is not the shortest, is indefinite, or has more than four bytes.
    ///
    /// # Not checked
    ///
    /// The content.
    #[inline(always)]
    pub fn take_value(&mut self, tag: u8) -> Result<Cursor<'a>, DecodeError>
        ensures answers { AnswersBy remaining (any_octets tag) self.old result self.new }
        ensures inside { IfOk result (λ c. IsWithin c self.old) }
        ensures placed { IfOk result (λ c. EndsAt c self.new) }
    {
        self.next_value(tag)
    }

    /// Reads the next value if it has this identifier octet. Returns a cursor over its content, or
    /// `None` at the end and before another identifier octet.
    ///
    /// # Errors
    ///
    /// Returns an error as [`Cursor::take_value`] does, if the next identifier octet is this one.
    ///
    /// # Not checked
    ///
    /// The content.
    #[inline(always)]
    pub fn take_opt_value(&mut self, tag: u8) -> Result<Option<Cursor<'a>>, DecodeError>
        ensures answers { AnswersOptionalBy remaining tag (IsEnc tag) self.old result self.new }
        ensures reads { let reading = optional tag (value_at tag) in
            TookBy (option_map remaining) reading self.old result self.new }
        ensures keeps { Keeps result self.old self.new }
        ensures inside { IfOk result (λ o. IfSome o (λ c. IsWithin c self.old)) }
        ensures placed { IfOk result (λ o. IfSome o (λ c. EndsAt c self.new)) }
    {
        match self.rest() {
            [found, ..] if *found == tag => Ok(Some(self.take_value(tag)?)),
            _ => Ok(None),
        }
    }

    /// Reads the next value, which must be a SEQUENCE (X.690 8.9, 8.10). Returns a cursor over its
    /// content.
    ///
    /// # Errors
    ///
    /// Returns an error as [`Cursor::take_value`] does.
    ///
    /// # Not checked
    ///
    /// The content.
    #[inline(always)]
    pub fn take_sequence(&mut self) -> Result<Cursor<'a>, DecodeError>
        ensures answers { AnswersBy remaining (any_octets SEQUENCE) self.old result self.new }
        ensures inside { IfOk result (λ c. IsWithin c self.old) }
        ensures placed { IfOk result (λ c. EndsAt c self.new) }
    {
        self.take_value(tag::SEQUENCE)
    }

    /// Reads the next value if it is a SEQUENCE (X.690 8.9, 8.10). Returns a cursor over its
    /// content, or `None` at the end and before another identifier octet.
    ///
    /// # Errors
    ///
    /// Returns `Truncated` or `BadLength` as [`Cursor::take_value`] does.
    ///
    /// # Not checked
    ///
    /// The content.
    #[inline(always)]
    pub fn take_opt_sequence(&mut self) -> Result<Option<Cursor<'a>>, DecodeError>
        ensures answers { let encodes = IsEnc SEQUENCE in
            AnswersOptionalBy remaining SEQUENCE encodes self.old result self.new }
        ensures reads { let reading = optional SEQUENCE (value_at SEQUENCE) in
            TookBy (option_map remaining) reading self.old result self.new }
        ensures keeps { Keeps result self.old self.new }
        ensures inside { IfOk result (λ o. IfSome o (λ c. IsWithin c self.old)) }
        ensures placed { IfOk result (λ o. IfSome o (λ c. EndsAt c self.new)) }
    {
        self.take_opt_value(tag::SEQUENCE)
    }

    /// Keeps all remaining bytes, and moves the cursor to the end.
    ///
    /// # Errors
    ///
    /// Returns `Memory` if memory runs out, and no other error.
    ///
    /// # Not checked
    ///
    /// What the bytes encode.
    #[inline(always)]
    pub fn capture_rest(&mut self, _alloc: Global) -> Result<Piece, DecodeError>
        ensures ok { IfOk result (λ p. (p ≡ remaining self.old) × (remaining self.new ≡ [])) }
        ensures keeps { Keeps result self.old self.new }
        ensures memory { IfErr result (λ e. e ≡ Memory) }
    {
        let source = self.source.clone()?;
        let piece = Piece::of_span(source, self.from, self.to);
        self.from = self.to;
        Ok(piece)
    }
}
