//! Values of any kind: skipped, or kept whole.
ghost use Rattle.std.specs.Prelude.{◌≡◌, ◌↔◌, [], IsOk, OnOk};
ghost use Rattle.rpki_der.specs.Place.{remaining, Keeps};
ghost use Rattle.rpki_der.specs.Answers.{Answers, AnswersOrMemory};
ghost use Rattle.rpki_der.specs.BasicFormats.{any_value, skippable_value};
ghost use Rattle.rpki_der.specs.Place.Reading.{Took, TookBy, TookOrMemory, Returns};
ghost use Rattle.rpki_der.specs.Skipping.{IsSkipped, IsSkippableSequence, IsCaptured};
ghost use Rattle.rpki_der.specs.Skipping.Reading.{any_at, captured_at, skip_within, skip_sequence_within, skip_at, skip_all_of};
ghost use Rattle.rpki_der.specs.Values.{AreOctets};

use crate::cursor::Cursor;
use crate::error::DecodeError;
use crate::piece::Piece;
use std::alloc::Global;

// How many constructed values may stand one inside the other, the skipped one counted as the first
// (own).
const LEVELS: u8 = 32;

impl<'a> Cursor<'a> {
    // The identifier octet and the content of the next value.
    #[inline(always)]
    fn next_any(&mut self) -> Result<(u8, Cursor<'a>), DecodeError>
        ensures reads { TookBy (λ x. (x.0, remaining x.1)) any_at self.old result self.new }
        ensures keeps { Keeps result self.old self.new }
        ensures octets { AreOctets (remaining self.old) }
    {
        let octets = self.fork().rest();
        match octets {
            [] => Err(DecodeError::Truncated),
            [tag, ..] => Ok((*tag, self.take_value(*tag)?)),
        }
    }

    // Past the next value, with at most so many levels.
    #[cycle(skipping)]
    fn skip_within(&mut self, levels: u8) -> Result<(), DecodeError>
        ensures reads { Took (skip_within levels) self.old result self.new }
        ensures keeps { Keeps result self.old self.new }
    {
        let mut ahead = self.fork();
        let (tag, content) = ahead.next_any()?;
        if tag / 0x20 % 2 == 1 {
            if levels == 0 {
                return Err(DecodeError::TooDeep);
            }
            content.skip_sequence_within(levels - 1)?;
        }
        *self = ahead;
        Ok(())
    }

    // Passes over all remaining values, each with at most so many levels.
    #[cycle(skipping)]
    fn skip_sequence_within(mut self, levels: u8) -> Result<(), DecodeError>
        ensures { Returns result (skip_sequence_within levels (remaining self.entry)) }
    {
        while !self.is_empty() {
            self.skip_within(levels)?;
        }
        Ok(())
    }

    // Past the next value, by the reading function.
    #[tactic(auto, unfolding(crate::specs::Skipping::Reading::skip_at))]
    fn next_skippable(&mut self) -> Result<(), DecodeError>
        ensures reads { Took skip_at self.old result self.new }
        ensures keeps { Keeps result self.old self.new }
        ensures octets { AreOctets (remaining self.old) }
    {
        // For the proof only: the remaining octets are octets.
        let _here = self.fork();
        self.skip_within(LEVELS)
    }

    /// Skips one well-formed value (X.690 8.1, 10.1). Constructed values in it may be nested 32
    /// deep, this value counted as the first (own). Allocates nothing.
    ///
    /// # Errors
    ///
    /// Returns one of these, and no other error:
    ///
    /// - `Truncated`: no byte remains, or the bytes end within a value.
    /// - `BadTag`: a tag number is 31 or more (own).
    /// - `BadLength`: a length is not the shortest, is indefinite, or has more than four bytes.
    /// - `TooDeep`: a constructed value is nested deeper than the limit.
    ///
    /// # Not checked
    ///
    /// The contents of primitive values, and the types of all values.
    pub fn skip_one(&mut self) -> Result<(), DecodeError>
        ensures { Answers skippable_value self.old result self.new }
    {
        self.next_skippable()
    }

    // Passes over all remaining values, by the reading function.
    #[tactic(auto, unfolding(crate::specs::Skipping::Reading::skip_at, crate::specs::Skipping::Reading::skip_all_of))]
    fn rest_skippable(&mut self) -> Result<(), DecodeError>
        ensures reads { Returns result (skip_all_of (remaining self.old)) }
        ensures end { OnOk result (remaining self.new ≡ []) }
        ensures keeps { Keeps result self.old self.new }
        ensures octets { AreOctets (remaining self.old) }
    {
        self.fork().skip_sequence_within(LEVELS)?;
        self.advance(self.rest().len());
        Ok(())
    }

    /// Skips all remaining values, each as [`Cursor::skip_one`] does, and moves the cursor to the
    /// end. Allocates nothing.
    ///
    /// # Errors
    ///
    /// Returns the error of [`Cursor::skip_one`] for the first value that has one. The cursor is
    /// then unchanged.
    ///
    /// # Not checked
    ///
    /// The contents of primitive values, and the types of all values.
    pub fn skip_all(&mut self) -> Result<(), DecodeError>
        ensures skippable { IsOk result ↔ IsSkippableSequence (remaining self.old) }
        ensures reads { Returns result (skip_all_of (remaining self.old)) }
        ensures end { OnOk result (remaining self.new ≡ []) }
        ensures keeps { Keeps result self.old self.new }
    {
        self.rest_skippable()
    }

    // The octets of the next value, by the reading function.
    #[tactic(auto, unfolding(crate::specs::Skipping::Reading::captured_at))]
    #[inline(always)]
    fn next_captured(&mut self, alloc: Global) -> Result<Piece, DecodeError>
        ensures reads { TookOrMemory captured_at self.old result self.new }
        ensures keeps { Keeps result self.old self.new }
        ensures octets { AreOctets (remaining self.old) }
    {
        let mut ahead = self.fork();
        ahead.next_any()?;
        let octets = self.until(&ahead).capture_rest(alloc)?;
        *self = ahead;
        Ok(octets)
    }

    /// Keeps the next value whole, with any identifier octet (X.690 8.1, 10.1).
    ///
    /// # Errors
    ///
    /// Returns `Truncated`, `BadTag` or `BadLength` as [`Cursor::skip_one`] does, for the value
    /// itself. Returns `Memory` if memory runs out.
    ///
    /// # Not checked
    ///
    /// The content.
    #[inline(always)]
    pub fn capture_one(&mut self, alloc: Global) -> Result<Piece, DecodeError>
        ensures { AnswersOrMemory any_value self.old result self.new }
    {
        self.next_captured(alloc)
    }
}
