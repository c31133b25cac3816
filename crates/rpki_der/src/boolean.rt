//! BOOLEAN.
ghost use Rattle.std.specs.Prelude.{Ok};
ghost use Rattle.rpki_der.specs.Place.{remaining, Keeps};
ghost use Rattle.rpki_der.specs.Answers.{AnswersOrAbsent};
ghost use Rattle.rpki_der.specs.BasicFormats.{boolean_default_false};
ghost use Rattle.rpki_der.specs.Place.Reading.{Took, Returns};
ghost use Rattle.rpki_der.specs.Primitives.{IsBoolOrFalse};
ghost use Rattle.rpki_der.specs.Primitives.Reading.{bool_or_false_at, bool_of, bool_at};
ghost use Rattle.rpki_der.specs.Tags.{BOOLEAN};
ghost use Rattle.rpki_der.specs.Values.{AreOctets};

use crate::cursor::Cursor;
use crate::error::DecodeError;
use crate::tag;

// The value of a whole content.
#[inline(always)]
fn bool_in(content: &[u8]) -> Result<bool, DecodeError>
    ensures { Returns result (bool_of content.now) }
{
    match content {
        [0xFF] => Ok(true),
        [0x00] => Ok(false),
        _ => Err(DecodeError::BadValue),
    }
}

impl<'a> Cursor<'a> {
    // The next BOOLEAN.
    #[tactic(auto, unfolding(crate::specs::Primitives::Reading::bool_at))]
    #[inline(always)]
    fn next_bool(&mut self) -> Result<bool, DecodeError>
        ensures reads { Took bool_at self.old result self.new }
        ensures keeps { Keeps result self.old self.new }
    {
        let mut ahead = self.fork();
        let content = ahead.take_value(tag::BOOLEAN)?;
        let value = bool_in(content.rest())?;
        *self = ahead;
        Ok(value)
    }

    // The next BOOLEAN, if one stands next, by the reading function.
    #[tactic(auto, unfolding(crate::specs::Primitives::Reading::bool_or_false_at))]
    #[inline(always)]
    fn next_bool_or_false(&mut self) -> Result<bool, DecodeError>
        ensures reads { Took bool_or_false_at self.old result self.new }
        ensures keeps { Keeps result self.old self.new }
        ensures octets { AreOctets (remaining self.old) }
    {
        match self.fork().rest() {
            [tag::BOOLEAN, ..] => self.next_bool(),
            _ => Ok(false),
        }
    }

    /// Reads the next value if it is a BOOLEAN (X.690 8.2, 11.1). Returns false at the end and
    /// before another identifier octet. Accepts an explicit false (own).
    ///
    /// # Errors
    ///
    /// Returns `Truncated` or `BadLength` as [`Cursor::take_value`] does. Returns `BadValue` if the
    /// content is neither `00` nor `FF`.
    #[inline(always)]
    pub fn take_bool_or_false(&mut self) -> Result<bool, DecodeError>
        ensures { AnswersOrAbsent BOOLEAN boolean_default_false self.old result self.new }
    {
        self.next_bool_or_false()
    }
}
