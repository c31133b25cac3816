//! OCTET STRING and NULL.
ghost use Rattle.std.specs.Prelude.{IfOk};
ghost use Rattle.rpki_der.specs.Answers.{Answers, AnswersBy};
ghost use Rattle.rpki_der.specs.BasicFormats.{null_format, octet_string};
ghost use Rattle.rpki_der.specs.Place.{remaining, IsWithin, EndsAt, Keeps};
ghost use Rattle.rpki_der.specs.Place.Reading.{Took, TookBy};
ghost use Rattle.rpki_der.specs.Primitives.{IsNull};
ghost use Rattle.rpki_der.specs.Primitives.Reading.{octets_at, null_at};
ghost use Rattle.rpki_der.specs.Tags.{OCTET_STRING};
ghost use Rattle.rpki_der.specs.Values.{AreOctets, IsEnc};

use crate::cursor::Cursor;
use crate::error::DecodeError;
use crate::tag;

impl<'a> Cursor<'a> {
    /// Reads the next value, which must be an OCTET STRING (X.690 8.7). Returns a cursor over its
    /// octets.
    ///
    /// # Errors
    ///
    /// Returns an error as [`Cursor::take_value`] does.
    ///
    /// # Not checked
    ///
    /// The octets.
    #[inline(always)]
    pub fn take_octets(&mut self) -> Result<Cursor<'a>, DecodeError>
        ensures answers { AnswersBy remaining octet_string self.old result self.new }
        ensures inside { IfOk result (λ c. IsWithin c self.old) }
        ensures placed { IfOk result (λ c. EndsAt c self.new) }
    {
        self.take_value(tag::OCTET_STRING)
    }

    // The next NULL, by the reading function.
    #[tactic(auto, unfolding(crate::specs::Primitives::Reading::null_at))]
    #[inline(always)]
    fn next_null(&mut self) -> Result<(), DecodeError>
        ensures reads { Took null_at self.old result self.new }
        ensures keeps { Keeps result self.old self.new }
        ensures octets { AreOctets (remaining self.old) }
    {
        let mut ahead = self.fork();
        if !ahead.take_value(tag::NULL)?.is_empty() {
            return Err(DecodeError::BadValue);
        }
        *self = ahead;
        Ok(())
    }

    /// Reads the next value, which must be a NULL (X.690 8.8).
    ///
    /// # Errors
    ///
    /// Returns an error as [`Cursor::take_value`] does. Returns `BadValue` if the content is not
    /// empty.
    #[inline(always)]
    pub fn take_null(&mut self) -> Result<(), DecodeError>
        ensures { Answers null_format self.old result self.new }
    {
        self.next_null()
    }
}
