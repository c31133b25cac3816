//! BIT STRING.
ghost use Rattle.std.specs.Prelude.{◌≡◌, IfOk};
ghost use Rattle.rpki_der.specs.Place.{remaining, IsWithin, EndsAt, Keeps};
ghost use Rattle.rpki_der.specs.Answers.{AnswersBy};
ghost use Rattle.rpki_der.specs.BasicFormats.{bit_string};
ghost use Rattle.rpki_der.specs.Place.Reading.{TookBy};
ghost use Rattle.rpki_der.specs.Primitives.{IsBits};
ghost use Rattle.rpki_der.specs.Primitives.Reading.{has_zero_bits, bits_at};
ghost use Rattle.rpki_der.specs.Values.{AreOctets};

use crate::cursor::Cursor;
use crate::error::DecodeError;
use crate::tag;

// Whether as many bits as are unused are 0 at the end, and none are unused where there is no octet.
#[inline(always)]
fn has_zero_bits(unused: u8, octets: &[u8]) -> bool
    ensures { result ≡ has_zero_bits unused octets.now }
{
    match octets {
        [] => unused == 0,
        [.., last] => unused < 8 && *last % (1 << unused) == 0,
    }
}

impl<'a> Cursor<'a> {
    // The next BIT STRING, by the reading function.
    #[tactic(auto, unfolding(crate::specs::Primitives::Reading::bits_at))]
    #[inline(always)]
    fn next_bits(&mut self) -> Result<(u8, Cursor<'a>), DecodeError>
        ensures reads { TookBy (λ x. (x.0, remaining x.1)) bits_at self.old result self.new }
        ensures keeps { Keeps result self.old self.new }
        ensures inside { IfOk result (λ x. IsWithin x.1 self.old) }
        ensures placed { IfOk result (λ x. EndsAt x.1 self.new) }
        ensures octets { AreOctets (remaining self.old) }
    {
        let mut ahead = self.fork();
        let mut octets = ahead.take_value(tag::BIT_STRING)?;
        let unused = match octets.rest() {
            [unused, bits @ ..] if has_zero_bits(*unused, bits) => *unused,
            _ => return Err(DecodeError::BadValue),
        };
        octets.advance(1);
        *self = ahead;
        Ok((unused, octets))
    }

    /// Reads the next value, which must be a BIT STRING (X.690 8.6). Returns how many bits are
    /// unused at its end, from 0 to 7, and a cursor over its bytes. The unused bits are 0 (X.690
    /// 11.2.1).
    ///
    /// # Errors
    ///
    /// Returns an error as [`Cursor::take_value`] does. Returns `BadValue` if the content is empty,
    /// if more than 7 bits are unused, if bits are unused although there is no byte, or if an
    /// unused bit is 1.
    #[tactic(auto, using(crate::proofs::FormatAnswers::answers_lawful, crate::proofs::BasicFormats::bit_string_lawful))]
    #[inline(always)]
    pub fn take_bits(&mut self) -> Result<(u8, Cursor<'a>), DecodeError>
        ensures answers { AnswersBy (λ x. (x.0, remaining x.1)) bit_string self.old result self.new }
        ensures inside { IfOk result (λ x. IsWithin x.1 self.old) }
        ensures placed { IfOk result (λ x. EndsAt x.1 self.new) }
    {
        self.next_bits()
    }
}
