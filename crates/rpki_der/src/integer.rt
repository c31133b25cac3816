//! INTEGER of a number that is not negative.
ghost use Rattle.std.specs.Prelude.{◌≡◌, ◌^◌, ◌≤◌, ◌++◌, length, IfOk};
ghost use Rattle.std.specs.Int.Digits.{digits_of, number_from_digits};
ghost use Rattle.rpki_der.specs.Place.{remaining, IsWithin, Keeps};
ghost use Rattle.rpki_der.specs.Answers.{Answers, AnswersBy};
ghost use Rattle.rpki_der.specs.BasicFormats.{u32_format, unsigned_format};
ghost use Rattle.rpki_der.specs.Place.Reading.{Took, TookBy, Returns};
ghost use Rattle.rpki_der.specs.Primitives.{IsU32, IsUnsigned, unsigned};
ghost use Rattle.rpki_der.specs.Primitives.Reading.{is_unsigned, number_below, u32_at, unsigned_at};
ghost use Rattle.rpki_der.specs.Values.{AreOctets};

use crate::cursor::Cursor;
use crate::error::DecodeError;
use crate::tag;

// Whether these are the content of an INTEGER that is not negative.
#[inline(always)]
pub(crate) fn is_unsigned(content: &[u8]) -> bool
    ensures { result ≡ is_unsigned content.now }
{
    match content {
        [] | [0x80..=0xff, ..] | [0, 0..=0x7f, ..] => false,
        _ => true,
    }
}

// The number of a whole content, of whatever length.
fn long_u32_in(content: &[u8]) -> Result<u32, DecodeError>
    ensures { Returns result (number_below (2 ^ 32) content.now) }
{
    if !is_unsigned(content) {
        return Err(DecodeError::BadValue);
    }
    let mut number: u32 = 0;
    for octet in content {
        if number >= 0x100_0000 {
            return Err(DecodeError::BadValue);
        }
        number = number * 0x100 + *octet as u32;
    }
    Ok(number)
}

// The number of a whole content. The usual lengths are told apart before any loop.
#[inline(always)]
fn u32_in(content: &[u8]) -> Result<u32, DecodeError>
    ensures { Returns result (number_below (2 ^ 32) content.now) }
{
    if !is_unsigned(content) {
        return Err(DecodeError::BadValue);
    }
    match content {
        [a] => Ok(*a as u32),
        [a, b] => Ok(*a as u32 * 0x100 + *b as u32),
        [a, b, c] => Ok(*a as u32 * 0x1_0000 + *b as u32 * 0x100 + *c as u32),
        [a, b, c, d] => {
            let high = *a as u32 * 0x100_0000 + *b as u32 * 0x1_0000;
            Ok(high + *c as u32 * 0x100 + *d as u32)
        }
        _ => long_u32_in(content),
    }
}

// The octets without the zeros at their front.
#[inline(always)]
pub(crate) fn significant(octets: &[u8]) -> &[u8]
    ensures digits { result.now ≡ digits_of 256 (number_from_digits 256 octets.now) }
{
    let mut digits = octets;
    while let [0, rest @ ..] = digits {
        digits = rest;
    }
    digits
}

// What stands before these digits in the content of an INTEGER that is not negative.
pub(crate) fn sign(digits: &[u8]) -> &'static [u8]
    ensures content { result.now ++ digits.now ≡ unsigned digits.now }
    ensures short { length result.now ≤ 1 }
{
    match digits {
        [] | [0x80..=0xFF, ..] => &[0x00],
        _ => &[],
    }
}

impl<'a> Cursor<'a> {
    // The next INTEGER, by the reading function.
    #[tactic(auto, unfolding(crate::specs::Primitives::Reading::u32_at))]
    #[inline(always)]
    fn next_u32(&mut self) -> Result<u32, DecodeError>
        ensures reads { Took u32_at self.old result self.new }
        ensures keeps { Keeps result self.old self.new }
        ensures octets { AreOctets (remaining self.old) }
    {
        let mut ahead = self.fork();
        let content = ahead.take_value(tag::INTEGER)?;
        let number = u32_in(content.rest())?;
        *self = ahead;
        Ok(number)
    }

    /// Reads the next value, which must be an INTEGER from 0 to 2^32 - 1 (X.690 8.3).
    ///
    /// # Errors
    ///
    /// Returns an error as [`Cursor::take_value`] does. Returns `BadValue` if the content is empty
    /// or not the shortest, or if the number is negative or 2^32 or more.
    #[inline(always)]
    pub fn take_u32(&mut self) -> Result<u32, DecodeError>
        ensures { Answers u32_format self.old result self.new }
    {
        self.next_u32()
    }

    // The content of the next INTEGER, by the reading function.
    #[tactic(auto, unfolding(crate::specs::Primitives::Reading::unsigned_at))]
    fn next_unsigned(&mut self) -> Result<Cursor<'a>, DecodeError>
        ensures reads { TookBy remaining unsigned_at self.old result self.new }
        ensures keeps { Keeps result self.old self.new }
        ensures inside { IfOk result (λ c. IsWithin c self.old) }
        ensures octets { AreOctets (remaining self.old) }
    {
        let mut ahead = self.fork();
        let content = ahead.take_value(tag::INTEGER)?;
        if !is_unsigned(content.rest()) {
            return Err(DecodeError::BadValue);
        }
        *self = ahead;
        Ok(content)
    }

    /// Reads the next value, which must be an INTEGER that is not negative, of any size (X.690
    /// 8.3). Returns a cursor over its content: the bytes of the number, the most significant
    /// first.
    ///
    /// # Errors
    ///
    /// Returns an error as [`Cursor::take_value`] does. Returns `BadValue` if the content is empty
    /// or not the shortest, or if the number is negative.
    #[tactic(auto, using(crate::proofs::FormatAnswers::answers_lawful, crate::proofs::BasicFormats::unsigned_lawful))]
    pub fn take_unsigned(&mut self) -> Result<Cursor<'a>, DecodeError>
        ensures answers { AnswersBy remaining unsigned_format self.old result self.new }
        ensures inside { IfOk result (λ c. IsWithin c self.old) }
    {
        self.next_unsigned()
    }
}
