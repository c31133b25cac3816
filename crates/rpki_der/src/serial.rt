//! Serial numbers.
ghost use Rattle.std.specs.Prelude.{◌≡◌, ◌↔◌, ◌+◌, ◌*◌, ◌^◌, ◌<◌, ◌++◌, ℕ, OnOk, OnErr, IsSome, IfSome, IfErr, Some, nat_eq};
ghost use Rattle.std.specs.Ordering.{nat_cmp};
ghost use Rattle.std.specs.Int.Digits.{digits_of, number_from_digits};
ghost use Rattle.std.proofs.Common.{rules};
ghost use Rattle.std.specs.Cmp.Rules.{comparing};
ghost use Rattle.rpki_der.specs.Place.{remaining, Keeps};
ghost use Rattle.rpki_der.specs.Answers.{Answers};
ghost use Rattle.rpki_der.specs.BasicFormats.{serial_format};
ghost use Rattle.rpki_der.specs.Place.Reading.{Took, Returns};
ghost use Rattle.rpki_der.specs.Values.{AreOctets};
ghost use Rattle.rpki_der.specs.Serials.{IsSerial};
ghost use Rattle.rpki_der.specs.Texts.{serial_text, at_least_one};
ghost use Rattle.rpki_der.specs.Primitives.{number};
ghost use Rattle.rpki_der.specs.Serials.Reading.{serial_of, serial_at};
ghost use Rattle.rpki_der.specs.Primitives.Reading.{is_unsigned};
ghost use Rattle.rpki_der.specs.declared.error.EncodeError.TheVariants.{Memory};

use crate::cursor::Cursor;
use crate::error::{DecodeError, EncodeError};
use crate::integer::{is_unsigned, significant};
use crate::put::put_unsigned;
use crate::tag;
use crate::text::write_hexadecimal;
use std::alloc::Global;
use std::cmp::Ordering;
use std::fmt;
use std::marker::Model;

/// A serial number: a whole number below 2^160 (RFC 5280 4.1.2.2). It may be 0, or a number from
/// 2^159 on, whose INTEGER has 21 bytes of content (own).
#[derive(Clone, Copy, Hash)]
pub struct Serial {
    high: u32,
    low: u128,
}

impl Model for Serial {
    ghost use Rattle.std.specs.Prelude.{ℕ, ◌+◌, ◌*◌, ◌/◌, ◌%◌, ◌^◌, ◌<◌};
    ghost use Rattle.rpki_der.specs.Serials.Views.{high_half, low_half};

    ghost Value = { ℕ };

    ghost view = { λ s. s.high * 2 ^ 128 + s.low };

    ghost invariant = { λ s. s.low < 2 ^ 128 };

    ghost inverse = { λ n. record { high = n / 2 ^ 128; low = n % 2 ^ 128 } };

    ghost inverse_ok = { λ a h. λ i. record { high = high_half a.high a.low h i; low = low_half a.high a.low h i } };
}

impl From<u64> for Serial {
    ghost from_gives = { λ n s. s ≡ n };

    fn from(n: u64) -> Serial {
        Serial {
            high: 0,
            low: n as u128,
        }
    }
}

impl From<u128> for Serial {
    ghost from_gives = { λ n s. s ≡ n };

    fn from(low: u128) -> Serial {
        Serial { high: 0, low }
    }
}

impl Serial {
    /// Returns the number with these bytes, the most significant first, or `None` if it is 2^160 or
    /// more. Leading zeros are allowed. An empty slice is the number 0.
    #[inline(always)]
    pub fn from_slice(octets: &[u8]) -> Option<Serial>
        ensures some { IsSome result ↔ (number_from_digits 256 octets.now < 2 ^ 160) }
        ensures value { IfSome result (λ s. s ≡ number_from_digits 256 octets.now) }
    {
        let digits = significant(octets);
        if digits.len() > 20 {
            return None;
        }
        let mut padded = [0; 20];
        padded[20 - digits.len()..].copy_from_slice(digits);
        Some(Serial::of_octets(&padded))
    }

    // The number of these octets, the greatest first.
    #[inline(always)]
    fn of_octets(octets: &[u8; 20]) -> Serial
        ensures { result ≡ number_from_digits 256 octets.now }
    {
        let mut high = [0; 4];
        let mut low = [0; 16];
        high.copy_from_slice(&octets[..4]);
        low.copy_from_slice(&octets[4..]);
        Serial {
            high: u32::from_be_bytes(high),
            low: u128::from_be_bytes(low),
        }
    }

    /// Returns the number in 20 bytes, the most significant first.
    pub fn octets(&self) -> [u8; 20]
        ensures number { number_from_digits 256 result ≡ self.now }
        ensures below { self.now < 2 ^ 160 }
    {
        let mut octets = [0; 20];
        octets[..4].copy_from_slice(&self.high.to_be_bytes());
        octets[4..].copy_from_slice(&self.low.to_be_bytes());
        octets
    }

    /// Appends the number as the shortest INTEGER (X.690 8.3).
    ///
    /// # Errors
    ///
    /// Returns `Memory` if memory runs out, and no other error. After an error `out` is unchanged.
    pub fn encode(&self, _alloc: Global, out: &mut Vec<u8>) -> Result<(), EncodeError>
        ensures ok { OnOk result (out.new.items ≡ out.old.items ++ number self.now) }
        ensures err { OnErr result (out.new.items ≡ out.old.items) }
        ensures memory { IfErr result (λ e. e ≡ Memory) }
        ensures below { self.now < 2 ^ 160 }
    {
        put_unsigned(out, &self.octets())
    }

    // The serial that stands next, by the reading function.
    #[tactic(auto, unfolding(crate::specs::Serials::Reading::serial_at))]
    #[inline(always)]
    fn take_number(cursor: &mut Cursor<'_>) -> Result<Serial, DecodeError>
        ensures reads { Took serial_at cursor.old result cursor.new }
        ensures keeps { Keeps result cursor.old cursor.new }
        ensures octets { AreOctets (remaining cursor.old) }
    {
        let mut ahead = cursor.fork();
        let content = ahead.take_value(tag::INTEGER)?;
        let serial = serial_in(content.rest())?;
        *cursor = ahead;
        Ok(serial)
    }

    /// Reads the next value, which must be an INTEGER from 0 to 2^160 - 1 (RFC 5280 4.1.2.2).
    ///
    /// # Errors
    ///
    /// Returns an error as [`Cursor::take_value`] does. Returns `BadValue` if the content is empty
    /// or not the shortest, or if the number is negative or 2^160 or more.
    #[inline(always)]
    pub fn take_from(cursor: &mut Cursor<'_>) -> Result<Serial, DecodeError>
        ensures { Answers serial_format cursor.old result cursor.new }
    {
        Serial::take_number(cursor)
    }
}

// The serial of a whole content.
#[inline(always)]
fn serial_in(content: &[u8]) -> Result<Serial, DecodeError>
    ensures { Returns result (serial_of content.now) }
{
    if !is_unsigned(content) {
        return Err(DecodeError::BadValue);
    }
    match Serial::from_slice(content) {
        Some(serial) => Ok(serial),
        None => Err(DecodeError::BadValue),
    }
}

// The octets that count, at least one.
fn shown(octets: &[u8]) -> &[u8]
    ensures { result.now ≡ at_least_one (digits_of 256 (number_from_digits 256 octets.now)) }
{
    let digits = significant(octets);
    if digits.is_empty() { &[0] } else { digits }
}

/// Prints the bytes of the number without leading zeros, at least one, in upper-case hexadecimal
/// digits, as `01F4`.
impl fmt::Display for Serial {
    ghost output = { λ n. Some (serial_text n) };

    fn fmt<W: fmt::Write>(&self, f: &mut fmt::Formatter<W>) -> fmt::Result {
        write_hexadecimal(f, shown(&self.octets()))
    }
}

impl PartialEq for Serial {
    ghost eq = { nat_eq };

    ghost laws = { Prim.search (comparing, rules) };

    fn eq(&self, other: &Serial) -> bool {
        self.high == other.high && self.low == other.low
    }
}

impl Eq for Serial {
    ghost laws = { Prim.search (comparing, rules) };
}

impl PartialOrd for Serial {
    ghost partial_cmp = { λ x y. Some (nat_cmp x y) };

    ghost laws = { Prim.search (comparing, rules) };

    fn partial_cmp(&self, other: &Serial) -> Option<Ordering> {
        Some(self.cmp(other))
    }
}

impl Ord for Serial {
    ghost cmp = { nat_cmp };

    ghost total = { Prim.search (comparing, rules) };

    ghost matches_partial_cmp = { Prim.search (comparing, rules) };

    ghost matches_eq = { Prim.search (comparing, rules) };

    fn cmp(&self, other: &Serial) -> Ordering {
        if self.high == other.high {
            self.low.cmp(&other.low)
        } else {
            self.high.cmp(&other.high)
        }
    }
}
