//! RSAPublicKeys of any size (RFC 8017 A.1.1).
ghost use Rattle.std.specs.Prelude.{◌≡◌, ◌%◌, ◌^◌, ◌<◌, ◌↔◌, IsTrue, length};
ghost use Rattle.std.specs.Int.Digits.{number_from_digits};
ghost use Rattle.rpki_der.specs.Place.{remaining};
ghost use Rattle.rpki_der.specs.Place.Reading.{ReturnsBy};
ghost use Rattle.rpki_der.specs.Primitives.{IsInteger};
ghost use Rattle.rpki_der.specs.Values.{AreOctets};
ghost use Rattle.rpki_keys.specs.KeyForms.{HasBits, IsExponent, AreRsaOf};
ghost use Rattle.rpki_keys.specs.RsaNumbers.{rsa_numbers_of};

use crate::form::KeyForm;
use rpki_der::{Cursor, DecodeError};

// The contents of the modulus and of the exponent.
#[tactic(auto, unfolding(crate::specs::RsaNumbers::rsa_numbers_of))]
fn numbers<'a>(bits: &Cursor<'a>) -> Result<(Cursor<'a>, Cursor<'a>), DecodeError>
    ensures reads { let numbers = rsa_numbers_of (remaining bits.now) in
        ReturnsBy (λ x. (remaining x.0, remaining x.1)) result numbers }
    ensures octets { AreOctets (remaining bits.now) }
{
    let mut ahead = bits.fork();
    let mut content = ahead.take_sequence()?;
    let modulus = content.take_unsigned()?;
    let exponent = content.take_unsigned()?;
    content.finish()?;
    ahead.finish()?;
    Ok((modulus, exponent))
}

// Whether the number of these octets is odd.
fn is_odd(octets: &[u8]) -> bool
    requires { 0 < length octets.now }
    ensures { IsTrue result ↔ number_from_digits 256 octets.now % 2 ≡ 1 }
{
    octets[octets.len() - 1] % 2 == 1
}

// How many binary digits the number of an INTEGER's content has, which isn't 0.
fn bit_count(content: &[u8]) -> u64
    requires shortest { IsInteger content.now }
    requires short { length content.now < 2 ^ 32 }
    requires positive { 0 < number_from_digits 256 content.now }
    ensures { HasBits (number_from_digits 256 content.now) result }
{
    let rest = 8 * (content.len() as u64 - 1);
    if content[0] == 0 {
        rest
    } else {
        rest + content[0].ilog2() as u64 + 1
    }
}

// The number of these octets, where it is below 2^64.
fn small_number(octets: &[u8]) -> Option<u64>
    ensures { IsExponent (number_from_digits 256 octets.now) result }
{
    let mut number: u64 = 0;
    for octet in octets {
        if number >= 0x100_0000_0000_0000 {
            return None;
        }
        number = number * 0x100 + *octet as u64;
    }
    Some(number)
}

// What the bits of an RSA key are.
pub(crate) fn rsa_form(bits: &Cursor<'_>) -> KeyForm
    ensures { AreRsaOf result (remaining bits.now) }
{
    let Ok((modulus, exponent)) = numbers(bits) else {
        return KeyForm::NoRsaKey;
    };
    let modulus = modulus.rest();
    if is_odd(modulus) {
        KeyForm::RsaKey {
            bits: bit_count(modulus),
            exponent: small_number(exponent.rest()),
        }
    } else {
        KeyForm::EvenModulus
    }
}
