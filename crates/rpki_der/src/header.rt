//! Identifier and length octets.
ghost use Rattle.std.specs.Prelude.{◌+◌, ◌<◌, length, Ok, IfOk};
ghost use Rattle.rpki_der.specs.Place.Reading.{ReturnsBy};
ghost use Rattle.rpki_der.specs.Values.Reading.{length_at, value_at};

use crate::error::DecodeError;

/// Reads the length at the front. Returns it and what follows it.
#[inline(always)]
fn length_of(bytes: &[u8]) -> Result<(usize, &[u8]), DecodeError>
    ensures { ReturnsBy (λ x. (x.0, x.1.now)) result (length_at bytes.now) }
{
    match bytes {
        [] => Err(DecodeError::Truncated),
        [short, rest @ ..] if *short < 0x80 => Ok((*short as usize, rest)),
        [0x81, a, rest @ ..] => {
            let len = *a as usize;
            if len < 0x80 {
                return Err(DecodeError::BadLength);
            }
            Ok((len, rest))
        }
        [0x82, a, b, rest @ ..] => {
            let len = *a as usize * 0x100 + *b as usize;
            if len < 0x100 {
                return Err(DecodeError::BadLength);
            }
            Ok((len, rest))
        }
        [0x83, a, b, c, rest @ ..] => {
            let len = *a as usize * 0x1_0000 + *b as usize * 0x100 + *c as usize;
            if len < 0x1_0000 {
                return Err(DecodeError::BadLength);
            }
            Ok((len, rest))
        }
        [0x84, a, b, c, d, rest @ ..] => {
            let len = *a as usize * 0x100_0000
                + *b as usize * 0x1_0000
                + *c as usize * 0x100
                + *d as usize;
            if len < 0x100_0000 {
                return Err(DecodeError::BadLength);
            }
            Ok((len, rest))
        }
        [0x81..=0x84, ..] => Err(DecodeError::Truncated),
        [_, ..] => Err(DecodeError::BadLength),
    }
}

/// Reads the value at the front, if it has this tag. Returns its content and what follows it. Most
/// lengths take one octet, so that form comes first, and behind it the compiler knows the form.
#[tactic(auto, unfolding(crate::specs::Values::Reading::value_at))]
#[inline(always)]
pub fn value_of(tag: u8, bytes: &[u8]) -> Result<(&[u8], &[u8]), DecodeError>
    ensures reads { ReturnsBy (λ x. (x.0.now, x.1.now)) result (value_at tag bytes.now) }
    ensures shorter { IfOk result (λ x. length x.0.now + length x.1.now < length bytes.now) }
{
    let [found, rest @ ..] = bytes else {
        return Err(DecodeError::Truncated);
    };
    if *found != tag || tag % 32 == 31 {
        return Err(DecodeError::BadTag);
    }
    if let [short @ 0..=0x7F, rest @ ..] = rest {
        let len = *short as usize;
        if rest.len() < len {
            return Err(DecodeError::Truncated);
        }
        return Ok(rest.split_at(len));
    }
    let (len, rest) = length_of(rest)?;
    if rest.len() < len {
        return Err(DecodeError::Truncated);
    }
    Ok(rest.split_at(len))
}
