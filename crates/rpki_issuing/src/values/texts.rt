//! Values and their texts.
ghost use Rattle.std.specs.Prelude.{◌≡◌, ◌⊎◌, ℕ, List, Ok, IfOk, MatchOption};
ghost use Rattle.hex.specs.Hex.{decode_of};
ghost use Rattle.rpki_issuing.specs.OnlyValues.{FindsOnly};
ghost use Rattle.rpki_issuing.specs.ValueTexts.{IsAllowedSerial};

use bytes::Bytes;
use hex::FromHexError;
use rpki_der::Serial;
use rpki_parts::{Https, Rsync};
use std::alloc::{AllocError, Global};

/// A value that a text can have: a URI, or a serial number in hexadecimal digits.
pub trait Textual: Drop + Sized {
    ghost is_text: { Self → List ℕ → Type 0 };

    /// Parses a text. Returns its one value, or `None` if it has none.
    ///
    /// # Errors
    ///
    /// Returns an error if memory runs out.
    fn from_text(alloc: Global, text: &[u8]) -> Result<Option<Self>, AllocError>
        ensures { IfOk result (λ found. FindsOnly (λ v. is_text v text.now) found) };
}

impl Textual for Rsync {
    ghost use Rattle.rpki_issuing.specs.ValueTexts.{IsRsyncText};

    ghost is_text = { IsRsyncText };

    fn from_text(alloc: Global, text: &[u8]) -> Result<Option<Rsync>, AllocError> {
        let octets = Bytes::copy_from_slice(alloc, text)?;
        match Rsync::from_bytes(octets) {
            Ok(uri) => Ok(Some(uri)),
            Err(_) => Ok(None),
        }
    }
}

impl Textual for Https {
    ghost use Rattle.rpki_issuing.specs.ValueTexts.{IsHttpsText};

    ghost is_text = { IsHttpsText };

    fn from_text(alloc: Global, text: &[u8]) -> Result<Option<Https>, AllocError> {
        let octets = Bytes::copy_from_slice(alloc, text)?;
        match Https::from_bytes(octets) {
            Ok(uri) => Ok(Some(uri)),
            Err(_) => Ok(None),
        }
    }
}

// The octets of 2^159, the greatest first.
const LIMIT: [u8; 20] = [128, 0, 0, 0, 0, 0, 0, 0, 0, 0, 0, 0, 0, 0, 0, 0, 0, 0, 0, 0];

/// Returns the serial number with these bytes, the most significant one first, or `None` if no
/// certificate may have it: it has to be positive and below 2^159 (RFC 5280 4.1.2.2).
pub fn serial_of(octets: &[u8]) -> Option<Serial>
    ensures { FindsOnly (λ n. IsAllowedSerial n octets.now) result }
{
    let serial = Serial::from_slice(octets)?;
    let Some(limit) = Serial::from_slice(&LIMIT) else {
        unreachable!();
    };
    if serial == Serial::from(0u64) || serial >= limit {
        return None;
    }
    Some(serial)
}

// The octets that hexadecimal digits encode.
fn octets_of(alloc: Global, digits: &[u8]) -> Result<Option<Vec<u8>>, AllocError>
    ensures { IfOk result (λ found. MatchOption found
        ((octets : List ℕ) → decode_of digits.now ≡ Ok octets → ⊥)
        (λ octets. decode_of digits.now ≡ Ok octets.items)) }
{
    match hex::decode(alloc, digits) {
        Ok(octets) => Ok(Some(octets)),
        Err(error) => match error {
            FromHexError::OutOfMemory => Err(AllocError),
            _ => Ok(None),
        },
    }
}

impl Textual for Serial {
    ghost use Rattle.rpki_issuing.specs.ValueTexts.{IsSerialText};

    ghost is_text = { IsSerialText };

    fn from_text(alloc: Global, text: &[u8]) -> Result<Option<Serial>, AllocError> {
        let Some(octets) = octets_of(alloc, text)? else {
            return Ok(None);
        };
        let serial = serial_of(&octets);
        drop(octets);
        Ok(serial)
    }
}
