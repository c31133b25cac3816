//! Base64 digits on several lines.
ghost use Rattle.std.specs.Prelude.{◌≡◌, ◌≢◌, ◌++◌, List, ℕ, IfOk, OnOk, OnErr, MatchOption};
ghost use Rattle.base64.specs.GeneralPurpose.{IsBytes};
ghost use Rattle.rpki_keys.specs.Digits.{base64_of, without_white_space};

use base64::DecodeAllocError;
use base64::engine::general_purpose::STANDARD;
use std::alloc::{AllocError, Global};

/// Appends a line without its white space.
///
/// # Errors
///
/// Returns an error if memory runs out. Then nothing is appended.
///
/// # Not checked
///
/// Whether what is appended are digits of base64 ([`octets_of`] checks it).
pub fn push_digits(digits: &mut Vec<u8>, line: &[u8]) -> Result<(), AllocError>
    ensures ok { OnOk result (digits.new.items ≡ digits.old.items ++ without_white_space line.now) }
    ensures err { OnErr result (digits.new.items ≡ digits.old.items) }
{
    let before = digits.len();
    for octet in line {
        if !octet.is_ascii_whitespace() && digits.push(*octet).is_err() {
            digits.truncate(before);
            return Err(AllocError);
        }
    }
    Ok(())
}

/// Decodes digits of base64 (RFC 4648 4), with padding, whose unused bits have to be 0 (RFC 4648
/// 3.5). Returns `None` if they encode no bytes.
///
/// # Errors
///
/// Returns an error if memory runs out.
pub fn octets_of(alloc: Global, digits: &[u8]) -> Result<Option<Vec<u8>>, AllocError>
    ensures found { IfOk result (λ found. MatchOption found
        ((octets : List ℕ) → IsBytes octets → digits.now ≢ base64_of octets)
        (λ octets. IsBytes octets.items × (digits.now ≡ base64_of octets.items))) }
    ensures only { IfOk result (λ found. MatchOption found Unit
        (λ octets. (others : List ℕ) → IsBytes others → digits.now ≡ base64_of others
        → others ≡ octets.items)) }
{
    match STANDARD.decode(alloc, digits) {
        Ok(octets) => Ok(Some(octets)),
        Err(DecodeAllocError::DecodeError(_)) => Ok(None),
        Err(DecodeAllocError::OutOfMemory) => Err(AllocError),
    }
}
