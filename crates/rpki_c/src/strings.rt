//! Strings of bytes, one after the other.
ghost use Rattle.std.specs.Prelude.{◌≡◌, ◌↔◌, length, sum, IsSome, IfOk, IfSome};
ghost use Rattle.rpki_c.specs.Strings.{AreCut};

use bytes::Bytes;
use std::alloc::{AllocError, Global};

/// Bytes of strings, one after the other, and the length of each string.
#[repr(C)]
#[derive(Clone, Copy)]
pub struct RpkiStrings<'c> {
    pub octets: &'c [u8],
    pub lengths: &'c [usize],
}

/// Cuts bytes into the strings of these lengths, one after the other. Returns `None` if the bytes
/// are fewer or more than the lengths' sum.
pub(crate) fn cut(
    alloc: Global,
    octets: &[u8],
    lengths: &[usize],
) -> Result<Option<Vec<Bytes>>, AllocError>
    ensures some { IfOk result (λ it. IsSome it ↔ (sum lengths.now ≡ length octets.now)) }
    ensures strings { IfOk result (λ it.
        IfSome it (λ strings. AreCut octets.now lengths.now strings.items)) }
{
    let mut strings = Vec::new(alloc);
    let mut rest = octets;
    for length in lengths {
        let Some((string, after)) = rest.split_at_checked(*length) else {
            return Ok(None);
        };
        let string = Bytes::copy_from_slice(alloc, string)?;
        strings.push(string)?;
        rest = after;
    }
    if !rest.is_empty() {
        return Ok(None);
    }
    Ok(Some(strings))
}
