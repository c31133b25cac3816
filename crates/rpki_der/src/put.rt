//! Values appended to vectors.
ghost use Rattle.std.specs.Prelude.{◌≡◌, ◌+◌, ◌%◌, ◌^◌, ◌<◌, ◌≤◌, ◌↔◌, [], ◌∷◌, ◌++◌, length, take, drop, slice_range, OnOk, OnErr, IfErr, IsErrOf};
ghost use Rattle.std.specs.Int.Digits.{number_from_digits};
ghost use Rattle.rpki_der.specs.Primitives.{IsOid, boolean};
ghost use Rattle.rpki_der.specs.Tags.{BIT_STRING, OBJECT_IDENTIFIER};
ghost use Rattle.rpki_der.specs.Values.{length_octets, enc};
ghost use Rattle.rpki_der.specs.Writers.{Ends, WritesOrTooLong, value, number_part};

use crate::error::EncodeError;
use crate::integer::{sign, significant};
use crate::tag;
use std::alloc::AllocError;

/// The greatest length of a content, in bytes: 2^32 - 1 (own).
pub const MAX_LEN: usize = 0xFFFF_FFFF;

// The identifier octet and the shortest length octets.
#[inline(always)]
pub(crate) fn put_head(out: &mut Vec<u8>, tag: u8, len: u32) -> Result<(), AllocError>
    ensures ok { OnOk result (out.new.items ≡ out.old.items ++ (tag ∷ length_octets len)) }
    ensures err { OnErr result (out.new.items ≡ out.old.items) }
{
    let [a, b, c, d] = len.to_be_bytes();
    if len < 0x80 {
        out.extend_from_slice(&[tag, d])
    } else if len < 0x100 {
        out.extend_from_slice(&[tag, 0x81, d])
    } else if len < 0x1_0000 {
        out.extend_from_slice(&[tag, 0x82, c, d])
    } else if len < 0x100_0000 {
        out.extend_from_slice(&[tag, 0x83, b, c, d])
    } else {
        out.extend_from_slice(&[tag, 0x84, a, b, c, d])
    }
}

// The value whose content is the head and the tail, or a part of it where memory runs out.
#[tactic(auto, unfolding(crate::specs::Values::enc))]
#[inline(always)]
pub(crate) fn append_value(
    out: &mut Vec<u8>,
    tag: u8,
    head: &[u8],
    tail: &[u8],
) -> Result<(), AllocError>
    requires { length (head.now ++ tail.now) < 2 ^ 32 }
    ensures ok { OnOk result (out.new.items ≡ out.old.items ++ enc tag (head.now ++ tail.now)) }
    ensures err { OnErr result (take (length out.old.items) out.new.items ≡ out.old.items) }
{
    put_head(out, tag, (head.len() + tail.len()) as u32)?;
    out.extend_from_slice(head)?;
    out.extend_from_slice(tail)
}

// Up to so many octets are brought forward without `rotate_left`, which zeroes 4 KiB at each call.
// Nearly every head is that short.
const FEW: usize = 32;

// Puts what stands behind the first `end` octets before what stands from `start` to there.
pub(crate) fn bring_forward(out: &mut Vec<u8>, start: usize, end: usize)
    requires order { start ≤ end }
    requires within { end ≤ length out.old.items }
    ensures { out.new.items ≡ take start out.old.items
        ++ (drop end out.old.items ++ slice_range out.old.items start end) }
{
    let len = out.len() - end;
    if len > FEW {
        out[start..].rotate_left(end - start);
    } else if len == 2 {
        let mut head = [0; 2];
        head.copy_from_slice(&out[end..]);
        out.copy_within(start..end, start + 2);
        out[start..start + 2].copy_from_slice(&head);
    } else {
        let mut head = [0; FEW];
        head[..len].copy_from_slice(&out[end..]);
        out.copy_within(start..end, start + len);
        out[start..start + len].copy_from_slice(&head[..len]);
    }
}

/// Makes the bytes after the first `start` the content of a value with this identifier octet (X.690
/// 8.1, 10.1). The tag number must be below 31.
///
/// # Errors
///
/// Returns `TooLong` if and only if the content has 2^32 bytes or more. Returns `Memory` if memory
/// runs out. After an error `out` is unchanged.
///
/// # Not checked
///
/// The content.
#[tactic(auto, unfolding(crate::specs::Values::enc))]
pub fn enclose(out: &mut Vec<u8>, start: usize, tag: u8) -> Result<(), EncodeError>
    requires within { start ≤ length out.old.items }
    requires low_tag { tag % 32 < 31 }
    ensures ok { OnOk result
        (out.new.items ≡ take start out.old.items ++ enc tag (drop start out.old.items)) }
    ensures err { OnErr result (out.new.items ≡ out.old.items) }
    ensures too_long { IsErrOf result EncodeError.TooLong
        ↔ (2 ^ 32 ≤ length (drop start out.old.items)) }
{
    let end = out.len();
    if end - start > MAX_LEN {
        return Err(EncodeError::TooLong);
    }
    put_head(out, tag, (end - start) as u32)?;
    bring_forward(out, start, end);
    Ok(())
}

/// Ends a value with this identifier octet (X.690 8.1, 10.1). Its content was appended after the
/// first `start` bytes of `out`, with the outcome `content`. If the outcome is `Ok`, the appended
/// bytes become the content of the value. The tag number must be below 31.
///
/// # Errors
///
/// Returns the error of `content`, if there is one. Returns `TooLong` if the content has 2^32 bytes
/// or more, and `Memory` if memory runs out. After an error `out` has its first `start` bytes only.
///
/// # Not checked
///
/// The content.
pub fn end_value(
    out: &mut Vec<u8>,
    start: usize,
    tag: u8,
    content: Result<(), EncodeError>,
) -> Result<(), EncodeError>
    requires within { start ≤ length out.old.items }
    requires low_tag { tag % 32 < 31 }
    ensures { Ends (value tag) start out.old.items content result out.new.items }
{
    let ended = match content {
        Ok(()) => enclose(out, start, tag),
        Err(error) => Err(error),
    };
    if ended.is_err() {
        out.truncate(start);
    }
    ended
}

/// Appends the value with this identifier octet whose content is `head` and then `tail` (X.690 8.1,
/// 10.1). The tag number must be below 31.
///
/// # Errors
///
/// Returns `TooLong` if and only if the two have 2^32 bytes or more together. Returns `Memory` if
/// memory runs out. After an error `out` is unchanged.
///
/// # Not checked
///
/// The content.
pub fn put_parts(out: &mut Vec<u8>, tag: u8, head: &[u8], tail: &[u8]) -> Result<(), EncodeError>
    requires { tag % 32 < 31 }
    ensures { WritesOrTooLong (value tag (head.now ++ tail.now))
        out.old.items result out.new.items }
{
    if head.len() + tail.len() > MAX_LEN {
        return Err(EncodeError::TooLong);
    }
    let start = out.len();
    if let Err(error) = append_value(out, tag, head, tail) {
        out.truncate(start);
        return Err(EncodeError::from(error));
    }
    Ok(())
}

/// Appends the value with this identifier octet and content (X.690 8.1, 10.1). The tag number must
/// be below 31.
///
/// # Errors
///
/// Returns `TooLong` if and only if the content has 2^32 bytes or more. Returns `Memory` if memory
/// runs out. After an error `out` is unchanged.
///
/// # Not checked
///
/// The content.
pub fn put_value(out: &mut Vec<u8>, tag: u8, content: &[u8]) -> Result<(), EncodeError>
    requires { tag % 32 < 31 }
    ensures { WritesOrTooLong (value tag content.now) out.old.items result out.new.items }
{
    put_parts(out, tag, &[], content)
}

/// Appends a BOOLEAN (X.690 8.2, 11.1).
///
/// # Errors
///
/// Returns `Memory` if memory runs out, and no other error. After an error `out` is unchanged.
pub fn put_bool(out: &mut Vec<u8>, value: bool) -> Result<(), EncodeError>
    ensures ok { OnOk result (out.new.items ≡ out.old.items ++ boolean value) }
    ensures err { OnErr result (out.new.items ≡ out.old.items) }
    ensures memory { IfErr result (λ e. e ≡ EncodeError.Memory) }
{
    let octet = if value { 0xFF } else { 0x00 };
    out.extend_from_slice(&[tag::BOOLEAN, 0x01, octet])?;
    Ok(())
}

/// Appends a number as the shortest INTEGER (X.690 8.3). `octets` are the bytes of the number, the
/// most significant first, with any number of leading zeros. An empty slice is the number 0.
///
/// # Errors
///
/// Returns `TooLong` if and only if the INTEGER would have a content of 2^32 bytes or more. Returns
/// `Memory` if memory runs out. After an error `out` is unchanged.
#[tactic(auto, unfolding(crate::specs::Primitives::number))]
pub fn put_unsigned(out: &mut Vec<u8>, octets: &[u8]) -> Result<(), EncodeError>
    ensures { WritesOrTooLong (number_part (number_from_digits 256 octets.now))
        out.old.items result out.new.items }
{
    let digits = significant(octets);
    put_parts(out, tag::INTEGER, sign(digits), digits)
}

/// Appends a BIT STRING of these bytes, with `unused` unused bits at the end (X.690 8.6, 11.2.1).
/// At most 7 bits may be unused, none if there are no bytes, and they must be 0.
///
/// # Errors
///
/// Returns `TooLong` if and only if there are 2^32 - 1 bytes or more. Returns `Memory` if memory
/// runs out. After an error `out` is unchanged.
pub fn put_bits(out: &mut Vec<u8>, unused: u8, octets: &[u8]) -> Result<(), EncodeError>
    requires few { unused < 8 }
    requires none { octets.now ≡ [] → unused ≡ 0 }
    requires zero_bits { number_from_digits 256 octets.now % 2 ^ unused ≡ 0 }
    ensures ok { OnOk result
        (out.new.items ≡ out.old.items ++ enc BIT_STRING (unused ∷ octets.now)) }
    ensures err { OnErr result (out.new.items ≡ out.old.items) }
    ensures too_long { IsErrOf result EncodeError.TooLong ↔ (2 ^ 32 ≤ length octets.now + 1) }
{
    put_parts(out, tag::BIT_STRING, &[unused], octets)
}

/// Appends the OBJECT IDENTIFIER with this content (X.690 8.19).
///
/// # Errors
///
/// Returns `TooLong` if and only if the content has 2^32 bytes or more. Returns `Memory` if memory
/// runs out. After an error `out` is unchanged.
pub fn put_oid(out: &mut Vec<u8>, id: &[u8]) -> Result<(), EncodeError>
    requires { IsOid id.now }
    ensures { WritesOrTooLong (value OBJECT_IDENTIFIER id.now) out.old.items result out.new.items }
{
    put_value(out, tag::OBJECT_IDENTIFIER, id)
}
