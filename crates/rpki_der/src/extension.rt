//! Extensions, read and appended to vectors.
ghost use Rattle.std.specs.Prelude.{◌≡◌, ◌+◌, ◌^◌, ◌≤◌, ◌<◌, ◌++◌, ◌∷◌, ◌↔◌, length, take, drop, MatchOption, IfOk, IsErrOf, OnOk, OnErr};
ghost use Rattle.rpki_der.specs.Primitives.{IsOid, bool_or_false};
ghost use Rattle.rpki_der.specs.Extensions.Views.{extension_view};
ghost use Rattle.rpki_der.specs.Place.{remaining, IsWithin, EndsAt, Keeps};
ghost use Rattle.rpki_der.specs.Answers.{AnswersBy};
ghost use Rattle.rpki_der.specs.Place.Reading.{TookBy};
ghost use Rattle.rpki_der.specs.Values.{AreOctets, enc, length_octets};
ghost use Rattle.rpki_der.specs.Extensions.{extension, extension_content, extension_format, extension_part};
ghost use Rattle.rpki_der.specs.Tags.{OBJECT_IDENTIFIER, OCTET_STRING, SEQUENCE};
ghost use Rattle.rpki_der.specs.Writers.{Ends, WritesOrTooLong};

use crate::cursor::Cursor;
use crate::error::{DecodeError, EncodeError};
use crate::put::{MAX_LEN, append_value, bring_forward, put_head};
use crate::tag;
use std::alloc::AllocError;

// The BOOLEAN where it is true.
fn flag_octets(critical: bool) -> &'static [u8]
    ensures octets { result.now ≡ bool_or_false critical }
    ensures short { length result.now ≤ 3 }
{
    if critical {
        &[tag::BOOLEAN, 0x01, 0xFF]
    } else {
        &[]
    }
}

// How many octets a value has whose content has this many.
fn value_len(len: usize) -> usize
    requires { len < 2 ^ 32 }
    ensures octets { result ≡ 1 + (length (length_octets len) + len) }
    ensures small { result ≤ len + 6 }
{
    let length_len = match len {
        0..=0x7F => 1,
        0x80..=0xFF => 2,
        0x100..=0xFFFF => 3,
        0x1_0000..=0xFF_FFFF => 4,
        _ => 5,
    };
    1 + length_len + len
}

// How many octets the identifier, the flag and the content have together, if each content has fewer
// than 2^32 and they too.
fn pieces_len(id: &[u8], flag: &[u8], content: &[u8]) -> Option<u32>
    requires { length flag.now ≤ 3 }
    ensures { let inside = extension_content id.now flag.now content.now in
        MatchOption result (2 ^ 32 ≤ length inside) (λ len. len ≡ length inside) }
{
    if id.len() > MAX_LEN || content.len() > MAX_LEN {
        return None;
    }
    let len = value_len(id.len()) + flag.len() + value_len(content.len());
    if len > MAX_LEN {
        return None;
    }
    Some(len as u32)
}

// What stands before a content of so many octets in an extension, or a part of it where memory runs
// out.
fn append_front(
    out: &mut Vec<u8>,
    len: u32,
    id: &[u8],
    flag: &[u8],
    content_len: u32,
) -> Result<(), AllocError>
    requires { length id.now < 2 ^ 32 }
    ensures ok { OnOk result (out.new.items ≡ out.old.items
        ++ (SEQUENCE ∷ length_octets len ++ (enc OBJECT_IDENTIFIER id.now
        ++ (flag.now ++ (OCTET_STRING ∷ length_octets content_len))))) }
    ensures err { OnErr result (take (length out.old.items) out.new.items ≡ out.old.items) }
{
    put_head(out, tag::SEQUENCE, len)?;
    append_value(out, tag::OBJECT_IDENTIFIER, &[], id)?;
    out.extend_from_slice(flag)?;
    put_head(out, tag::OCTET_STRING, content_len)
}

// The extension, or a part of it where memory runs out.
fn append_extension(
    out: &mut Vec<u8>,
    len: u32,
    id: &[u8],
    flag: &[u8],
    content: &[u8],
) -> Result<(), AllocError>
    requires { len ≡ length (extension_content id.now flag.now content.now) }
    ensures ok { let inside = extension_content id.now flag.now content.now in
        OnOk result (out.new.items ≡ out.old.items ++ enc SEQUENCE inside) }
    ensures err { OnErr result (take (length out.old.items) out.new.items ≡ out.old.items) }
{
    append_front(out, len, id, flag, content.len() as u32)?;
    out.extend_from_slice(content)
}

/// Appends the extension with this identifier, critical flag and content (RFC 5280 4.1). The flag
/// is written only if it is true (X.690 11.5). `id` is the content of an OBJECT IDENTIFIER.
///
/// # Errors
///
/// Returns `TooLong` if and only if the extension would have a content of 2^32 bytes or more.
/// Returns `Memory` if memory runs out. After an error `out` is unchanged.
///
/// # Not checked
///
/// The content.
#[tactic(auto, unfolding(crate::specs::Extensions::extension_format))]
pub fn put_extension(
    out: &mut Vec<u8>,
    id: &[u8],
    critical: bool,
    content: &[u8],
) -> Result<(), EncodeError>
    requires { IsOid id.now }
    ensures { WritesOrTooLong (extension_part id.now critical content.now)
        out.old.items result out.new.items }
{
    let flag = flag_octets(critical);
    let Some(len) = pieces_len(id, flag, content) else {
        return Err(EncodeError::TooLong);
    };
    let start = out.len();
    if let Err(error) = append_extension(out, len, id, flag, content) {
        out.truncate(start);
        return Err(EncodeError::from(error));
    }
    Ok(())
}

// Makes what stands behind the first `start` octets the content of an extension, or leaves
// something behind the octets where it errs.
#[tactic(auto, unfolding(crate::specs::Extensions::extension_format))]
fn enclose_extension(
    out: &mut Vec<u8>,
    start: usize,
    id: &[u8],
    critical: bool,
) -> Result<(), EncodeError>
    requires within { start ≤ length out.old.items }
    requires oid { IsOid id.now }
    ensures ok { OnOk result (out.new.items
        ≡ take start out.old.items ++ extension id.now critical (drop start out.old.items)) }
    ensures err { OnErr result (take (length out.old.items) out.new.items ≡ out.old.items) }
    ensures too_long { IsErrOf result EncodeError.TooLong
        ↔ (2 ^ 32 ≤ length (extension_part id.now critical (drop start out.old.items)).inside) }
{
    let end = out.len();
    let flag = flag_octets(critical);
    let Some(len) = pieces_len(id, flag, &out[start..]) else {
        return Err(EncodeError::TooLong);
    };
    append_front(out, len, id, flag, (end - start) as u32)?;
    bring_forward(out, start, end);
    Ok(())
}

/// Ends an extension with this identifier and critical flag (RFC 5280 4.1). Its content was
/// appended after the first `start` bytes of `out`, with the outcome `content`. If the outcome is
/// `Ok`, the appended bytes become the content of the extension.
///
/// # Errors
///
/// Returns the error of `content`, if there is one. Returns `TooLong` if the extension would have a
/// content of 2^32 bytes or more, and `Memory` if memory runs out. After an error `out` has its
/// first `start` bytes only.
///
/// # Not checked
///
/// The content.
pub fn end_extension(
    out: &mut Vec<u8>,
    start: usize,
    id: &[u8],
    critical: bool,
    content: Result<(), EncodeError>,
) -> Result<(), EncodeError>
    requires within { start ≤ length out.old.items }
    requires oid { IsOid id.now }
    ensures { Ends (extension_part id.now critical) start
        out.old.items content result out.new.items }
{
    let ended = match content {
        Ok(()) => enclose_extension(out, start, id, critical),
        Err(error) => Err(error),
    };
    if ended.is_err() {
        out.truncate(start);
    }
    ended
}

// The extension that stands next, by the reading function.
#[tactic(auto, unfolding(crate::specs::Extensions::extension_format))]
#[inline(always)]
fn read<'a>(cursor: &mut Cursor<'a>) -> Result<(&'a [u8], bool, Cursor<'a>), DecodeError>
    ensures reads { TookBy extension_view extension_format.read cursor.old result cursor.new }
    ensures keeps { Keeps result cursor.old cursor.new }
    ensures inside { IfOk result (λ x. IsWithin x.2 cursor.old) }
    ensures placed { IfOk result (λ x. EndsAt x.2 cursor.new) }
    ensures octets { AreOctets (remaining cursor.old) }
{
    let mut ahead = cursor.fork();
    let mut inner = ahead.take_sequence()?;
    let identifier = inner.take_oid()?;
    let critical = inner.take_bool_or_false()?;
    let content = inner.take_value(tag::OCTET_STRING)?;
    inner.finish()?;
    *cursor = ahead;
    Ok((identifier, critical, content))
}

/// Reads the next value, which must be an extension (RFC 5280 4.1, 4.2). Returns the content of its
/// identifier, its critical flag, and a cursor over its content. Accepts an explicit false as the
/// flag (own).
///
/// # Errors
///
/// Returns an error as [`Cursor::take_value`], [`Cursor::take_oid`] and
/// [`Cursor::take_bool_or_false`] do. Returns `Trailing` if bytes remain in the extension.
///
/// # Not checked
///
/// The content, and whether the identifier is known.
#[tactic(auto, using(crate::proofs::FormatAnswers::answers_alone, crate::proofs::ExtensionReads::extension_alone))]
#[inline(always)]
pub fn take_extension<'a>(
    cursor: &mut Cursor<'a>,
) -> Result<(&'a [u8], bool, Cursor<'a>), DecodeError>
    ensures answers { AnswersBy extension_view extension_format cursor.old result cursor.new }
    ensures inside { IfOk result (λ x. IsWithin x.2 cursor.old) }
    ensures placed { IfOk result (λ x. EndsAt x.2 cursor.new) }
{
    read(cursor)
}
