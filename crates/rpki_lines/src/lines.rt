//! Lines of the line program's input, and their words.
ghost use Rattle.std.specs.Prelude.{◌≡◌, ◌==◌, ◌<◌, ℕ, List, [], ◌∷◌, ◌++◌, length, IfOk, IfSome, IfNone};
ghost use Rattle.std.specs.List.{position};
ghost use Rattle.rpki_lines.specs.HexWords.{AreHexDigits, IsHexWord};
ghost use Rattle.rpki_lines.specs.TextLines.{IsWithout, space};
ghost use Rattle.rpki_lines.specs.InputLines.{revoked_line, IsRevokedLine, IsOctetsLine};
ghost use Rattle.rpki_lines.specs.Questions.{IsFirstLine};

use bytes::Bytes;
use hex::FromHexError;
use rpki_der::Serial;
use std::alloc::{AllocError, Global};

const REVOKED: &[u8] = b"revoked";

const NO_OCTETS: &[u8] = b"-";

fn position_of(octet: u8, octets: &[u8]) -> Option<usize>
    ensures { result ≡ position (λ other. other == octet) octets.now }
{
    octets.iter().position(|other| *other == octet)
}

// What stands before the first separator, and after it.
fn split_once(separator: u8, text: &[u8]) -> Option<(&[u8], &[u8])>
    ensures parts { IfSome result (λ parts.
        text.now ≡ parts.0.now ++ separator ∷ parts.1.now) }
    ensures first { IfSome result (λ parts. IsWithout separator parts.0.now) }
    ensures none { IfNone result (IsWithout separator text.now) }
{
    let at = position_of(separator, text)?;
    Some((&text[..at], &text[at + 1..]))
}

/// Splits a text. Returns its first line, and the text after that line's end.
pub(crate) fn split_line(text: &[u8]) -> Option<(&[u8], &[u8])>
    ensures line { IfSome result (λ parts. IsFirstLine parts.0.now parts.1.now text.now) }
    ensures shorter { IfSome result (λ parts. length parts.1.now < length text.now) }
    ensures none { IfNone result (text.now ≡ []) }
{
    if text.is_empty() {
        return None;
    }
    match split_once(b'\n', text) {
        Some(parts) => Some(parts),
        None => Some((text, &[])),
    }
}

/// Returns the rest of a line that starts with these bytes.
pub(crate) fn behind<'a>(beginning: &[u8], line: &'a [u8]) -> Option<&'a [u8]>
    ensures some { IfSome result (λ rest. line.now ≡ beginning.now ++ rest.now) }
    ensures none { IfNone result ((rest : List ℕ) → line.now ≡ beginning.now ++ rest → ⊥) }
{
    line.strip_prefix(beginning)
}

// The words LIST and SERIAL of a line `revoked LIST SERIAL`.
fn split_words(line: &[u8]) -> Option<(&[u8], &[u8])>
    ensures words { IfSome result (λ words.
        IsWithout space words.0.now × (line.now ≡ revoked_line words.0.now words.1.now)) }
    ensures none { IfNone result ((list serial : List ℕ) → IsWithout space list
        → line.now ≡ revoked_line list serial → ⊥) }
{
    let (form, words) = split_once(b' ', line)?;
    if form != REVOKED {
        return None;
    }
    split_once(b' ', words)
}

// The octets that hexadecimal digits encode.
fn from_digits(alloc: Global, digits: &[u8]) -> Result<Option<Vec<u8>>, AllocError>
    ensures encoded { IfOk result (λ found.
        IfSome found (λ octets. AreHexDigits octets.items digits.now)) }
    ensures none { IfOk result (λ found.
        IfNone found ((octets : List ℕ) → AreHexDigits octets digits.now → ⊥)) }
{
    match hex::decode(alloc, digits) {
        Ok(octets) => Ok(Some(octets)),
        Err(error) => match error {
            FromHexError::OutOfMemory => Err(AllocError),
            _ => Ok(None),
        },
    }
}

// The octets that a word encodes.
fn from_word(alloc: Global, word: &[u8]) -> Result<Option<Vec<u8>>, AllocError>
    ensures encoded { IfOk result (λ found.
        IfSome found (λ octets. IsHexWord octets.items word.now)) }
    ensures none { IfOk result (λ found.
        IfNone found ((octets : List ℕ) → IsHexWord octets word.now → ⊥)) }
{
    if word == NO_OCTETS {
        return Ok(Some(Vec::new(alloc)));
    }
    if word.is_empty() {
        return Ok(None);
    }
    from_digits(alloc, word)
}

/// Reads a line with this name, a space and a word. Returns the bytes of the word.
pub(crate) fn octets_behind(
    alloc: Global,
    name: &[u8],
    line: &[u8],
) -> Result<Option<Bytes>, AllocError>
    ensures encoded { IfOk result (λ found.
        IfSome found (λ octets. IsOctetsLine name.now octets line.now)) }
    ensures none { IfOk result (λ found.
        IfNone found ((octets : List ℕ) → IsOctetsLine name.now octets line.now → ⊥)) }
{
    let Some(word) = behind(name, line) else {
        return Ok(None);
    };
    let Some(octets) = from_word(alloc, word)? else {
        return Ok(None);
    };
    Ok(Some(Bytes::from_vec(octets)?))
}

/// Revoked certificates, and the serial number that is searched among them.
#[derive(Drop)]
pub(crate) struct RevokedQuestion {
    pub(crate) list: Bytes,
    pub(crate) serial: Serial,
}

/// Reads the question of a line `revoked LIST SERIAL`.
pub(crate) fn revoked_from(
    alloc: Global,
    line: &[u8],
) -> Result<Option<RevokedQuestion>, AllocError>
    ensures asked { IfOk result (λ found.
        IfSome found (λ question. IsRevokedLine question.list question.serial line.now)) }
    ensures none { IfOk result (λ found. IfNone found
        ((list : List ℕ) (serial : ℕ) → IsRevokedLine list serial line.now → ⊥)) }
{
    let Some((list, serial)) = split_words(line) else {
        return Ok(None);
    };
    let Some(octets) = from_word(alloc, serial)? else {
        return Ok(None);
    };
    let Some(serial) = Serial::from_slice(&octets) else {
        return Ok(None);
    };
    let Some(octets) = from_word(alloc, list)? else {
        return Ok(None);
    };
    let list = Bytes::from_vec(octets)?;
    Ok(Some(RevokedQuestion { list, serial }))
}
