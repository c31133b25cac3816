//! Certificates and CRLs in PEM (RFC 7468).
ghost use Rattle.std.specs.Prelude.{◌≡◌, ◌++◌, List, ℕ, IfOk, OnOk};
ghost use Rattle.rpki_command.specs.PemTexts.{AreInLines, IsPemText, ended, ended_rest, mark};

use base64::engine::general_purpose::STANDARD;
use std::alloc::{AllocError, Global};

// How many digits of base64 a line has (RFC 7468 2).
const DIGITS: usize = 64;

// Appends a line and its end.
fn push_line(text: &mut Vec<u8>, line: &[u8]) -> Result<(), AllocError>
    ensures { OnOk result (text.new.items ≡ text.old.items ++ ended line.now) }
{
    text.extend_from_slice(line)?;
    text.push(b'\n')?;
    Ok(())
}

// Appends a line and its end, if anything stands in it.
fn push_rest(text: &mut Vec<u8>, rest: &[u8]) -> Result<(), AllocError>
    ensures { OnOk result (text.new.items ≡ text.old.items ++ ended_rest rest.now) }
{
    if rest.is_empty() {
        return Ok(());
    }
    push_line(text, rest)
}

// Appends digits in lines.
fn push_digits(text: &mut Vec<u8>, digits: &[u8]) -> Result<(), AllocError>
    ensures { OnOk result ((its : List ℕ) × AreInLines digits.now its
        × (text.new.items ≡ text.old.items ++ its)) }
{
    let mut rest = digits;
    while rest.len() >= DIGITS {
        let (line, behind) = rest.split_at(DIGITS);
        push_line(text, line)?;
        rest = behind;
    }
    push_rest(text, rest)
}

// Appends the line that begins or ends what has this label.
fn push_mark(text: &mut Vec<u8>, word: &str, label: &str) -> Result<(), AllocError>
    ensures { OnOk result (text.new.items ≡ text.old.items ++ mark word.now label.now) }
{
    text.extend_from_slice(word.as_bytes())?;
    text.extend_from_slice(label.as_bytes())?;
    push_line(text, b"-----")
}

/// Returns bytes in PEM, under a label (RFC 7468 2).
#[tactic(auto, unfolding(rpki_keys::specs::Digits::base64_of))]
pub fn pem_text(alloc: Global, label: &str, octets: &[u8]) -> Result<Vec<u8>, AllocError>
    ensures { IfOk result (λ text. IsPemText label.now octets.now text.items) }
{
    let digits = STANDARD.encode(alloc, octets)?;
    let mut text = Vec::new(alloc);
    push_mark(&mut text, "-----BEGIN ", label)?;
    push_digits(&mut text, digits.as_bytes())?;
    push_mark(&mut text, "-----END ", label)?;
    Ok(text)
}
