//! Object identifiers as numbers with dots between them.
ghost use Rattle.std.specs.Prelude.{◌≡◌, ◌<◌, ◌^◌, ◌&&◌, ◌↔◌, not, nat_lt, true, Some, IsSome, IfSome, IsTrue};
ghost use Rattle.std.specs.Fmt.{WritesOnOk};
ghost use Rattle.rpki_parts.specs.NameTexts.{with_octet, number_after, are_small, number_text, numbers_text, ended_with, dotted_text};

use std::fmt;
use std::marker::Model;

// The number of a subidentifier, with the 7 bits of one octet more.
fn with_octet(number: u64, octet: u8) -> u64
    requires { number < 2 ^ 57 }
    ensures { result ≡ with_octet number octet }
{
    number * 128 + u64::from(octet % 128)
}

// What is read of a subidentifier after this octet.
fn number_after(number: u64, octet: u8) -> u64
    requires { number < 2 ^ 57 }
    ensures { result ≡ number_after number octet }
{
    if octet < 128 {
        0
    } else {
        with_octet(number, octet)
    }
}

// Whether each subidentifier is below 2^64.
fn are_small(id: &[u8]) -> bool
    ensures { result ≡ are_small 0 id.now }
{
    let mut rest = id;
    let mut number = 0u64;
    while let Some((octet, behind)) = rest.split_first() {
        if number >= 1 << 57 {
            return false;
        }
        number = number_after(number, *octet);
        rest = behind;
    }
    true
}

// A subidentifier in decimal digits.
fn write_number<W: fmt::Write>(
    f: &mut fmt::Formatter<W>,
    is_first: bool,
    number: u64,
) -> fmt::Result
    ensures { WritesOnOk W.write_str_gives f.old result (number_text is_first number) f.new }
{
    if !is_first {
        write!(f, ".{number}")
    } else if number < 40 {
        write!(f, "0.{number}")
    } else if number < 80 {
        let second = number - 40;
        write!(f, "1.{second}")
    } else {
        let second = number - 80;
        write!(f, "2.{second}")
    }
}

// The subidentifier that ends with this octet, if one does.
fn write_ended<W: fmt::Write>(
    f: &mut fmt::Formatter<W>,
    is_first: bool,
    number: u64,
    octet: u8,
) -> fmt::Result
    requires { number < 2 ^ 57 }
    ensures { WritesOnOk W.write_str_gives f.old result
        (numbers_text is_first (ended_with number octet)) f.new }
{
    if octet < 128 {
        write_number(f, is_first, with_octet(number, octet))
    } else {
        Ok(())
    }
}

// Whether no subidentifier has ended after this octet.
fn is_still_first(is_first: bool, octet: u8) -> bool
    ensures { result ≡ (is_first && not (nat_lt octet 128)) }
{
    is_first && octet >= 128
}

// Numbers with a dot between each two.
fn write_dotted<W: fmt::Write>(f: &mut fmt::Formatter<W>, id: &[u8]) -> fmt::Result
    requires { are_small 0 id.now ≡ true }
    ensures { WritesOnOk W.write_str_gives f.old result (dotted_text id.now) f.new }
{
    let mut rest = id;
    let mut number = 0u64;
    let mut is_first = true;
    while let Some((octet, behind)) = rest.split_first() {
        write_ended(f, is_first, number, *octet)?;
        is_first = is_still_first(is_first, *octet);
        number = number_after(number, *octet);
        rest = behind;
    }
    Ok(())
}

/// An object identifier whose numbers are all below 2^64, as the content of its OBJECT IDENTIFIER.
#[derive(Drop)]
pub struct Dotted<'a> {
    identifier: &'a [u8],
}

impl<'a> Model for Dotted<'a> {
    ghost use Rattle.std.specs.Prelude.{◌≡◌, List, ℕ, true};
    ghost use Rattle.rpki_parts.specs.NameTexts.{are_small};

    ghost Value = { List ℕ };

    ghost view = { λ d. d.identifier.now };

    ghost invariant = { λ d. are_small 0 d.identifier.now ≡ true };
}

impl<'a> Dotted<'a> {
    /// Makes the object identifier with this content. Returns `None` if one of its numbers is 2^64
    /// or more.
    pub fn of(identifier: &'a [u8]) -> Option<Dotted<'a>>
        ensures exists { IsSome result ↔ IsTrue (are_small 0 identifier.now) }
        ensures value { IfSome result (λ d. d ≡ identifier.now) }
    {
        if are_small(identifier) {
            Some(Dotted { identifier })
        } else {
            None
        }
    }
}

/// Writes its numbers with dots between them, as `1.2.840` (RFC 4512 1.4).
impl<'a> fmt::Display for Dotted<'a> {
    ghost output = { λ d. Some (dotted_text d) };

    fn fmt<W: fmt::Write>(&self, f: &mut fmt::Formatter<W>) -> fmt::Result {
        write_dotted(f, self.identifier)
    }
}
