//! The characters of the names in a certificate.
ghost use Rattle.std.specs.List.{list_any};
ghost use Rattle.std.specs.Prelude.{◌≡◌, ◌↔◌, ℕ, List, IsTrue, nat_eq, not, option_map};
ghost use Rattle.rpki_der.specs.Place.{remaining};
ghost use Rattle.rpki_text.specs.Notes.{HasOtherCharacters, is_between, is_misprinted_name, is_printable, printable_at};

use crate::notes::contents::content;
use crate::notes::fields::{issuer_in, subject_in};
use crate::notes::inside::{Test, has_any};
use bytes::Bytes;
use rpki_der::{Cursor, tag};

// The characters beside letters and digits that a PrintableString may have (X.680 41.4).
const OTHERS: &[u8] = b" '()+,-./:=?";

fn is_between(octet: u8, first: u8, last: u8) -> bool
    ensures { result ≡ is_between octet first last }
{
    first <= octet && octet <= last
}

// Whether the octet is one of these.
fn is_one_of(octet: u8, others: &[u8]) -> bool
    ensures { result ≡ list_any (λ other. nat_eq octet other) others.now }
{
    others.iter().any(|other| octet == *other)
}

// Whether a PrintableString may have the character.
fn is_printable(octet: u8) -> bool
    ensures { result ≡ is_printable octet }
{
    is_between(octet, b'A', b'Z')
        || is_between(octet, b'a', b'z')
        || is_between(octet, b'0', b'9')
        || is_one_of(octet, OTHERS)
}

// Whether a string has a character that a PrintableString may not have.
fn has_other(string: &[u8]) -> bool
    ensures { result ≡ list_any (λ c. not (is_printable c)) string.now }
{
    string.iter().any(|octet| !is_printable(*octet))
}

// The PrintableString of an attribute, if its value is one.
#[tactic(auto, unfolding(crate::specs::Notes::printable_at))]
fn printable_in<'a>(attribute: &Cursor<'a>) -> Option<Cursor<'a>>
    ensures { option_map remaining result ≡ printable_at (remaining attribute.now) }
{
    let mut rest = attribute.fork();
    let _kind = content(&mut rest, tag::OBJECT_IDENTIFIER)?;
    content(&mut rest, tag::PRINTABLE_STRING)
}

// An attribute that has a character that its PrintableString doesn't allow.
struct MisprintedAttribute;

impl Test for MisprintedAttribute {
    ghost use Rattle.rpki_text.specs.Notes.{is_misprinted_attribute};

    ghost passes = { is_misprinted_attribute };

    fn is_passed(inside: &Cursor<'_>) -> bool {
        match printable_in(inside) {
            Some(string) => has_other(string.rest()),
            None => false,
        }
    }
}

// A part of a name with such an attribute.
struct MisprintedPart;

impl Test for MisprintedPart {
    ghost use Rattle.rpki_text.specs.Notes.{is_misprinted_part};

    ghost passes = { is_misprinted_part };

    fn is_passed(inside: &Cursor<'_>) -> bool {
        has_any::<MisprintedAttribute>(inside, tag::SEQUENCE)
    }
}

// Whether a name has such a part, if there is a name.
fn is_misprinted(name: Option<(Cursor<'_>, Cursor<'_>)>) -> bool
    ensures { let found = option_map (λ x. (remaining x.0, remaining x.1)) name.entry in
        result ≡ is_misprinted_name found }
{
    match name {
        Some((parts, _rest)) => has_any::<MisprintedPart>(&parts, tag::SET),
        None => false,
    }
}

/// Returns whether a name of the certificate that the octets start with has a character that its
/// PrintableString doesn't allow.
pub(crate) fn has_other_characters(octets: &Bytes) -> bool
    ensures { IsTrue result ↔ HasOtherCharacters octets.now }
{
    is_misprinted(issuer_in(octets)) || is_misprinted(subject_in(octets))
}
