//! The methods in Subject Information Access.
ghost use Rattle.std.specs.List.{count_by};
ghost use Rattle.std.specs.Prelude.{◌≡◌, ◌≤◌, ◌↔◌, IsTrue};
ghost use Rattle.std.specs.Str.{str_eq_ignore_ascii_case};
ghost use Rattle.rpki_der.specs.Place.{remaining};
ghost use Rattle.rpki_der.specs.Tags.{CONTEXT, SEQUENCE};
ghost use Rattle.rpki_der.specs.Values.Reading.{value_at};
ghost use Rattle.rpki_parts.specs.NameTexts.Reading.{values_in};
ghost use Rattle.rpki_text.specs.Notes.{descriptions_in, has_method, is_elsewhere, is_method, suits_method, uri_elsewhere};

use crate::notes::contents::{URI, content, is_one_of};
use rpki_der::{Cursor, oid, tag};

/// The access methods that notes look for.
#[derive(Clone, Copy)]
pub(crate) enum Method {
    SignedObject,
    RpkiNotify,
    // rpkiNotify, with a URI of another scheme than https.
    NotifyElsewhere,
    // A method that isn't known.
    Unknown,
}

// The methods that are known (RFC 6487 4.8.8, RFC 8182 3.2).
const KNOWN: [&[u8]; 4] = [
    oid::AD_CA_REPOSITORY,
    oid::AD_RPKI_MANIFEST,
    oid::AD_SIGNED_OBJECT,
    oid::AD_RPKI_NOTIFY,
];

// The number of octets of `https://`.
const SCHEME_LENGTH: usize = 8;

// Whether texts are equal without the case of ASCII.
fn are_alike(text: &[u8], other: &[u8]) -> bool
    ensures { result ≡ str_eq_ignore_ascii_case text.now other.now }
{
    text.eq_ignore_ascii_case(other)
}

// Whether a URI has another scheme than https.
fn is_elsewhere(uri: &[u8]) -> bool
    ensures { result ≡ is_elsewhere uri.now }
{
    let (scheme, _) = uri.split_at(SCHEME_LENGTH.min(uri.len()));
    !are_alike(scheme, b"https://")
}

// Whether the first URI has another scheme than https.
fn has_uri_elsewhere(location: &Cursor<'_>) -> bool
    ensures { result ≡ uri_elsewhere (value_at (CONTEXT 6) (remaining location.now)) }
{
    let mut rest = location.fork();
    match content(&mut rest, URI) {
        Some(uri) => is_elsewhere(uri.rest()),
        None => false,
    }
}

impl Method {
    // Whether the identifier is that of the method.
    fn is(self, identifier: &[u8]) -> bool
        ensures { result ≡ is_method self identifier.now }
    {
        match self {
            Method::SignedObject => identifier == oid::AD_SIGNED_OBJECT,
            Method::RpkiNotify | Method::NotifyElsewhere => identifier == oid::AD_RPKI_NOTIFY,
            Method::Unknown => !is_one_of(identifier, &KNOWN),
        }
    }

    // Whether a location suits the method.
    fn suits(self, location: &Cursor<'_>) -> bool
        ensures { result ≡ suits_method self (remaining location.now) }
    {
        match self {
            Method::NotifyElsewhere => has_uri_elsewhere(location),
            Method::SignedObject | Method::RpkiNotify | Method::Unknown => true,
        }
    }

    // Whether a description has the method.
    fn is_in(self, description: &Cursor<'_>) -> bool
        ensures { result ≡ has_method self (remaining description.now) }
    {
        let mut rest = description.fork();
        match content(&mut rest, tag::OBJECT_IDENTIFIER) {
            Some(identifier) => self.is(identifier.rest()) && self.suits(&rest),
            None => false,
        }
    }
}

// Whether at least so many of the descriptions have the method.
fn are_at_least(descriptions: &Cursor<'_>, times: usize, method: Method) -> bool
    ensures { let values = values_in (value_at SEQUENCE) (remaining descriptions.now) in
        IsTrue result ↔ times ≤ count_by (has_method method) values }
{
    let mut left = times;
    let mut rest = descriptions.fork();
    while left > 0 {
        let Some(description) = content(&mut rest, tag::SEQUENCE) else {
            return false;
        };
        if method.is_in(&description) {
            left -= 1;
        }
    }
    true
}

/// Returns whether at least so many descriptions in the content of Subject Information Access have
/// the method.
pub(crate) fn has_at_least(access: &Cursor<'_>, times: usize, method: Method) -> bool
    ensures { IsTrue result
        ↔ times ≤ count_by (has_method method) (descriptions_in (remaining access.now)) }
{
    let mut rest = access.fork();
    match content(&mut rest, tag::SEQUENCE) {
        Some(descriptions) => are_at_least(&descriptions, times, method),
        None => times == 0,
    }
}
