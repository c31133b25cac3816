//! A walk over the extensions of a certificate, in their order.
ghost use Rattle.std.specs.Prelude.{◌≡◌, ◌↔◌, List, IsTrue, true};
ghost use Rattle.rpki_der.specs.Extensions.{Extension, IsExtension};
ghost use Rattle.rpki_der.specs.Extensions.Views.{extension_view};
ghost use Rattle.rpki_ext.specs.Kinds.{is_of};
ghost use Rattle.rpki_der.specs.Place.{remaining};
ghost use Rattle.rpki_der.specs.Sequences.{AreEncodings};
ghost use Rattle.rpki_der.specs.Values.{IsValue};
ghost use Rattle.rpki_text.specs.FaultSearch.{HasFault, sought_names, is_named};
ghost use Rattle.rpki_text.specs.Notes.{HaveExtensions, HaveOne};

use crate::notes::access::{Method, has_at_least};
use crate::notes::contents::{is_one_of, next_extension};
use crate::notes::qualifiers::has_other_qualifiers;
use bytes::Bytes;
use rpki_der::{Cursor, oid};
use rpki_ext::is_known;
use rpki_files::extensions_in;

/// The kinds of extensions that are searched.
#[derive(Clone, Copy)]
pub(crate) enum Kinds {
    Addresses,
    Systems,
    Known,
    Access,
    Policies,
}

/// An error in an extension.
#[derive(Clone, Copy)]
pub(crate) enum Fault {
    NotCritical,
    OtherContent,
    NotOneValue,
    // At least so many descriptions have the method.
    AtLeast(usize, Method),
    OtherQualifiers,
}

// The identifiers of IP resources in both modes (RFC 3779 2.2.1, RFC 8360 4.2.2.1).
const ADDRESSES: [&[u8]; 2] = [oid::PE_IP_ADDR_BLOCK, oid::PE_IP_ADDR_BLOCK_V2];

// Those of AS resources (RFC 3779 3.2.1, RFC 8360 4.2.2.3).
const SYSTEMS: [&[u8]; 2] = [oid::PE_AUTONOMOUS_SYS_IDS, oid::PE_AUTONOMOUS_SYS_IDS_V2];

// That of Subject Information Access (RFC 5280 4.2.2.2).
const ACCESS: [&[u8]; 1] = [oid::PE_SUBJECT_INFO_ACCESS];

// That of Certificate Policies (RFC 5280 4.2.1.4).
const POLICIES: [&[u8]; 1] = [oid::CE_CERTIFICATE_POLICIES];

impl Kinds {
    // Whether an extension with this identifier is of one of the kinds.
    fn have(self, identifier: &[u8]) -> bool
        ensures { result ≡ is_named self identifier.now }
    {
        match self {
            Kinds::Addresses => is_one_of(identifier, &ADDRESSES),
            Kinds::Systems => is_one_of(identifier, &SYSTEMS),
            Kinds::Known => is_known(identifier),
            Kinds::Access => is_one_of(identifier, &ACCESS),
            Kinds::Policies => is_one_of(identifier, &POLICIES),
        }
    }
}

// Whether the octets are one value.
fn is_one_value(octets: &Cursor<'_>) -> bool
    ensures { IsTrue result ↔ IsValue (remaining octets.now) }
{
    let [tag, ..] = octets.rest() else {
        return false;
    };
    let mut rest = octets.fork();
    match rest.take_value(*tag) {
        Ok(_) => rest.is_empty(),
        Err(error) => {
            drop(error);
            false
        }
    }
}

impl Fault {
    // Whether an extension with this flag and content has the error. `written` is the content that
    // it should have.
    fn is_in(self, written: &[u8], critical: bool, content: &Cursor<'_>) -> bool
        ensures { (x : Extension) → x.critical ≡ critical → x.content ≡ remaining content.now
            → (IsTrue result ↔ HasFault self written.now x) }
    {
        match self {
            Fault::NotCritical => !critical,
            Fault::OtherContent => content.rest() != written,
            Fault::NotOneValue => !is_one_value(content),
            Fault::AtLeast(times, method) => has_at_least(content, times, method),
            Fault::OtherQualifiers => has_other_qualifiers(content),
        }
    }
}

// Whether an extension of this identifier, flag and content is of the kinds and has the fault.
fn is_found(
    kinds: Kinds,
    fault: Fault,
    written: &[u8],
    extension: (&[u8], bool, Cursor<'_>),
) -> bool
    ensures { let x = extension_view extension.entry in
        IsTrue result ↔ ((is_of (sought_names kinds) x ≡ true) × HasFault fault written.now x) }
{
    let (identifier, critical, content) = extension;
    kinds.have(identifier) && fault.is_in(written, critical, &content)
}

// Whether one of the extensions in the sequence is of these kinds and has the fault.
fn is_among(elements: &Cursor<'_>, kinds: Kinds, fault: Fault, written: &[u8]) -> bool
    ensures { (xs : List Extension) → AreEncodings IsExtension xs (remaining elements.now)
        → (IsTrue result ↔ HaveOne (sought_names kinds) (HasFault fault written.now) xs) }
{
    let mut rest = elements.fork();
    while let Some(extension) = next_extension(&mut rest) {
        if is_found(kinds, fault, written, extension) {
            return true;
        }
    }
    false
}

/// Returns whether an extension of the certificate is of these kinds and has the fault; `written`
/// is the content that it is compared with. The bytes have to start with the certificate.
pub(crate) fn has_one(octets: &Bytes, kinds: Kinds, fault: Fault, written: &[u8]) -> bool
    ensures { (xs : List Extension) → HaveExtensions xs octets.now
        → (IsTrue result ↔ HaveOne (sought_names kinds) (HasFault fault written.now) xs) }
{
    match extensions_in(octets) {
        Some(elements) => is_among(&elements, kinds, fault, written),
        None => false,
    }
}
