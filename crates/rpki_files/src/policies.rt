//! The extensions of bytes that are built like a certificate, and whether Certificate Policies are
//! among them.
ghost use Rattle.std.specs.Prelude.{◌≡◌, ◌↔◌, IsTrue, option_map};
ghost use Rattle.rpki_der.specs.Encoding.{Means};
ghost use Rattle.rpki_der.specs.Place.{remaining};
ghost use Rattle.rpki_ext.specs.ExtensionKinds.{certificate_policies};
ghost use Rattle.rpki_der.specs.Values.Reading.{value_at};
ghost use Rattle.rpki_files.specs.KnownKinds.{HasContent};
ghost use Rattle.rpki_files.specs.PolicyPresence.{AreAnyExtensions, BeginsWithOne, HasPolicies, HasPurposes, IsOfMode, IsOneOf, IsOtherCertificate, IsWanted, Lack, resource_identifiers};
ghost use Rattle.rpki_files.specs.PolicyPresence.Reading.{extensions_at, rest_at};

use crate::kinds::Kind;
use bytes::Bytes;
use rpki_blocks::Overclaim;
use rpki_der::{Cursor, Field, oid, tag, take_extension};
use rpki_ext::take_certificate_policies;

// The content of the value with this identifier octet that stands next.
pub(crate) fn content<'a>(fields: &mut Cursor<'a>, identifier: u8) -> Option<Cursor<'a>>
    ensures { option_map (λ c. (remaining c, remaining fields.new)) result
        ≡ value_at identifier (remaining fields.old) }
{
    fields.take_value(identifier).ok()
}

// Passes over the fields of a certificate before its extensions: the version, the serial number,
// the signature algorithm, the issuer, the validity, the subject and the key.
#[tactic(auto, unfolding(crate::specs::PolicyPresence::Reading::rest_at))]
fn past_fields(fields: &mut Cursor<'_>) -> Option<()>
    ensures { option_map (λ _. remaining fields.new) result ≡ rest_at (remaining fields.old) }
{
    let _version = content(fields, 0xa0)?;
    let _serial = content(fields, tag::INTEGER)?;
    let _algorithm = content(fields, tag::SEQUENCE)?;
    let _issuer = content(fields, tag::SEQUENCE)?;
    let _validity = content(fields, tag::SEQUENCE)?;
    let _subject = content(fields, tag::SEQUENCE)?;
    let _key = content(fields, tag::SEQUENCE)?;
    Some(())
}

/// Returns a cursor over the extensions of bytes that are built like a certificate, if they are.
#[tactic(auto, unfolding(crate::specs::PolicyPresence::Reading::extensions_at))]
pub fn extensions_in(octets: &Bytes) -> Option<Cursor<'_>>
    ensures { option_map remaining result ≡ extensions_at octets.now }
{
    let mut file = Cursor::new(octets);
    let mut whole = content(&mut file, tag::SEQUENCE)?;
    let mut data = content(&mut whole, tag::SEQUENCE)?;
    past_fields(&mut data)?;
    let mut outer = content(&mut data, 0xa3)?;
    let elements = content(&mut outer, tag::SEQUENCE)?;
    if outer.is_empty() {
        Some(elements)
    } else {
        None
    }
}

// Which extensions are looked for.
#[derive(Clone, Copy)]
pub(crate) enum Wanted {
    // Certificate Policies, be they those of the profile or not.
    Policies,
    // Those that only certificates of the RPKI have: resources, and its one policy.
    OfRpki,
    // Those of a kind that a fault names, in a list or in a certificate.
    Named(Field, bool),
    // Those resources, under the identifier that the policy of this mode asks for.
    Resources(Field, Overclaim),
    // The policy of this mode.
    Policy(Overclaim),
}

// Whether an identifier is one of the four that resources have (RFC 3779 2.2.1, 3.2.1, RFC 8360
// 4.2).
fn is_of_resources(identifier: &[u8]) -> bool
    ensures { IsTrue result ↔ IsOneOf resource_identifiers identifier.now }
{
    identifier == oid::PE_IP_ADDR_BLOCK
        || identifier == oid::PE_AUTONOMOUS_SYS_IDS
        || identifier == oid::PE_IP_ADDR_BLOCK_V2
        || identifier == oid::PE_AUTONOMOUS_SYS_IDS_V2
}

// Whether the content begins with the policies of the profile.
fn has_profile_policies(content: &mut Cursor<'_>) -> bool
    ensures { IsTrue result ↔ HasContent Kind.CertificatePolicies (remaining content.old) }
{
    take_certificate_policies(content).is_ok()
}

// Whether it is this mode.
fn is_mode(mode: Overclaim, this: Overclaim) -> bool
    ensures { IsTrue result ↔ mode ≡ this }
{
    mode == this
}

// Whether the content begins with the policy of this mode.
fn has_policy(content: &mut Cursor<'_>, mode: Overclaim) -> bool
    ensures { IsTrue result
        ↔ Means certificate_policies.format.encodes mode (remaining content.old) }
{
    match take_certificate_policies(content) {
        Ok(other) => is_mode(other, mode),
        Err(fault) => {
            drop(fault);
            false
        }
    }
}

// Whether it is the identifier of these resources under the policy of this mode.
fn is_of_mode(identifier: &[u8], field: Field, mode: Overclaim) -> bool
    ensures { IsTrue result ↔ IsOfMode field mode identifier.now }
{
    match field {
        Field::IpResources => identifier == mode.ip_res_id(),
        Field::AsResources => identifier == mode.as_res_id(),
        _ => false,
    }
}

impl Wanted {
    // Whether it is an extension with this identifier and this content.
    fn is_met(self, identifier: &[u8], content: &mut Cursor<'_>) -> bool
        ensures { IsTrue result ↔ IsWanted self identifier.now (remaining content.old) }
    {
        let is_policies = identifier == oid::CE_CERTIFICATE_POLICIES;
        match self {
            Wanted::Policies => is_policies,
            Wanted::OfRpki => {
                is_of_resources(identifier) || (is_policies && has_profile_policies(content))
            }
            Wanted::Named(field, is_list) => Kind::of(identifier, is_list).is_named(field),
            Wanted::Resources(field, mode) => is_of_mode(identifier, field, mode),
            Wanted::Policy(mode) => is_policies && has_policy(content, mode),
        }
    }
}

// Whether a wanted extension stands among those at the front.
pub(crate) fn begins_with_one(elements: &Cursor<'_>, wanted: Wanted) -> bool
    ensures { IsTrue result ↔ BeginsWithOne wanted (remaining elements.now) }
{
    let mut rest = elements.fork();
    // Each has an octet at least.
    for _ in 0..elements.rest().len() {
        match take_extension(&mut rest) {
            Ok((identifier, _, mut content)) => {
                if wanted.is_met(identifier, &mut content) {
                    return true;
                }
            }
            Err(fault) => {
                drop(fault);
                return false;
            }
        }
    }
    false
}

// Whether extensions stand there, and nothing else.
fn are_extensions(elements: &Cursor<'_>) -> bool
    ensures { IsTrue result ↔ AreAnyExtensions (remaining elements.now) }
{
    let mut rest = elements.fork();
    // Each has an octet at least.
    for _ in 0..elements.rest().len() {
        if rest.is_empty() {
            return true;
        }
        match take_extension(&mut rest) {
            Ok(_) => {}
            Err(fault) => {
                drop(fault);
                return false;
            }
        }
    }
    true
}

// Whether extensions stand there, and nothing else, of which none is wanted.
pub(crate) fn lack(elements: &Cursor<'_>, wanted: Wanted) -> bool
    ensures { IsTrue result ↔ Lack wanted (remaining elements.now) }
{
    are_extensions(elements) && !begins_with_one(elements, wanted)
}

/// Returns whether the extensions at the start of a certificate's have one with the identifier of
/// Certificate Policies (RFC 5280 4.2.1.4), whether it is of the profile or not.
pub fn has_policies(octets: &Bytes) -> bool
    ensures { IsTrue result ↔ HasPolicies octets.now }
{
    // For the proof only: what is read are octets.
    let _octets = Cursor::new(octets).rest();
    match extensions_in(octets) {
        Some(elements) => begins_with_one(&elements, Wanted::Policies),
        None => false,
    }
}

/// Returns whether the extensions at the start of a certificate's have one with the identifier of
/// Extended Key Usage (RFC 5280 4.2.1.12).
pub fn has_purposes(octets: &Bytes) -> bool
    ensures { IsTrue result ↔ HasPurposes octets.now }
{
    // For the proof only: what is read are octets.
    let _octets = Cursor::new(octets).rest();
    match extensions_in(octets) {
        Some(elements) => {
            begins_with_one(&elements, Wanted::Named(Field::ExtendedKeyUsage, false))
        }
        None => false,
    }
}

/// Returns whether bytes are built like a certificate with well-formed extensions, none of which is
/// one that only certificates of the RPKI have: resources, or the RPKI's policy (RFC 3779, RFC
/// 6484).
pub fn is_other_certificate(octets: &Bytes) -> bool
    ensures { IsTrue result ↔ IsOtherCertificate octets.now }
{
    // For the proof only: what is read are octets.
    let _octets = Cursor::new(octets).rest();
    match extensions_in(octets) {
        Some(elements) => lack(&elements, Wanted::OfRpki),
        None => false,
    }
}
