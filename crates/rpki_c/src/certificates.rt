//! Certificates for C.
ghost use Rattle.std.specs.Prelude.{ℕ, List, ◌≡◌, ◌≢◌, ◌<◌, ◌≤◌, ◌↔◌, ◌==◌, not, map, IsTrue, IsErr, IsNone, IfSome, OnOk, IfOk, IfErr, option_map, slice_range};
ghost use Rattle.rpki_ext.specs.Kinds.{Means};
ghost use Rattle.rpki_ext.specs.declared.inspection.InspectionError.{InspectionError as inspections};
ghost use Rattle.rpki_cert.specs.Certificates.{CertFields, IsCertificate};
ghost use Rattle.rpki_cert.specs.Profiles.{MeetsProfile, IsFirstFault};
ghost use Rattle.rpki_cert.specs.declared.inspect.Kind.{Kind as kinds};
ghost use Rattle.rpki_c.specs.Choices.{family_number, family_field, listed_blocks, uri_number, uri_field, octets_if_any, name_number, name_field};
ghost use Rattle.rpki_c.specs.Contents.{state_number, TellsKey, TellsKeys, TellsCertificate};
ghost use Rattle.rpki_folder.specs.Folders.{BeginsNoCertificate};
ghost use Rattle.rpki_parts.specs.NameTexts.{name_text};
ghost use Rattle.rpki_c.specs.FaultNumbers.{IsReadingNumber, inspection_number};
ghost use Rattle.rpki_c.specs.Writing.{IsWrittenInto, as_struct, ip_struct};
ghost use Rattle.rpki_c.specs.declared.certificates.Family.{Family as families};
ghost use Rattle.rpki_c.specs.declared.certificates.CertUri.{CertUri as uris};
ghost use Rattle.rpki_c.specs.declared.certificates.CertName.{CertName as names};
ghost use Rattle.rpki_c.specs.Questions.{kind_number};

use crate::copying::{RpkiAsRange, RpkiIpRange, put_addresses, put_as_numbers, put_octets};
use crate::faults::{BAD_CALL, MEMORY, NONE, of_decoding, of_inspection};
use crate::moments::{RpkiTime, parts_of};
use crate::places::placed;
use rpki_blocks::{Bound, IpResources, Overclaim, Resources};
use rpki_cert::{Cert, InspectionError, KeyUsage, Kind, TbsCert};
use rpki_keys::is_usable;
use rpki_parts::Name;
use std::alloc::{AllocError, Global};

/// The fields of a certificate that have a fixed size.
#[repr(C)]
#[derive(Clone, Copy)]
pub struct RpkiCertificate {
    pub not_before: RpkiTime,
    pub not_after: RpkiTime,
    pub serial: [u8; 20],
    pub subject_key: [u8; 20],
    pub authority_key: [u8; 20],
    pub has_authority_key: u8,
    pub is_authority: u8,
    /// 0: a CA's, 1: an end entity's.
    pub key_usage: u8,
    /// 0: overclaiming is rejected, 1: it is trimmed (RFC 8360).
    pub overclaim: u8,
    /// 0: missing, 1: inherited, 2: listed.
    pub v4: u8,
    pub v6: u8,
    pub asn: u8,
}

fn state<B: Bound>(resources: &Resources<B>) -> u8
    ensures { result ≡ state_number resources.now }
{
    if resources.is_inherited() {
        1
    } else if resources.is_present() {
        2
    } else {
        0
    }
}

fn put_keys(tbs: &TbsCert, out: &mut RpkiCertificate)
    ensures { TellsKeys tbs.now out.new }
{
    out.serial = tbs.serial_number().octets();
    out.subject_key = *tbs.subject_key_identifier().as_octets();
    match tbs.authority_key_identifier() {
        Some(identifier) => {
            out.has_authority_key = 1;
            out.authority_key = *identifier.as_octets();
        }
        None => {
            out.has_authority_key = 0;
            out.authority_key = [0; 20];
        }
    }
}

fn put_data(tbs: &TbsCert, out: &mut RpkiCertificate)
    ensures { TellsCertificate tbs.now out.new }
{
    put_keys(tbs, out);
    out.not_before = parts_of(tbs.validity().not_before());
    out.not_after = parts_of(tbs.validity().not_after());
    out.is_authority = if tbs.is_ca() { 1 } else { 0 };
    out.key_usage = match tbs.key_usage() {
        KeyUsage::Ca => 0,
        KeyUsage::Ee => 1,
    };
    out.overclaim = match tbs.overclaim() {
        Overclaim::Refuse => 0,
        Overclaim::Trim => 1,
    };
    out.v4 = state(tbs.v4_resources());
    out.v6 = state(tbs.v6_resources());
    out.asn = state(tbs.as_resources());
}

/// Returns the certificate that the bytes start with, or the number of an error.
#[tactic(auto, using(crate::proofs::Unread::unless_memory))]
pub(crate) fn decoded(alloc: Global, octets: &[u8]) -> Result<Cert, u32>
    ensures read { IfOk result (λ cert. Means IsCertificate cert octets.now) }
    ensures fault { IfErr result (λ fault. (fault ≢ NONE) × (fault ≢ BAD_CALL)) }
    ensures reading { IfErr result (λ fault. fault < 300) }
    ensures unread { IfErr result (λ fault. fault ≢ MEMORY → BeginsNoCertificate octets.now) }
    ensures code { IfErr result IsReadingNumber }
{
    match Cert::decode(alloc, octets) {
        Ok(cert) => Ok(cert),
        Err(error) => {
            let fault = of_decoding(&error);
            drop(error);
            Err(fault)
        }
    }
}

/// Reads the certificate at the start of the bytes.
///
/// # Errors
///
/// Returns the number of an error, or 0.
///
/// # Not checked
///
/// The profile, the signature and the validity.
#[unsafe(no_mangle)]
pub extern "C" fn rpki_certificate_read(
    alloc: Global,
    octets: &[u8],
    out: &mut RpkiCertificate,
) -> u32
    ensures read { result ≡ NONE → (c : CertFields) × Means IsCertificate c octets.now
        × TellsCertificate c.fields out.new }
    ensures untouched { result ≢ NONE → out.new ≡ out.old }
    ensures unread { result ≢ NONE → result ≢ MEMORY → BeginsNoCertificate octets.now }
    ensures code { result ≢ NONE → IsReadingNumber result }
{
    match decoded(alloc, octets) {
        Ok(cert) => {
            put_data(cert.as_tbs(), out);
            drop(cert);
            NONE
        }
        Err(fault) => fault,
    }
}

/// Writes the certificate's SubjectPublicKeyInfo in DER: as many bytes as fit, and in `count` how
/// many there are. Writes 1 in `is_used` if the RPKI uses such a key (RFC 7935 3), and else 0.
///
/// # Errors
///
/// Returns the number of an error, or 0.
#[unsafe(no_mangle)]
pub extern "C" fn rpki_certificate_key(
    alloc: Global,
    octets: &[u8],
    out: &mut [u8],
    count: &mut u64,
    is_used: &mut u8,
) -> u32
    ensures key { result ≡ NONE → (info : List ℕ)
        × TellsKey octets.now info (is_used.new ≡ 1) × (is_used.new ≤ 1)
        × IsWrittenInto info out.old out.new count.new }
    ensures at_fault { result ≢ NONE → (count.new ≡ 0) × (is_used.new ≡ 0) }
    ensures untouched { result ≢ NONE → out.new ≡ out.old }
    ensures unread { result ≢ NONE → result ≢ MEMORY → BeginsNoCertificate octets.now }
    ensures code { result ≢ NONE → IsReadingNumber result }
{
    *count = 0;
    *is_used = 0;
    match placed(alloc, octets) {
        Ok((cert, places)) => {
            let (from, length) = (places.key_at as usize, places.key_length as usize);
            *count = put_octets(&octets[from..from + length], out);
            *is_used = if is_usable(cert.as_tbs().subject_public_key_info()) {
                1
            } else {
                0
            };
            drop(cert);
            NONE
        }
        Err(fault) => fault,
    }
}

/// Returns the kind with this number of the header.
pub(crate) fn kind_of(number: u32) -> Option<Kind>
    ensures none { IsNone result ↔ 4 < number }
    ensures kind { IfSome result (λ kind. number ≡ kind_number kind) }
{
    match number {
        0 => Some(Kind::Anchor),
        1 => Some(Kind::Authority),
        2 => Some(Kind::EndEntity),
        3 => Some(Kind::Detached),
        4 => Some(Kind::Router),
        _ => None,
    }
}

// Whether the certificate meets the profile of the kind.
fn inspect(cert: &Cert, kind: Kind, strict: bool) -> Result<(), InspectionError>
    ensures ok { OnOk result (MeetsProfile kind strict cert.now) }
    ensures fault { IfErr result (IsFirstFault kind strict cert.now) }
{
    match kind {
        Kind::Anchor => cert.inspect_ta(strict),
        Kind::Authority => cert.inspect_ca(strict),
        Kind::EndEntity => cert.inspect_ee(strict),
        Kind::Detached => cert.inspect_detached_ee(strict),
        Kind::Router => cert.inspect_router(strict),
    }
}

/// Inspects the certificate at the start of the bytes as one of a kind (RFC 6487 4): 0 a trust
/// anchor, 1 a CA, 2 an end entity, 3 a detached end entity, 4 a router.
///
/// # Errors
///
/// Returns the number of the first error, 2 if no kind has the number, or 0 if the certificate
/// meets the profile.
///
/// # Not checked
///
/// The signature and the validity.
#[unsafe(no_mangle)]
pub extern "C" fn rpki_certificate_inspect(
    alloc: Global,
    octets: &[u8],
    kind: u32,
    strict: u32,
) -> u32
    ensures bad_call { (result ≡ BAD_CALL) ↔ 4 < kind }
    ensures met { result ≡ NONE → (k : kinds) × (kind ≡ kind_number k)
        × (c : CertFields) × Means IsCertificate c octets.now
        × MeetsProfile k (not (strict == 0)) c }
    ensures fault { 300 ≤ result → (k : kinds) × (kind ≡ kind_number k)
        × (c : CertFields) × Means IsCertificate c octets.now
        × (e : inspections) × (result ≡ inspection_number e)
        × IsFirstFault k (not (strict == 0)) c e }
    ensures unread { result ≢ NONE → result ≢ MEMORY → result ≢ BAD_CALL → result < 300
        → BeginsNoCertificate octets.now }
    ensures code { result ≢ NONE → result ≢ BAD_CALL → result < 300 → IsReadingNumber result }
{
    let Some(kind) = kind_of(kind) else {
        return BAD_CALL;
    };
    match decoded(alloc, octets) {
        Ok(cert) => {
            let answer = inspect(&cert, kind, strict != 0);
            drop(cert);
            match answer {
                Ok(()) => NONE,
                Err(error) => of_inspection(error),
            }
        }
        Err(fault) => fault,
    }
}

/// A family of addresses.
#[derive(Clone, Copy)]
enum Family {
    V4,
    V6,
}

// The family that has this number.
fn family_of(number: u32) -> Option<Family>
    ensures none { IsNone result ↔ (number ≢ 4) × (number ≢ 6) }
    ensures family { IfSome result (λ family. number ≡ family_number family) }
{
    match number {
        4 => Some(Family::V4),
        6 => Some(Family::V6),
        _ => None,
    }
}

fn addresses_of(tbs: &TbsCert, family: Family) -> &IpResources
    ensures { result.now ≡ family_field family tbs.now.extensions }
{
    match family {
        Family::V4 => tbs.v4_resources(),
        Family::V6 => tbs.v6_resources(),
    }
}

// Writes the ranges of a family that are listed, as many as there is room for, and tells how many
// there are.
fn put_family(tbs: &TbsCert, family: Family, out: &mut [RpkiIpRange]) -> u64
    ensures { let blocks = listed_blocks (family_field family tbs.now.extensions) in
        IsWrittenInto (map ip_struct blocks) out.old out.new result }
{
    match addresses_of(tbs, family).as_blocks() {
        Some(blocks) => put_addresses(blocks, out),
        None => 0,
    }
}

/// Writes the ranges of addresses that the certificate lists, of IPv4 if `family` is 4, of IPv6 if
/// it is 6: as many as fit, and in `count` how many there are.
///
/// # Errors
///
/// Returns the number of an error, 2 if `family` is another number, or 0.
#[unsafe(no_mangle)]
pub extern "C" fn rpki_certificate_addresses(
    alloc: Global,
    octets: &[u8],
    family: u32,
    out: &mut [RpkiIpRange],
    count: &mut u64,
) -> u32
    ensures bad_call { (result ≡ BAD_CALL) ↔ (family ≢ 4) × (family ≢ 6) }
    ensures listed { result ≡ NONE → (f : families) × (family ≡ family_number f)
        × (c : CertFields) × Means IsCertificate c octets.now
        × IsWrittenInto (map ip_struct (listed_blocks (family_field f c.fields.extensions)))
        out.old out.new count.new }
    ensures at_fault { result ≢ NONE → count.new ≡ 0 }
    ensures untouched { result ≢ NONE → out.new ≡ out.old }
    ensures unread { result ≢ NONE → result ≢ MEMORY → result ≢ BAD_CALL
        → BeginsNoCertificate octets.now }
    ensures code { result ≢ NONE → result ≢ BAD_CALL → IsReadingNumber result }
{
    *count = 0;
    let Some(family) = family_of(family) else {
        return BAD_CALL;
    };
    match decoded(alloc, octets) {
        Ok(cert) => {
            *count = put_family(cert.as_tbs(), family, out);
            drop(cert);
            NONE
        }
        Err(fault) => fault,
    }
}

/// Writes the ranges of AS numbers that the certificate lists: as many as fit, and in `count` how
/// many there are.
///
/// # Errors
///
/// Returns the number of an error, or 0.
#[unsafe(no_mangle)]
pub extern "C" fn rpki_certificate_as_numbers(
    alloc: Global,
    octets: &[u8],
    out: &mut [RpkiAsRange],
    count: &mut u64,
) -> u32
    ensures listed { result ≡ NONE → (c : CertFields) × Means IsCertificate c octets.now
        × IsWrittenInto (map as_struct (listed_blocks c.fields.extensions.as_resources))
        out.old out.new count.new }
    ensures at_fault { result ≢ NONE → count.new ≡ 0 }
    ensures untouched { result ≢ NONE → out.new ≡ out.old }
    ensures unread { result ≢ NONE → result ≢ MEMORY → BeginsNoCertificate octets.now }
    ensures code { result ≢ NONE → IsReadingNumber result }
{
    *count = 0;
    match decoded(alloc, octets) {
        Ok(cert) => {
            if let Some(blocks) = cert.as_tbs().as_resources().as_blocks() {
                *count = put_as_numbers(blocks, out);
            }
            drop(cert);
            NONE
        }
        Err(fault) => fault,
    }
}

/// A URI of a certificate.
#[derive(Clone, Copy)]
pub(crate) enum CertUri {
    CaIssuer,
    Crl,
    Repository,
    Manifest,
    SignedObject,
    Notify,
}

impl CertUri {
    ghost use Rattle.std.specs.Prelude.{◌≡◌};
    ghost use Rattle.rpki_c.specs.Choices.{uri_number};

    /// Returns the number of the URI in the header.
    pub(crate) fn number(self) -> u32
        ensures { result ≡ uri_number self }
    {
        match self {
            CertUri::CaIssuer => 0,
            CertUri::Crl => 1,
            CertUri::Repository => 2,
            CertUri::Manifest => 3,
            CertUri::SignedObject => 4,
            CertUri::Notify => 5,
        }
    }
}

// The URI that the header numbers so.
fn uri_numbered(number: u32) -> Option<CertUri>
    ensures none { IsNone result ↔ 5 < number }
    ensures uri { IfSome result (λ which. number ≡ uri_number which) }
{
    match number {
        0 => Some(CertUri::CaIssuer),
        1 => Some(CertUri::Crl),
        2 => Some(CertUri::Repository),
        3 => Some(CertUri::Manifest),
        4 => Some(CertUri::SignedObject),
        5 => Some(CertUri::Notify),
        _ => None,
    }
}

fn uri_of(tbs: &TbsCert, which: CertUri) -> Option<&[u8]>
    ensures { option_map (λ uri. uri.now) result ≡ uri_field which tbs.now.extensions }
{
    match which {
        CertUri::CaIssuer => tbs.ca_issuer().map(|uri| uri.as_bytes()),
        CertUri::Crl => tbs.crl_uri().map(|uri| uri.as_bytes()),
        CertUri::Repository => tbs.ca_repository().map(|uri| uri.as_bytes()),
        CertUri::Manifest => tbs.rpki_manifest().map(|uri| uri.as_bytes()),
        CertUri::SignedObject => tbs.signed_object().map(|uri| uri.as_bytes()),
        CertUri::Notify => tbs.rpki_notify().map(|uri| uri.as_bytes()),
    }
}

// Writes the octets of a URI, as many as there is room for, and tells how many there are.
fn put_uri(tbs: &TbsCert, which: CertUri, out: &mut [u8]) -> u64
    ensures { let octets = octets_if_any (uri_field which tbs.now.extensions) in
        IsWrittenInto octets out.old out.new result }
{
    match uri_of(tbs, which) {
        Some(uri) => put_octets(uri, out),
        None => 0,
    }
}

/// Writes one URI: 0 of the issuer's certificate, 1 of the CRL, 2 of the repository, 3 of the
/// manifest, 4 of the signed object, 5 of the notification file. Writes as many bytes as fit, and
/// in `count` how many there are; 0 if the certificate doesn't have the URI.
///
/// # Errors
///
/// Returns the number of an error, 2 if `which` is another number, or 0.
#[unsafe(no_mangle)]
pub extern "C" fn rpki_certificate_uri(
    alloc: Global,
    octets: &[u8],
    which: u32,
    out: &mut [u8],
    count: &mut u64,
) -> u32
    ensures bad_call { (result ≡ BAD_CALL) ↔ 5 < which }
    ensures uri { result ≡ NONE → (u : uris) × (which ≡ uri_number u)
        × (c : CertFields) × Means IsCertificate c octets.now
        × IsWrittenInto (octets_if_any (uri_field u c.fields.extensions)) out.old out.new count.new }
    ensures at_fault { result ≢ NONE → count.new ≡ 0 }
    ensures untouched { result ≢ NONE → out.new ≡ out.old }
    ensures unread { result ≢ NONE → result ≢ MEMORY → result ≢ BAD_CALL
        → BeginsNoCertificate octets.now }
    ensures code { result ≢ NONE → result ≢ BAD_CALL → IsReadingNumber result }
{
    *count = 0;
    let Some(which) = uri_numbered(which) else {
        return BAD_CALL;
    };
    match decoded(alloc, octets) {
        Ok(cert) => {
            *count = put_uri(cert.as_tbs(), which, out);
            drop(cert);
            NONE
        }
        Err(fault) => fault,
    }
}

/// A name in a certificate, in DER or as text.
#[derive(Clone, Copy)]
enum CertName {
    Issuer,
    Subject,
    IssuerText,
    SubjectText,
}

// The name that has this number.
fn name_numbered(number: u32) -> Option<CertName>
    ensures none { IsNone result ↔ 3 < number }
    ensures name { IfSome result (λ which. number ≡ name_number which) }
{
    match number {
        0 => Some(CertName::Issuer),
        1 => Some(CertName::Subject),
        2 => Some(CertName::IssuerText),
        3 => Some(CertName::SubjectText),
        _ => None,
    }
}

// Writes the text of a name, as much as there is room for, and tells how long it is.
fn put_text(alloc: Global, name: &Name, out: &mut [u8]) -> Result<u64, AllocError>
    ensures written { IfOk result (IsWrittenInto (name_text name.now) out.old out.new) }
    ensures untouched { IsErr result → out.new ≡ out.old }
{
    let text = format!(in alloc; "{name}")?;
    let count = put_octets(text.as_bytes(), out);
    drop(text);
    Ok(count)
}

// Writes a name, as much as there is room for, and tells how long it is.
fn put_name(
    alloc: Global,
    tbs: &TbsCert,
    which: CertName,
    out: &mut [u8],
) -> Result<u64, AllocError>
    ensures written { IfOk result (IsWrittenInto (name_field which tbs.now) out.old out.new) }
    ensures untouched { IsErr result → out.new ≡ out.old }
{
    match which {
        CertName::Issuer => Ok(put_octets(tbs.issuer().as_bytes(), out)),
        CertName::Subject => Ok(put_octets(tbs.subject().as_bytes(), out)),
        CertName::IssuerText => put_text(alloc, tbs.issuer(), out),
        CertName::SubjectText => put_text(alloc, tbs.subject(), out),
    }
}

/// Writes a name: in DER the issuer's if `which` is 0, the subject's if it is 1; and as text (RFC
/// 4514, but in the order of the name) the issuer's if it is 2, the subject's if it is 3. Writes as
/// many bytes as fit, and in `count` how many there are.
///
/// # Errors
///
/// Returns the number of an error, 2 if `which` is another number, or 0.
#[unsafe(no_mangle)]
pub extern "C" fn rpki_certificate_name(
    alloc: Global,
    octets: &[u8],
    which: u32,
    out: &mut [u8],
    count: &mut u64,
) -> u32
    ensures bad_call { (result ≡ BAD_CALL) ↔ 3 < which }
    ensures name { result ≡ NONE → (n : names) × (which ≡ name_number n)
        × (c : CertFields) × Means IsCertificate c octets.now
        × IsWrittenInto (name_field n c.fields) out.old out.new count.new }
    ensures at_fault { result ≢ NONE → count.new ≡ 0 }
    ensures untouched { result ≢ NONE → out.new ≡ out.old }
    ensures unread { result ≢ NONE → result ≢ MEMORY → result ≢ BAD_CALL
        → BeginsNoCertificate octets.now }
    ensures code { result ≢ NONE → result ≢ BAD_CALL → IsReadingNumber result }
{
    *count = 0;
    let Some(which) = name_numbered(which) else {
        return BAD_CALL;
    };
    match decoded(alloc, octets) {
        Ok(cert) => {
            let put = put_name(alloc, cert.as_tbs(), which, out);
            drop(cert);
            match put {
                Ok(length) => {
                    *count = length;
                    NONE
                }
                Err(_) => MEMORY,
            }
        }
        Err(fault) => fault,
    }
}
