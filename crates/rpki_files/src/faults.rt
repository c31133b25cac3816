//! The table of errors. Each line has an error's number, its name in the library, what the library
//! prints of it, what it means for a person, and the section that it breaks. The numbers are those
//! of `include/rpki.h`; no number gets a second meaning.
ghost use Rattle.std.specs.Prelude.{◌≡◌, ◌≢◌, ◌↔◌, ◌<◌, ◌≤◌, ◌/◌, ◌==◌, bytes_eq, find, is_some, map, option_copied, option_map, slice_get, true};
ghost use Rattle.rpki_der.specs.ErrorNames.{decode_error_name};
ghost use Rattle.rpki_der.specs.declared.error.DecodeError.{DecodeError as decodings};
ghost use Rattle.rpki_der.specs.declared.error.DecodeError.TheVariants as decoding;
ghost use Rattle.rpki_der.specs.declared.error.Field.{Field as fields};
ghost use Rattle.rpki_ext.specs.Inspection.{inspection_error_name};
ghost use Rattle.rpki_ext.specs.declared.inspection.InspectionError.{InspectionError as inspections};
ghost use Rattle.rpki_cert.specs.Verification.{verification_error_name};
ghost use Rattle.rpki_cert.specs.declared.verification_error.VerificationError.{VerificationError as verifications};
ghost use Rattle.rpki_crl.specs.Revocation.{revocation_error_name};
ghost use Rattle.rpki_crl.specs.declared.revocation_error.RevocationError.{RevocationError as revocations};
ghost use Rattle.rpki_keys.specs.TalErrors.{tal_error_name};
ghost use Rattle.rpki_keys.specs.declared.tal.tal_error.TalError.{TalError as locators};
ghost use Rattle.rpki_files.specs.FaultTable.{IsNumberedFault, fault_fields, fault_numbered, field_number, inspection_fault, kind_of_hundreds, locator_fault, part_fields, part_numbered, part_table, reading_fault, revocation_fault, or_no_fault, fault_named, table_of, verification_fault};

use rpki_cert::{InspectionError, VerificationError};
use rpki_crl::RevocationError;
use rpki_der::{DecodeError, Field};
use rpki_keys::tal::TalError;

/// A line of the table of errors. If the error is about a part of a certificate or CRL, the part's
/// number is added to the error's, the part's name is printed between `before` and `behind`, and an
/// empty section means that of the part.
#[derive(Clone, Copy)]
pub struct Fault {
    pub number: u32,
    pub name: &'static str,
    pub before: &'static str,
    pub behind: &'static str,
    pub says: &'static str,
    pub section: &'static str,
}

/// A line of the table of parts of a certificate or CRL.
#[derive(Clone, Copy)]
pub struct Part {
    pub name: &'static str,
    pub section: &'static str,
}

/// What an error is about; the hundreds of its number say it.
#[derive(Clone, Copy)]
pub enum FaultKind {
    /// Not one of the other kinds.
    General,
    /// The bytes can't be read.
    Reading,
    /// A certificate doesn't meet its profile.
    Inspection,
    /// A certificate isn't valid at this time, or not its issuer's.
    Verification,
    /// The CRLs don't show that a certificate isn't revoked.
    Revocation,
    /// A path's names, its trust anchor or its last key aren't the required ones.
    Path,
    /// A file isn't a TAL.
    Locator,
    /// No certificate and no CRL is issued.
    Issuing,
}

// Faults, each in a line: the number, the name, and what is printed, or its two texts; then, if
// there is one, the sentence with its section.
macro_rules! table {
    ($(
        $number:literal $name:literal $before:literal $($behind:literal)?
        $(=> $says:literal, $section:literal)?,
    )*) => {
        [$(Fault {
            number: $number,
            name: $name,
            before: $before,
            behind: concat!("", $($behind)?),
            says: concat!("", $($says)?),
            section: concat!("", $($section)?),
        }),*]
    };
}

// Those of no kind.
const GENERAL: &[Fault] = &table! {
    0 "None" "no fault",
    1 "Memory" "out of memory" => "out of memory", "no section",
    2 "BadCall" "lengths or numbers of the call don't fit",
};

// Why octets can't be read; what is said of them is said of a certificate.
const READING: &[Fault] = &table! {
    100 "Truncated" "truncated value"
        => "it doesn't begin with a certificate of the profile", "RFC 6487 4",
    101 "BadLength" "bad length"
        => "it doesn't begin with a certificate of the profile", "RFC 6487 4, own rules",
    102 "BadTag" "unexpected identifier"
        => "it doesn't begin with a certificate of the profile", "RFC 6487 4, own rules",
    103 "BadValue" "bad value"
        => "it doesn't begin with a certificate of the profile", "RFC 6487 4, own rules",
    104 "Trailing" "trailing octets"
        => "it doesn't begin with a certificate of the profile", "RFC 6487 4, own rules",
    105 "TooDeep" "values nested too deep" => "its values are nested too deep", "own rule",
    106 "AlgorithmMismatch" "signature algorithm mismatch"
        => "it doesn't begin with a certificate of the profile", "RFC 6487 4",
    107 "UnexpectedCritical" "unexpected critical extension"
        => "an unknown extension is critical", "RFC 6487 4.8",
    108 "InvalidExtension" "invalid extension"
        => "it doesn't begin with a certificate of the profile", "RFC 6487 4",
    120 "Missing" "missing " "" => "an extension that must be there is missing", "",
    140 "Duplicate" "duplicate " "" => "an extension appears twice", "RFC 5280 4.2",
    160 "Critical" "" " is critical" => "an extension that must not be critical is", "",
    180 "NotCritical" "" " is not critical" => "an extension that must be critical isn't", "",
    200 "WrongResources" "wrong identifier of " ""
        => "the resources are in extensions that its policy doesn't use", "RFC 8360 4.2",
};

// Why a certificate doesn't meet its profile.
const INSPECTION: &[Fault] = &table! {
    300 "AlgorithmMismatch" "signature algorithm mismatch"
        => "the signature algorithm in the to-be-signed part isn't that of the signature",
        "RFC 5280 4.1.1.2",
    301 "Issuer" "invalid issuer"
        => "the issuer's name isn't a CommonName, with a serialNumber at most, in PrintableStrings", "RFC 6487 4.4",
    302 "Subject" "invalid subject"
        => "the subject's name isn't a CommonName, with a serialNumber at most, in PrintableStrings", "RFC 6487 4.5",
    303 "KeyAlgorithm" "invalid key algorithm" => "the key must be RSA, or on P-256 for a router", "RFC 6487 4.7",
    304 "SubjectKeyIdentifier" "subject key identifier mismatch"
        => "the subject key identifier isn't the SHA-1 hash of the key", "RFC 6487 4.8.2",
    305 "ExtendedKeyUsagePresent" "extended key usage present"
        => "Extended Key Usage must be absent", "RFC 6487 4.8.5",
    306 "CaFlagFalse" "CA flag is false"
        => "Basic Constraints don't say that it is a CA", "RFC 6487 4.8.1, RFC 5280 4.2.1.9",
    307 "MissingBasicConstraints" "missing basic constraints"
        => "Basic Constraints are missing", "RFC 6487 4.8.1",
    308 "KeyUsage" "wrong key usage"
        => "the key usage must be keyCertSign and cRLSign for a CA, digitalSignature for others", "RFC 6487 4.8.4",
    309 "MissingCaRepository" "missing CA repository"
        => "the URI of the repository is missing", "RFC 6487 4.8.8.1",
    310 "MissingManifest" "missing manifest"
        => "the URI of the manifest is missing", "RFC 6487 4.8.8.1",
    311 "ManifestNotChild" "manifest not directly below the repository"
        => "the manifest isn't directly in the repository's directory", "own rule",
    312 "SignedObjectPresent" "signed object present"
        => "the URI of a signed object must be absent", "own rule",
    313 "AuthorityKeyIdentifier" "authority key identifier mismatch"
        => "the authority key identifier of a trust anchor isn't its own key's", "RFC 6487 4.8.3",
    314 "CrlUriPresent" "CRL URI present"
        => "the URI of a CRL must be absent", "RFC 6487 4.8.6",
    315 "CaIssuerPresent" "CA issuer present"
        => "the URI of the issuer's certificate must be absent", "RFC 6487 4.8.7",
    316 "MissingCrlUri" "missing CRL URI"
        => "the URI of the issuer's CRL is missing", "RFC 6487 4.8.6",
    317 "BasicConstraintsPresent" "basic constraints present"
        => "Basic Constraints must be absent", "RFC 6487 4.8.1",
    318 "CaRepositoryPresent" "CA repository present"
        => "the URI of a repository must be absent", "RFC 6487 4.8.8.2",
    319 "ManifestPresent" "manifest present"
        => "the URI of a manifest must be absent", "RFC 6487 4.8.8.2",
    320 "MissingSignedObject" "missing signed object"
        => "the URI of the signed object is missing", "RFC 6487 4.8.8.2",
    321 "MissingExtendedKeyUsage" "missing extended key usage"
        => "Extended Key Usage is missing", "RFC 8209 3.1.3.2",
    322 "MissingRouterPurpose" "missing router purpose"
        => "Extended Key Usage doesn't name the purpose of routers", "RFC 8209 3.1.3.2",
    323 "SubjectInformationPresent" "subject information access present"
        => "Subject Information Access must be absent", "RFC 8209 3.1.3.3",
    324 "IpResourcesPresent" "IP resources present"
        => "IP resources must be absent", "RFC 8209 3.1.3.4",
    325 "MissingAsResources" "missing AS resources"
        => "AS resources are missing", "RFC 8209 3.1.3.5",
    326 "InheritedAsResources" "inherited AS resources"
        => "AS resources must not be inherited", "RFC 8209 3.1.3.5",
};

// Why a certificate isn't that of its issuer, at this moment.
const VERIFICATION: &[Fault] = &table! {
    400 "NotYetValid" "certificate not yet valid" => "it isn't valid yet", "RFC 6487 4.6",
    401 "Expired" "certificate expired" => "it has expired", "RFC 6487 4.6",
    402 "InheritedV4" "inherited IPv4 resources"
        => "a trust anchor inherits IPv4 addresses", "RFC 8630 2.3",
    403 "InheritedV6" "inherited IPv6 resources"
        => "a trust anchor inherits IPv6 addresses", "RFC 8630 2.3",
    404 "InheritedAs" "inherited AS resources"
        => "a trust anchor inherits AS numbers", "RFC 8630 2.3",
    405 "MissingKeyId" "missing authority key identifier"
        => "the authority key identifier is missing", "RFC 6487 4.8.3",
    406 "WrongKeyId" "wrong authority key identifier"
        => "the authority key identifier isn't that of the certificate above", "RFC 6487 4.8.3",
    407 "MissingIssuerUri" "missing URI of the issuer's certificate"
        => "the URI of the issuer's certificate is missing", "RFC 6487 4.8.7",
    408 "BadSignature" "bad signature"
        => "the signature doesn't verify with the issuer's key", "RFC 6487 7.2",
    409 "OverclaimV4" "overclaimed IPv4 resources"
        => "it lists IPv4 addresses that its issuer doesn't hold", "RFC 6487 7.2",
    410 "OverclaimV6" "overclaimed IPv6 resources"
        => "it lists IPv6 addresses that its issuer doesn't hold", "RFC 6487 7.2",
    411 "OverclaimAs" "overclaimed AS resources"
        => "it lists AS numbers that its issuer doesn't hold", "RFC 6487 7.2",
};

// Why a certificate isn't shown to be unrevoked.
const REVOCATION: &[Fault] = &table! {
    500 "NoCrl" "missing revocation list"
        => "its issuer's CRL isn't among those given", "RFC 6487 7.2",
    501 "WrongKeyId" "wrong authority key identifier of the revocation list"
        => "the authority key identifier of the CRL isn't its issuer's", "RFC 6487 5",
    502 "BadSignature" "bad signature of the revocation list"
        => "the signature of its issuer's CRL doesn't verify with the issuer's key", "RFC 6487 5",
    503 "Stale" "stale revocation list"
        => "its issuer's CRL isn't current", "RFC 5280 5.1.2.4, 5.1.2.5",
    504 "Revoked" "certificate revoked" => "its issuer has revoked it", "RFC 6487 7.2",
    505 "WrongIssuer" "wrong issuer of the revocation list"
        => "the CRL that its issuer's key signed names another issuer", "RFC 5280 6.3.3",
};

// Why a path's names, its trust anchor or its last key aren't those that are asked.
const PATH: &[Fault] = &table! {
    600 "OtherName" "the issuer isn't the subject of the certificate above"
        => "its issuer isn't the subject of the certificate above", "RFC 6487 7.2",
    601 "OtherKey" "the trust anchor's key isn't the locator's"
        => "its key is that of no TAL that was given", "RFC 8630 3",
    602 "NoResources" "the trust anchor lists no resources"
        => "it lists no IP address and no AS number", "RFC 8630 2.3",
    603 "BadKey" "the last certificate's key isn't one that the RPKI uses"
        => "its key isn't one that the RPKI uses", "RFC 7935 3, RFC 8608 3.1",
};

// Why a file isn't a locator.
const LOCATOR: &[Fault] = &table! {
    700 "NoText" "not UTF-8 text" => "the TAL isn't UTF-8", "RFC 8630 2.2",
    701 "BadUri" "bad URI"
        => "a line of the TAL's URIs isn't an rsync or https URI", "RFC 8630 2.2, own rules",
    702 "NoUri" "no URI" => "the TAL has no URI", "RFC 8630 2.2",
    703 "NoKey" "no key" => "no empty line follows the TAL's URIs", "RFC 8630 2.2",
    704 "BadKey" "bad key"
        => "what follows the TAL's empty line isn't a key in base64", "RFC 8630 2.2, own rules",
};

// Why no certificate and no list is issued.
const ISSUING: &[Fault] = &table! {
    800 "NoKey" "no public key",
    801 "UnusedKey" "a key that the RPKI doesn't use",
    802 "BadUri" "bad URI",
    803 "NoName" "the subject would have no name",
    804 "Unwritable" "fields of no certificate",
    805 "TooLong" "content too long",
    806 "NotToSign" "not what is to be signed",
    807 "OtherOctets" "not the octets that are prepared of the fields",
    808 "OtherList" "the previous list isn't one that the issuer signed",
    809 "Number" "the number isn't greater",
    810 "LongNumber" "the number is too long",
    811 "UpdateOrder" "the next update is before this one",
};

// That there is no fault.
const NO_FAULT: Fault = Fault {
    number: 0,
    name: "None",
    before: "no fault",
    behind: "",
    says: "",
    section: "",
};

// Parts, each in a line: the name and the section.
macro_rules! parts {
    ($($name:literal $section:literal,)*) => {
        [$(Part { name: $name, section: $section }),*]
    };
}

// All parts, by their numbers.
const PARTS: &[Part] = &parts! {
    "BasicConstraints" "RFC 6487 4.8.1",
    "SubjectKeyIdentifier" "RFC 6487 4.8.2",
    "AuthorityKeyIdentifier" "RFC 6487 4.8.3",
    "KeyUsage" "RFC 6487 4.8.4",
    "ExtendedKeyUsage" "RFC 6487 4.8.5",
    "CrlDistributionPoints" "RFC 6487 4.8.6",
    "AuthorityInformationAccess" "RFC 6487 4.8.7",
    "SubjectInformationAccess" "RFC 6487 4.8.8",
    "CertificatePolicies" "RFC 6487 4.8.9",
    "IpResources" "RFC 6487 4.8.10",
    "AsResources" "RFC 6487 4.8.11",
    "Resources" "RFC 6487 4.8.10",
    "CrlNumber" "RFC 6487 5",
};

/// Returns the errors of a kind.
#[tactic(auto, unfolding(crate::specs::FaultTable::general_faults, crate::specs::FaultTable::reading_faults, crate::specs::FaultTable::inspection_faults, crate::specs::FaultTable::verification_faults, crate::specs::FaultTable::revocation_faults, crate::specs::FaultTable::path_faults, crate::specs::FaultTable::locator_faults, crate::specs::FaultTable::issuing_faults))]
pub fn faults_of(kind: FaultKind) -> &'static [Fault]
    ensures { map fault_fields result.now ≡ table_of kind }
{
    match kind {
        FaultKind::General => GENERAL,
        FaultKind::Reading => READING,
        FaultKind::Inspection => INSPECTION,
        FaultKind::Verification => VERIFICATION,
        FaultKind::Revocation => REVOCATION,
        FaultKind::Path => PATH,
        FaultKind::Locator => LOCATOR,
        FaultKind::Issuing => ISSUING,
    }
}

/// Returns the table of parts, by their numbers.
#[tactic(auto, unfolding(crate::specs::FaultTable::part_table))]
pub fn all_parts() -> &'static [Part]
    ensures { map part_fields result.now ≡ part_table }
{
    PARTS
}

fn fault_in(faults: &[Fault], number: u32) -> Option<&Fault>
    ensures { option_copied result ≡ find (λ it. it.number == number) faults.now }
{
    faults.iter().find(|fault| fault.number == number)
}

// The kind of a fault with so many hundreds.
fn kind_of(hundreds: u32) -> FaultKind
    ensures { result ≡ kind_of_hundreds hundreds }
{
    match hundreds {
        1 | 2 => FaultKind::Reading,
        3 => FaultKind::Inspection,
        4 => FaultKind::Verification,
        5 => FaultKind::Revocation,
        6 => FaultKind::Path,
        7 => FaultKind::Locator,
        8 => FaultKind::Issuing,
        _ => FaultKind::General,
    }
}

/// Finds the error with this number.
pub fn numbered(number: u32) -> Option<&'static Fault>
    ensures { option_map fault_fields (option_copied result) ≡ fault_numbered number }
{
    fault_in(faults_of(kind_of(number / 100)), number)
}

fn part_at(parts: &[Part], place: u32) -> Option<&Part>
    ensures { option_copied result ≡ slice_get parts.now place }
{
    parts.get(place as usize)
}

/// Finds the part with this number.
pub fn numbered_part(number: u32) -> Option<&'static Part>
    ensures { option_map part_fields (option_copied result) ≡ part_numbered number }
{
    part_at(all_parts(), number)
}

fn named_in<'a>(faults: &'a [Fault], name: &str) -> Option<&'a Fault>
    ensures { option_copied result ≡ find (λ it. bytes_eq it.name.now name.now) faults.now }
{
    faults.iter().find(|fault| fault.name == name)
}

// The fault, or that there is none.
fn or_none(found: Option<&'static Fault>) -> &'static Fault
    ensures { fault_fields result.now
        ≡ or_no_fault (option_map fault_fields (option_copied found.entry)) }
{
    match found {
        Some(fault) => fault,
        None => &NO_FAULT,
    }
}

/// Finds the error with this name: among those of no kind, then among those of this kind. Returns
/// the table's line `None` if there is none.
pub fn named(kind: FaultKind, name: &str) -> &'static Fault
    ensures { fault_fields result.now ≡ fault_named kind name.now }
{
    let general = named_in(faults_of(FaultKind::General), name);
    or_none(general.or(named_in(faults_of(kind), name)))
}

/// Finds the table's line of an error of reading.
pub fn of_reading(error: &DecodeError) -> &'static Fault
    ensures fault { fault_fields result.now ≡ reading_fault error.now }
    ensures memory { result.now.number ≡ 1 ↔ error.now ≡ decoding.Memory }
    ensures great { result.now.number ≢ 1 → 100 ≤ result.now.number }
    ensures small { result.now.number ≤ 200 }
{
    named(FaultKind::Reading, error.name())
}

/// Finds the table's line of an error of inspection.
pub fn of_inspection(error: InspectionError) -> &'static Fault
    ensures fault { fault_fields result.now ≡ inspection_fault error }
    ensures hundreds { (result.now.number / 100) ≡ 3 }
{
    named(FaultKind::Inspection, error.name())
}

/// Finds the table's line of an error of verification.
pub fn of_verification(error: &VerificationError) -> &'static Fault
    ensures fault { fault_fields result.now ≡ verification_fault error.now }
    ensures hundreds { result.now.number ≢ 1 → (result.now.number / 100) ≡ 4 }
{
    named(FaultKind::Verification, error.name())
}

/// Finds the table's line of an error of revocation.
pub fn of_revocation(error: &RevocationError) -> &'static Fault
    ensures fault { fault_fields result.now ≡ revocation_fault error.now }
    ensures hundreds { (result.now.number / 100) ≡ 5 }
{
    named(FaultKind::Revocation, error.name())
}

/// Finds the table's line of an error of a TAL.
pub fn of_locator(error: &TalError) -> &'static Fault
    ensures fault { fault_fields result.now ≡ locator_fault error.now }
    ensures hundreds { result.now.number ≢ 1 → (result.now.number / 100) ≡ 7 }
{
    named(FaultKind::Locator, error.name())
}

/// Returns the number of a part, which is its index in the table.
pub fn part_number(field: Field) -> u32
    ensures number { result ≡ field_number field }
    ensures small { result < 13 }
{
    field as u32
}

/// States that each error is in the table under its name, and is found by its number too.
pub fn faults_are_found()
    ensures reading { (e : decodings) → IsNumberedFault (decode_error_name e) (reading_fault e) }
    ensures inspection { (e : inspections)
        → IsNumberedFault (inspection_error_name e) (inspection_fault e) }
    ensures verification { (e : verifications)
        → IsNumberedFault (verification_error_name e) (verification_fault e) }
    ensures revocation { (e : revocations)
        → IsNumberedFault (revocation_error_name e) (revocation_fault e) }
    ensures locator { (e : locators) → IsNumberedFault (tal_error_name e) (locator_fault e) }
    ensures part { (field : fields) → is_some (part_numbered (field_number field)) ≡ true }
{}
