//! What an error means for a person, and the section of the standard that it breaks.
ghost use Rattle.std.specs.Prelude.{◌≡◌};
ghost use Rattle.rpki_files.specs.FaultTable.{fault_fields};
ghost use Rattle.rpki_files.specs.FaultRules.{IsFileRule, IsProfileRule, IsReadingRule, field_section, inspection_rule, key_rule, list_rule, name_rule, no_memory, no_resources, other_key, profile_rule, reading_rule, revocation_rule, fault_rule, rule_of, tal_rule, verification_rule};

use crate::faults::{self, Fault, FaultKind, numbered_part, part_number};
use crate::policies::{has_policies, has_purposes};
use bytes::Bytes;
use rpki_cert::{InspectionError, VerificationError};
use rpki_crl::RevocationError;
use rpki_der::{DecodeError, Field};
use rpki_keys::tal::TalError;
use rpki_parts::PublicKeyFormat;

/// A sentence, and the section that requires it.
#[derive(Clone, Copy)]
pub struct Rule {
    pub says: &'static str,
    pub section: &'static str,
}

// A line for each fault: its name, what it means, and the section that it breaks; and one for
// others.
macro_rules! rules {
    ($fault:ident: $faults:ident;
        $($name:ident $(($part:tt))? => $says:literal, $section:literal;)*
        $(_ => $others_say:literal, $others_section:literal;)?) => {
        *match $fault {
            $($faults::$name $(($part))? => &Rule { says: $says, section: $section },)*
            $(_ => &Rule { says: $others_say, section: $others_section },)?
        }
    };
}

fn meaning(says: &'static str, section: &'static str) -> Rule
    ensures { rule_of result ≡ record { says = says.now; section = section.now } }
{
    Rule { says, section }
}

fn rule_in(fault: &Fault) -> Rule
    ensures { rule_of result ≡ fault_rule (fault_fields fault.now) }
{
    meaning(fault.says, fault.section)
}

/// Returns what it means that memory ran out.
pub fn out_of_memory() -> Rule
    ensures { rule_of result ≡ no_memory }
{
    rule_in(faults::named(FaultKind::General, "Memory"))
}

/// Returns what an error of inspection means.
pub fn of_inspection(fault: InspectionError) -> Rule
    ensures { rule_of result ≡ inspection_rule fault }
{
    rule_in(faults::of_inspection(fault))
}

// What a fault of inspection of a certificate means, which has Extended Key Usage, or hasn't.
fn of_profile(fault: InspectionError, purposes: bool) -> Rule
    ensures { rule_of result ≡ profile_rule fault purposes }
{
    match fault {
        InspectionError::KeyAlgorithm if purposes => meaning(
            "it has Extended Key Usage, as only a router's certificate, but no key on the curve P-256",
            "RFC 6487 4.8.5",
        ),
        _ => of_inspection(fault),
    }
}

/// Returns what an error of inspection means for the certificate at the start of these bytes.
pub fn of_inspected(fault: InspectionError, octets: &Bytes) -> Rule
    ensures { IsProfileRule fault octets.now (rule_of result) }
{
    of_profile(fault, has_purposes(octets))
}

/// Returns what an error of verification means.
pub fn of_verification(fault: &VerificationError) -> Rule
    ensures { rule_of result ≡ verification_rule fault.now }
{
    rule_in(faults::of_verification(fault))
}

/// Returns what it means that no given TAL has the trust anchor's key (RFC 8630 3).
pub fn of_other_key() -> Rule
    ensures { rule_of result ≡ other_key }
{
    rule_in(faults::named(FaultKind::Path, "OtherKey"))
}

/// Returns what it means that a trust anchor lists no resources (RFC 8630 2.3).
pub fn of_no_resources() -> Rule
    ensures { rule_of result ≡ no_resources }
{
    rule_in(faults::named(FaultKind::Path, "NoResources"))
}

/// Returns what is wrong with a file that is given as a TAL.
pub fn of_tal(fault: &TalError) -> Rule
    ensures { rule_of result ≡ tal_rule fault.now }
{
    rule_in(faults::of_locator(fault))
}

/// Returns what it means that name chaining fails at this path index (RFC 5280 6.1.3 (a) (4)).
pub fn of_name(place: usize) -> Rule
    ensures { rule_of result ≡ name_rule place }
{
    if place == 0 {
        return meaning(
            "the trust anchor's issuer isn't its subject",
            "RFC 8630 2.3",
        );
    }
    rule_in(faults::named(FaultKind::Path, "OtherName"))
}

/// Returns what an error of revocation means.
pub fn of_revocation(fault: &RevocationError) -> Rule
    ensures { rule_of result ≡ revocation_rule fault.now }
{
    rule_in(faults::of_revocation(fault))
}

/// Returns why the last certificate's key, which has this algorithm, can't be used (RFC 7935 3).
pub fn of_key(algorithm: PublicKeyFormat) -> Rule
    ensures { rule_of result ≡ key_rule algorithm }
{
    rules! { algorithm: PublicKeyFormat;
        Rsa => "its key isn't RSA of 2048 bits with the exponent 65537", "RFC 7935 3";
        EcdsaP256 => "its key isn't an uncompressed point on the curve P-256",
            "RFC 8608 3.1, own rule";
    }
}

// The section that asks for an extension.
fn section_of(field: Field) -> &'static str
    ensures { result.now ≡ field_section field }
{
    match numbered_part(part_number(field)) {
        Some(part) => part.section,
        None => "",
    }
}

// What a fault of reading a certificate means, which has Certificate Policies, or hasn't. It is the
// same fault where resources stand under other identifiers than the policy's and where there is no
// policy; and where they stand twice and under both identifiers.
fn of_certificate(fault: &DecodeError, policies: bool) -> Rule
    ensures { rule_of result ≡ reading_rule fault.now policies }
{
    if !policies && matches!(fault, DecodeError::WrongResources(_)) {
        return meaning("Certificate Policies are missing", "RFC 6487 4.8.9");
    }
    let told = faults::of_reading(fault);
    match fault {
        DecodeError::Missing(field)
        | DecodeError::Critical(field)
        | DecodeError::NotCritical(field) => meaning(told.says, section_of(*field)),
        DecodeError::Duplicate(Field::IpResources | Field::AsResources) => meaning(
            "IP or AS resources appear twice, or under both identifiers",
            "RFC 5280 4.2, own rule",
        ),
        _ => rule_in(told),
    }
}

/// Returns what an error of reading a certificate in these bytes means.
pub fn of_reading(fault: &DecodeError, octets: &Bytes) -> Rule
    ensures { IsReadingRule fault.now octets.now (rule_of result) }
{
    of_certificate(fault, has_policies(octets))
}

// What a fault of reading a list means.
fn of_list(fault: &DecodeError) -> Rule
    ensures { rule_of result ≡ list_rule fault.now }
{
    if matches!(fault, DecodeError::Memory) {
        return out_of_memory();
    }
    rules! { fault: DecodeError;
        Missing(_) => "an extension that must be there is missing", "RFC 6487 5";
        Duplicate(_) => "an extension appears twice", "RFC 5280 4.2";
        InvalidExtension(_) => "a CRL has no extensions but Authority Key Identifier and CRL Number", "RFC 6487 5";
        _ => "it doesn't begin with a CRL of the profile", "RFC 6487 5, own rules";
    }
}

/// Returns what an error of reading a file means, which looks like a CRL, or doesn't.
pub fn of_file(fault: &DecodeError, octets: &Bytes, is_list: bool) -> Rule
    ensures { IsFileRule is_list fault.now octets.now (rule_of result) }
{
    if is_list {
        of_list(fault)
    } else {
        of_reading(fault, octets)
    }
}
