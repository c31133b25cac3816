//! That faults have the names and print the texts that stand in their table.

use crate::checks::check_text;
use crate::errors::assert_told;
use rpki_cert::VerificationError;
use rpki_crl::RevocationError;
use rpki_der::{DecodeError, Field};
use rpki_ext::InspectionError;
use rpki_files::faults::{
    Fault, numbered, numbered_part, of_inspection, of_locator, of_reading, of_revocation,
    of_verification, part_number,
};
use rpki_keys::tal::TalError;
use rpki_parts::{SignatureVerificationError, ValidityError};
use std::alloc::{AllocError, Global};
use std::fmt::Display;
use std::process::Abort;

// That a fault has the name of its line and prints its text, with the name of the part that it
// speaks of between the halves; and that the line is found by its number.
fn assert_fault<E: Display + Drop>(
    rt: &impl Abort,
    alloc: Global,
    name: &str,
    error: E,
    told: &Fault,
    part: &str,
) {
    let wanted = format!(in alloc; "{}: {}{part}{}", told.name, told.before, told.behind).expect(
        rt, "memory",
    );
    assert_told(rt, alloc, name, error, wanted.as_str());
    match numbered(told.number) {
        Some(found) => check_text(rt, found.name, told.name),
        None => rt.abort(),
    }
}

// That each fault has its line, which this call finds, and prints the name of the part behind it.
macro_rules! assert_faults {
    ($rt:ident, $line:ident: $($fault:expr => $part:literal;)*) => {
        let alloc = $rt.alloc();
        for (fault, part) in [$(($fault, $part)),*] {
            let told = $line(&fault);
            assert_fault(&$rt, alloc, fault.name(), fault, told, part);
        }
    };
}

#[test]
fn of_octets_that_are_read(rt: HostRuntime) {
    assert_faults! { rt, of_reading:
        DecodeError::Truncated => "";
        DecodeError::BadLength => "";
        DecodeError::BadTag => "";
        DecodeError::BadValue => "";
        DecodeError::Trailing => "";
        DecodeError::TooDeep => "";
        DecodeError::AlgorithmMismatch => "";
        DecodeError::Memory => "";
        DecodeError::Missing(Field::Resources) => "Resources";
        DecodeError::Duplicate(Field::KeyUsage) => "KeyUsage";
        DecodeError::Critical(Field::CrlNumber) => "CrlNumber";
        DecodeError::NotCritical(Field::BasicConstraints) => "BasicConstraints";
        DecodeError::WrongResources(Field::IpResources) => "IpResources";
    }
}

const FIELDS: [Field; 13] = [
    Field::BasicConstraints,
    Field::SubjectKeyIdentifier,
    Field::AuthorityKeyIdentifier,
    Field::KeyUsage,
    Field::ExtendedKeyUsage,
    Field::CrlDistributionPoints,
    Field::AuthorityInformationAccess,
    Field::SubjectInformationAccess,
    Field::CertificatePolicies,
    Field::IpResources,
    Field::AsResources,
    Field::Resources,
    Field::CrlNumber,
];

#[test]
fn of_parts(rt: HostRuntime) {
    let alloc = rt.alloc();
    for field in FIELDS {
        let shown = format!(in alloc; "{field:?}").expect(&rt, "memory");
        let part = numbered_part(part_number(field)).expect(&rt, "a part");
        check_text(&rt, part.name, shown.as_str());
    }
}

// The texts of all others are compared where the sources are (tests/callers).
#[test]
fn of_inspection_alone(rt: HostRuntime) {
    let alloc = rt.alloc();
    for fault in [
        InspectionError::AlgorithmMismatch,
        InspectionError::InheritedAsResources,
    ] {
        let told = of_inspection(fault);
        assert_fault(&rt, alloc, fault.name(), fault, told, "");
    }
}

#[test]
fn of_certificates_and_lists(rt: HostRuntime) {
    assert_faults! { rt, of_verification:
        VerificationError::from(ValidityError::NotYetValid) => "";
        VerificationError::from(ValidityError::Expired) => "";
        VerificationError::InheritedV4 => "";
        VerificationError::InheritedV6 => "";
        VerificationError::InheritedAs => "";
        VerificationError::MissingKeyId => "";
        VerificationError::WrongKeyId => "";
        VerificationError::MissingIssuerUri => "";
        VerificationError::from(SignatureVerificationError) => "";
        VerificationError::OverclaimV4 => "";
        VerificationError::OverclaimV6 => "";
        VerificationError::OverclaimAs => "";
        VerificationError::from(AllocError) => "";
    }
    assert_faults! { rt, of_revocation:
        RevocationError::NoCrl => "";
        RevocationError::WrongKeyId => "";
        RevocationError::BadSignature => "";
        RevocationError::Stale => "";
        RevocationError::Revoked => "";
        RevocationError::WrongIssuer => "";
    }
}

#[test]
fn of_locators(rt: HostRuntime) {
    assert_faults! { rt, of_locator:
        TalError::NoText => "";
        TalError::NoUri => "";
        TalError::Memory => "";
    }
}
