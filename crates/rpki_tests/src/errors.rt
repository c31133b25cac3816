//! The names and the texts of errors that aren't in the table of faults.

use crate::checks::{check_octets, check_text};
use bytes::Bytes;
use rpki_blocks::{Inherited, IssueError};
use rpki_cert::{IssueCaError, RearrangeError, ValidationError, VerificationError};
use rpki_crl::{InvalidExtension, RevocationError};
use rpki_der::{DecodeError, EncodeError, Oid};
use rpki_ext::InspectionError;
use rpki_files::Misread;
use rpki_lines::RunFault;
use rpki_parts::{
    BadUri, InvalidName, SignatureVerificationError, SigningError, UriError, ValidityError,
};
use rpki_path::{LocatedError, PathError, PathFault};
use std::alloc::{AllocError, Global};
use std::fmt::Display;
use std::process::Abort;

// That an error has this name and prints this text.
pub(crate) fn assert_told<E: Display + Drop>(
    rt: &impl Abort,
    alloc: Global,
    name: &str,
    error: E,
    wanted: &str,
) {
    let told = format!(in alloc; "{name}: {error}").expect(rt, "memory");
    check_text(rt, told.as_str(), wanted);
    drop(error);
}

// That each error has the name and prints the text behind it.
macro_rules! assert_all_told {
    ($rt:ident: $($error:expr => $wanted:literal;)*) => {
        let alloc = $rt.alloc();
        $(
            let error = $error;
            let name = error.name();
            crate::errors::assert_told(&$rt, alloc, name, error, $wanted);
        )*
    };
}

pub(crate) use assert_all_told;

fn identifier(rt: &impl Abort) -> Oid {
    Oid::new(Bytes::from_static(b"\x55\x1d\x63")).expect(rt, "an identifier")
}

#[test]
fn of_extensions_that_are_read(rt: HostRuntime) {
    let invalid = InvalidExtension::new(identifier(&rt));
    check_octets(&rt, invalid.oid().as_bytes(), b"\x55\x1d\x63");
    assert_all_told! { rt:
        DecodeError::UnexpectedCritical(identifier(&rt))
            => "UnexpectedCritical: unexpected critical extension 551d63";
        DecodeError::InvalidExtension(identifier(&rt))
            => "InvalidExtension: invalid extension 551d63";
        DecodeError::from(InvalidExtension::new(identifier(&rt)))
            => "InvalidExtension: invalid extension 551d63";
        invalid => "InvalidExtension: invalid extension 551d63";
    }
}

#[test]
fn of_writing_and_signing(rt: HostRuntime) {
    assert_all_told! { rt:
        EncodeError::TooLong => "TooLong: content too long";
        EncodeError::Memory => "Memory: out of memory";
        SigningError::Signer(1u8) => "Signer: signer failed";
        SigningError::<u8>::from(EncodeError::TooLong) => "TooLong: content too long";
        SigningError::<u8>::from(EncodeError::Memory) => "Memory: out of memory";
        SigningError::<u8>::from(AllocError) => "Memory: out of memory";
    }
}

#[test]
fn of_parts_of_certificates(rt: HostRuntime) {
    assert_all_told! { rt:
        SignatureVerificationError => "SignatureVerificationError: invalid signature";
        InvalidName => "InvalidName: invalid name";
        BadUri => "BadUri: bad URI";
        UriError::from(BadUri) => "BadUri: bad URI";
        UriError::from(AllocError) => "Memory: out of memory";
        ValidityError::NotYetValid => "NotYetValid: not yet valid";
        ValidityError::Expired => "Expired: expired";
        IssueError::Overclaimed => "Overclaimed: resources overclaimed";
        IssueError::from(AllocError) => "Memory: out of memory";
        Inherited => "Inherited: resources are inherited";
    }
}

#[test]
fn of_validation(rt: HostRuntime) {
    assert_all_told! { rt:
        ValidationError::from(InspectionError::Issuer) => "Inspection: invalid issuer";
        ValidationError::from(VerificationError::Expired)
            => "Verification: certificate expired";
    }
}

type Unissued = IssueCaError<u32>;

#[test]
fn of_issuing_and_rearranging(rt: HostRuntime) {
    assert_all_told! { rt:
        Unissued::Signing(SigningError::Signer(7)) => "Signing: certificate not signed";
        Unissued::Encode(EncodeError::Memory)
            => "Encode: certificate not captured: out of memory";
        Unissued::Decode(DecodeError::Memory)
            => "Decode: certificate not read again: out of memory";
        Unissued::Validation(ValidationError::from(InspectionError::Issuer))
            => "Validation: issued certificate not valid: invalid issuer";
        RearrangeError::from(DecodeError::BadTag) => "NoCertificate: no certificate";
        RearrangeError::NotAnOrder => "NotAnOrder: not an order of the extensions";
        RearrangeError::KnownExtra => "KnownExtra: added extension of a known kind";
        RearrangeError::from(EncodeError::TooLong) => "TooLong: content too long";
        RearrangeError::from(AllocError) => "Memory: out of memory";
    }
}

#[test]
fn of_runs(rt: HostRuntime) {
    assert_all_told! { rt:
        RunFault::Read => "Read: the input couldn't be read";
        RunFault::Write => "Write: the output couldn't be written";
        RunFault::Memory => "Memory: out of memory";
        RunFault::TooLong => "TooLong: the input is too long";
    }
}

fn at_two(fault: PathFault) -> PathError {
    PathError { index: 2, fault }
}

#[test]
fn of_paths(rt: HostRuntime) {
    assert_all_told! { rt:
        PathFault::from(DecodeError::BadTag) => "Decode: unexpected identifier";
        PathFault::from(InspectionError::Issuer) => "Inspect: invalid issuer";
        PathFault::from(VerificationError::Expired) => "Verify: certificate expired";
        PathFault::from(RevocationError::Revoked) => "Revocation: certificate revoked";
        PathFault::from(DecodeError::Memory) => "Memory: out of memory";
        at_two(PathFault::from(DecodeError::BadTag))
            => "PathError: certificate 2: unexpected identifier";
        at_two(PathFault::from(RevocationError::Revoked))
            => "PathError: certificate 2: certificate revoked";
        LocatedError::Path(at_two(PathFault::from(DecodeError::Memory)))
            => "Path: certificate 2: out of memory";
        LocatedError::OtherKey
            => "OtherKey: the trust anchor has another key than the locator";
        LocatedError::NoResources => "NoResources: the trust anchor lists no resources";
    }
}

#[test]
fn of_octets_that_cannot_be_read(rt: HostRuntime) {
    let alloc = rt.alloc();
    assert_told(
        &rt,
        alloc,
        "Memory",
        Misread::Memory,
        "Memory: out of memory",
    );
}
