//! The numbers of errors as callers know them: those of the table of errors.
ghost use Rattle.std.specs.Prelude.{◌≡◌, ◌≢◌, ◌↔◌, ◌<◌, ◌≤◌};
ghost use Rattle.rpki_der.specs.ErrorNames.{decode_error_name};
ghost use Rattle.rpki_der.specs.declared.error.DecodeError.{DecodeError as decodings};
ghost use Rattle.rpki_der.specs.declared.error.DecodeError.TheVariants as decoding;
ghost use Rattle.rpki_ext.specs.Inspection.{inspection_error_name};
ghost use Rattle.rpki_ext.specs.declared.inspection.InspectionError.{InspectionError as inspections};
ghost use Rattle.rpki_cert.specs.Verification.{verification_error_name};
ghost use Rattle.rpki_cert.specs.declared.verification_error.VerificationError.{VerificationError as verifications};
ghost use Rattle.rpki_crl.specs.Revocation.{revocation_error_name};
ghost use Rattle.rpki_crl.specs.declared.revocation_error.RevocationError.{RevocationError as revocations};
ghost use Rattle.rpki_issuing.specs.NextLists.{next_list_error_name};
ghost use Rattle.rpki_issuing.specs.declared.next.NextListError.{NextListError as next_lists};
ghost use Rattle.rpki_keys.specs.TalErrors.{tal_error_name};
ghost use Rattle.rpki_keys.specs.declared.tal.tal_error.TalError.{TalError as locators};
ghost use Rattle.rpki_c.specs.FaultNumbers.{decode_number, inspection_number, verification_number, revocation_number, locator_number, path_number, refusal_number, issuing_number, list_number, next_list_number, part_added as added, wanted_number, unissued_number};
ghost use Rattle.rpki_c.specs.FaultTexts.{name_told};

use crate::refusal::Refusal;
use crate::unissued::Unissued;
use rpki_cert::{InspectionError, ValidationError, VerificationError};
use rpki_crl::RevocationError;
use rpki_der::DecodeError;
use rpki_files::faults::{self, FaultKind, part_number};
use rpki_issuing::wanted::WantedError;
use rpki_issuing::{IssuingError, ListError, NextListError};
use rpki_keys::tal::TalError;
use rpki_path::PathFault;

/// No error.
pub(crate) const NONE: u32 = 0;
/// Out of memory.
pub(crate) const MEMORY: u32 = 1;
/// The caller's lengths or numbers don't fit.
pub(crate) const BAD_CALL: u32 = 2;
/// The issuer of a path's certificate isn't the subject of the one above it.
pub(crate) const OTHER_NAME: u32 = 600;
/// The trust anchor's key isn't the TAL's.
pub(crate) const OTHER_KEY: u32 = 601;
/// The trust anchor lists no IP address and no AS number.
pub(crate) const NO_RESOURCES: u32 = 602;
/// The RPKI doesn't use the last certificate's key.
pub(crate) const BAD_KEY: u32 = 603;
// No key is given.
const NO_KEY: u32 = 800;
// The RPKI doesn't use the key.
const UNUSED_KEY: u32 = 801;
// The octets of a URI are none.
const BAD_URI: u32 = 802;
// The subject would have no name.
const NO_NAME: u32 = 803;
// No certificate has the fields.
const UNWRITABLE: u32 = 804;
// The certificate or the CRL would be too long.
const TOO_LONG: u32 = 805;
// What was signed is none of what is to be signed.
const NOT_TO_SIGN: u32 = 806;
// What was signed isn't what is prepared of its fields.
const OTHER_OCTETS: u32 = 807;
// The list before is none of the issuer.
const OTHER_LIST: u32 = 808;

// The number of the part that a fault of reading speaks of, and 0 where it speaks of none.
fn part_added(error: &DecodeError) -> u32
    ensures number { result ≡ added error.now }
    ensures small { result < 13 }
{
    match error {
        DecodeError::Missing(part)
        | DecodeError::Duplicate(part)
        | DecodeError::Critical(part)
        | DecodeError::NotCritical(part)
        | DecodeError::WrongResources(part) => part_number(*part),
        _ => 0,
    }
}

/// Returns the number of an error of reading.
pub(crate) fn of_decoding(error: &DecodeError) -> u32
    ensures number { result ≡ decode_number error.now }
    ensures memory { result ≡ MEMORY ↔ error.now ≡ decoding.Memory }
    ensures fault { result ≢ NONE }
    ensures no_bad_call { result ≢ BAD_CALL }
    ensures small { result < 300 }
{
    faults::of_reading(error).number + part_added(error)
}

/// Returns the number of an error of inspection.
pub(crate) fn of_inspection(error: InspectionError) -> u32
    ensures number { result ≡ inspection_number error }
    ensures great { 300 ≤ result }
    ensures small { result < 400 }
{
    faults::of_inspection(error).number
}

// The number of a fault of verification.
fn of_verification(error: &VerificationError) -> u32
    ensures number { result ≡ verification_number error.now }
    ensures fault { result ≢ NONE }
    ensures no_bad_call { result ≢ BAD_CALL }
    ensures small { result < 500 }
{
    faults::of_verification(error).number
}

// The number of a fault of revocation.
fn of_revocation(error: &RevocationError) -> u32
    ensures number { result ≡ revocation_number error.now }
    ensures fault { result ≢ NONE }
    ensures no_bad_call { result ≢ BAD_CALL }
    ensures small { result < 600 }
{
    faults::of_revocation(error).number
}

/// Returns the number of an error of a path's certificate.
pub(crate) fn of_path(fault: &PathFault) -> u32
    ensures number { result ≡ path_number fault.now }
    ensures fault { result ≢ NONE }
    ensures no_bad_call { result ≢ BAD_CALL }
    ensures small { result < 600 }
{
    match fault {
        PathFault::Decode(error) => of_decoding(error),
        PathFault::Inspect(error) => of_inspection(*error),
        PathFault::Verify(error) => of_verification(error),
        PathFault::Revocation(error) => of_revocation(error),
        PathFault::Memory => MEMORY,
    }
}

/// Returns the number of the reason why a path isn't accepted.
pub(crate) fn of_refusal(refusal: &Refusal) -> u32
    ensures number { result ≡ refusal_number refusal.now }
    ensures fault { result ≢ NONE }
{
    match refusal {
        Refusal::BadCall => BAD_CALL,
        Refusal::Memory => MEMORY,
        Refusal::Locator(error) => faults::of_locator(error).number,
        Refusal::OtherKey => OTHER_KEY,
        Refusal::NoResources(_) => NO_RESOURCES,
        Refusal::List(_, error) => of_decoding(error),
        Refusal::Member(error) => of_path(&error.fault),
        Refusal::OtherName(_) => OTHER_NAME,
        Refusal::UnusedKey => BAD_KEY,
    }
}

// The number of why a certificate isn't ready to be signed, or its signature isn't taken.
fn of_issuing(error: &IssuingError) -> u32
    ensures number { result ≡ issuing_number error.now }
    ensures fault { result ≢ NONE }
{
    match error {
        IssuingError::Unwritable => UNWRITABLE,
        IssuingError::TooLong => TOO_LONG,
        IssuingError::Invalid(ValidationError::Inspection(fault)) => of_inspection(*fault),
        IssuingError::Invalid(ValidationError::Verification(fault)) => of_verification(fault),
        IssuingError::Memory => MEMORY,
    }
}

// The number of why a list isn't ready to be signed, or its signature isn't taken.
fn of_list(error: &ListError) -> u32
    ensures number { result ≡ list_number error.now }
    ensures fault { result ≢ NONE }
{
    match error {
        ListError::Invalid(fault) => of_revocation(fault),
        ListError::TooLong => TOO_LONG,
        ListError::Memory => MEMORY,
    }
}

// The number of why no such list follows another.
fn of_next_list(error: &NextListError) -> u32
    ensures number { result ≡ next_list_number error.now }
    ensures fault { result ≢ NONE }
{
    faults::named(FaultKind::Issuing, error.name()).number
}

// The number of why what is wanted isn't prepared or completed.
fn of_wanted(error: &WantedError) -> u32
    ensures number { result ≡ wanted_number error.now }
    ensures fault { result ≢ NONE }
{
    match error {
        WantedError::NoRole => BAD_CALL,
        WantedError::Broken(_) => UNWRITABLE,
        WantedError::Unready(error) | WantedError::Unsigned(error) => of_issuing(error),
        WantedError::OtherOctets => OTHER_OCTETS,
        WantedError::Listed(error) => of_revocation(error),
        WantedError::NoList(error) => of_next_list(error),
        WantedError::UnreadyList(error) | WantedError::UnsignedList(error) => of_list(error),
        WantedError::Memory => MEMORY,
    }
}

/// Returns the number of the reason why no certificate and no CRL is prepared or completed.
pub(crate) fn of_unissued(why: &Unissued) -> u32
    ensures number { result ≡ unissued_number why.now }
    ensures fault { result ≢ NONE }
{
    match why {
        Unissued::BadCall => BAD_CALL,
        Unissued::Memory => MEMORY,
        Unissued::Issuer(refusal) => of_refusal(refusal),
        Unissued::NoKey => NO_KEY,
        Unissued::UnusedKey => UNUSED_KEY,
        Unissued::BadUri(_) => BAD_URI,
        Unissued::NoName => NO_NAME,
        Unissued::OtherList => OTHER_LIST,
        Unissued::NotToSign => NOT_TO_SIGN,
        Unissued::OtherName => OTHER_NAME,
        Unissued::Unfit(error) => of_wanted(error),
    }
}

/// States that the number of an error decides its name, so that errors with different names have
/// different numbers.
pub(crate) fn numbers_tell_names()
    ensures decoding { (e : decodings) → name_told (decode_number e) ≡ Some (decode_error_name e) }
    ensures inspection { (e : inspections)
        → name_told (inspection_number e) ≡ Some (inspection_error_name e) }
    ensures verification { (e : verifications)
        → name_told (verification_number e) ≡ Some (verification_error_name e) }
    ensures revocation { (e : revocations)
        → name_told (revocation_number e) ≡ Some (revocation_error_name e) }
    ensures locator { (e : locators) → name_told (locator_number e) ≡ Some (tal_error_name e) }
    ensures next_list { (e : next_lists)
        → name_told (next_list_number e) ≡ Some (next_list_error_name e) }
{}
