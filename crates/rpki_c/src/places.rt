//! Where a certificate's key, its signed part and its signature are in its octets.
ghost use Rattle.std.specs.Prelude.{◌≡◌, ◌≢◌, List, ℕ, IfErr, IfOk, IsOk, OnOk};
ghost use Rattle.rpki_der.specs.Place.{MovesOn, remaining};
ghost use Rattle.rpki_ext.specs.Kinds.{Means};
ghost use Rattle.rpki_cert.specs.Certificates.{IsCertificate};
ghost use Rattle.rpki_folder.specs.Folders.{BeginsNoCertificate};
ghost use Rattle.rpki_c.specs.Contents.{ArePlaces, StandInFront, TellsPlaces};
ghost use Rattle.rpki_c.specs.FaultNumbers.{IsReadingNumber};

use crate::certificates::decoded;
use crate::faults::{MEMORY, NONE};
use bytes::Bytes;
use rpki_cert::Cert;
use rpki_der::{Cursor, DecodeError, tag};
use std::alloc::Global;

/// The places of three parts of a certificate: where each begins, and how long it is.
#[repr(C)]
#[derive(Clone, Copy)]
pub struct RpkiPlaces {
    /// The SubjectPublicKeyInfo, with its identifier and length.
    pub key_at: u64,
    pub key_length: u64,
    /// What is signed: the TBSCertificate, with its identifier and length.
    pub message_at: u64,
    pub message_length: u64,
    /// The octets of the signature.
    pub signature_at: u64,
    pub signature_length: u64,
}

// The identifiers of the fields before the key: version, serial number, algorithm, issuer, validity
// and subject (RFC 5280 4.1).
const BEFORE_KEY: &[u8] = &[
    tag::CONTEXT_CONSTRUCTED,
    tag::INTEGER,
    tag::SEQUENCE,
    tag::SEQUENCE,
    tag::SEQUENCE,
    tag::SEQUENCE,
];

// Goes behind values that have these identifier octets.
fn skip(cursor: &mut Cursor<'_>, tags: &[u8]) -> Result<(), DecodeError>
    ensures behind { (rest : List ℕ) → StandInFront tags.now rest (remaining cursor.old)
        → OnOk result (remaining cursor.new ≡ rest) }
    ensures there { (rest : List ℕ) → StandInFront tags.now rest (remaining cursor.old) → IsOk result }
    ensures moves { OnOk result (MovesOn cursor.old cursor.new) }
{
    for tag in tags {
        cursor.take_value(*tag)?;
    }
    Ok(())
}

// The places in the octets that begin with the certificate.
fn places_of(cert: &Cert, octets: &Bytes) -> RpkiPlaces
    requires { Means IsCertificate cert.now octets.now }
    ensures { ArePlaces cert.now octets.now result }
{
    let Ok(mut content) = Cursor::new(octets).take_sequence() else {
        unreachable!();
    };
    let (from, to) = content.span();
    let Ok(mut fields) = content.take_sequence() else {
        unreachable!();
    };
    let Ok(()) = skip(&mut fields, BEFORE_KEY) else {
        unreachable!();
    };
    let (key, _) = fields.span();
    let Ok(_) = fields.take_sequence() else {
        unreachable!();
    };
    let (end, _) = fields.span();
    let signed = cert.signed_data();
    let signature = signed.signature().value().len();
    RpkiPlaces {
        key_at: key as u64,
        key_length: (end - key) as u64,
        message_at: from as u64,
        message_length: signed.data().len() as u64,
        signature_at: (to - signature) as u64,
        signature_length: signature as u64,
    }
}

/// Returns the certificate that the octets begin with and the places in them, or the number of an error.
pub(crate) fn placed(alloc: Global, octets: &[u8]) -> Result<(Cert, RpkiPlaces), u32>
    ensures read { IfOk result (λ it. Means IsCertificate it.0 octets.now) }
    ensures places { IfOk result (λ it. ArePlaces it.0 octets.now it.1) }
    ensures fault { IfErr result (λ fault. fault ≢ NONE) }
    ensures unread { IfErr result (λ fault. fault ≢ MEMORY → BeginsNoCertificate octets.now) }
    ensures code { IfErr result IsReadingNumber }
{
    let cert = decoded(alloc, octets)?;
    let Ok(octets) = Bytes::copy_from_slice(alloc, octets) else {
        return Err(MEMORY);
    };
    let places = places_of(&cert, &octets);
    Ok((cert, places))
}

/// Writes where the certificate's SubjectPublicKeyInfo, its TBSCertificate and its signature are in the
/// octets. Answers 0, or the number of a fault.
#[unsafe(no_mangle)]
pub extern "C" fn rpki_certificate_places(alloc: Global, octets: &[u8], out: &mut RpkiPlaces) -> u32
    ensures places { result ≡ NONE → TellsPlaces octets.now out.new }
    ensures untouched { result ≢ NONE → out.new ≡ out.old }
    ensures unread { result ≢ NONE → result ≢ MEMORY → BeginsNoCertificate octets.now }
    ensures code { result ≢ NONE → IsReadingNumber result }
{
    match placed(alloc, octets) {
        Ok((cert, places)) => {
            drop(cert);
            *out = places;
            NONE
        }
        Err(fault) => fault,
    }
}
