//! Certificates that are read and validated.
ghost use Rattle.std.specs.Prelude.{◌≤◌};

use bytes::Bytes;
use rpki_cert::{Cert, ResourceCert};
use rpki_der::Time;
use rpki_parts::{PublicKey, RpkiSignatureAlgorithm, TalInfo, Verifier};
use std::alloc::{AllocError, Global};

/// Says yes to every signature, so that only what is done here is measured.
pub(crate) struct Yes;

impl Verifier for Yes {
    ghost use Rattle.std.specs.Prelude.{⊤};

    ghost verifies = { λ _ _ _ _ _. ⊤ };

    fn verify(
        &self,
        _key: &PublicKey,
        _algorithm: RpkiSignatureAlgorithm,
        _message: &[u8],
        _signature: &[u8],
    ) -> bool {
        true
    }
}

fn anchor(alloc: Global, octets: &[u8], now: Time) -> Option<ResourceCert> {
    let cert = Cert::decode(alloc, octets).ok()?;
    let tal = TalInfo::from_name(String::new(alloc)).into_rc(alloc).ok()?;
    cert.validate_ta_at(alloc, tal, true, now, &Yes).ok()
}

/// Whether a call went well. What it gave is let go.
pub(crate) fn went_well<T: Drop, E: Drop>(answer: Result<T, E>) -> bool {
    answer.is_ok()
}

// Reads the certificate, and where it is asked validates it too.
fn step(alloc: Global, octets: &Bytes, issuer: Option<&ResourceCert>, now: Time) -> bool {
    let shared: Result<Bytes, AllocError> = octets.clone();
    let Ok(shared) = shared else {
        return false;
    };
    let cert = Cert::decode_shared(alloc, shared);
    match (cert, issuer) {
        (Ok(cert), Some(issuer)) => {
            went_well(cert.validate_ca_at(alloc, issuer, true, now, &Yes))
        }
        (cert, _) => went_well(cert),
    }
}

fn rounds_of(
    alloc: Global,
    octets: &Bytes,
    issuer: Option<&ResourceCert>,
    now: Time,
    rounds: u32,
) -> u32
    ensures { result ≤ rounds }
{
    for round in 0..rounds {
        if !step(alloc, octets, issuer, now) {
            return round;
        }
    }
    rounds
}

// Reads the certificate so many times, and validates it under the issuer where `validates` says so.
fn rounds_under(
    alloc: Global,
    octets: &Bytes,
    issuer: &ResourceCert,
    validates: bool,
    now: Time,
    rounds: u32,
) -> u32 {
    if validates {
        rounds_of(alloc, octets, Some(issuer), now, rounds)
    } else {
        rounds_of(alloc, octets, None, now, rounds)
    }
}

fn judged(
    alloc: Global,
    anchor_octets: &[u8],
    octets: &[u8],
    validates: bool,
    rounds: u32,
) -> Option<u32> {
    let now = Time::utc(2030, 1, 1, 0, 0, 0)?;
    let octets = Bytes::copy_from_slice(alloc, octets).ok()?;
    let issuer = anchor(alloc, anchor_octets, now)?;
    let went = rounds_under(alloc, &octets, &issuer, validates, now, rounds);
    drop(issuer);
    Some(went)
}

/// Reads the certificate so many times, and where `validates` isn't 0 validates it each time under
/// the anchor, at the beginning of 2030, with a verifier that says yes. Answers how often that went
/// well.
#[unsafe(no_mangle)]
pub extern "C" fn rpki_validate(
    alloc: Global,
    anchor: &[u8],
    octets: &[u8],
    validates: u32,
    rounds: u32,
) -> u32 {
    judged(alloc, anchor, octets, validates != 0, rounds).unwrap_or(0)
}
