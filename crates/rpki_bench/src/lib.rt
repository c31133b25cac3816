//! What the measurements call: functions on octets, for C. An export's clauses can't name types
//! that code declares, as those of a certificate's fields do, so they say little here: `Cert` and
//! `TbsCert` have the contracts.
#![tactic(auto)]

ghost use Rattle.std.specs.Prelude.{◌≤◌};

mod judging;
mod lists;
mod paths;
mod rearranging;
mod signatures;

use rpki_cert::Cert;
use rpki_der::DecodeError;
use std::alloc::Global;

/// Decodes the certificate at the start of the octets: 1 if there is one, 0 if not, 2 if out of
/// memory.
#[unsafe(no_mangle)]
pub extern "C" fn rpki_decode(alloc: Global, octets: &[u8]) -> u32
    ensures { result ≤ 2 }
{
    match Cert::decode(alloc, octets) {
        Ok(cert) => {
            drop(cert);
            1
        }
        Err(DecodeError::Memory) => 2,
        Err(_) => 0,
    }
}

fn written(alloc: Global, cert: &Cert, rounds: u32) -> u32
    ensures { result ≤ rounds }
{
    let mut out = Vec::new(alloc);
    for round in 0..rounds {
        out.clear();
        if cert.as_tbs().encode_ref(alloc, &mut out).is_err() {
            return round;
        }
    }
    rounds
}

/// Reads the certificate that the octets begin with, and writes the data of one with its fields so
/// many times. Answers how often that went well.
#[unsafe(no_mangle)]
pub extern "C" fn rpki_write(alloc: Global, octets: &[u8], rounds: u32) -> u32
    ensures { result ≤ rounds }
{
    match Cert::decode(alloc, octets) {
        Ok(cert) => {
            let went = written(alloc, &cert, rounds);
            drop(cert);
            went
        }
        Err(_) => 0,
    }
}

fn agreements(cert: &Cert, rounds: u32) -> u32 {
    let tbs = cert.as_tbs();
    let mut equal = 0u32;
    for _ in 0..rounds {
        if tbs.subject_public_key_info().key_identifier() == tbs.subject_key_identifier() {
            equal = equal.wrapping_add(1);
        }
    }
    equal
}

/// Reads the certificate, and compares so many times the hash of its key with its subject key
/// identifier. Answers how often they agree.
#[unsafe(no_mangle)]
pub extern "C" fn rpki_hash(alloc: Global, octets: &[u8], rounds: u32) -> u32 {
    match Cert::decode(alloc, octets) {
        Ok(cert) => {
            let equal = agreements(&cert, rounds);
            drop(cert);
            equal
        }
        Err(_) => 0,
    }
}
