//! Certificates and lists that are decoded, and where the reading of others stops.

use crate::asking::{Fault, Told, begin, called, end};
use crate::inputs::{ANCHOR, LIST};
use bytes::Bytes;
use rpki_der::Serial;
use rpki_files::{Misread, decode_cert, decode_crl};
use rpki_tests::samples::{self, shared};
use std::alloc::Global;

impl Fault for Misread {
    fn told(&self) -> &'static str {
        if self.is_memory() {
            "Memory"
        } else {
            "Stopped"
        }
    }
}

// These octets, but that the BIT STRING of the signature, whose content begins at this place, isn't
// of whole octets.
fn with_odd_bits(alloc: Global, digits: &str, place: usize) -> Option<Bytes> {
    let mut octets = samples::octets(alloc, digits)?;
    match octets.get_mut(place) {
        Some(unused) => *unused = 1,
        None => {
            drop(octets);
            return None;
        }
    }
    Bytes::from_vec(octets).ok()
}

// What was answered of octets whose reading stops at this octet: `ok` where it is told.
fn stopped<T: Drop>(alloc: Global, answer: Result<T, Misread>, octet: usize) -> Option<Told> {
    let told = match &answer {
        Ok(_) => "read",
        Err(why) => match why.place() {
            Some(place) if place.octet == octet => "ok",
            Some(_) => "elsewhere",
            None => why.told(),
        },
    };
    drop(answer);
    end(alloc);
    Some(Told::of(told))
}

fn cert(alloc: Global) -> Option<Told> {
    let octets = shared(alloc, ANCHOR)?;
    called!(
        alloc,
        decode_cert(alloc, &octets),
        cert => cert.as_tbs().serial_number() == Serial::from(12u64)
    )
}

fn cert_stopped(alloc: Global) -> Option<Told> {
    let octets = with_odd_bits(alloc, ANCHOR, 483)?;
    begin(alloc);
    stopped(alloc, decode_cert(alloc, &octets), 479)
}

fn crl(alloc: Global) -> Option<Told> {
    let octets = shared(alloc, LIST)?;
    called!(
        alloc,
        decode_crl(alloc, &octets),
        list => list.contains(Serial::from(42u64))
    )
}

fn crl_stopped(alloc: Global) -> Option<Told> {
    let octets = with_odd_bits(alloc, LIST, 217)?;
    begin(alloc);
    stopped(alloc, decode_crl(alloc, &octets), 214)
}

/// The calls that tell where reading stops.
pub fn told(alloc: Global, path: &str) -> Option<Told> {
    match path {
        "rpki_files::decode_cert" => cert(alloc),
        "rpki_files::decode_cert/stopped" => cert_stopped(alloc),
        "rpki_files::decode_crl" => crl(alloc),
        "rpki_files::decode_crl/stopped" => crl_stopped(alloc),
        _ => None,
    }
}
