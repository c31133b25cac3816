//! Revocation lists that are read and asked.
use crate::judging::went_well;
use rpki_crl::Crl;
use rpki_der::Serial;
use std::alloc::Global;

/// Reads the list so many times. Answers how often that went well.
#[unsafe(no_mangle)]
pub extern "C" fn rpki_list(alloc: Global, octets: &[u8], rounds: u32) -> u32 {
    for round in 0..rounds {
        if !went_well(Crl::decode(alloc, octets)) {
            return round;
        }
    }
    rounds
}

// How many of the serial numbers are on the list.
fn found(list: &Crl, serials: &[u64]) -> u32 {
    let mut found = 0u32;
    for serial in serials {
        if list.contains(Serial::from(*serial)) {
            found = found.wrapping_add(1);
        }
    }
    found
}

/// Reads the list, caches its serials where `caches` isn't 0, and asks for these serial numbers.
/// Answers how many are on it.
#[unsafe(no_mangle)]
pub extern "C" fn rpki_look_up(alloc: Global, octets: &[u8], caches: u32, serials: &[u64]) -> u32 {
    match Crl::decode(alloc, octets) {
        Ok(mut list) => {
            let is_ready = caches == 0 || list.cache_serials(alloc).is_ok();
            let found = if is_ready { found(&list, serials) } else { 0 };
            drop(list);
            found
        }
        Err(_) => 0,
    }
}
