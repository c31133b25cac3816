//! Certificates that are rearranged.

use crate::judging::went_well;
use rpki_cert::rearrange;
use std::alloc::Global;

fn rearranged(alloc: Global, octets: &[u8], order: &[usize], rounds: u32) -> u32 {
    for round in 0..rounds {
        if !went_well(rearrange(alloc, octets, order, &[])) {
            return round;
        }
    }
    rounds
}

/// Sets the extensions of the certificate that the octets begin with in reverse order, so many
/// times; `count` is how many it has. Answers how often that went well.
#[unsafe(no_mangle)]
pub extern "C" fn rpki_rearrange(alloc: Global, octets: &[u8], count: u32, rounds: u32) -> u32 {
    let mut order: Vec<usize> = Vec::new(alloc);
    for place in 0..count {
        if order.push((count - 1 - place) as usize).is_err() {
            return 0;
        }
    }
    rearranged(alloc, octets, &order, rounds)
}
