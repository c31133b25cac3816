//! Octets from digits.

use bytes::Bytes;
use std::alloc::Global;

/// Reads these digits as octets; none where they are none or memory runs out.
pub fn octets(alloc: Global, digits: &str) -> Option<Vec<u8>> {
    hex::decode(alloc, digits).ok()
}

/// Reads these digits as octets that are shared.
pub fn shared(alloc: Global, digits: &str) -> Option<Bytes> {
    Bytes::from_vec(octets(alloc, digits)?).ok()
}
