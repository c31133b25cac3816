//! The trust anchor that tests stand below, and the moment at which they ask.

use crate::samples::{anchor_octets, day, valid_anchor};
use bytes::Bytes;
use rpki_cert::ResourceCert;
use rpki_der::Time;
use std::alloc::Global;
use std::process::Abort;

/// The first of May 2024.
pub(crate) fn now(rt: &impl Abort) -> Time {
    day(2024).expect(rt, "a day")
}

/// The octets of the anchor, whose key is `abc`.
pub(crate) fn octets(rt: &impl Abort, alloc: Global) -> Bytes {
    anchor_octets(alloc).expect(rt, "memory")
}

/// The anchor, validated.
pub(crate) fn anchor(rt: &impl Abort, alloc: Global) -> ResourceCert {
    valid_anchor(alloc, octets(rt, alloc), now(rt)).expect(rt, "an anchor")
}
