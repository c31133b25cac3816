//! What tests compare. Each of these functions is proved once; `assert_eq!` is proved anew wherever
//! it stands, which takes longer than most tests. A table that is gone through gives the check a
//! name, so that a failure tells where.

use crate::samples;
use sha1::Sha1;
use std::alloc::Global;
use std::fmt::Display;
use std::process::Abort;

/// Checks that a condition holds.
pub(crate) fn check(rt: &impl Abort, holds: bool, what: &str) {
    assert!(rt; holds, "{what}");
}

/// Checks that a text is this one.
pub(crate) fn check_text(rt: &impl Abort, found: &str, wanted: &str) {
    assert_eq!(rt; found, wanted);
}

/// Checks that a value prints this text.
pub(crate) fn check_shown(rt: &impl Abort, alloc: Global, value: &impl Display, wanted: &str) {
    let shown = format!(in alloc; "{value}").expect(rt, "memory");
    check_text(rt, shown.as_str(), wanted);
}

/// Checks that octets are these.
pub(crate) fn check_octets(rt: &impl Abort, found: &[u8], wanted: &[u8]) {
    assert_eq!(rt; found, wanted);
}

/// Checks that octets have the SHA-1 hash that these digits are.
pub(crate) fn check_hash(rt: &impl Abort, alloc: Global, octets: &[u8], hash: &str) {
    let wanted = samples::octets(alloc, hash).expect(rt, "digits");
    check_octets(rt, Sha1::digest(octets).as_slice(), wanted.as_slice());
}

/// Checks that a number is this one.
pub(crate) fn check_count(rt: &impl Abort, found: usize, wanted: usize) {
    assert_eq!(rt; found, wanted);
}
