//! Where the reading of octets stops that begin with no certificate, or with no list (RFC 5280 4.1,
//! 5.1).

use crate::anchors::octets;
use crate::checks::{check, check_shown, check_text};
use crate::lists::TWO;
use crate::samples;
use bytes::Bytes;
use rpki_files::{Misread, decode_cert, decode_crl};
use std::alloc::Global;
use std::process::Abort;

// That octets can't be read for this reason, which is printed so, and that this is wanted there.
fn assert_misread<T: Drop>(
    rt: &impl Abort,
    alloc: Global,
    answer: Result<T, Misread>,
    printed: &str,
    wanted: &str,
) {
    let why = answer.err().expect(rt, "they begin with none");
    check_shown(rt, alloc, &why, printed);
    check(rt, !why.is_memory(), "an error of the octets");
    let place = why.place().expect(rt, "a place");
    check_text(rt, place.wanted, wanted);
    drop(why);
}

fn assert_no_cert(rt: &impl Abort, alloc: Global, octets: &Bytes, printed: &str, wanted: &str) {
    assert_misread(rt, alloc, decode_cert(alloc, octets), printed, wanted);
}

fn assert_no_list(rt: &impl Abort, alloc: Global, octets: &Bytes, printed: &str, wanted: &str) {
    assert_misread(rt, alloc, decode_crl(alloc, octets), printed, wanted);
}

const CUT: &str = "truncated value: the outer SEQUENCE, from octet 0";

const SEQUENCE: &str = "a SEQUENCE that ends within the file (RFC 5280 4.1, 5.1)";

// That these octets stand at this place.
fn assert_stands(rt: &impl Abort, octets: &[u8], place: usize, wanted: &[u8]) {
    let behind = octets.get(place..).expect(rt, "the place");
    check(rt, behind.starts_with(wanted), "octets at the place");
}

// The octets with another one at this place.
fn altered(rt: &impl Abort, alloc: Global, octets: &[u8], place: usize, octet: u8) -> Bytes {
    let mut altered = Vec::from_slice(alloc, octets).expect(rt, "memory");
    *altered.get_mut(place).expect(rt, "the place") = octet;
    Bytes::from_vec(altered).expect(rt, "memory")
}

#[test]
fn of_no_octets(rt: HostRuntime) {
    let alloc = rt.alloc();
    let none = Bytes::from_static(b"");
    assert_no_cert(&rt, alloc, &none, CUT, SEQUENCE);
    assert_no_list(&rt, alloc, &none, CUT, SEQUENCE);
}

#[test]
fn of_a_certificate_that_is_cut(rt: HostRuntime) {
    let alloc = rt.alloc();
    let octets = octets(&rt, alloc);
    let last = octets.len().checked_sub(1).expect(&rt, "an octet");
    let cut = octets.slice(0..last).expect(&rt, "memory");
    assert_no_cert(&rt, alloc, &cut, CUT, SEQUENCE);
}

// Both headers have four octets, and the version five.
#[test]
fn of_a_negative_serial_number(rt: HostRuntime) {
    let alloc = rt.alloc();
    let octets = octets(&rt, alloc);
    assert_stands(&rt, &octets, 13, b"\x02\x01\x0c");
    let negative = altered(&rt, alloc, &octets, 15, 0x80);
    let wanted = "an INTEGER that isn't negative, of at most 20 bytes (RFC 5280 4.1.2.2)";
    let printed = "bad value: the serial number, from octet 13";
    assert_no_cert(&rt, alloc, &negative, printed, wanted);
}

// Its outer header has four octets, and the next one three.
#[test]
fn of_a_list_of_version_3(rt: HostRuntime) {
    let alloc = rt.alloc();
    let octets = samples::shared(alloc, TWO).expect(&rt, "memory");
    assert_stands(&rt, &octets, 7, b"\x02\x01\x01");
    let altered = altered(&rt, alloc, &octets, 9, 2);
    let wanted = "version 2: the INTEGER 1 (RFC 6487 5)";
    let printed = "bad value: the version, from octet 7";
    assert_no_list(&rt, alloc, &altered, printed, wanted);
    let wanted = "version 3: the INTEGER 2 in [0], and nothing after it (RFC 6487 4.1)";
    let printed = "unexpected identifier: the version, from octet 7";
    assert_no_cert(&rt, alloc, &octets, printed, wanted);
}

// That octets can't be read for the fault that is printed so.
fn assert_fault<T: Drop>(
    rt: &impl Abort,
    alloc: Global,
    answer: Result<T, Misread>,
    printed: &str,
) {
    let why = answer.err().expect(rt, "they begin with none");
    let told = format!(in alloc; "{why}").expect(rt, "memory");
    check(
        rt,
        told.as_str().starts_with(printed),
        "the error that is printed",
    );
    drop(why);
}

// The OBJECT IDENTIFIER of an extension up to its last octet: id-ce (RFC 5280 4.2.1), and id-pe
// (RFC 5280 4.2.2).
const CE: &[u8] = b"\x06\x03\x55\x1d";

const PE: &[u8] = b"\x06\x08\x2b\x06\x01\x05\x05\x07\x01";

// Where the identifier ends that begins so and whose last octet is this one.
fn end_of_identifier(octets: &[u8], begin: &[u8], last: u8) -> Option<usize> {
    for place in 0..octets.len() {
        let read = octets.get(..place)?;
        if read.ends_with(begin) && octets.get(place) == Some(&last) {
            return Some(place);
        }
    }
    None
}

// The octets with that extension under another identifier.
fn renamed(
    rt: &impl Abort,
    alloc: Global,
    octets: &[u8],
    begin: &[u8],
    last: u8,
    other: u8,
) -> Bytes {
    let place = end_of_identifier(octets, begin, last).expect(rt, "an extension");
    altered(rt, alloc, octets, place, other)
}

// Key Usage as a second Subject Key Identifier and as an unknown one, Subject Key Identifier as an
// unknown one, which may stand there, and addresses under the identifier of the other policy (RFC
// 3779 2.2.1).
#[test]
fn of_extensions_under_other_identifiers(rt: HostRuntime) {
    let alloc = rt.alloc();
    let octets = octets(&rt, alloc);
    let second = renamed(&rt, alloc, &octets, CE, 0x0f, 0x0e);
    let printed = "duplicate SubjectKeyIdentifier: Subject Key Identifier";
    assert_fault(&rt, alloc, decode_cert(alloc, &second), printed);
    let unknown = renamed(&rt, alloc, &octets, CE, 0x0f, 0x7f);
    let printed = "unexpected critical extension 551d7f: an unknown extension";
    assert_fault(&rt, alloc, decode_cert(alloc, &unknown), printed);
    let missing = renamed(&rt, alloc, &octets, CE, 0x0e, 0x7f);
    let printed = "missing SubjectKeyIdentifier: the extensions";
    assert_fault(&rt, alloc, decode_cert(alloc, &missing), printed);
    let wrong = renamed(&rt, alloc, &octets, PE, 0x1c, 0x07);
    let printed = "wrong identifier of IpResources: the extensions";
    assert_fault(&rt, alloc, decode_cert(alloc, &wrong), printed);
}

// CRL Number as a second Authority Key Identifier, and as another one.
#[test]
fn of_a_lists_extensions_under_other_identifiers(rt: HostRuntime) {
    let alloc = rt.alloc();
    let octets = samples::shared(alloc, TWO).expect(&rt, "memory");
    let second = renamed(&rt, alloc, &octets, CE, 0x14, 0x23);
    let printed = "duplicate AuthorityKeyIdentifier: Authority Key Identifier";
    assert_fault(&rt, alloc, decode_crl(alloc, &second), printed);
    let other = renamed(&rt, alloc, &octets, CE, 0x14, 0x7f);
    let printed = "invalid extension 551d7f: an unknown extension";
    assert_fault(&rt, alloc, decode_crl(alloc, &other), printed);
}
