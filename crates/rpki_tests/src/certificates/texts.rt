//! What values print.

use crate::checks::check_shown;
use rpki_blocks::{Asn, Overclaim};
use rpki_cert::Kind;
use rpki_der::{Serial, Time};
use rpki_ext::KeyUsage;
use rpki_parts::{Https, KeyIdentifier, Rsync};

#[test]
fn values_print(rt: HostRuntime) {
    let alloc = rt.alloc();
    let time = Time::utc(2026, 11, 5, 6, 0, 59).expect(&rt, "a time");
    let key = KeyIdentifier::from_octets([0xA9; 20]);
    let digits = "A9A9A9A9A9A9A9A9A9A9A9A9A9A9A9A9A9A9A9A9";
    check_shown(&rt, alloc, &Asn::from(64496), "AS64496");
    check_shown(&rt, alloc, &Serial::from(0u64), "00");
    check_shown(&rt, alloc, &Serial::from(500u64), "01F4");
    check_shown(&rt, alloc, &time, "2026-11-05T06:00:59Z");
    check_shown(&rt, alloc, &key, digits);
}

#[test]
fn uris_print(rt: HostRuntime) {
    let alloc = rt.alloc();
    let uri = Rsync::from_text(alloc, "rsync://h/m/x").expect(&rt, "a URI");
    check_shown(&rt, alloc, &uri, "rsync://h/m/x");
    drop(uri);
    let uri = Https::from_text(alloc, "https://h/x").expect(&rt, "a URI");
    check_shown(&rt, alloc, &uri, "https://h/x");
    drop(uri);
}

#[test]
fn names_print(rt: HostRuntime) {
    let alloc = rt.alloc();
    check_shown(&rt, alloc, &Overclaim::Trim, "trim");
    check_shown(&rt, alloc, &KeyUsage::Ca, "keyCertSign, cRLSign");
    check_shown(&rt, alloc, &Kind::Anchor, "trust anchor");
}
