//! Revocation lists that are made.

use crate::checks::check_hash;
use crate::samples;
use rpki_crl::{Crl, CrlEntry, TbsCertList};
use rpki_der::Serial;
use rpki_parts::{RpkiSignatureAlgorithm, StandIn};
use std::alloc::Global;
use std::process::Abort;

/// The SHA-1 hash of the list that is made below.
const MADE: &str = "ea1b43c9cdd588d0e74a5589d7758fc089321735";

/// The list of an issuer with another key, which revokes the numbers 128 and 127.
pub(crate) const TWO: &str =
    "308201623081a3020101300d06092a864886f70d01010b05003010310e300c060355040313054430374145180f31393439303632363030343333375a170d3239313230353131333634365a3029301302020080170d3530303431323039323730345a301202017f170d3530303930333030313030325aa032303030220603551d230101ff0418301680141e71d71a4379d173921c491cbff665c959b760be300a0603551d140403020101300d06092a864886f70d01010b05000381aa00da365e3081a3020101300d06092a864886f70d01010b05003010310e300c060355040313054430374145180f31393439303632363030343333375a170d3239313230353131333634365a3029301302020080170d3530303431323039323730345a301202017f170d3530303930333030313030325aa032303030220603551d230101ff0418301680141e71d71a4379d173921c491cbff665c959b760be300a0603551d140403020101";

/// The data of the list of the key `abc` with the entries 12 and 42, for ten years.
pub(crate) fn data(rt: &impl Abort, alloc: Global) -> TbsCertList<Vec<CrlEntry>> {
    let since = samples::day(2019).expect(rt, "a day");
    let first = CrlEntry::new(Serial::from(12u64), since);
    let second = CrlEntry::new(Serial::from(42u64), since);
    let issuer = samples::rsa(b"abc").to_subject_name(alloc);
    TbsCertList::new(
        RpkiSignatureAlgorithm::default(),
        issuer.expect(rt, "a name"),
        since,
        samples::day(2029).expect(rt, "a day"),
        Vec::from_slice(alloc, &[first, second]).expect(rt, "memory"),
        samples::rsa(b"abc").key_identifier(),
        Serial::from(12u64),
    )
}

/// The list of this key for ten years, which revokes nothing.
pub(crate) fn plain(rt: &impl Abort, alloc: Global, key: &'static [u8]) -> Crl {
    let mut data = data(rt, alloc);
    data.set_revoked_certs(Vec::new(alloc));
    data.set_authority_key_identifier(samples::rsa(key).key_identifier());
    let made = data.into_crl(alloc, &StandIn, &samples::rsa(key));
    made.expect(rt, "a list")
}

fn assert_made(rt: &impl Abort, alloc: Global, list: &Crl) {
    let kept = list.to_captured(alloc).expect(rt, "memory");
    check_hash(rt, alloc, kept.as_slice(), MADE);
}

#[test]
fn a_list_is_made(rt: HostRuntime) {
    let alloc = rt.alloc();
    let made = data(&rt, alloc).into_crl(alloc, &StandIn, &samples::rsa(b"abc"));
    let made = made.expect(&rt, "a list");
    assert_made(&rt, alloc, &made);
    drop(made);
}
