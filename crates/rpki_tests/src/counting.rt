//! How often the verdict on a path asks for a signature.

use crate::anchors;
use crate::checks::check_count;
use crate::lists::plain;
use crate::samples::{self, rsa};
use bytes::Bytes;
use rpki_cert::{KeyUsage, Kind, TbsCert};
use rpki_crl::Crl;
use rpki_parts::{PublicKey, RpkiSignatureAlgorithm, StandIn, Verifier};
use rpki_path::revocation::GivenLists;
use rpki_path::{GivenPath, Member, judge};
use std::alloc::Global;
use std::cell::Cell;
use std::process::Abort;

/// The stand-in, which counts how often it is asked.
#[derive(Drop)]
pub struct Counting {
    pub calls: Cell<usize>,
}

impl Verifier for Counting {
    ghost use Rattle.rpki_parts.specs.Signatures.{IsStandInSignature};

    ghost verifies = { λ _. IsStandInSignature };

    fn verify(
        &self,
        key: &PublicKey,
        algorithm: RpkiSignatureAlgorithm,
        message: &[u8],
        signature: &[u8],
    ) -> bool {
        self.calls.set(self.calls.get().wrapping_add(1));
        StandIn.verify(key, algorithm, message, signature)
    }
}

// The data of a certificate with this key below an issuer with this one. It inherits all.
fn below(
    rt: &impl Abort,
    alloc: Global,
    key: &'static [u8],
    issuer: &'static [u8],
    usage: KeyUsage,
) -> TbsCert {
    let mut tbs = samples::bare(alloc, 13, rsa(key), usage).expect(rt, "memory");
    samples::set_issuer(alloc, &mut tbs);
    tbs.set_authority_key_identifier(Some(rsa(issuer).key_identifier()));
    samples::inherit_all(&mut tbs);
    tbs
}

// The octets of the certificate that the issuer's key signs.
fn signed(rt: &impl Abort, alloc: Global, tbs: TbsCert, issuer: &'static [u8]) -> Bytes {
    let made = tbs.into_cert(alloc, &StandIn, &rsa(issuer));
    let made = made.expect(rt, "a certificate");
    let octets = made.to_captured(alloc).expect(rt, "memory");
    drop(made);
    octets
}

// The octets of a CA's certificate.
fn authority(rt: &impl Abort, alloc: Global, key: &'static [u8], issuer: &'static [u8]) -> Bytes {
    let mut tbs = below(rt, alloc, key, issuer, KeyUsage::Ca);
    tbs.set_basic_ca(Some(true));
    samples::set_places(alloc, &mut tbs);
    signed(rt, alloc, tbs, issuer)
}

// The octets of a detached end entity's certificate.
fn end_entity(rt: &impl Abort, alloc: Global, key: &'static [u8], issuer: &'static [u8]) -> Bytes {
    let tbs = below(rt, alloc, key, issuer, KeyUsage::Ee);
    signed(rt, alloc, tbs, issuer)
}

// A trust anchor, two CAs and an end entity, each with a key of its own.
fn members(rt: &impl Abort, alloc: Global) -> [Bytes; 4] {
    [
        anchors::octets(rt, alloc),
        authority(rt, alloc, b"first", b"abc"),
        authority(rt, alloc, b"second", b"first"),
        end_entity(rt, alloc, b"last", b"second"),
    ]
}

// How often a verifier is asked for the verdict on the path of four with these lists, which accepts
// it.
fn signatures(rt: &impl Abort, alloc: Global, lists: &[Crl]) -> usize {
    let strings = members(rt, alloc);
    let given = Member::of_each(alloc, &strings).expect(rt, "memory");
    let path = GivenPath::of(&given, Kind::Detached).expect(rt, "four members");
    let now = anchors::now(rt);
    let counting = Counting {
        calls: Cell::new(0),
    };
    let answer = judge(alloc, &path, &GivenLists::new(lists), true, now, &counting);
    drop(answer.expect(rt, "a path"));
    counting.calls.get()
}

#[test]
fn each_signature_of_a_path_and_its_lists_is_verified_once(rt: HostRuntime) {
    let alloc = rt.alloc();
    let given = [
        plain(&rt, alloc, b"second"),
        plain(&rt, alloc, b"abc"),
        plain(&rt, alloc, b"first"),
    ];
    check_count(&rt, signatures(&rt, alloc, &given), 7);
    let [second, anchor, first] = given;
    drop(second);
    drop(anchor);
    drop(first);
}
