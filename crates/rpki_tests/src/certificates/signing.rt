//! Signers of a caller's own: their errors, and how often they are called.

use crate::checks::{check, check_count, check_octets, check_text};
use crate::samples;
use crate::signers::{Refusal, Refusing};
use bytes::Bytes;
use rpki_cert::{Cert, TbsCert};
use rpki_parts::{RpkiSignatureAlgorithm, Signature, Signer, SigningError};
use std::alloc::Global;
use std::cell::{Cell, RefCell};
use std::process::Abort;

// What the refused call answered; 0 for a certificate.
fn answered(made: Result<Cert, SigningError<u32>>) -> (u32, &'static str) {
    match made {
        Ok(cert) => {
            drop(cert);
            (0, "Ok")
        }
        Err(SigningError::Signer(key)) => (key, "Signer"),
        Err(refusal) => (0, refusal.name()),
    }
}

fn assert_refused(rt: &impl Abort, alloc: Global, refusal: Refusal, answer: (u32, &'static str)) {
    let signer = Refusing::new(refusal);
    let tbs = samples::anchor(alloc).expect(rt, "memory");
    let made = tbs.into_cert(alloc, &signer, &7);
    let (key, name) = answered(made);
    check(rt, key == answer.0, "the key of the refusal");
    check_text(rt, name, answer.1);
    check_count(rt, signer.calls(), 1);
    drop(signer);
}

#[test]
fn a_refusal_is_passed_on(rt: HostRuntime) {
    let alloc = rt.alloc();
    assert_refused(&rt, alloc, Refusal::Own, (7, "Signer"));
    assert_refused(&rt, alloc, Refusal::TooLong, (0, "TooLong"));
    assert_refused(&rt, alloc, Refusal::Memory, (0, "Memory"));
}

// Signs anything with two octets, and keeps what it was signed for.
#[derive(Drop)]
struct Keeping {
    calls: Cell<usize>,
    signed: RefCell<Vec<u8>>,
}

impl Signer for Keeping {
    ghost use Rattle.std.specs.Prelude.{⊤};

    type KeyId = ();

    type Error = ();

    ghost signs = { λ _ _ _ _ _. ⊤ };

    fn sign(
        &self,
        _alloc: Global,
        _key: &(),
        algorithm: RpkiSignatureAlgorithm,
        message: &[u8],
    ) -> Result<Signature, SigningError<()>> {
        self.calls.set(self.calls.get().wrapping_add(1));
        if let Ok(mut signed) = self.signed.try_borrow_mut() {
            signed.extend_from_slice(message)?;
        }
        Ok(Signature::new(algorithm, Bytes::from_static(b"\x01\x02")))
    }
}

fn assert_kept(rt: &impl Abort, alloc: Global, signer: &Keeping, cert: &Cert) {
    check_count(rt, signer.calls.get(), 1);
    let signed = signer.signed.try_borrow().expect(rt, "no other borrow");
    check_octets(rt, signed.as_slice(), cert.signed_data().data());
    let written = samples::written(alloc, cert.as_tbs()).expect(rt, "memory");
    check_octets(rt, signed.as_slice(), written.as_slice());
    check_octets(rt, cert.signed_data().signature().value(), b"\x01\x02");
    drop(written);
    drop(signed);
}

fn assert_signed(rt: &impl Abort, alloc: Global, signer: &Keeping, tbs: TbsCert) {
    let made = tbs.into_cert(alloc, signer, &());
    let made = made.expect(rt, "a certificate");
    assert_kept(rt, alloc, signer, &made);
    drop(made);
}

#[test]
fn what_is_kept_is_signed_once(rt: HostRuntime) {
    let alloc = rt.alloc();
    let signer = Keeping {
        calls: Cell::new(0),
        signed: RefCell::new(Vec::new(alloc)),
    };
    assert_signed(
        &rt,
        alloc,
        &signer,
        samples::anchor(alloc).expect(&rt, "memory"),
    );
}
