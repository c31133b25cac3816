//! Signatures are verified, by the stand-in and by a verifier of a caller's own.

use crate::checks::check;
use crate::samples::rsa;
use bytes::Bytes;
use rpki_parts::{PublicKey, RpkiSignatureAlgorithm, Signature, SignedData, StandIn, Verifier};

fn signed_data(data: &'static [u8], signature: &'static [u8]) -> SignedData {
    let algorithm = RpkiSignatureAlgorithm::default();
    let signature = Signature::new(algorithm, Bytes::from_static(signature));
    SignedData::new(Bytes::from_static(data), signature)
}

// Whether the verifier finds the signature to be one of two octets by the key of these bits.
fn accepts(verifier: &impl Verifier, bits: &'static [u8], signature: &'static [u8]) -> bool {
    let data = signed_data(b"\x30\x00", signature);
    let key = rsa(bits);
    let answer = data.verify_signature(&key, verifier);
    drop(key);
    drop(data);
    answer.is_ok()
}

// Accepts a message as its own signature.
struct Itself;

impl Verifier for Itself {
    ghost use Rattle.std.specs.Prelude.{◌≡◌};

    ghost verifies = { λ _ _ _ message signature. message ≡ signature };

    fn verify(
        &self,
        _key: &PublicKey,
        _algorithm: RpkiSignatureAlgorithm,
        message: &[u8],
        signature: &[u8],
    ) -> bool {
        message == signature
    }
}

#[test]
fn a_verifier_is_asked(rt: HostRuntime) {
    check(
        &rt,
        accepts(&Itself, b"a", b"\x30\x00"),
        "the message itself",
    );
    check(&rt, !accepts(&Itself, b"a", b"\x30"), "another message");
}
