//! A verifier that knows the answer for one signature.
ghost use Rattle.std.specs.Prelude.{◌≡◌, ◌↔◌, IsTrue};
ghost use Rattle.rpki_cert.specs.Verification.{IsSignedBy};

use crate::entity::is_one_key;
use rpki_parts::{PublicKey, RpkiSignatureAlgorithm, SignedData, Verifier};
use std::marker::Model;

/// A verifier that knows whether one key signed one message, and passes every other question on. So
/// a signature that was verified isn't verified again, and the relation is that of the verifier.
#[derive(Drop)]
pub(crate) struct Known<'v, V: Verifier> {
    verifier: &'v V,
    key: &'v PublicKey,
    signed: &'v SignedData,
    answer: bool,
}

impl<'v, V: Verifier> Model for Known<'v, V> {
    ghost use Rattle.std.specs.Prelude.{◌↔◌, IsTrue};
    ghost use Rattle.rpki_cert.specs.Verification.{IsSignedBy};

    ghost Value = { V };

    ghost view = { λ k. k.verifier.now };

    ghost invariant = { λ k. IsTrue k.answer
        ↔ IsSignedBy (V.verifies k.verifier.now) k.key.now k.signed.now };
}

impl<'v, V: Verifier> Known<'v, V> {
    /// Makes the verifier that knows this answer.
    pub(crate) fn new(
        verifier: &'v V,
        key: &'v PublicKey,
        signed: &'v SignedData,
        answer: bool,
    ) -> Known<'v, V>
        requires { IsTrue answer ↔ IsSignedBy (V.verifies verifier.now) key.now signed.now }
        ensures { result ≡ verifier.now }
    {
        Known {
            verifier,
            key,
            signed,
            answer,
        }
    }
}

// Whether a question is the one with this key and these signed data.
fn is_question(
    known: &PublicKey,
    signed: &SignedData,
    key: &PublicKey,
    algorithm: RpkiSignatureAlgorithm,
    message: &[u8],
    signature: &[u8],
) -> bool
    ensures key { IsTrue result → known.now ≡ key.now }
    ensures algorithm { IsTrue result → signed.now.signature.algorithm ≡ algorithm }
    ensures message { IsTrue result → signed.now.message ≡ message.now }
    ensures signature { IsTrue result → signed.now.signature.value ≡ signature.now }
{
    is_one_key(known, key)
        && *signed.signature().algorithm() == algorithm
        && signed.data() == message
        && signed.signature().value() == signature
}

impl<'v, V: Verifier> Verifier for Known<'v, V> {
    ghost verifies = { V.verifies };

    fn verify(
        &self,
        key: &PublicKey,
        algorithm: RpkiSignatureAlgorithm,
        message: &[u8],
        signature: &[u8],
    ) -> bool {
        if is_question(self.key, self.signed, key, algorithm, message, signature) {
            return self.answer;
        }
        self.verifier.verify(key, algorithm, message, signature)
    }
}
