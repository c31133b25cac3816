//! A verifier that accepts every signature.

use rpki_parts::{PublicKey, RpkiSignatureAlgorithm, Verifier};

// Takes each signature for valid, so that all other checks are left.
#[derive(Clone, Copy)]
pub(crate) struct AnySignature;

impl Verifier for AnySignature {
    ghost use Rattle.rpki_issuing.specs.Readiness.{any_signature};

    ghost verifies = { λ _. any_signature };

    fn verify(
        &self,
        _key: &PublicKey,
        _algorithm: RpkiSignatureAlgorithm,
        _message: &[u8],
        _signature: &[u8],
    ) -> bool {
        true
    }
}
