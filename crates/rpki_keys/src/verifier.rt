//! The verifier of the RPKI's signatures.

use crate::verifying::verify;
use rpki_parts::{PublicKey, PublicKeyFormat, RpkiSignatureAlgorithm, Verifier};

/// Verifies signatures as the RPKI has them: RSASSA-PKCS1-v1_5 with SHA-256, by RSA keys of 2048
/// bits with the exponent 65537 (RFC 7935 2, 3). No signature by another key is valid, as by a
/// router's P-256 key. Takes no memory.
///
/// # Not checked
///
/// The algorithm that is passed: the RPKI has only one (RFC 7935 2).
#[derive(Clone, Copy)]
pub struct RsaVerifier;

impl Verifier for RsaVerifier {
    ghost use Rattle.rpki_keys.specs.RsaSignatures.{IsSignedByRsa};

    ghost verifies = { λ _. IsSignedByRsa };

    fn verify(
        &self,
        key: &PublicKey,
        _algorithm: RpkiSignatureAlgorithm,
        message: &[u8],
        signature: &[u8],
    ) -> bool {
        key.algorithm() == PublicKeyFormat::Rsa && verify(key.bits(), message, signature)
    }
}
