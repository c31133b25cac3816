//! A signer and verifier for tests, which protects nothing.
ghost use Rattle.std.specs.Prelude.{◌≡◌, ◌++◌, IfOk};

use crate::algorithm::RpkiSignatureAlgorithm;
use crate::key::PublicKey;
use crate::signature::{Signature, Signer, SigningError, Verifier};
use bytes::Bytes;
use std::alloc::{AllocError, Global};

/// Makes and verifies dummy signatures, which anyone can make: the key's bits, followed by the
/// message (own). **It protects nothing**, and is for tests and for trying things out.
#[derive(Clone, Copy)]
pub struct StandIn;

// The octets of both, one after the other.
fn joined(alloc: Global, front: &[u8], rest: &[u8]) -> Result<Bytes, AllocError>
    ensures { IfOk result (λ b. b ≡ front.now ++ rest.now) }
{
    let mut octets = Vec::from_slice(alloc, front)?;
    octets.extend_from_slice(rest)?;
    Ok(Bytes::from_vec(octets)?)
}

impl Verifier for StandIn {
    ghost use Rattle.rpki_parts.specs.Signatures.{IsStandInSignature};

    ghost verifies = { λ _. IsStandInSignature };

    fn verify(
        &self,
        key: &PublicKey,
        _algorithm: RpkiSignatureAlgorithm,
        message: &[u8],
        signature: &[u8],
    ) -> bool {
        match signature.strip_prefix(key.bits()) {
            Some(rest) => rest == message,
            None => false,
        }
    }
}

impl Signer for StandIn {
    ghost use Rattle.std.specs.Prelude.{◌≡◌, MatchResult};
    ghost use Rattle.rpki_parts.specs.Signatures.{IsStandInSignature};
    ghost use Rattle.rpki_parts.specs.declared.signature.SigningError.TheVariants.{Memory};

    type KeyId = PublicKey;

    type Error = ();

    ghost signs = { λ _ key algorithm message r. MatchResult r
        (λ s. (s.algorithm ≡ algorithm) × IsStandInSignature key algorithm message s.value)
        (λ e. e ≡ Memory) };

    fn sign(
        &self,
        alloc: Global,
        key: &PublicKey,
        algorithm: RpkiSignatureAlgorithm,
        message: &[u8],
    ) -> Result<Signature, SigningError<()>> {
        let value = joined(alloc, key.bits(), message)?;
        Ok(Signature::new(algorithm, value))
    }
}
