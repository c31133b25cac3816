//! A signer that verifies each signature before it returns it.
ghost use Rattle.std.specs.Prelude.{◌≡◌};
ghost use Rattle.rpki_issuing.specs.CheckedSigners.{as_checked};

use rpki_parts::{PublicKey, RpkiSignatureAlgorithm, Signature, Signer, SigningError, Verifier};
use std::alloc::Global;
use thiserror::Error;

/// Signs with another signer, and verifies each signature by this public key before returning it.
///
/// Whatever is made and signed with it is signed by this key, whatever the signer does. It also
/// catches a signer whose one wrong operation would reveal its key.
///
/// # Errors
///
/// `sign` returns a [`CheckedError`] if the signer fails, if the signature has another algorithm,
/// or if it doesn't verify.
///
/// # Not checked
///
/// Whether `public_key` is the key of the issuer that the certificate names.
#[derive(Drop)]
pub struct Checked<S, V> {
    /// The signer.
    pub signer: S,
    /// The verifier of its signatures.
    pub verifier: V,
    /// The public key by which signatures are verified.
    pub public_key: PublicKey,
}

/// The error of a [`Checked`] signer.
#[derive(Debug, Drop, Error)]
pub enum CheckedError<E> {
    /// The signer failed, with this error.
    #[error("signer failed")]
    Refused(E),
    /// The signature has another algorithm than the requested one.
    #[error("signature by another algorithm")]
    OtherAlgorithm,
    /// The signature doesn't verify by the public key.
    #[error("bad signature of the signer")]
    BadSignature,
}

impl<E> CheckedError<E> {
    ghost use Rattle.rpki_issuing.specs.CheckedSigners.{checked_error_name};

    /// Returns the variant's name.
    pub fn name(&self) -> &'static str
        ensures { result.now ≡ checked_error_name self.now }
    {
        match self {
            CheckedError::Refused(_) => "Refused",
            CheckedError::OtherAlgorithm => "OtherAlgorithm",
            CheckedError::BadSignature => "BadSignature",
        }
    }
}

// The refusal of the signer below.
fn refused<E>(refusal: SigningError<E>) -> SigningError<CheckedError<E>>
    ensures { result ≡ as_checked refusal }
{
    match refusal {
        SigningError::Signer(error) => SigningError::Signer(CheckedError::Refused(error)),
        SigningError::TooLong => SigningError::TooLong,
        SigningError::Memory => SigningError::Memory,
    }
}

impl<S: Signer, V: Verifier> Signer for Checked<S, V> {
    ghost use Rattle.rpki_issuing.specs.CheckedSigners.{AnswersChecked};

    type KeyId = S::KeyId;

    type Error = CheckedError<S::Error>;

    ghost signs = { λ self key algorithm message answer.
        AnswersChecked (V.verifies self.verifier) self.public_key algorithm message
        (S.signs self.signer key algorithm message) answer };

    fn sign(
        &self,
        alloc: Global,
        key: &S::KeyId,
        algorithm: RpkiSignatureAlgorithm,
        message: &[u8],
    ) -> Result<Signature, SigningError<CheckedError<S::Error>>> {
        let signature = match self.signer.sign(alloc, key, algorithm, message) {
            Ok(signature) => signature,
            Err(refusal) => return Err(refused(refusal)),
        };
        if *signature.algorithm() != algorithm {
            return Err(SigningError::Signer(CheckedError::OtherAlgorithm));
        }
        if self
            .verifier
            .verify(&self.public_key, algorithm, message, signature.value())
        {
            Ok(signature)
        } else {
            Err(SigningError::Signer(CheckedError::BadSignature))
        }
    }
}
