//! Signatures, and who verifies and makes them.
ghost use Rattle.std.specs.Prelude.{◌≡◌, ◌↔◌, IfOk, IsTrue};
ghost use Rattle.rpki_der.specs.Values.{AreOctets};
ghost use Rattle.rpki_parts.specs.Signatures.{SignatureFields};

use crate::algorithm::RpkiSignatureAlgorithm;
use crate::key::PublicKey;
use bytes::Bytes;
use rpki_der::{EncodeError, Piece};
use std::alloc::{AllocError, Global};
use std::marker::Model;
use thiserror::Error;

/// A signature, and the algorithm that it names.
#[derive(Drop)]
pub struct Signature {
    algorithm: RpkiSignatureAlgorithm,
    value: Piece,
}

impl Model for Signature {
    ghost use Rattle.rpki_parts.specs.Signatures.{SignatureFields};

    ghost Value = { SignatureFields };

    ghost view = { λ s. record { algorithm = s.algorithm; value = s.value } };
}

impl Signature {
    /// Makes the signature with these bytes and this algorithm.
    pub fn new(algorithm: RpkiSignatureAlgorithm, value: Bytes) -> Signature
        ensures { result ≡ record { algorithm = algorithm; value = value } }
    {
        Signature {
            algorithm,
            value: Piece::from(value),
        }
    }

    pub(crate) fn from_piece(algorithm: RpkiSignatureAlgorithm, value: Piece) -> Signature
        ensures { result ≡ record { algorithm = algorithm; value = value } }
    {
        Signature { algorithm, value }
    }

    /// Returns the algorithm that the signature names.
    pub fn algorithm(&self) -> &RpkiSignatureAlgorithm
        ensures { result.now ≡ self.now.algorithm }
    {
        &self.algorithm
    }

    /// Returns the bytes of the signature.
    pub fn value(&self) -> &[u8]
        ensures same { result.now ≡ self.now.value }
        ensures octets { AreOctets self.now.value }
    {
        // Called for what it ensures alone.
        let _octets = self.value.cursor();
        self.value.as_bytes()
    }

    /// Clones the signature.
    ///
    /// # Errors
    ///
    /// Returns an error if memory ran out.
    pub fn try_clone(&self, alloc: Global) -> Result<Signature, AllocError>
        ensures { IfOk result (λ s. s ≡ self.now) }
    {
        let value = self.value.try_clone(alloc)?;
        Ok(Signature {
            algorithm: self.algorithm,
            value,
        })
    }
}

/// Decides whether a signature is that of a message and a key.
///
/// The message is the whole value that is signed, with its identifier and length. The bits of the
/// key are those of [`PublicKey::bits`]. The algorithm is the one that the signature names. Each
/// implementation states the relation `verifies`; if foreign code gives the answer, that statement
/// is what is trusted of it.
pub trait Verifier {
    ghost use Rattle.rpki_parts.specs.Signatures.{Verifies};

    /// The relation that the answer decides.
    ghost verifies: { Self → Verifies };

    /// Returns whether the relation of key, algorithm, message and signature holds.
    fn verify(
        &self,
        key: &PublicKey,
        algorithm: RpkiSignatureAlgorithm,
        message: &[u8],
        signature: &[u8],
    ) -> bool
        ensures { IsTrue result ↔ verifies self.now key.now algorithm message.now signature.now };
}

/// Makes signatures with keys that it knows.
pub trait Signer {
    ghost use Rattle.std.specs.Prelude.{ℕ, List, Result};
    ghost use Rattle.rpki_parts.specs.Algorithms.{Algorithm};
    ghost use Rattle.rpki_parts.specs.Signatures.{SignatureFields};
    ghost use Rattle.rpki_parts.specs.declared.signature.SigningError.{SigningError as Refusal};

    /// The type that names a key of this signer.
    type KeyId;

    /// The reason why the signer doesn't sign.
    type Error;

    /// The relation of key, algorithm, message and answer that each answer satisfies, errors
    /// included.
    ghost signs: { Self → Self.KeyId → Algorithm → List ℕ
        → Result SignatureFields (Refusal Self.Error) → Type 0 };

    /// Signs the message with the key that `key` names.
    ///
    /// The message is the whole value that is to be signed, with its identifier and length.
    /// [`Signature::algorithm`] should be `algorithm`: readers reject a certificate or CRL that
    /// names another algorithm beside its signature (RFC 5280 4.1.1.2, 5.1.1.2).
    ///
    /// # Errors
    ///
    /// Returns [`SigningError::Memory`] if memory ran out, and [`SigningError::Signer`] if
    /// something else keeps the signer from signing.
    fn sign(
        &self,
        alloc: Global,
        key: &Self::KeyId,
        algorithm: RpkiSignatureAlgorithm,
        message: &[u8],
    ) -> Result<Signature, SigningError<Self::Error>>
        ensures { signs self.now key.now algorithm message.now result };
}

/// The reason why something wasn't signed.
#[derive(Debug, Drop, Error)]
pub enum SigningError<E> {
    /// The signer failed, with its own reason.
    #[error("signer failed")]
    Signer(E),
    /// A content would have 2^32 bytes or more.
    #[error("content too long")]
    TooLong,
    /// Memory ran out.
    #[error("out of memory")]
    Memory,
}

impl<E> SigningError<E> {
    ghost use Rattle.std.specs.Prelude.{◌≡◌, ◌↔◌, IsTrue};
    ghost use Rattle.rpki_parts.specs.SigningErrors.{signing_error_name};
    ghost use Rattle.rpki_parts.specs.declared.signature.SigningError.TheVariants as error;

    /// Returns the variant's name.
    pub fn name(&self) -> &'static str
        ensures { result.now ≡ signing_error_name self.now }
    {
        match self {
            SigningError::Signer(_) => "Signer",
            SigningError::TooLong => "TooLong",
            SigningError::Memory => "Memory",
        }
    }

    /// Returns whether memory ran out.
    pub fn is_memory(&self) -> bool
        ensures { IsTrue result ↔ self.now ≡ error.Memory }
    {
        match self {
            SigningError::Signer(_) | SigningError::TooLong => false,
            SigningError::Memory => true,
        }
    }
}

impl<E> From<EncodeError> for SigningError<E> {
    ghost use Rattle.rpki_parts.specs.SigningErrors.{as_signing_error};

    ghost from_gives = { λ d e. e ≡ as_signing_error d };

    fn from(error: EncodeError) -> SigningError<E> {
        match error {
            EncodeError::TooLong => SigningError::TooLong,
            EncodeError::Memory => SigningError::Memory,
        }
    }
}

impl<E> From<AllocError> for SigningError<E> {
    ghost use Rattle.std.specs.Prelude.{◌≡◌};
    ghost use Rattle.rpki_parts.specs.declared.signature.SigningError.TheVariants.{Memory};

    ghost from_gives = { λ _ e. e ≡ Memory };

    fn from(_error: AllocError) -> SigningError<E> {
        SigningError::Memory
    }
}

/// The signature isn't that of the message and the key.
#[derive(Debug, Clone, Copy, PartialEq, Eq, Error)]
#[error("invalid signature")]
pub struct SignatureVerificationError;

impl SignatureVerificationError {
    ghost use Rattle.std.specs.Prelude.{codes};

    /// Returns the type's name.
    pub fn name(&self) -> &'static str
        ensures { result.now ≡ codes "SignatureVerificationError" }
    {
        "SignatureVerificationError"
    }
}
