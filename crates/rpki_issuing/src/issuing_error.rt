//! Errors of preparing and completing certificates.
ghost use Rattle.std.specs.Prelude.{◌≡◌};

use rpki_cert::{InspectionError, ValidationError, VerificationError};
use rpki_der::{DecodeError, EncodeError};
use std::alloc::AllocError;
use thiserror::Error;

/// The error of a certificate that isn't prepared for signing, or isn't completed.
#[derive(Debug, Drop, Error)]
pub enum IssuingError {
    /// The fields can't be written as a certificate that decodes again: they have no resources, or
    /// their IPv4 resources aren't whole IPv4 addresses (RFC 6487 4.8, RFC 3779 2.2.3).
    #[error("fields of no certificate")]
    Unwritable,
    /// The certificate is too long: a content would have 2^32 bytes or more (own).
    #[error("content too long")]
    TooLong,
    /// The certificate doesn't meet the profile of its kind, or a check below its issuer fails (RFC
    /// 6487 7.2).
    #[error("{0}")]
    Invalid(ValidationError),
    /// Memory ran out.
    #[error("out of memory")]
    Memory,
}

impl IssuingError {
    ghost use Rattle.std.specs.Prelude.{◌↔◌, IsTrue};
    ghost use Rattle.rpki_issuing.specs.IssuingErrors.{issuing_error_name};
    ghost use Rattle.rpki_issuing.specs.declared.issuing_error.IssuingError.TheVariants.{Memory};

    /// Returns the variant's name.
    pub fn name(&self) -> &'static str
        ensures { result.now ≡ issuing_error_name self.now }
    {
        match self {
            IssuingError::Unwritable => "Unwritable",
            IssuingError::TooLong => "TooLong",
            IssuingError::Invalid(_) => "Invalid",
            IssuingError::Memory => "Memory",
        }
    }

    /// Returns whether memory ran out.
    pub fn is_memory(&self) -> bool
        ensures { IsTrue result ↔ self.now ≡ Memory }
    {
        match self {
            IssuingError::Memory => true,
            _ => false,
        }
    }
}

impl From<AllocError> for IssuingError {
    ghost use Rattle.rpki_issuing.specs.declared.issuing_error.IssuingError.TheVariants.{Memory};

    ghost from_gives = { λ _ e. e ≡ Memory };

    fn from(_error: AllocError) -> IssuingError {
        IssuingError::Memory
    }
}

impl From<EncodeError> for IssuingError {
    ghost use Rattle.rpki_issuing.specs.IssuingErrors.{of_encoding};

    ghost from_gives = { λ d e. e ≡ of_encoding d };

    fn from(error: EncodeError) -> IssuingError {
        match error {
            EncodeError::TooLong => IssuingError::TooLong,
            EncodeError::Memory => IssuingError::Memory,
        }
    }
}

impl From<DecodeError> for IssuingError {
    ghost use Rattle.rpki_issuing.specs.IssuingErrors.{error_of_decoding};

    ghost from_gives = { λ d e. e ≡ error_of_decoding d };

    fn from(error: DecodeError) -> IssuingError {
        match error {
            DecodeError::Memory => IssuingError::Memory,
            _ => IssuingError::Unwritable,
        }
    }
}

impl From<InspectionError> for IssuingError {
    ghost use Rattle.rpki_cert.specs.declared.validation_error.ValidationError.TheVariants.{Inspection};
    ghost use Rattle.rpki_issuing.specs.declared.issuing_error.IssuingError.TheVariants.{Invalid};

    ghost from_gives = { λ d e. e ≡ Invalid (Inspection d) };

    fn from(error: InspectionError) -> IssuingError {
        IssuingError::Invalid(ValidationError::Inspection(error))
    }
}

impl From<VerificationError> for IssuingError {
    ghost use Rattle.rpki_issuing.specs.IssuingErrors.{error_of_verification};

    ghost from_gives = { λ d e. e ≡ error_of_verification d };

    fn from(error: VerificationError) -> IssuingError {
        match error {
            VerificationError::Memory => IssuingError::Memory,
            other => IssuingError::Invalid(ValidationError::Verification(other)),
        }
    }
}

impl From<ValidationError> for IssuingError {
    ghost use Rattle.rpki_issuing.specs.IssuingErrors.{error_of_validation};

    ghost from_gives = { λ d e. e ≡ error_of_validation d };

    fn from(error: ValidationError) -> IssuingError {
        match error {
            ValidationError::Inspection(fault) => {
                IssuingError::Invalid(ValidationError::Inspection(fault))
            }
            ValidationError::Verification(fault) => IssuingError::from(fault),
        }
    }
}
