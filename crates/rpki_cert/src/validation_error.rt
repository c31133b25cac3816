//! Why a certificate isn't valid.
ghost use Rattle.std.specs.Prelude.{◌≡◌};

use crate::verification_error::VerificationError;
use rpki_ext::InspectionError;
use thiserror::Error;

/// Why a certificate isn't valid: it doesn't meet the profile of its kind, or isn't verified (RFC
/// 6487 7.2).
#[derive(Debug, Drop, Error)]
pub enum ValidationError {
    /// It doesn't meet the profile of its kind (RFC 6487 4, RFC 8209 3.1).
    #[error("{0}")]
    Inspection(InspectionError),
    /// It meets the profile, but a check of verification fails (RFC 6487 7.2).
    #[error("{0}")]
    Verification(VerificationError),
}

impl ValidationError {
    ghost use Rattle.std.specs.Prelude.{◌↔◌, IsTrue};
    ghost use Rattle.rpki_cert.specs.Validation.{validation_error_name};
    ghost use Rattle.rpki_cert.specs.declared.validation_error.ValidationError.TheVariants.{Verification};
    ghost use Rattle.rpki_cert.specs.declared.verification_error.VerificationError.TheVariants.{Memory};

    /// Returns the variant's name.
    pub fn name(&self) -> &'static str
        ensures { result.now ≡ validation_error_name self.now }
    {
        match self {
            ValidationError::Inspection(_) => "Inspection",
            ValidationError::Verification(_) => "Verification",
        }
    }

    /// Returns whether memory ran out.
    pub fn is_memory(&self) -> bool
        ensures { IsTrue result ↔ self.now ≡ Verification Memory }
    {
        match self {
            ValidationError::Inspection(_) => false,
            ValidationError::Verification(error) => error.is_memory(),
        }
    }
}

impl From<InspectionError> for ValidationError {
    ghost use Rattle.rpki_cert.specs.declared.validation_error.ValidationError.TheVariants.{Inspection};

    ghost from_gives = { λ d e. e ≡ Inspection d };

    fn from(error: InspectionError) -> ValidationError {
        ValidationError::Inspection(error)
    }
}

impl From<VerificationError> for ValidationError {
    ghost use Rattle.rpki_cert.specs.declared.validation_error.ValidationError.TheVariants.{Verification};

    ghost from_gives = { λ d e. e ≡ Verification d };

    fn from(error: VerificationError) -> ValidationError {
        ValidationError::Verification(error)
    }
}
