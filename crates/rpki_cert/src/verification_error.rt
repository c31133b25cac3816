//! Why a certificate isn't verified.
ghost use Rattle.std.specs.Prelude.{◌≡◌};

use rpki_parts::{SignatureVerificationError, ValidityError};
use std::alloc::AllocError;
use thiserror::Error;

/// Why a certificate isn't verified (RFC 6487 7.2). The order of the checks is own.
#[derive(Debug, Drop, Error)]
pub enum VerificationError {
    /// The validation time is before notBefore (RFC 6487 4.6, RFC 5280 4.1.2.5).
    #[error("certificate not yet valid")]
    NotYetValid,
    /// The validation time is after notAfter (RFC 6487 4.6, RFC 5280 4.1.2.5).
    #[error("certificate expired")]
    Expired,
    /// A trust anchor inherits IPv4 addresses (RFC 8630 2.3).
    #[error("inherited IPv4 resources")]
    InheritedV4,
    /// A trust anchor inherits IPv6 addresses (RFC 8630 2.3).
    #[error("inherited IPv6 resources")]
    InheritedV6,
    /// A trust anchor inherits AS numbers (RFC 8630 2.3).
    #[error("inherited AS resources")]
    InheritedAs,
    /// The Authority Key Identifier is absent (RFC 6487 4.8.3).
    #[error("missing authority key identifier")]
    MissingKeyId,
    /// The Authority Key Identifier is not the issuer's Subject Key Identifier (RFC 6487 4.8.3).
    #[error("wrong authority key identifier")]
    WrongKeyId,
    /// The URI of the issuer's certificate is absent (RFC 6487 4.8.7).
    #[error("missing URI of the issuer's certificate")]
    MissingIssuerUri,
    /// The issuer's key didn't sign the certificate (RFC 6487 7.2).
    #[error("bad signature")]
    BadSignature,
    /// It lists IPv4 addresses that the issuer doesn't hold, and its policy isn't that of RFC 8360
    /// (RFC 6487 7.2).
    #[error("overclaimed IPv4 resources")]
    OverclaimV4,
    /// It lists IPv6 addresses that the issuer doesn't hold, and its policy isn't that of RFC 8360
    /// (RFC 6487 7.2).
    #[error("overclaimed IPv6 resources")]
    OverclaimV6,
    /// It lists AS numbers that the issuer doesn't hold, and its policy isn't that of RFC 8360 (RFC
    /// 6487 7.2).
    #[error("overclaimed AS resources")]
    OverclaimAs,
    /// Memory ran out, which says nothing of the certificate (own).
    #[error("out of memory")]
    Memory,
}

impl VerificationError {
    ghost use Rattle.std.specs.Prelude.{◌↔◌, IsTrue};
    ghost use Rattle.rpki_cert.specs.Verification.{verification_error_name};
    ghost use Rattle.rpki_cert.specs.declared.verification_error.VerificationError.TheVariants as error;

    /// Returns the variant's name.
    pub fn name(&self) -> &'static str
        ensures { result.now ≡ verification_error_name self.now }
    {
        match self {
            VerificationError::NotYetValid => "NotYetValid",
            VerificationError::Expired => "Expired",
            VerificationError::InheritedV4 => "InheritedV4",
            VerificationError::InheritedV6 => "InheritedV6",
            VerificationError::InheritedAs => "InheritedAs",
            VerificationError::MissingKeyId => "MissingKeyId",
            VerificationError::WrongKeyId => "WrongKeyId",
            VerificationError::MissingIssuerUri => "MissingIssuerUri",
            VerificationError::BadSignature => "BadSignature",
            VerificationError::OverclaimV4 => "OverclaimV4",
            VerificationError::OverclaimV6 => "OverclaimV6",
            VerificationError::OverclaimAs => "OverclaimAs",
            VerificationError::Memory => "Memory",
        }
    }

    /// Returns whether memory ran out.
    pub fn is_memory(&self) -> bool
        ensures { IsTrue result ↔ self.now ≡ error.Memory }
    {
        match self {
            VerificationError::Memory => true,
            _ => false,
        }
    }
}

impl From<AllocError> for VerificationError {
    ghost use Rattle.rpki_cert.specs.declared.verification_error.VerificationError.TheVariants.{Memory};

    ghost from_gives = { λ _ e. e ≡ Memory };

    fn from(_error: AllocError) -> VerificationError {
        VerificationError::Memory
    }
}

impl From<ValidityError> for VerificationError {
    ghost use Rattle.rpki_cert.specs.Errors.{of_validity};

    ghost from_gives = { λ d e. e ≡ of_validity d };

    fn from(error: ValidityError) -> VerificationError {
        match error {
            ValidityError::NotYetValid => VerificationError::NotYetValid,
            ValidityError::Expired => VerificationError::Expired,
        }
    }
}

impl From<SignatureVerificationError> for VerificationError {
    ghost use Rattle.rpki_cert.specs.declared.verification_error.VerificationError.TheVariants.{BadSignature};

    ghost from_gives = { λ _ e. e ≡ BadSignature };

    fn from(_error: SignatureVerificationError) -> VerificationError {
        VerificationError::BadSignature
    }
}
