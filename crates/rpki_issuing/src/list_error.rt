//! Errors of preparing and completing CRLs.
ghost use Rattle.std.specs.Prelude.{◌≡◌};

use rpki_crl::RevocationError;
use rpki_der::EncodeError;
use thiserror::Error;

/// The error of a CRL that isn't prepared for signing, or isn't completed.
#[derive(Debug, Drop, Error)]
pub enum ListError {
    /// A check of the CRL below its issuer fails: `WrongKeyId`, `BadSignature` or `Stale` (RFC 6487
    /// 5, RFC 5280 5.1.2.4, 5.1.2.5).
    #[error("{0}")]
    Invalid(RevocationError),
    /// The CRL is too long: a content would have 2^32 bytes or more (own).
    #[error("content too long")]
    TooLong,
    /// Memory ran out.
    #[error("out of memory")]
    Memory,
}

impl ListError {
    ghost use Rattle.std.specs.Prelude.{◌↔◌, IsTrue};
    ghost use Rattle.rpki_issuing.specs.ListReadiness.{list_error_name};
    ghost use Rattle.rpki_issuing.specs.declared.list_error.ListError.TheVariants.{Memory};

    /// Returns the variant's name.
    pub fn name(&self) -> &'static str
        ensures { result.now ≡ list_error_name self.now }
    {
        match self {
            ListError::Invalid(_) => "Invalid",
            ListError::TooLong => "TooLong",
            ListError::Memory => "Memory",
        }
    }

    /// Returns whether memory ran out.
    pub fn is_memory(&self) -> bool
        ensures { IsTrue result ↔ self.now ≡ Memory }
    {
        match self {
            ListError::Memory => true,
            _ => false,
        }
    }
}

impl From<RevocationError> for ListError {
    ghost use Rattle.rpki_issuing.specs.declared.list_error.ListError.TheVariants.{Invalid};

    ghost from_gives = { λ d e. e ≡ Invalid d };

    fn from(error: RevocationError) -> ListError {
        ListError::Invalid(error)
    }
}

impl From<EncodeError> for ListError {
    ghost use Rattle.rpki_issuing.specs.ListReadiness.{of_list_encoding};

    ghost from_gives = { λ d e. e ≡ of_list_encoding d };

    fn from(error: EncodeError) -> ListError {
        match error {
            EncodeError::TooLong => ListError::TooLong,
            EncodeError::Memory => ListError::Memory,
        }
    }
}
