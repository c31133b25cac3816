//! Why a certificate isn't rearranged.
ghost use Rattle.std.specs.Prelude.{◌≡◌};

use rpki_der::{DecodeError, EncodeError};
use std::alloc::AllocError;
use thiserror::Error;

/// Why a certificate isn't rearranged (own).
#[derive(Debug, Drop, Error)]
pub enum RearrangeError {
    /// The bytes begin with no certificate (RFC 6487 4).
    #[error("no certificate")]
    NoCertificate,
    /// The order doesn't name each extension once, or an extension is to be added after an index
    /// that doesn't exist (own).
    #[error("not an order of the extensions")]
    NotAnOrder,
    /// An extension to add is of a known kind (own).
    #[error("added extension of a known kind")]
    KnownExtra,
    /// A content would have 2^32 bytes or more (own).
    #[error("content too long")]
    TooLong,
    /// Memory ran out (own).
    #[error("out of memory")]
    Memory,
}

impl RearrangeError {
    ghost use Rattle.std.specs.Prelude.{◌↔◌, IsTrue};
    ghost use Rattle.rpki_cert.specs.RearrangeErrors.{rearrange_error_name};
    ghost use Rattle.rpki_cert.specs.declared.rearrange_error.RearrangeError.TheVariants as error;

    /// Returns the variant's name.
    pub fn name(&self) -> &'static str
        ensures { result.now ≡ rearrange_error_name self.now }
    {
        match self {
            RearrangeError::NoCertificate => "NoCertificate",
            RearrangeError::NotAnOrder => "NotAnOrder",
            RearrangeError::KnownExtra => "KnownExtra",
            RearrangeError::TooLong => "TooLong",
            RearrangeError::Memory => "Memory",
        }
    }

    /// Returns whether memory ran out.
    pub fn is_memory(&self) -> bool
        ensures { IsTrue result ↔ self.now ≡ error.Memory }
    {
        match self {
            RearrangeError::Memory => true,
            _ => false,
        }
    }
}

impl From<DecodeError> for RearrangeError {
    ghost use Rattle.rpki_cert.specs.RearrangeErrors.{of_reading};

    ghost from_gives = { λ d e. e ≡ of_reading d };

    fn from(error: DecodeError) -> RearrangeError {
        match error {
            DecodeError::Memory => RearrangeError::Memory,
            other => {
                drop(other);
                RearrangeError::NoCertificate
            }
        }
    }
}

impl From<EncodeError> for RearrangeError {
    ghost use Rattle.rpki_cert.specs.RearrangeErrors.{of_writing};

    ghost from_gives = { λ d e. e ≡ of_writing d };

    fn from(error: EncodeError) -> RearrangeError {
        match error {
            EncodeError::TooLong => RearrangeError::TooLong,
            EncodeError::Memory => RearrangeError::Memory,
        }
    }
}

impl From<AllocError> for RearrangeError {
    ghost use Rattle.rpki_cert.specs.declared.rearrange_error.RearrangeError.TheVariants.{Memory};

    ghost from_gives = { λ _ e. e ≡ Memory };

    fn from(_error: AllocError) -> RearrangeError {
        RearrangeError::Memory
    }
}
