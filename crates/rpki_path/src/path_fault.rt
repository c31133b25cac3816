//! Why a path isn't accepted.
ghost use Rattle.std.specs.Prelude.{◌≡◌};

use rpki_cert::{InspectionError, ValidationError, VerificationError};
use rpki_crl::RevocationError;
use rpki_der::DecodeError;
use std::alloc::AllocError;
use thiserror::Error;

/// What is wrong with one certificate of a path.
#[derive(Debug, Drop, Error)]
pub enum PathFault {
    /// The string doesn't start with a certificate.
    #[error("{0}")]
    Decode(DecodeError),
    /// The certificate doesn't meet the profile of its kind.
    #[error("{0}")]
    Inspect(InspectionError),
    /// The certificate isn't valid at this time, or not issued by the one above it.
    #[error("{0}")]
    Verify(VerificationError),
    /// Memory ran out.
    #[error("out of memory")]
    Memory,
    /// A check of the issuer's CRL fails: there is no CRL, it isn't the issuer's, it isn't current,
    /// or it revokes the certificate (RFC 5280 6.3.3).
    #[error("{0}")]
    Revocation(RevocationError),
}

impl PathFault {
    ghost use Rattle.std.specs.Prelude.{◌↔◌, IsTrue};
    ghost use Rattle.rpki_path.specs.FaultNames.{path_fault_name};
    ghost use Rattle.rpki_path.specs.declared.path_fault.PathFault.TheVariants.{Memory};

    /// Returns the variant's name.
    pub fn name(&self) -> &'static str
        ensures { result.now ≡ path_fault_name self.now }
    {
        match self {
            PathFault::Decode(_) => "Decode",
            PathFault::Inspect(_) => "Inspect",
            PathFault::Verify(_) => "Verify",
            PathFault::Revocation(_) => "Revocation",
            PathFault::Memory => "Memory",
        }
    }

    /// Returns whether memory ran out.
    pub fn is_memory(&self) -> bool
        ensures { IsTrue result ↔ self.now ≡ Memory }
    {
        match self {
            PathFault::Memory => true,
            _ => false,
        }
    }
}

impl From<AllocError> for PathFault {
    ghost use Rattle.rpki_path.specs.declared.path_fault.PathFault.TheVariants.{Memory};

    ghost from_gives = { λ _ e. e ≡ Memory };

    fn from(_error: AllocError) -> PathFault {
        PathFault::Memory
    }
}

impl From<DecodeError> for PathFault {
    ghost use Rattle.rpki_path.specs.FaultNames.{of_decoding};

    ghost from_gives = { λ d e. e ≡ of_decoding d };

    fn from(error: DecodeError) -> PathFault {
        match error {
            DecodeError::Memory => PathFault::Memory,
            other => PathFault::Decode(other),
        }
    }
}

impl From<InspectionError> for PathFault {
    ghost use Rattle.rpki_path.specs.declared.path_fault.PathFault.TheVariants.{Inspect};

    ghost from_gives = { λ d e. e ≡ Inspect d };

    fn from(error: InspectionError) -> PathFault {
        PathFault::Inspect(error)
    }
}

impl From<VerificationError> for PathFault {
    ghost use Rattle.rpki_path.specs.FaultNames.{of_verification};

    ghost from_gives = { λ d e. e ≡ of_verification d };

    fn from(error: VerificationError) -> PathFault {
        match error {
            VerificationError::Memory => PathFault::Memory,
            other => PathFault::Verify(other),
        }
    }
}

impl From<ValidationError> for PathFault {
    ghost use Rattle.rpki_path.specs.FaultNames.{of_validation};

    ghost from_gives = { λ d e. e ≡ of_validation d };

    fn from(error: ValidationError) -> PathFault {
        match error {
            ValidationError::Inspection(fault) => PathFault::Inspect(fault),
            ValidationError::Verification(fault) => PathFault::from(fault),
        }
    }
}

impl From<RevocationError> for PathFault {
    ghost use Rattle.rpki_path.specs.declared.path_fault.PathFault.TheVariants.{Revocation};

    ghost from_gives = { λ d e. e ≡ Revocation d };

    fn from(error: RevocationError) -> PathFault {
        PathFault::Revocation(error)
    }
}

/// Which certificate of a path is wrong, and why.
#[derive(Debug, Drop, Error)]
#[error("certificate {index}: {fault}")]
pub struct PathError {
    /// The path index; the trust anchor has index 0.
    pub index: usize,
    /// What is wrong with it.
    pub fault: PathFault,
}

impl PathError {
    ghost use Rattle.std.specs.Prelude.{codes, ◌↔◌, IsTrue};
    ghost use Rattle.rpki_path.specs.declared.path_fault.PathFault.TheVariants.{Memory};

    /// Returns the type's name.
    pub fn name(&self) -> &'static str
        ensures { result.now ≡ codes "PathError" }
    {
        "PathError"
    }

    /// Returns whether memory ran out.
    pub fn is_memory(&self) -> bool
        ensures { IsTrue result ↔ self.now.fault ≡ Memory }
    {
        self.fault.is_memory()
    }
}
