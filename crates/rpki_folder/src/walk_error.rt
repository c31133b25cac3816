//! Errors of a walk.
ghost use Rattle.std.specs.Prelude.{◌≡◌, ◌↔◌, IsTrue};

use rpki_path::LocatedError;
use std::alloc::AllocError;
use thiserror::Error;

/// The error of a walk that can't start, or that stops before its end.
#[derive(Debug, Drop, Error)]
pub enum WalkError {
    /// The trust anchor isn't valid: it is rejected, its key isn't the TAL's (RFC 8630 3), or it
    /// lists no resources.
    #[error("{0}")]
    Anchor(LocatedError),
    /// The trust anchor is valid, but its issuer isn't its own subject, and name chaining is
    /// checked (RFC 8630 2.3, RFC 5280 3.2).
    #[error("the trust anchor's issuer isn't its subject")]
    OtherName,
    /// Memory ran out.
    #[error("out of memory")]
    Memory,
}

impl WalkError {
    ghost use Rattle.rpki_folder.specs.declared.walk_error.WalkError.TheVariants.{Memory};

    /// Returns whether memory ran out.
    pub fn is_memory(&self) -> bool
        ensures { IsTrue result ↔ self.now ≡ Memory }
    {
        match self {
            WalkError::Anchor(_) | WalkError::OtherName => false,
            WalkError::Memory => true,
        }
    }
}

impl From<AllocError> for WalkError {
    ghost use Rattle.rpki_folder.specs.declared.walk_error.WalkError.TheVariants.{Memory};

    ghost from_gives = { λ _ e. e ≡ Memory };

    fn from(_error: AllocError) -> WalkError {
        WalkError::Memory
    }
}

impl From<LocatedError> for WalkError {
    ghost use Rattle.rpki_folder.specs.WalkFaults.{of_located};

    ghost from_gives = { λ l e. e ≡ of_located l };

    fn from(error: LocatedError) -> WalkError {
        if error.is_memory() {
            drop(error);
            return WalkError::Memory;
        }
        WalkError::Anchor(error)
    }
}
