//! Whether a time lies in a period of validity.
ghost use Rattle.rpki_parts.specs.Conditions.{Tests};
ghost use Rattle.rpki_parts.specs.ValidAt.{IsInTime, validity_faults};

use crate::validity::Validity;
use rpki_der::Time;
use thiserror::Error;

/// The reason why a time is outside a validity period (RFC 5280 4.1.2.5).
#[derive(Debug, Clone, Copy, PartialEq, Eq, Error)]
pub enum ValidityError {
    /// The time is before `not_before`.
    #[error("not yet valid")]
    NotYetValid,
    /// The time is after `not_after`.
    #[error("expired")]
    Expired,
}

impl ValidityError {
    ghost use Rattle.std.specs.Prelude.{◌≡◌};
    ghost use Rattle.rpki_parts.specs.ValidAt.{validity_error_name};

    /// Returns the variant's name.
    pub fn name(&self) -> &'static str
        ensures { result.now ≡ validity_error_name self.now }
    {
        match self {
            ValidityError::NotYetValid => "NotYetValid",
            ValidityError::Expired => "Expired",
        }
    }
}

impl Validity {
    /// Checks that this time is in the validity period, both ends included (RFC 5280 4.1.2.5).
    /// Takes no memory.
    ///
    /// # Errors
    ///
    /// Returns `NotYetValid` if the time is before the period, else `Expired` if it is after it.
    pub fn verify_at(self, now: Time) -> Result<(), ValidityError>
        ensures { Tests (IsInTime self now) validity_faults result }
    {
        if now < self.not_before() {
            return Err(ValidityError::NotYetValid);
        }
        if self.not_after() < now {
            return Err(ValidityError::Expired);
        }
        Ok(())
    }
}
