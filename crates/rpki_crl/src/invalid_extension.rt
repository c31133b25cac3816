//! The error of an extension that a CRL may not have.
ghost use Rattle.std.specs.Prelude.{◌≡◌, IfOk, codes};

use rpki_der::{DecodeError, Oid};
use std::alloc::{AllocError, Global};
use std::fmt;
use std::fmt::{Display, Formatter, Write};
use std::marker::Model;

/// A CRL has an extension that no CRL may have (RFC 6487 5).
#[derive(Debug, Drop)]
pub struct InvalidExtension {
    oid: Oid,
}

impl Model for InvalidExtension {
    ghost use Rattle.std.specs.Prelude.{ℕ, List};

    ghost Value = { List ℕ };

    ghost view = { λ e. e.oid };
}

impl InvalidExtension {
    /// Makes the error of an extension with this identifier.
    pub fn new(oid: Oid) -> InvalidExtension
        ensures { result ≡ oid }
    {
        InvalidExtension { oid }
    }

    /// Returns the identifier of the extension.
    pub fn oid(&self) -> &Oid
        ensures { result.now ≡ self.now }
    {
        &self.oid
    }

    /// Returns the type's name.
    pub fn name(&self) -> &'static str
        ensures { result.now ≡ codes "InvalidExtension" }
    {
        "InvalidExtension"
    }

    /// Clones the error.
    pub fn try_clone(&self, alloc: Global) -> Result<InvalidExtension, AllocError>
        ensures { IfOk result (λ e. e ≡ self.now) }
    {
        let oid = self.oid.try_clone(alloc)?;
        Ok(InvalidExtension { oid })
    }
}

impl From<InvalidExtension> for DecodeError {
    ghost use Rattle.std.specs.Prelude.{◌≡◌};
    ghost use Rattle.rpki_der.specs.declared.error.DecodeError.TheVariants.{InvalidExtension as Refusal};

    ghost from_gives = { λ x e. e ≡ Refusal x };

    fn from(error: InvalidExtension) -> DecodeError {
        DecodeError::InvalidExtension(error.oid)
    }
}

impl Display for InvalidExtension {
    fn fmt<W: Write>(&self, f: &mut Formatter<W>) -> fmt::Result {
        let oid = &self.oid;
        write!(f, "invalid extension {oid}")
    }
}
