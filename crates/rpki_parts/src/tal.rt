//! Trust anchor locators.
ghost use Rattle.std.specs.Prelude.{◌≡◌, IfOk};
ghost use Rattle.std.proofs.Common.{string_bytes, rc_value};

use std::alloc::{AllocError, Global};
use std::marker::Model;
use std::rc::Rc;

/// The name of a TAL (RFC 8630), which a valid path carries from its trust anchor on.
#[derive(Drop)]
pub struct TalInfo {
    name: String,
}

impl Model for TalInfo {
    ghost use Rattle.std.specs.Prelude.{List, ℕ};
    ghost use Rattle.std.proofs.Common.{string_bytes};

    ghost Value = { List ℕ };

    ghost view = { λ t. string_bytes t.name };
}

impl TalInfo {
    /// Makes the TAL with this name.
    pub fn from_name(name: String) -> TalInfo
        ensures { result ≡ string_bytes name }
    {
        TalInfo { name }
    }

    /// Returns the name, as it was given.
    pub fn name(&self) -> &str
        ensures { result.now ≡ self.now }
    {
        self.name.as_str()
    }

    /// Moves the TAL into a reference-counted box, so that it can be shared.
    ///
    /// # Errors
    ///
    /// Returns an error if memory ran out.
    pub fn into_rc(self, alloc: Global) -> Result<Rc<TalInfo>, AllocError>
        ensures { IfOk result (λ t. rc_value t ≡ self) }
    {
        Ok(Rc::new(alloc, self)?)
    }
}
