//! The errors of reading a TAL.
use std::alloc::AllocError;
use thiserror::Error;

/// Why a file isn't a TAL: the first error, from the start of the file on (RFC 8630 2.2).
#[derive(Debug, Drop, Error)]
pub enum TalError {
    /// The file is read in strict mode and isn't UTF-8 (RFC 8630 2.2).
    #[error("not UTF-8 text")]
    NoText,
    /// A line of the URI section is neither an rsync nor an https URI (RFC 8630 2.2).
    #[error("bad URI")]
    BadUri,
    /// The URI section is empty (RFC 8630 2.2).
    #[error("no URI")]
    NoUri,
    /// The file ends before the empty line after the URIs (RFC 8630 2.2).
    #[error("no key")]
    NoKey,
    /// The text after the empty line isn't a public key in base64 (RFC 8630 2.2).
    #[error("bad key")]
    BadKey,
    /// Memory ran out (own).
    #[error("out of memory")]
    Memory,
}

impl TalError {
    ghost use Rattle.std.specs.Prelude.{◌≡◌, ◌↔◌, IsTrue};
    ghost use Rattle.rpki_keys.specs.TalErrors.{tal_error_name};
    ghost use Rattle.rpki_keys.specs.declared.tal.tal_error.TalError.TheVariants.{Memory};

    /// Returns the variant's name.
    pub fn name(&self) -> &'static str
        ensures { result.now ≡ tal_error_name self.now }
    {
        match self {
            TalError::NoText => "NoText",
            TalError::BadUri => "BadUri",
            TalError::NoUri => "NoUri",
            TalError::NoKey => "NoKey",
            TalError::BadKey => "BadKey",
            TalError::Memory => "Memory",
        }
    }

    /// Returns whether memory ran out.
    pub fn is_memory(&self) -> bool
        ensures { IsTrue result ↔ self.now ≡ Memory }
    {
        match self {
            TalError::Memory => true,
            _ => false,
        }
    }
}

impl From<AllocError> for TalError {
    ghost use Rattle.std.specs.Prelude.{◌≡◌};
    ghost use Rattle.rpki_keys.specs.declared.tal.tal_error.TalError.TheVariants.{Memory};

    ghost from_gives = { λ _ e. e ≡ Memory };

    fn from(_error: AllocError) -> TalError {
        TalError::Memory
    }
}
