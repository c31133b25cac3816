//! A signer of a caller's own, which refuses.

use rpki_parts::{RpkiSignatureAlgorithm, Signature, Signer, SigningError};
use std::alloc::Global;
use std::cell::Cell;

/// What the signer refuses with.
#[derive(Clone, Copy)]
pub enum Refusal {
    /// The key's number, as an error of the signer's own.
    Own,
    TooLong,
    Memory,
}

/// Refuses each time, and counts.
#[derive(Drop)]
pub struct Refusing {
    refusal: Refusal,
    calls: Cell<usize>,
}

impl Refusing {
    pub fn new(refusal: Refusal) -> Self {
        Refusing {
            refusal,
            calls: Cell::new(0),
        }
    }

    /// Returns how often it was asked.
    pub fn calls(&self) -> usize {
        self.calls.get()
    }
}

impl Signer for Refusing {
    ghost use Rattle.std.specs.Prelude.{⊤};

    type KeyId = u32;

    type Error = u32;

    ghost signs = { λ _ _ _ _ _. ⊤ };

    fn sign(
        &self,
        _alloc: Global,
        key: &u32,
        _algorithm: RpkiSignatureAlgorithm,
        _message: &[u8],
    ) -> Result<Signature, SigningError<u32>> {
        self.calls.set(self.calls.get().wrapping_add(1));
        match self.refusal {
            Refusal::Own => Err(SigningError::Signer(*key)),
            Refusal::TooLong => Err(SigningError::TooLong),
            Refusal::Memory => Err(SigningError::Memory),
        }
    }
}
