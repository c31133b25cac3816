//! Copies and equality of values, each with its promise as a contract.

ghost use Rattle.std.specs.Prelude.{◌≡◌, ◌↔◌, IsTrue, IsOkAnd};

use crate::inspect::Kind;
use std::alloc::AllocError;

/// Copies a kind of certificates: the copy is equal.
pub fn copied_kind(kind: &Kind) -> Result<Kind, AllocError>
    ensures { IsOkAnd result (λ copy. copy ≡ kind.now) }
{
    kind.clone()
}

/// Compares two kinds of certificates: they are equal if and only if they are the same.
pub fn equal_kinds(one: &Kind, other: &Kind) -> bool
    ensures { IsTrue result ↔ one.now ≡ other.now }
{
    one == other
}
