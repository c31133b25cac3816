//! Copies and comparisons of values, each with its promise as a contract.

ghost use Rattle.std.specs.Prelude.{◌≡◌, ◌↔◌, IsTrue, IsOkAnd};

use crate::running::Status;
use std::alloc::AllocError;

/// Copies a status. The copy is the same status.
///
/// # Errors
///
/// None: the contract promises `Ok`.
pub fn copied_status(status: &Status) -> Result<Status, AllocError>
    ensures { IsOkAnd result (λ copy. copy ≡ status.now) }
{
    status.clone()
}

/// Compares two statuses. They are equal if and only if they are the same.
pub fn equal_statuses(one: &Status, other: &Status) -> bool
    ensures { IsTrue result ↔ one.now ≡ other.now }
{
    one == other
}
