//! Copies and equality of values, each with its promise as a contract.

ghost use Rattle.std.specs.Prelude.{◌≡◌, ◌↔◌, IsTrue, IsOkAnd};

use crate::inspection::InspectionError;
use crate::key_usage::KeyUsage;
use std::alloc::AllocError;

/// Clones a usage of keys. The copy is the same usage.
pub fn copied_key_usage(usage: &KeyUsage) -> Result<KeyUsage, AllocError>
    ensures { IsOkAnd result (λ copy. copy ≡ usage.now) }
{
    usage.clone()
}

/// Compares usages of keys: they are equal if and only if they are the same.
pub fn equal_key_usages(one: &KeyUsage, other: &KeyUsage) -> bool
    ensures { IsTrue result ↔ one.now ≡ other.now }
{
    one == other
}

/// Clones an error of inspection. The copy is the same error.
pub fn copied_inspection_error(error: &InspectionError) -> Result<InspectionError, AllocError>
    ensures { IsOkAnd result (λ copy. copy ≡ error.now) }
{
    error.clone()
}

/// Compares errors of inspection: they are equal if and only if they are the same.
pub fn equal_inspection_errors(one: &InspectionError, other: &InspectionError) -> bool
    ensures { IsTrue result ↔ one.now ≡ other.now }
{
    one == other
}
