//! Copies of values and what they promise.

ghost use Rattle.std.specs.Prelude.{◌≡◌, IsOkAnd};

use crate::entry::CrlEntry;
use std::alloc::AllocError;

/// Clones an entry. The copy has the same serial number and the same time.
pub fn copied_entry(entry: &CrlEntry) -> Result<CrlEntry, AllocError>
    ensures { IsOkAnd result (λ copy. copy ≡ entry.now) }
{
    entry.clone()
}
