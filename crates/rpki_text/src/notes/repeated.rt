//! Extensions that appear twice.
ghost use Rattle.std.specs.Prelude.{◌↔◌, [], List, IfOk, IsTrue};
ghost use Rattle.rpki_der.specs.Extensions.{Extension, IsExtension};
ghost use Rattle.rpki_der.specs.Place.{remaining};
ghost use Rattle.rpki_der.specs.Sequences.{AreEncodings};
ghost use Rattle.rpki_text.specs.Notes.{HaveAgain, HaveExtensions};

use crate::notes::contents::next_extension;
use bytes::Bytes;
use rpki_der::Cursor;
use rpki_files::extensions_in;
use std::alloc::{AllocError, Global};
use std::collections::BTreeSet;

// Whether two of the extensions in the sequence have one identifier.
fn has_again(alloc: Global, elements: &Cursor<'_>) -> Result<bool, AllocError>
    ensures { IfOk result (λ yes. (xs : List Extension)
        → AreEncodings IsExtension xs (remaining elements.now)
        → (IsTrue yes ↔ HaveAgain [] xs)) }
{
    let mut before = BTreeSet::new(alloc);
    let mut rest = elements.fork();
    while let Some(extension) = next_extension(&mut rest) {
        let (identifier, _critical, _content) = extension;
        let Ok(is_new) = before.insert(identifier) else {
            return Err(AllocError);
        };
        if !is_new {
            return Ok(true);
        }
    }
    Ok(false)
}

/// Returns whether two extensions of the certificate that the octets start with have one identifier.
pub(crate) fn is_one_twice(alloc: Global, octets: &Bytes) -> Result<bool, AllocError>
    ensures { IfOk result (λ yes. (xs : List Extension) → HaveExtensions xs octets.now
        → (IsTrue yes ↔ HaveAgain [] xs)) }
{
    match extensions_in(octets) {
        Some(elements) => has_again(alloc, &elements),
        None => Ok(false),
    }
}
