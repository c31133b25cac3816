//! A test of the contents of values.
ghost use Rattle.std.specs.List.{list_any};
ghost use Rattle.std.specs.Prelude.{◌≡◌, ℕ, List, Bool};
ghost use Rattle.rpki_der.specs.Place.{remaining};
ghost use Rattle.rpki_der.specs.Values.Reading.{value_at};
ghost use Rattle.rpki_parts.specs.NameTexts.Reading.{values_in};

use crate::notes::contents::content;
use rpki_der::Cursor;

/// A test of a value's content.
pub(crate) trait Test {
    ghost passes: { List ℕ → Bool };

    /// Returns whether the value passes.
    fn is_passed(inside: &Cursor<'_>) -> bool
        ensures { result ≡ passes (remaining inside.now) };
}

/// Returns whether the content of a value with this identifier octet passes the test.
pub(crate) fn has_any<T: Test>(values: &Cursor<'_>, identifier: u8) -> bool
    ensures { let inside = values_in (value_at identifier) (remaining values.now) in
        result ≡ list_any T.passes inside }
{
    let mut rest = values.fork();
    while let Some(inside) = content(&mut rest, identifier) {
        if T::is_passed(&inside) {
            return true;
        }
    }
    false
}
