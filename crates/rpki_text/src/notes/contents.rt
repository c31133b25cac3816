//! The next value of a cursor: its content, or an extension; and a search among identifiers.
ghost use Rattle.std.specs.List.{list_any};
ghost use Rattle.std.specs.Prelude.{◌≡◌, bytes_eq, option_map};
ghost use Rattle.rpki_der.specs.Extensions.{extension_format};
ghost use Rattle.rpki_der.specs.Extensions.Views.{extension_view};
ghost use Rattle.rpki_der.specs.Place.{remaining};
ghost use Rattle.rpki_der.specs.Values.Reading.{value_at};

use rpki_der::{Cursor, take_extension};

/// The identifier octet of a uniformResourceIdentifier, [6] (RFC 5280 4.2.1.6).
pub(crate) const URI: u8 = 0x86;

/// Returns whether the identifier is one of these.
pub(crate) fn is_one_of(identifier: &[u8], ids: &[&[u8]]) -> bool
    ensures { result ≡ list_any (λ id. bytes_eq identifier.now id.now) ids.now }
{
    ids.iter().any(|id| identifier == *id)
}

/// Reads the next value, if it has this identifier octet, and returns its content.
pub(crate) fn content<'a>(cursor: &mut Cursor<'a>, identifier: u8) -> Option<Cursor<'a>>
    ensures { option_map (λ c. (remaining c, remaining cursor.new)) result
        ≡ value_at identifier (remaining cursor.old) }
{
    cursor.take_value(identifier).ok()
}

/// Reads the next extension, and returns its identifier, flag and content.
pub(crate) fn next_extension<'a>(cursor: &mut Cursor<'a>) -> Option<(&'a [u8], bool, Cursor<'a>)>
    ensures { option_map (λ x. (extension_view x, remaining cursor.new)) result
        ≡ extension_format.read (remaining cursor.old) }
{
    take_extension(cursor).ok()
}
