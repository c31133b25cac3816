//! Names print themselves.
ghost use Rattle.std.specs.Prelude.{◌≡◌, ◌<◌, ◌||◌, option_map, Some, [], ◌∷◌, ◌++◌, codes};
ghost use Rattle.std.specs.Fmt.{WritesOnOk};
ghost use Rattle.rpki_der.specs.Place.{remaining, Keeps};
ghost use Rattle.rpki_der.specs.Place.Reading.{TookBy};
ghost use Rattle.rpki_der.specs.Tags.{SET};
ghost use Rattle.rpki_der.specs.Texts.{hexadecimal};
ghost use Rattle.rpki_der.specs.Values.Reading.{value_at};
ghost use Rattle.rpki_parts.specs.NameTexts.{type_text, attribute_value_at, is_special, is_visible, is_at_edge, octet_text, string_text, short_name, string_of, value_text, octets_of_value, attribute_text, name_text};
ghost use Rattle.rpki_parts.specs.NameTexts.Reading.{written_part, written_parts, written_name};

use crate::dotted::Dotted;
use crate::name::Name;
use rpki_der::{Cursor, DecodeError, tag, write_hexadecimal};
use std::fmt;

// Types of attributes that have a name: contents of OBJECT IDENTIFIERs.
const COMMON_NAME: &[u8] = &[0x55, 0x04, 0x03];

const SERIAL_NUMBER: &[u8] = &[0x55, 0x04, 0x05];

const COUNTRY: &[u8] = &[0x55, 0x04, 0x06];

const ORGANIZATION: &[u8] = &[0x55, 0x04, 0x0A];

const UNIT: &[u8] = &[0x55, 0x04, 0x0B];

// Whether the octet is one of `"+,;<>\`.
fn is_special(octet: u8) -> bool
    ensures { result ≡ is_special octet }
{
    octet == b'"'
        || octet == b'+'
        || octet == b','
        || octet == b';'
        || octet == b'<'
        || octet == b'>'
        || octet == b'\\'
}

// Whether the octet is a visible character of ASCII, or a space.
fn is_visible(octet: u8) -> bool
    ensures { result ≡ is_visible octet }
{
    octet > 31 && octet < 127
}

// Whether the octet is a space or `#` at the beginning, or a space at the end.
fn is_at_edge(is_first: bool, octet: u8, behind: &[u8]) -> bool
    ensures { result ≡ is_at_edge is_first octet behind.now }
{
    match behind {
        [] => octet == b' ' || (is_first && octet == b'#'),
        [_, ..] => is_first && (octet == b' ' || octet == b'#'),
    }
}

// Whether a backslash stands before the character.
fn is_escaped(is_at_edge: bool, octet: u8) -> bool
    ensures { result ≡ (is_at_edge || is_special octet) }
{
    is_at_edge || is_special(octet)
}

// The two digits of an octet, behind a backslash.
fn write_escaped_digits<W: fmt::Write>(f: &mut fmt::Formatter<W>, octet: u8) -> fmt::Result
    ensures { WritesOnOk W.write_str_gives f.old result (92 ∷ hexadecimal (octet ∷ [])) f.new }
{
    f.write_str("\\")?;
    write_hexadecimal(f, &[octet])
}

// A character behind a backslash.
fn write_escaped<W: fmt::Write>(f: &mut fmt::Formatter<W>, octet: u8) -> fmt::Result
    requires { octet < 128 }
    ensures { WritesOnOk W.write_str_gives f.old result (92 ∷ octet ∷ []) f.new }
{
    f.write_str("\\")?;
    f.write_char(char::from(octet))
}

// An octet of a string.
fn write_octet<W: fmt::Write>(f: &mut fmt::Formatter<W>, is_at_edge: bool, octet: u8) -> fmt::Result
    ensures { WritesOnOk W.write_str_gives f.old result (octet_text is_at_edge octet) f.new }
{
    if !is_visible(octet) {
        write_escaped_digits(f, octet)
    } else if is_escaped(is_at_edge, octet) {
        write_escaped(f, octet)
    } else {
        f.write_char(char::from(octet))
    }
}

// A string.
fn write_string<W: fmt::Write>(f: &mut fmt::Formatter<W>, octets: &[u8]) -> fmt::Result
    ensures { WritesOnOk W.write_str_gives f.old result (string_text octets.now) f.new }
{
    let mut rest = octets;
    let mut is_first = true;
    while let Some((octet, behind)) = rest.split_first() {
        write_octet(f, is_at_edge(is_first, *octet, behind), *octet)?;
        is_first = false;
        rest = behind;
    }
    Ok(())
}

// The name of a type that has one.
fn short_name(id: &[u8]) -> Option<&'static str>
    ensures { option_map (λ s. s.now) result ≡ short_name id.now }
{
    if id == COMMON_NAME {
        Some("CN")
    } else if id == SERIAL_NUMBER {
        Some("serialNumber")
    } else if id == COUNTRY {
        Some("C")
    } else if id == ORGANIZATION {
        Some("O")
    } else if id == UNIT {
        Some("OU")
    } else {
        None
    }
}

// A type without a name.
fn write_type<W: fmt::Write>(f: &mut fmt::Formatter<W>, id: &[u8]) -> fmt::Result
    ensures { WritesOnOk W.write_str_gives f.old result (type_text id.now) f.new }
{
    match Dotted::of(id) {
        Some(dotted) => write!(f, "{dotted}"),
        None => {
            f.write_str("oid:")?;
            write_hexadecimal(f, id)
        }
    }
}

// The content of a PrintableString or UTF8String.
fn string_of<'a>(value: &Cursor<'a>) -> Option<&'a [u8]>
    ensures { option_map (λ s. s.now) result ≡ string_of (remaining value.now) }
{
    let tag = match value.rest() {
        [] => return None,
        [tag, ..] => *tag,
    };
    if tag != tag::PRINTABLE_STRING && tag != tag::UTF8_STRING {
        return None;
    }
    let mut ahead = value.fork();
    let content = match ahead.take_value(tag) {
        Ok(content) => content,
        Err(_) => return None,
    };
    Some(content.rest())
}

// A value by its octets.
fn write_octets<W: fmt::Write>(f: &mut fmt::Formatter<W>, value: &[u8]) -> fmt::Result
    ensures { WritesOnOk W.write_str_gives f.old result (octets_of_value value.now) f.new }
{
    f.write_str("#")?;
    write_hexadecimal(f, value)
}

// A string by its characters, and another value by its octets.
fn write_value<W: fmt::Write>(f: &mut fmt::Formatter<W>, value: &Cursor<'_>) -> fmt::Result
    ensures { WritesOnOk W.write_str_gives f.old result
        (value_text (remaining value.now) (string_of (remaining value.now))) f.new }
{
    match string_of(value) {
        Some(string) => write_string(f, string),
        None => write_octets(f, value.rest()),
    }
}

// A value behind the name of its type.
fn write_named<W: fmt::Write>(
    f: &mut fmt::Formatter<W>,
    name: &str,
    value: &Cursor<'_>,
) -> fmt::Result
    ensures { let octets = remaining value.now in WritesOnOk W.write_str_gives f.old result
        (name.now ++ (codes "=" ++ value_text octets (string_of octets))) f.new }
{
    f.write_str(name)?;
    f.write_str("=")?;
    write_value(f, value)
}

// The octets of a value behind its type, which has no name.
fn write_unnamed<W: fmt::Write>(
    f: &mut fmt::Formatter<W>,
    id: &[u8],
    value: &Cursor<'_>,
) -> fmt::Result
    ensures { WritesOnOk W.write_str_gives f.old result
        (type_text id.now ++ (codes "=" ++ octets_of_value (remaining value.now))) f.new }
{
    write_type(f, id)?;
    f.write_str("=")?;
    write_octets(f, value.rest())
}

// An attribute of this type and value.
fn write_attribute<W: fmt::Write>(
    f: &mut fmt::Formatter<W>,
    id: &[u8],
    value: &Cursor<'_>,
) -> fmt::Result
    ensures { WritesOnOk W.write_str_gives f.old result
        (attribute_text (id.now, remaining value.now)) f.new }
{
    match short_name(id) {
        Some(name) => write_named(f, name, value),
        None => write_unnamed(f, id, value),
    }
}

// The type and the value of the attribute that stands next.
#[tactic(auto, unfolding(crate::specs::NameTexts::attribute_value_at))]
fn take_attribute_value<'a>(cursor: &mut Cursor<'a>) -> Result<(&'a [u8], Cursor<'a>), DecodeError>
    ensures reads { TookBy (λ x. (x.0.now, remaining x.1)) attribute_value_at
        cursor.old result cursor.new }
    ensures keeps { Keeps result cursor.old cursor.new }
{
    let mut ahead = cursor.fork();
    let mut content = ahead.take_sequence()?;
    let id = content.take_oid()?;
    *cursor = ahead;
    Ok((id, content))
}

// The attribute that stands next, if one does.
fn next_attribute<'a>(cursor: &mut Cursor<'a>) -> Option<(&'a [u8], Cursor<'a>)>
    ensures { option_map (λ x. ((x.0.now, remaining x.1), remaining cursor.new)) result
        ≡ attribute_value_at (remaining cursor.old) }
{
    let attribute = match take_attribute_value(cursor) {
        Ok(attribute) => attribute,
        Err(_) => return None,
    };
    Some(attribute)
}

// The content of the part that stands next.
fn next_part<'a>(cursor: &mut Cursor<'a>) -> Option<Cursor<'a>>
    ensures { option_map (λ x. (remaining x, remaining cursor.new)) result
        ≡ value_at SET (remaining cursor.old) }
{
    let part = match cursor.take_value(tag::SET) {
        Ok(part) => part,
        Err(_) => return None,
    };
    Some(part)
}

// The attributes of a part.
fn write_part<W: fmt::Write>(f: &mut fmt::Formatter<W>, part: &Cursor<'_>) -> fmt::Result
    ensures { WritesOnOk W.write_str_gives f.old result (written_part (remaining part.now)) f.new }
{
    let mut rest = part.fork();
    let mut before = "";
    while let Some((id, value)) = next_attribute(&mut rest) {
        f.write_str(before)?;
        write_attribute(f, id, &value)?;
        before = "+";
    }
    Ok(())
}

// The parts of a name.
fn write_parts<W: fmt::Write>(f: &mut fmt::Formatter<W>, parts: &Cursor<'_>) -> fmt::Result
    ensures { WritesOnOk W.write_str_gives f.old result (written_parts (remaining parts.now)) f.new }
{
    let mut rest = parts.fork();
    let mut before = "";
    while let Some(part) = next_part(&mut rest) {
        f.write_str(before)?;
        write_part(f, &part)?;
        before = ", ";
    }
    Ok(())
}

// A name.
fn write_name<W: fmt::Write>(f: &mut fmt::Formatter<W>, octets: &Cursor<'_>) -> fmt::Result
    ensures { WritesOnOk W.write_str_gives f.old result (written_name (remaining octets.now)) f.new }
{
    let mut ahead = octets.fork();
    let parts = match ahead.take_sequence() {
        Ok(parts) => parts,
        Err(_) => return Ok(()),
    };
    write_parts(f, &parts)
}

/// Writes the text of RFC 4514, but with the parts in the order of the name and a comma and a space
/// between them, as `CN=example+serialNumber=1, OU=more` (own).
///
/// CN, serialNumber, C, O and OU are the short names of types; any other type is written by its
/// numbers. Behind a short name, a PrintableString or UTF8String is written by its characters. Any
/// other value is written by its bytes, as `2.5.4.42=#130141`.
impl fmt::Display for Name {
    ghost output = { λ n. Some (name_text n) };

    fn fmt<W: fmt::Write>(&self, f: &mut fmt::Formatter<W>) -> fmt::Result {
        write_name(f, &self.octets.cursor())
    }
}
