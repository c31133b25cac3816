//! JSON texts in ASCII.
ghost use Rattle.std.specs.Prelude.{◌≡◌, ◌++◌, Some, flat_map, IfOk, string_bytes};
ghost use Rattle.std.specs.Fmt.{WritesOnOk};
ghost use Rattle.rpki_answers.specs.JsonTexts.{unit_text, ascii_character, in_ascii};
ghost use Rattle.rpki_document.specs.Texts.{line_feed};

use std::alloc::{AllocError, Global};
use std::fmt;

// A 16-bit unit, as strings of JSON escape it.
#[tactic(auto, using(std::proofs::lemmas::Fmt::hex_byte))]
fn write_unit<W: fmt::Write>(f: &mut fmt::Formatter<W>, unit: u16) -> fmt::Result
    ensures { WritesOnOk W.write_str_gives f.old result (unit_text unit) f.new }
{
    let high = unit / 256;
    let low = unit % 256;
    write!(f, "\\u{high:02X}{low:02X}")
}

fn write_units<W: fmt::Write>(f: &mut fmt::Formatter<W>, units: &[u16]) -> fmt::Result
    ensures { WritesOnOk W.write_str_gives f.old result (flat_map unit_text units.now) f.new }
{
    for unit in units {
        write_unit(f, *unit)?;
    }
    Ok(())
}

fn write_character<W: fmt::Write>(f: &mut fmt::Formatter<W>, character: char) -> fmt::Result
    ensures { WritesOnOk W.write_str_gives f.old result (ascii_character character) f.new }
{
    if character == '\n' || (character >= ' ' && character <= '~') {
        return f.write_char(character);
    }
    let mut room = [0; 2];
    write_units(f, character.encode_utf16(&mut room))
}

fn write_ascii<W: fmt::Write>(f: &mut fmt::Formatter<W>, text: &str) -> fmt::Result
    ensures { WritesOnOk W.write_str_gives f.old result (in_ascii text.now) f.new }
{
    for character in text.chars() {
        write_character(f, character)?;
    }
    Ok(())
}

// A text of JSON with each character that isn't visible ASCII escaped. Such characters stand in
// strings alone, where both forms mean the same (RFC 8259 7).
#[derive(Drop)]
struct Ascii<'a>(&'a str);

impl fmt::Display for Ascii<'_> {
    ghost output = { λ text. Some (in_ascii text.0.now) };

    fn fmt<W: fmt::Write>(&self, f: &mut fmt::Formatter<W>) -> fmt::Result {
        write_ascii(f, self.0)
    }
}

/// Writes a JSON text in ASCII, and a line end.
pub fn ended_ascii(alloc: Global, text: &str) -> Result<String, AllocError>
    ensures { IfOk result (λ made. string_bytes made ≡ in_ascii text.now ++ line_feed) }
{
    let ascii = Ascii(text);
    format!(in alloc; "{ascii}\n")
}
