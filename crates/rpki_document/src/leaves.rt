//! Values as text.
ghost use Rattle.std.specs.Prelude.{◌≡◌, Some, replicate};
ghost use Rattle.std.specs.Fmt.{WritesOnOk};
ghost use Rattle.rpki_document.specs.Documents.{told_text};
ghost use Rattle.rpki_document.specs.Texts.{two_digits, colons_text, character_text, characters_text, escaped_text, escapes, further_margin, head_text, label_text};
ghost use Rattle.rpki_document.specs.Views.{leaf_view};

use crate::parts::Leaf;
use std::fmt;

#[tactic(auto, using(std::proofs::lemmas::Fmt::hex_byte))]
fn write_octet<W: fmt::Write>(f: &mut fmt::Formatter<W>, octet: u8) -> fmt::Result
    ensures { WritesOnOk W.write_str_gives f.old result (two_digits octet) f.new }
{
    write!(f, "{octet:02X}")
}

fn write_colons<W: fmt::Write>(f: &mut fmt::Formatter<W>, octets: &[u8]) -> fmt::Result
    ensures { WritesOnOk W.write_str_gives f.old result (colons_text octets.now) f.new }
{
    let [first, more @ ..] = octets else {
        return Ok(());
    };
    write_octet(f, *first)?;
    for octet in more {
        f.write_str(":")?;
        write_octet(f, *octet)?;
    }
    Ok(())
}

// What is escaped in a text of a line: a backslash; separators too, since more follows in the line;
// or neither, since the text has escapes of its own.
#[derive(Clone, Copy)]
enum Escape {
    Text,
    Inner,
    Printed,
}

impl Escape {
    // Whether a visible octet is escaped too.
    fn escapes(self, octet: u8) -> bool
        ensures { result ≡ escapes self octet }
    {
        match self {
            Escape::Text => octet == b'\\',
            Escape::Inner => {
                octet == b'\\' || octet == b':' || octet == b',' || octet == b'>' || octet == b'('
            }
            Escape::Printed => false,
        }
    }
}

fn write_character<W: fmt::Write>(
    f: &mut fmt::Formatter<W>,
    escape: Escape,
    octet: u8,
) -> fmt::Result
    ensures { WritesOnOk W.write_str_gives f.old result (character_text escape octet) f.new }
{
    let is_visible = octet > 31 && octet < 127;
    if is_visible && !escape.escapes(octet) {
        f.write_char(char::from(octet))
    } else {
        f.write_str("\\x")?;
        write_octet(f, octet)
    }
}

fn write_text<W: fmt::Write>(
    f: &mut fmt::Formatter<W>,
    escape: Escape,
    octets: &[u8],
) -> fmt::Result
    ensures { WritesOnOk W.write_str_gives f.old result (escaped_text escape octets.now) f.new }
{
    for octet in octets {
        write_character(f, escape, *octet)?;
    }
    Ok(())
}

impl fmt::Display for Leaf<'_> {
    ghost output = { λ it. Some (told_text (leaf_view it)) };

    fn fmt<W: fmt::Write>(&self, f: &mut fmt::Formatter<W>) -> fmt::Result {
        match self {
            Leaf::Text(text) | Leaf::Words(text, _) => {
                write_text(f, Escape::Text, text.as_bytes())
            }
            Leaf::Inner(text) => write_text(f, Escape::Inner, text.as_bytes()),
            Leaf::Characters(octets) => write_text(f, Escape::Text, octets),
            Leaf::Count(n) => write!(f, "{n}"),
            Leaf::Octets(octets) => write_colons(f, octets),
            Leaf::Flag(is_so) => f.write_str(if *is_so { "yes" } else { "no" }),
            Leaf::Own(text) | Leaf::Dated(text, _) => {
                write_text(f, Escape::Text, text.as_bytes())
            }
            Leaf::Printed(text) => write_text(f, Escape::Printed, text.as_bytes()),
        }
    }
}

/// Octets as characters, with what isn't visible escaped.
#[derive(Drop)]
pub struct Characters<'a>(pub &'a [u8]);

impl fmt::Display for Characters<'_> {
    ghost output = { λ it. Some (characters_text it.0.now) };

    fn fmt<W: fmt::Write>(&self, f: &mut fmt::Formatter<W>) -> fmt::Result {
        write_text(f, Escape::Text, self.0)
    }
}

/// Octets, with colons between them.
#[derive(Drop)]
pub struct Colons<'a>(pub &'a [u8]);

impl fmt::Display for Colons<'_> {
    ghost output = { λ it. Some (colons_text it.0.now) };

    fn fmt<W: fmt::Write>(&self, f: &mut fmt::Formatter<W>) -> fmt::Result {
        write_colons(f, self.0)
    }
}

/// A label, padded to the column of values.
#[derive(Drop)]
pub struct Label<'a>(pub &'a str);

fn write_spaces<W: fmt::Write>(f: &mut fmt::Formatter<W>, count: usize) -> fmt::Result
    ensures { WritesOnOk W.write_str_gives f.old result (replicate count 32) f.new }
{
    for _column in 0..count {
        f.write_str(" ")?;
    }
    Ok(())
}

impl fmt::Display for Label<'_> {
    ghost output = { λ label. Some (label_text label.0.now) };

    fn fmt<W: fmt::Write>(&self, f: &mut fmt::Formatter<W>) -> fmt::Result {
        f.write_str(self.0)?;
        f.write_str(":")?;
        write_spaces(f, 25usize.saturating_sub(self.0.len()))
    }
}

/// A label with one space behind it.
#[derive(Drop)]
pub struct Heading<'a>(pub &'a str);

impl fmt::Display for Heading<'_> {
    ghost output = { λ label. Some (head_text label.0.now) };

    fn fmt<W: fmt::Write>(&self, f: &mut fmt::Formatter<W>) -> fmt::Result {
        f.write_str(self.0)?;
        f.write_str(": ")
    }
}

/// The spaces before a further line of a label.
#[derive(Drop)]
pub struct Margin;

impl fmt::Display for Margin {
    ghost output = { λ _. Some further_margin };

    fn fmt<W: fmt::Write>(&self, f: &mut fmt::Formatter<W>) -> fmt::Result {
        f.write_str("                          ")
    }
}
