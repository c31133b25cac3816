//! Object identifiers as text: their numbers with dots between them, as names print types.
ghost use Rattle.std.specs.Prelude.{Some};
ghost use Rattle.rpki_text.specs.IdentifierTexts.{identifier_text};

use rpki_document::Colons;
use rpki_parts::Dotted;
use std::fmt;

/// An object identifier, by the bytes of its content. It is printed as its numbers with dots
/// between them, such as `1.2.840`, or as its bytes in hexadecimal with colons between them if one
/// number is 2^64 or more.
#[derive(Drop)]
pub struct Identifier<'a>(pub &'a [u8]);

impl fmt::Display for Identifier<'_> {
    ghost output = { λ id. Some (identifier_text id.0.now) };

    fn fmt<W: fmt::Write>(&self, f: &mut fmt::Formatter<W>) -> fmt::Result {
        match Dotted::of(self.0) {
            Some(dotted) => write!(f, "{dotted}"),
            None => {
                let octets = Colons(self.0);
                write!(f, "{octets}")
            }
        }
    }
}
