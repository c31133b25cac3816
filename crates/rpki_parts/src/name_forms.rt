//! Names of certificates are inspected.
ghost use Rattle.std.specs.Prelude.{◌≡◌, ◌↔◌, false, IsOk};
ghost use Rattle.rpki_der.specs.Folding.{over};
ghost use Rattle.rpki_der.specs.Place.{remaining};
ghost use Rattle.rpki_der.specs.Values.Reading.{value_at};
ghost use Rattle.rpki_parts.specs.NameForms.{IsRpkiName, IsRouterName};
ghost use Rattle.rpki_parts.specs.NameForms.Reading.{is_text_tag, seen_with, seen_in};

use crate::name::{InvalidName, Name, take_attribute};
use rpki_der::{Cursor, tag};

// The types of attributes that may stand: contents of OBJECT IDENTIFIERs.
const COMMON_NAME: &[u8] = &[0x55, 0x04, 0x03];

const SERIAL_NUMBER: &[u8] = &[0x55, 0x04, 0x05];

// Which of the attributes that may stand once were seen.
#[derive(Clone, Copy)]
struct ReadAttributes {
    name: bool,
    number: bool,
}

// Whether a value with this identifier octet may stand: PrintableString, or UTF8String where
// inspection isn't strict.
fn is_text_tag(strict: bool, octet: u8) -> bool
    ensures { result ≡ is_text_tag strict octet }
{
    octet == tag::PRINTABLE_STRING || (!strict && octet == tag::UTF8_STRING)
}

impl ReadAttributes {
    // Adds one attribute. Returns `None` where it may not stand.
    fn with(self, strict: bool, type_id: &[u8], tag: u8) -> Option<ReadAttributes>
        ensures { result ≡ seen_with strict self
            (record { type_id = type_id.now; value_tag = tag }) }
    {
        if !is_text_tag(strict, tag) {
            return None;
        }
        if type_id == COMMON_NAME {
            if self.name {
                None
            } else {
                Some(ReadAttributes { name: true, ..self })
            }
        } else if type_id == SERIAL_NUMBER {
            if self.number {
                None
            } else {
                Some(ReadAttributes {
                    number: true,
                    ..self
                })
            }
        } else {
            None
        }
    }

    // Adds the attributes of a part.
    #[tactic(auto, using(rpki_der::proofs::SequenceWalks::shorter, rpki_der::proofs::SequenceWalks::rejected, rpki_der::proofs::SequenceWalks::over_end, crate::proofs::NameReads::attribute_shrinks))]
    fn with_part(self, strict: bool, part: &Cursor<'_>) -> Option<ReadAttributes>
        ensures { result ≡ seen_in strict self (remaining part.now) }
    {
        let mut rest = part.fork();
        let mut seen = self;
        while !rest.is_empty() {
            let (type_id, tag) = match take_attribute(&mut rest) {
                Ok(attribute) => attribute,
                Err(_) => return None,
            };
            seen = seen.with(strict, type_id, tag)?;
        }
        Some(seen)
    }

    // What is seen in these parts of a name.
    #[tactic(auto, using(rpki_der::proofs::SequenceWalks::shorter, rpki_der::proofs::SequenceWalks::rejected, rpki_der::proofs::SequenceWalks::over_end, crate::proofs::NameForms::set_shrinks))]
    fn in_parts(strict: bool, parts: &Cursor<'_>) -> Option<ReadAttributes>
        ensures { result ≡ over (value_at 0x31) (seen_in strict)
            (record { name = false; number = false }) (remaining parts.now) }
    {
        let mut rest = parts.fork();
        let mut seen = ReadAttributes {
            name: false,
            number: false,
        };
        while !rest.is_empty() {
            let part = match rest.take_value(tag::SET) {
                Ok(part) => part,
                Err(_) => return None,
            };
            seen = seen.with_part(strict, &part)?;
        }
        Some(seen)
    }
}

impl Name {
    /// Checks that the name is of the form that a certificate requires (RFC 6487 4.4, 4.5).
    ///
    /// That is one CommonName, at most one serialNumber, and nothing else, each a PrintableString.
    /// If `strict` is false, each may also be a UTF8String (own).
    ///
    /// # Errors
    ///
    /// Returns `InvalidName` if it isn't.
    #[tactic(auto, using(crate::proofs::NameForms::form_is, crate::proofs::NameForms::form_named, crate::proofs::NameForms::no_form, crate::proofs::NameForms::is_sequence))]
    pub fn inspect_rpki(&self, strict: bool) -> Result<(), InvalidName>
        ensures { IsOk result ↔ IsRpkiName strict self.now }
    {
        // Called for what it ensures alone.
        let _octets = self.as_bytes();
        let mut octets = self.octets.cursor();
        let parts = match octets.take_sequence() {
            Ok(parts) => parts,
            Err(_) => return Err(InvalidName),
        };
        match ReadAttributes::in_parts(strict, &parts) {
            Some(seen) if seen.name => Ok(()),
            _ => Err(InvalidName),
        }
    }

    /// Checks that the name is of the form that a router's certificate requires (RFC 8209 3.1.1):
    /// that of [`Name::inspect_rpki`], with UTF8Strings allowed whatever `strict` is (own).
    ///
    /// # Errors
    ///
    /// Returns `InvalidName` if it isn't.
    pub fn inspect_router(&self, _strict: bool) -> Result<(), InvalidName>
        ensures { IsOk result ↔ IsRouterName self.now }
    {
        self.inspect_rpki(false)
    }
}
