//! The flags of extensions as they are encoded.
ghost use Rattle.std.specs.Prelude.{◌≡◌, ◌↔◌, ℕ, List, IsTrue, option_map};
ghost use Rattle.rpki_der.specs.Extensions.{Extension};
ghost use Rattle.rpki_der.specs.Place.{remaining};
ghost use Rattle.rpki_text.specs.Notes.{HaveExtensions, StatesFalse, flag_at};

use crate::notes::contents::content;
use crate::notes::inside::{Test, has_any};
use bytes::Bytes;
use rpki_der::{Cursor, tag};
use rpki_files::extensions_in;

// The content of an extension's flag, if it is stated.
#[tactic(auto, unfolding(crate::specs::Notes::flag_at))]
fn flag_in<'a>(extension: &Cursor<'a>) -> Option<Cursor<'a>>
    ensures { option_map remaining result ≡ flag_at (remaining extension.now) }
{
    let mut rest = extension.fork();
    let _identifier = content(&mut rest, tag::OBJECT_IDENTIFIER)?;
    content(&mut rest, tag::BOOLEAN)
}

// An extension whose flag is FALSE and stated.
struct StatedFalse;

impl Test for StatedFalse {
    ghost use Rattle.rpki_text.specs.Notes.{states_false};

    ghost passes = { states_false };

    fn is_passed(inside: &Cursor<'_>) -> bool {
        match flag_in(inside) {
            Some(flag) => flag.rest() == b"\0".as_slice(),
            None => false,
        }
    }
}

/// Returns whether an extension of the certificate that the octets start with states FALSE, the
/// default of its flag.
pub(crate) fn states_false(octets: &Bytes) -> bool
    ensures { (xs : List Extension) → HaveExtensions xs octets.now
        → (IsTrue result ↔ StatesFalse octets.now) }
{
    match extensions_in(octets) {
        Some(elements) => has_any::<StatedFalse>(&elements, tag::SEQUENCE),
        None => false,
    }
}
