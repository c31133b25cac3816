//! The trees of files as documents: a head for each TAL, a row for each file, and the counts.
ghost use Rattle.std.specs.Prelude.{◌≡◌, map};
ghost use Rattle.rpki_answers.specs.TreeDocuments.{name_of};

mod accepted;
mod counts;
mod ends;
mod heads;
mod limits;
mod rows;
mod unaccepted;

pub use ends::{add_end, no_locator_document};
pub use heads::add_tals;
pub use rows::row_document;
use rpki_files::BareObject;

/// Returns the name of the certificate's file at a place.
pub(crate) fn name_of<'p>(certs: &[&'p BareObject<'_>], place: usize) -> &'p str
    ensures { result.now ≡ name_of (map (λ f. f.now) certs.now) place }
{
    match certs.get(place) {
        Some(file) => file.name(),
        None => "",
    }
}
