//! URIs, from octets and from text.
use crate::answer::Answer;
use crate::show::{Show, Twin, found};
use crate::words::{Words, shared_characters};
use bytes::Bytes;
use rpki_der::Piece;
use rpki_parts::{BadUri, Https, Rsync, UriError};
use std::alloc::{AllocError, Global};

/// Appends the URI, or `none`.
pub fn rsync(out: &mut Answer, uri: Option<&Rsync>) {
    match uri {
        Some(uri) => out.characters(uri.as_bytes()),
        None => out.text("none"),
    }
}

/// Appends the URI, or `none`.
pub fn https(out: &mut Answer, uri: Option<&Https>) {
    match uri {
        Some(uri) => out.characters(uri.as_bytes()),
        None => out.text("none"),
    }
}

fn parent(out: &mut Answer, uri: &Rsync, found: Result<Option<Rsync>, AllocError>) {
    match found {
        Ok(Some(parent)) => {
            out.characters(parent.as_bytes());
            out.field("parent-is").yes(uri.parent_is(&parent));
            drop(parent);
        }
        Ok(None) => out.text("none"),
        Err(_) => out.fail(),
    }
}

impl Show for Rsync {
    fn show(&self, out: &mut Answer) {
        out.field("uri").characters(self.as_bytes());
        out.field("parent");
        let found = self.parent(out.alloc());
        parent(out, self, found);
    }
}

impl Twin for Rsync {
    fn twin(&self, alloc: Global) -> Result<Rsync, AllocError> {
        self.try_clone(alloc)
    }
}

impl Show for Https {
    fn show(&self, out: &mut Answer) {
        out.field("uri").characters(self.as_bytes());
    }
}

impl Twin for Https {
    fn twin(&self, alloc: Global) -> Result<Https, AllocError> {
        self.try_clone(alloc)
    }
}

/// A URI of either scheme.
trait AnyUri: Twin {
    // The URI of these octets.
    fn of_octets(octets: Bytes) -> Result<Self, BadUri>;

    // The URI of this piece.
    fn of_piece(piece: Piece) -> Result<Self, BadUri>;

    // The URI of this text.
    fn of_text(alloc: Global, text: &str) -> Result<Self, UriError>;

    // Appends how two of them compare.
    fn compare(out: &mut Answer, one: &Self, other: &Self);
}

impl AnyUri for Rsync {
    fn of_octets(octets: Bytes) -> Result<Rsync, BadUri> {
        Rsync::from_bytes(octets)
    }

    fn of_piece(piece: Piece) -> Result<Rsync, BadUri> {
        Rsync::from_piece(piece)
    }

    fn of_text(alloc: Global, text: &str) -> Result<Rsync, UriError> {
        Rsync::from_text(alloc, text)
    }

    fn compare(out: &mut Answer, one: &Rsync, other: &Rsync) {
        out.field("equal").yes(one == other);
        out.field("identical").yes(one.is_identical_to(other));
        out.field("second-is-parent").yes(one.parent_is(other));
        out.field("first-is-parent").yes(other.parent_is(one));
    }
}

impl AnyUri for Https {
    fn of_octets(octets: Bytes) -> Result<Https, BadUri> {
        Https::from_bytes(octets)
    }

    fn of_piece(piece: Piece) -> Result<Https, BadUri> {
        Https::from_piece(piece)
    }

    fn of_text(alloc: Global, text: &str) -> Result<Https, UriError> {
        Https::from_text(alloc, text)
    }

    fn compare(out: &mut Answer, one: &Https, other: &Https) {
        out.field("equal").yes(one == other);
    }
}

fn found_or_bad<T: AnyUri>(out: &mut Answer, answer: Result<T, BadUri>) {
    match answer {
        Ok(uri) => {
            found(out, &uri);
            drop(uri);
        }
        Err(_) => out.text("refused BadUri"),
    }
}

fn found_or_why<T: AnyUri>(out: &mut Answer, answer: Result<T, UriError>) {
    match answer {
        Ok(uri) => {
            found(out, &uri);
            drop(uri);
        }
        Err(error) => out.refused_as(error.name()),
    }
}

// Reads the URI from text, where the octets are text.
fn text_read<T: AnyUri>(out: &mut Answer, first: &Answer, octets: &[u8]) {
    if let Ok(text) = str::from_utf8(octets) {
        let mut other = out.beside();
        found_or_why(&mut other, T::of_text(out.alloc(), text));
        out.field("text").compared(first, &other);
    }
}

// Reads the URI from a piece.
fn piece_read<T: AnyUri>(words: &Words<'_>, out: &mut Answer, first: &Answer) {
    let mut other = out.beside();
    let piece = Piece::from(shared_characters(out, words.at(1)));
    found_or_bad(&mut other, T::of_piece(piece));
    out.field("piece").compared(first, &other);
}

fn read<T: AnyUri>(words: &Words<'_>, out: &mut Answer) {
    let mut first = out.beside();
    let octets = shared_characters(out, words.at(1));
    found_or_bad(&mut first, T::of_octets(octets));
    out.add(&first);
    piece_read::<T>(words, out, &first);
    let octets = words.characters(out, 1);
    text_read::<T>(out, &first, &octets);
}

fn parent_found(out: &mut Answer, found: Result<Option<Rsync>, AllocError>) {
    match found {
        Ok(Some(parent)) => {
            out.text("ok");
            out.field("uri").characters(parent.as_bytes());
            drop(parent);
        }
        Ok(None) => out.text("none"),
        Err(_) => out.fail(),
    }
}

fn parent_of(out: &mut Answer, answer: Result<Rsync, BadUri>) {
    match answer {
        Ok(uri) => {
            let found = uri.parent(out.alloc());
            parent_found(out, found);
            drop(uri);
        }
        Err(_) => out.text("refused BadUri"),
    }
}

/// Answers a question of a URI or a parent. Returns whether the question is of one.
pub fn uri(words: &Words<'_>, out: &mut Answer) -> bool {
    match words.at(0) {
        "rsync" => read::<Rsync>(words, out),
        "https" => read::<Https>(words, out),
        "parent" => {
            let octets = shared_characters(out, words.at(1));
            parent_of(out, Rsync::from_bytes(octets));
        }
        _ => return false,
    }
    true
}

fn pair<T: AnyUri>(words: &Words<'_>, out: &mut Answer) {
    let one = T::of_octets(shared_characters(out, words.at(2)));
    let other = T::of_octets(shared_characters(out, words.at(3)));
    match one.ok().zip(other.ok()) {
        Some((a, b)) => {
            out.text("ok");
            T::compare(out, &a, &b);
            drop(a);
            drop(b);
        }
        None => out.text("none"),
    }
}

/// Compares two URIs.
pub fn compare(words: &Words<'_>, out: &mut Answer) {
    if words.is(1, "rsync") {
        pair::<Rsync>(words, out);
    } else {
        pair::<Https>(words, out);
    }
}
