//! Certificates whose extensions are set in another order.
use crate::answer::Answer;
use crate::words::{Words, bytes};
use rpki_cert::{Extra, rearrange as rearranged};
use rpki_der::Oid;

// The number of a word in decimal digits; what is too great is more than there are places.
fn place(word: &str) -> usize {
    word.parse().unwrap_or(usize::MAX)
}

// The places of a word, with commas between; `-` for none.
fn places(out: &mut Answer, word: &str) -> Vec<usize> {
    let mut places: Vec<usize> = Vec::new(out.alloc());
    if word == "-" {
        return places;
    }
    for part in word.split(',') {
        if places.push(place(part)).is_err() {
            out.fail();
        }
    }
    places
}

// The extension of `PLACE:IDENTIFIER:CONTENT`, where the identifier is one.
fn one_extra(out: &mut Answer, word: &str) -> Option<Extra> {
    let (at, rest) = word.split_once(':')?;
    let (identifier, content) = rest.split_once(':')?;
    let identifier = bytes(out, identifier);
    let Ok(oid) = Oid::new(identifier) else {
        return None;
    };
    Some(Extra {
        at: place(at),
        oid,
        value: bytes(out, content),
    })
}

// The extensions of a word, with commas between; `-` for none.
fn extras(out: &mut Answer, word: &str) -> Vec<Extra> {
    let mut extras: Vec<Extra> = Vec::new(out.alloc());
    if word == "-" {
        return extras;
    }
    for part in word.split(',') {
        match one_extra(out, part) {
            Some(extra) => {
                if extras.push(extra).is_err() {
                    out.fail();
                }
            }
            None => out.fail(),
        }
    }
    extras
}

/// Rearranges the extensions of a certificate, and adds others among them.
pub fn rearrange(words: &Words<'_>, out: &mut Answer) {
    let octets = words.octets(out, 1);
    let order = places(out, words.at(2));
    let extras = extras(out, words.at(3));
    match rearranged(out.alloc(), &octets, &order, &extras) {
        Ok(answer) => {
            out.text("ok ");
            out.octets(&answer);
        }
        Err(error) => out.refused_as(error.name()),
    }
    drop(extras);
}
