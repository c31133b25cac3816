//! Trust anchor locators.
use crate::answer::Answer;
use crate::parts::public_key;
use crate::words::Words;
use rpki_der::{DecodeError, EncodeError};
use rpki_keys::tal::{Tal, TalError, TalUri, octets_of, push_digits};
use rpki_parts::PublicKey;

fn uris(out: &mut Answer, tal: &Tal) {
    for uri in tal.uris() {
        out.field(match uri {
            TalUri::Rsync(_) => "rsync",
            TalUri::Https(_) => "https",
        });
        out.characters(uri.as_str().as_bytes());
    }
}

// Whether the key is the locator's; `none` where no key is asked about.
fn has_key(out: &mut Answer, tal: &Tal, asked: Result<PublicKey, DecodeError>) {
    out.field("has-key");
    match asked {
        Ok(key) => {
            out.yes(tal.has_key(&key));
            drop(key);
        }
        Err(fault) => {
            drop(fault);
            out.text("none");
        }
    }
}

fn found(words: &Words<'_>, out: &mut Answer, tal: &Tal) {
    out.text("ok");
    uris(out, tal);
    public_key(out.field("key"), tal.key_info());
    let octets = words.bytes(out, 3);
    let asked = PublicKey::from_bytes(out.alloc(), octets);
    has_key(out, tal, asked);
}

fn told(words: &Words<'_>, out: &mut Answer, answer: Result<Tal, TalError>) {
    match answer {
        Ok(tal) => {
            found(words, out, &tal);
            drop(tal);
        }
        Err(error) => {
            out.refused_as(error.name());
            if error.is_memory() {
                out.fail();
            }
            drop(error);
        }
    }
}

/// Returns the locator that the octets of a word are, strictly; none where they are none.
pub fn locator_of(words: &Words<'_>, out: &mut Answer, place: usize) -> Option<Tal> {
    let file = words.octets(out, place);
    let name = String::new(out.alloc());
    match Tal::read_named(out.alloc(), name, &file, true) {
        Ok(tal) => Some(tal),
        Err(error) => {
            if error.is_memory() {
                out.fail();
            }
            drop(error);
            None
        }
    }
}

/// Answers what locator octets are, and whether a key is the locator's.
pub fn locator(words: &Words<'_>, out: &mut Answer) {
    let file = words.octets(out, 2);
    let name = String::new(out.alloc());
    let strict = words.is(1, "strict");
    let answer = Tal::read_named(out.alloc(), name, &file, strict);
    told(words, out, answer);
    drop(file);
}

/// Answers what octets the digits of a line stand for.
pub fn base64(words: &Words<'_>, out: &mut Answer) {
    let line = words.characters(out, 1);
    let mut found = Vec::new(out.alloc());
    if push_digits(&mut found, &line).is_err() {
        out.unwritten(&EncodeError::Memory, &found);
    }
    match octets_of(out.alloc(), &found) {
        Ok(Some(octets)) => {
            out.text("ok ");
            out.octets(&octets);
            drop(octets);
        }
        Ok(None) => out.text("none"),
        Err(_) => out.fail(),
    }
    drop(found);
    drop(line);
}
