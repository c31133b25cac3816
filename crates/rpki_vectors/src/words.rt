//! The words of a question.
use crate::answer::Answer;
use bytes::Bytes;
use rpki_der::Time;
use std::alloc::{AllocError, Global};

/// The words of a line.
#[derive(Drop)]
pub struct Words<'a> {
    line: &'a str,
    words: Vec<&'a str>,
}

impl<'a> Words<'a> {
    /// Returns the words between spaces.
    pub fn of(alloc: Global, line: &'a str) -> Result<Words<'a>, AllocError> {
        let mut words: Vec<&'a str> = Vec::new(alloc);
        for word in line.split_whitespace() {
            words.push(word)?;
        }
        Ok(Words { line, words })
    }

    /// Returns what stands behind the first space, as it stands; nothing where there is none.
    pub fn rest(&self) -> &'a str {
        match self.line.split_once(' ') {
            Some((_, rest)) => rest,
            None => "",
        }
    }

    /// Returns how many words there are.
    pub fn count(&self) -> usize {
        self.words.len()
    }

    /// Returns the word at a place, from 0; `-` where there is none.
    pub fn at(&self, place: usize) -> &'a str {
        match self.words.get(place) {
            Some(word) => word,
            None => "-",
        }
    }

    /// Returns whether the word at a place is this one.
    pub fn is(&self, place: usize, word: &str) -> bool {
        self.at(place) == word
    }

    /// Returns what stands behind `NAME=`; `none` where no word begins so.
    pub fn named(&self, name: &str) -> &'a str {
        for word in self.words.iter() {
            if let Some((before, after)) = word.split_once('=') {
                if before == name {
                    return after;
                }
            }
        }
        "none"
    }

    /// Returns whether a word begins with `NAME=`, and `none` isn't behind it.
    pub fn has(&self, name: &str) -> bool {
        self.named(name) != "none"
    }

    /// Returns the octets of a word in hexadecimal; `-` for none.
    pub fn octets(&self, out: &mut Answer, place: usize) -> Vec<u8> {
        octets(out, self.at(place))
    }

    /// Returns the octets of a word in hexadecimal, to be shared; `-` for none.
    pub fn bytes(&self, out: &mut Answer, place: usize) -> Bytes {
        bytes(out, self.at(place))
    }

    /// Returns the octets that the question is of.
    pub fn asked(&self, out: &mut Answer, place: usize) -> Bytes {
        let octets = self.bytes(out, place);
        out.ask(octets.as_slice());
        octets
    }

    /// Returns the octets of a word as they stand.
    pub fn characters(&self, out: &mut Answer, place: usize) -> Vec<u8> {
        characters(out, self.at(place))
    }

    /// Returns the number of a word in decimal digits; 0 where it is too great.
    pub fn number(&self, place: usize) -> u32 {
        u32::try_from(decimal(self.at(place))).unwrap_or(0)
    }

    /// Returns the number of a word in decimal digits; 0 where it is 256 or more.
    pub fn small(&self, place: usize) -> u8 {
        u8::try_from(decimal(self.at(place))).unwrap_or(0)
    }

    /// Returns the number of a word in decimal digits, which may have a minus sign.
    pub fn signed(&self, place: usize) -> i32 {
        let n = i32::try_from(decimal(self.at(place))).unwrap_or(0);
        if self.at(place).starts_with('-') {
            n.wrapping_neg()
        } else {
            n
        }
    }

    /// Returns an octet in hexadecimal.
    pub fn octet(&self, place: usize) -> u8 {
        u8::try_from(hexadecimal(self.at(place)) & 255).unwrap_or(0)
    }
}

fn filled(out: &mut Answer, octets: Result<Vec<u8>, AllocError>) -> Vec<u8> {
    match octets {
        Ok(octets) => octets,
        Err(_) => {
            out.fail();
            Vec::new(out.alloc())
        }
    }
}

fn shared(out: &mut Answer, octets: Vec<u8>) -> Bytes {
    match Bytes::from_vec(octets) {
        Ok(octets) => octets,
        Err(_) => {
            out.fail();
            Bytes::new()
        }
    }
}

/// Returns the octets of a word in hexadecimal; `-` for none.
pub fn octets(out: &mut Answer, word: &str) -> Vec<u8> {
    let found = octets_of(out.alloc(), word);
    filled(out, found)
}

/// Returns the octets of a word in hexadecimal, to be shared; `-` for none.
pub fn bytes(out: &mut Answer, word: &str) -> Bytes {
    let found = octets(out, word);
    shared(out, found)
}

/// Returns the octets of a text; those in hexadecimal of a word that begins with `octets:`.
pub fn characters(out: &mut Answer, word: &str) -> Vec<u8> {
    let found = match word.strip_prefix("octets:") {
        Some(rest) => octets_of(out.alloc(), rest),
        None => Vec::from_slice(out.alloc(), word.as_bytes()),
    };
    filled(out, found)
}

/// Returns the octets of a text, to be shared; those in hexadecimal of a word that begins with
/// `octets:`.
pub fn shared_characters(out: &mut Answer, word: &str) -> Bytes {
    let found = characters(out, word);
    shared(out, found)
}

/// Returns the number of the decimal digits of a word, whatever sign it has.
pub fn decimal(word: &str) -> u128 {
    let mut n = 0u128;
    for c in word.as_bytes() {
        if *c != b'-' {
            n = n.wrapping_mul(10).wrapping_add(u128::from(digit(*c)));
        }
    }
    n
}

/// Returns the number of hexadecimal digits, at most 32.
pub fn hexadecimal(word: &str) -> u128 {
    let mut n = 0u128;
    for c in word.as_bytes() {
        n = (n << 4) | u128::from(digit(*c));
    }
    n
}

fn digit(c: u8) -> u8 {
    match c {
        b'0'..=b'9' => c - b'0',
        b'a'..=b'f' => c - b'a' + 10,
        b'A'..=b'F' => c - b'A' + 10,
        _ => 0,
    }
}

fn octets_of(alloc: Global, word: &str) -> Result<Vec<u8>, AllocError> {
    let mut found: Vec<u8> = Vec::with_capacity(alloc, word.len() / 2)?;
    let mut high: Option<u8> = None;
    for c in word.as_bytes() {
        match high {
            None => high = Some(digit(*c)),
            Some(half) => {
                found.push((half << 4) | digit(*c))?;
                high = None;
            }
        }
    }
    Ok(found)
}

// The number of the digits at some places of a word.
fn part(word: &str, from: usize, to: usize) -> u32 {
    match word.get(from..to) {
        Some(digits) => u32::try_from(decimal(digits)).unwrap_or(0),
        None => 0,
    }
}

/// Returns the moment `YYYYMMDDhhmmss`, if there is one.
pub fn moment(word: &str) -> Option<Time> {
    let year = i32::try_from(part(word, 0, 4)).unwrap_or(-1);
    Time::utc(
        year,
        part(word, 4, 6),
        part(word, 6, 8),
        part(word, 8, 10),
        part(word, 10, 12),
        part(word, 12, 14),
    )
}
