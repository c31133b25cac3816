//! The line that answers a question.
use rpki_der::{Cursor, DecodeError, EncodeError, Field, Oid};
use std::alloc::{AllocError, Global};

const DIGITS: [&str; 16] = [
    "0", "1", "2", "3", "4", "5", "6", "7", "8", "9", "a", "b", "c", "d", "e", "f",
];

// How many octets a line has room for from the beginning, so that few requests are made for it.
const ROOM: usize = 4096;

/// A line of answers. It remembers that memory ran out, so that printing needs no exit, and that a
/// call that failed left something else behind than what it was lent.
#[derive(Drop)]
pub struct Answer {
    alloc: Global,
    asked: Vec<u8>,
    line: String,
    has_failed: bool,
    is_clobbered: bool,
}

impl Answer {
    /// Returns an empty line, with room for most answers.
    pub fn new(alloc: Global) -> Answer {
        let room = String::with_capacity(alloc, ROOM);
        let has_failed = room.is_err();
        Answer {
            alloc,
            asked: Vec::new(alloc),
            line: room.unwrap_or(String::new(alloc)),
            has_failed,
            is_clobbered: false,
        }
    }

    /// Remembers the octets that the question is of.
    pub fn ask(&mut self, octets: &[u8]) {
        self.asked.clear();
        if self.asked.extend_from_slice(octets).is_err() {
            self.has_failed = true;
        }
    }

    /// Returns an empty line for the same question.
    pub fn beside(&self) -> Answer {
        let mut other = Answer::new(self.alloc);
        other.ask(&self.asked);
        other
    }

    /// Returns where its memory comes from.
    pub fn alloc(&self) -> Global {
        self.alloc
    }

    /// Returns the text so far.
    pub fn line(&self) -> &str {
        self.line.as_str()
    }

    /// Returns whether memory ran out, and each call that failed left what it was lent as it was.
    pub fn has_failed(&self) -> bool {
        self.has_failed && !self.is_clobbered
    }

    /// Remembers that memory ran out.
    pub fn fail(&mut self) {
        self.has_failed = true;
    }

    /// Remembers that a call that failed left something else behind, and says so.
    pub fn clobber(&mut self) {
        self.is_clobbered = true;
        self.text("clobbered");
    }

    /// Remembers what another answer to the same question remembers.
    pub fn follow(&mut self, other: &Answer) {
        self.has_failed = self.has_failed || other.has_failed;
        self.is_clobbered = self.is_clobbered || other.is_clobbered;
    }

    /// Appends another answer to the same question.
    pub fn add(&mut self, other: &Answer) {
        self.text(other.line());
        self.follow(other);
    }

    /// Appends the text as it stands.
    pub fn text(&mut self, text: &str) {
        if self.line.push_str(text).is_err() {
            self.has_failed = true;
        }
    }

    /// Appends the name of a fault. `Memory` is the one of memory that ran out.
    pub fn name(&mut self, name: &str) {
        if name == "Memory" {
            self.fail();
        }
        self.text(name);
    }

    /// Appends ` NAME=`, and returns the line, to which the value is appended.
    pub fn field(&mut self, name: &str) -> &mut Answer {
        self.text(" ");
        self.text(name);
        self.text("=");
        self
    }

    /// Appends `yes` or `no`.
    pub fn yes(&mut self, holds: bool) {
        self.text(if holds { "yes" } else { "no" });
    }

    fn digit(&mut self, half: u8) {
        match DIGITS.get(usize::from(half & 15)) {
            Some(digit) => self.text(digit),
            None => self.fail(),
        }
    }

    /// Appends the octets in hexadecimal; `-` for none.
    pub fn octets(&mut self, octets: &[u8]) {
        if octets.is_empty() {
            self.text("-");
        }
        for octet in octets {
            self.digit(*octet >> 4);
            self.digit(*octet & 15);
        }
    }

    /// Appends the octets as text, or in hexadecimal where they are none.
    pub fn characters(&mut self, octets: &[u8]) {
        match str::from_utf8(octets) {
            Ok(text) => self.text(text),
            Err(_) => self.octets(octets),
        }
    }

    fn formed(&mut self, made: Result<String, AllocError>) {
        match made {
            Ok(text) => self.text(text.as_str()),
            Err(_) => self.fail(),
        }
    }

    /// Appends the number in decimal digits.
    pub fn count(&mut self, n: usize) {
        let made = format!(in self.alloc; "{n}");
        self.formed(made);
    }

    /// Appends the number in decimal digits.
    pub fn number(&mut self, n: u32) {
        let made = format!(in self.alloc; "{n}");
        self.formed(made);
    }

    /// Appends the number in decimal digits.
    pub fn wide_number(&mut self, n: u64) {
        let made = format!(in self.alloc; "{n}");
        self.formed(made);
    }

    /// Appends the number in hexadecimal digits, shortest.
    pub fn address(&mut self, n: u128) {
        let made = format!(in self.alloc; "{n:x}");
        self.formed(made);
    }

    fn about(&mut self, field: Field) {
        let made = format!(in self.alloc; "({field:?})");
        self.formed(made);
    }

    // The text of the identifier of an extension that was rejected.
    fn about_identifier(&mut self, id: &Oid) {
        let made = format!(in self.alloc; "({id})");
        self.formed(made);
    }

    /// Appends why octets were rejected, and what that speaks of.
    pub fn fault(&mut self, error: &DecodeError) {
        self.name(error.name());
        match error {
            DecodeError::Missing(field)
            | DecodeError::Duplicate(field)
            | DecodeError::Critical(field)
            | DecodeError::NotCritical(field)
            | DecodeError::WrongResources(field) => self.about(*field),
            DecodeError::UnexpectedCritical(id) | DecodeError::InvalidExtension(id) => {
                self.about_identifier(id);
            }
            _ => {}
        }
    }

    /// Appends `refused` and why. It takes the error, so that its callers needn't drop it.
    pub fn refused(&mut self, error: DecodeError) {
        self.text("refused ");
        self.fault(&error);
        drop(error);
    }

    /// Appends `refused` and the name of a fault.
    pub fn refused_as(&mut self, name: &str) {
        self.text("refused ");
        self.name(name);
    }

    // The octets; `same` where those of the question begin so.
    fn known(&mut self, octets: &[u8]) {
        if !octets.is_empty() && self.asked.starts_with(octets) {
            self.text("same");
        } else {
            self.octets(octets);
        }
    }

    /// Appends `FROM-TO`.
    pub fn range(&mut self, from: usize, to: usize) {
        self.count(from);
        self.text("-");
        self.count(to);
    }

    /// Appends why nothing was written, where nothing stands then.
    pub fn unwritten(&mut self, error: &EncodeError, octets: &[u8]) {
        self.name(error.name());
        if !octets.is_empty() {
            self.clobber();
        }
    }

    /// Appends what was written, or why it was not.
    pub fn written(&mut self, answer: Result<(), EncodeError>, octets: &[u8]) {
        match answer {
            Ok(()) => self.octets(octets),
            Err(error) => self.unwritten(&error, octets),
        }
    }

    /// Appends what was written of a value that was read; `same` where the question begins so.
    pub fn again(&mut self, answer: Result<(), EncodeError>, octets: &[u8]) {
        self.field("written");
        match answer {
            Ok(()) => self.known(octets),
            Err(error) => self.unwritten(&error, octets),
        }
    }

    /// Appends `FROM-TO`, where a cursor stands and its end.
    pub fn span(&mut self, cursor: &Cursor<'_>) {
        let (from, to) = cursor.span();
        self.range(from, to);
    }

    /// Appends which of the octets remain.
    pub fn left(&mut self, cursor: &Cursor<'_>) {
        self.field("left").span(cursor);
    }

    /// Appends `same` where another answer is the one that was given first, else that answer.
    pub fn compared(&mut self, first: &Answer, other: &Answer) {
        self.follow(first);
        self.follow(other);
        if other.line() == first.line() {
            self.text("same");
        } else {
            self.text("[");
            self.text(other.line());
            self.text("]");
        }
    }
}
