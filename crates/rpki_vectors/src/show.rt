//! Values that are shown: each is read, shown and copied in one way.
use crate::answer::Answer;
use rpki_der::{Cursor, DecodeError};
use std::alloc::{AllocError, Global};

/// Appends `ok`, and returns what was read; where nothing was, appends why.
pub fn readable<T>(out: &mut Answer, answer: Result<T, DecodeError>) -> Option<T> {
    match answer {
        Ok(value) => {
            out.text("ok");
            Some(value)
        }
        Err(error) => {
            out.refused(error);
            None
        }
    }
}

/// Returns both values, or the first error. So a function asks for two values that own something, and
/// leaves at one place.
pub fn both<A: Drop, B: Drop, E: Drop>(
    one: Result<A, E>,
    other: Result<B, E>,
) -> Result<(A, B), E> {
    match (one, other) {
        (Ok(a), Ok(b)) => Ok((a, b)),
        (Err(error), _) => Err(error),
        (_, Err(error)) => Err(error),
    }
}

/// A value of which an answer shows what its getters give.
pub trait Show {
    /// Appends a field for each of them.
    fn show(&self, out: &mut Answer);
}

/// A value that can be copied.
pub trait Twin: Show + Drop {
    /// Returns the copy.
    fn twin(&self, alloc: Global) -> Result<Self, AllocError>;
}

fn line_of<T: Show>(out: &Answer, value: &T) -> Answer {
    let mut line = out.beside();
    value.show(&mut line);
    line
}

// Whether the copy shows what the value does.
fn copied<T: Twin>(out: &mut Answer, value: &T, first: &Answer) {
    out.field("copy");
    match value.twin(out.alloc()) {
        Ok(copy) => {
            let other = line_of(out, &copy);
            out.compared(first, &other);
        }
        Err(_) => out.fail(),
    }
}

fn shown<T: Twin>(out: &Answer, value: &T) -> Answer {
    let first = line_of(out, value);
    let mut line = out.beside();
    line.text("ok");
    line.add(&first);
    copied(&mut line, value, &first);
    line
}

/// Appends a value that was found, and its copy. Where memory runs out in between, the value is
/// asked once more, and has to answer as it would have.
pub fn found<T: Twin>(out: &mut Answer, value: &T) {
    let first = shown(out, value);
    if first.has_failed() {
        let again = shown(out, value);
        out.add(&again);
    } else {
        out.add(&first);
    }
}

/// Says so where a reader that ran out of memory moved its cursor from where it stood.
pub fn stays<T>(
    out: &mut Answer,
    answer: &Result<T, DecodeError>,
    cursor: &Cursor<'_>,
    from: usize,
) {
    if let Err(DecodeError::Memory) = answer {
        let (now, _) = cursor.span();
        if now != from {
            out.clobber();
        }
    }
}

/// Appends what was read, or why it was rejected.
pub fn read<T: Twin>(out: &mut Answer, answer: Result<T, DecodeError>) {
    match answer {
        Ok(value) => found(out, &value),
        Err(error) => out.refused(error),
    }
}

/// Appends what was read, if anything was, or why it was rejected.
pub fn read_optional<T: Twin>(out: &mut Answer, answer: Result<Option<T>, DecodeError>) {
    match answer {
        Ok(Some(value)) => found(out, &value),
        Ok(None) => out.text("none"),
        Err(error) => out.refused(error),
    }
}

/// Appends what was read of a value that is copied as it stands.
pub fn read_plain<T: Show + Copy>(out: &mut Answer, answer: Result<T, DecodeError>) {
    match answer {
        Ok(value) => {
            out.text("ok");
            value.show(out);
        }
        Err(error) => out.refused(error),
    }
}

/// Appends what was made, if anything was.
pub fn made<T: Show + Copy>(out: &mut Answer, answer: Option<T>) {
    match answer {
        Some(value) => {
            out.text("ok");
            value.show(out);
        }
        None => out.text("none"),
    }
}
