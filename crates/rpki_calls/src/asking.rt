//! Where a call begins and ends, and what it answered.

use rpki_cert::{IssueCaError, ValidationError, VerificationError};
use rpki_der::{Cursor, DecodeError, EncodeError};
use rpki_folder::WalkError;
use rpki_issuing::{CheckedError, IssuingError, ListError, NextListError};
use rpki_parts::SigningError;
use rpki_path::{PathError, PathFault};
use rpki_tests::samples;
use std::alloc::{AllocError, Global};
use std::process::ExitCode;

/// What a call answered.
#[derive(Clone, Copy)]
pub struct Told {
    /// `ok`, or the name of the error.
    pub answer: &'static str,
    /// Whether what stands afterwards is what has to stand.
    pub stands: bool,
    /// The status that the process ends with.
    pub status: ExitCode,
}

impl Told {
    /// An answer of which nothing stands but what cannot be changed.
    pub fn of(answer: &'static str) -> Told {
        Told::standing(answer, true)
    }

    /// An answer, and whether what stands afterwards is what has to stand.
    pub fn standing(answer: &'static str, stands: bool) -> Told {
        Told {
            answer,
            stands,
            status: ExitCode::SUCCESS,
        }
    }
}

// Asks for so many octets and gives them back. `tests/refuse.c` takes the two lengths below for the
// marks that they are.
fn mark(alloc: Global, octets: usize) {
    let asked: Result<Vec<u8>, AllocError> = Vec::with_capacity(alloc, octets);
    drop(asked);
}

/// Marks where the call begins.
pub fn begin(alloc: Global) {
    mark(alloc, 7_340_033);
}

/// Marks where the call has ended, and what it answered is let go.
pub fn end(alloc: Global) {
    mark(alloc, 7_340_035);
}

/// An error that a call answers.
pub trait Fault: Drop {
    /// Its name, with that of the error inside it.
    fn told(&self) -> &'static str;
}

impl Fault for AllocError {
    fn told(&self) -> &'static str {
        "AllocError"
    }
}

impl Fault for DecodeError {
    fn told(&self) -> &'static str {
        self.name()
    }
}

impl Fault for EncodeError {
    fn told(&self) -> &'static str {
        self.name()
    }
}

impl Fault for VerificationError {
    fn told(&self) -> &'static str {
        self.name()
    }
}

impl Fault for SigningError<()> {
    fn told(&self) -> &'static str {
        self.name()
    }
}

impl Fault for ValidationError {
    fn told(&self) -> &'static str {
        match self {
            ValidationError::Verification(VerificationError::Memory) => "Verification(Memory)",
            other => other.name(),
        }
    }
}

impl Fault for PathFault {
    fn told(&self) -> &'static str {
        self.name()
    }
}

impl Fault for PathError {
    fn told(&self) -> &'static str {
        self.fault.name()
    }
}

impl Fault for WalkError {
    fn told(&self) -> &'static str {
        if self.is_memory() { "Memory" } else { "Anchor" }
    }
}

impl Fault for SigningError<CheckedError<()>> {
    fn told(&self) -> &'static str {
        self.name()
    }
}

impl Fault for IssuingError {
    fn told(&self) -> &'static str {
        self.name()
    }
}

impl Fault for ListError {
    fn told(&self) -> &'static str {
        self.name()
    }
}

impl Fault for NextListError {
    fn told(&self) -> &'static str {
        self.name()
    }
}

impl Fault for IssueCaError<()> {
    fn told(&self) -> &'static str {
        match self {
            IssueCaError::Signing(SigningError::Memory) => "Signing(Memory)",
            IssueCaError::Encode(EncodeError::Memory) => "Encode(Memory)",
            IssueCaError::Decode(error) if error.is_memory() => "Decode(Memory)",
            IssueCaError::Validation(error) => error.told(),
            other => other.name(),
        }
    }
}

/// The name of an answer.
pub fn name_of<T: Drop, E: Fault>(answer: &Result<T, E>) -> &'static str {
    match answer {
        Ok(_) => "ok",
        Err(error) => error.told(),
    }
}

/// Lets the answer go, marks the end and tells the name of the answer.
pub fn ended<T: Drop, E: Fault>(alloc: Global, answer: Result<T, E>) -> &'static str {
    let name = name_of(&answer);
    drop(answer);
    end(alloc);
    name
}

/// What a call answered that can change nothing that it was lent.
pub fn plain<T: Drop, E: Fault>(alloc: Global, answer: Result<T, E>) -> Option<Told> {
    Some(Told::of(ended(alloc, answer)))
}

/// Makes a call between the two marks, and tells what it answered. Where a name and a condition
/// follow, what it gave has to meet that.
macro_rules! called {
    ($alloc:expr, $call:expr) => {{
        crate::asking::begin($alloc);
        let answer = $call;
        crate::asking::plain($alloc, answer)
    }};
    ($alloc:expr, $call:expr, $given:ident => $is_right:expr) => {{
        crate::asking::begin($alloc);
        let answer = $call;
        let stands = match &answer {
            Ok($given) => $is_right,
            Err(_) => true,
        };
        let answer = crate::asking::ended($alloc, answer);
        Some(crate::asking::Told::standing(answer, stands))
    }};
}

pub(crate) use called;

/// What a reader answered: the cursor has to stand at its end after an Ok, and where it stood, at
/// 0, after an error.
pub fn read<T: Drop, E: Fault>(
    alloc: Global,
    answer: Result<T, E>,
    cursor: &Cursor<'_>,
) -> Option<Told> {
    let answer = ended(alloc, answer);
    let (from, _) = cursor.span();
    let stands = if answer == "ok" {
        cursor.is_empty()
    } else {
        from == 0
    };
    Some(Told::standing(answer, stands))
}

/// A vector that holds `AA` and has no room for more, and the mark of the beginning.
pub fn vector(alloc: Global) -> Option<Vec<u8>> {
    let out = Vec::from_slice(alloc, b"\xaa").ok()?;
    begin(alloc);
    Some(out)
}

/// What a writer answered: the vector has to hold these octets behind `AA` after an Ok, and `AA`
/// after an error.
pub fn written<E: Fault>(
    alloc: Global,
    answer: Result<(), E>,
    out: &[u8],
    octets: &[u8],
) -> Option<Told> {
    judged(ended(alloc, answer), out, octets)
}

/// What a writer answered, with the octets in hexadecimal digits, which are read once the call has
/// ended.
pub fn written_digits<E: Fault>(
    alloc: Global,
    answer: Result<(), E>,
    out: &[u8],
    digits: &str,
) -> Option<Told> {
    let answer = ended(alloc, answer);
    let octets = samples::octets(alloc, digits)?;
    judged(answer, out, &octets)
}

// Whether the vector is what has to stand after this answer.
fn judged(answer: &'static str, out: &[u8], octets: &[u8]) -> Option<Told> {
    let (head, tail) = out.split_first()?;
    let stands = *head == 0xaa
        && if answer == "ok" {
            tail == octets
        } else {
            tail.is_empty()
        };
    Some(Told::standing(answer, stands))
}
