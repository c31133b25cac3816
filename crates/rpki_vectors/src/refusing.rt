//! Questions that are asked again with their requests for memory refused in turn, where
//! `tests/refuse.c` is loaded before the C library.
//!
//! Three lengths that nothing else asks for are marks. A request of the first is refused where the
//! question is to be asked once more, with other requests refused than before: what then asks for
//! memory may get none. The other two end that, and tell what was answered; they are refused where
//! it can't have been. Where nobody refuses, the first is granted, and no question is asked again.
use crate::line_for;
use std::alloc::{AllocError, Global};
use std::io;

// Once more.
const AGAIN: usize = 7_340_037;

// The answer was the one that is wanted.
const AS_WANTED: usize = 7_340_039;

// The answer was out of memory.
const OUT_OF_MEMORY: usize = 7_340_041;

// A question isn't asked more often; none makes half as many requests.
const MOST: u32 = 100_000;

/// What came of questions that were asked with requests refused.
#[derive(Clone, Copy)]
pub struct Refusals {
    out_of_memory: u64,
    as_wanted: u64,
    faults: u64,
}

impl Refusals {
    /// Makes the counts of no question.
    pub fn none() -> Refusals {
        Refusals {
            out_of_memory: 0,
            as_wanted: 0,
            faults: 0,
        }
    }

    /// Adds the counts of other questions.
    pub fn add(&mut self, other: Refusals) {
        self.out_of_memory = self.out_of_memory.saturating_add(other.out_of_memory);
        self.as_wanted = self.as_wanted.saturating_add(other.as_wanted);
        self.faults = self.faults.saturating_add(other.faults);
    }

    /// Returns whether each answer was the one that is wanted, or out of memory.
    pub fn is_clean(&self) -> bool {
        self.faults == 0
    }

    /// Prints the counts, where any question was asked again.
    pub fn print(&self, rt: &impl Print) -> io::Result<()> {
        let (failed, went_on) = (self.out_of_memory, self.as_wanted);
        if failed == 0 && went_on == 0 {
            return Ok(());
        }
        println!(rt; "with memory refused: {failed} times out of memory, {went_on} times as wanted")
    }
}

fn is_refused(alloc: Global, octets: usize) -> bool {
    let asked: Result<Vec<u8>, AllocError> = Vec::with_capacity(alloc, octets);
    asked.is_err()
}

// Asks the question once, which the first mark was refused for.
fn asked<R: AllocGlobal + Print>(rt: &R, question: &str, answer: &str) -> io::Result<Refusals> {
    let mut counts = Refusals::none();
    let given = line_for(rt.alloc(), question);
    if let Ok(other) = &given {
        if other.line() != answer {
            let _is_held = is_refused(rt.alloc(), AS_WANTED);
            println!(rt; "  with memory refused, answered {}", other.line())?;
            counts.faults = 1;
            return Ok(counts);
        }
    }
    let mark = if given.is_ok() {
        counts.as_wanted = 1;
        AS_WANTED
    } else {
        counts.out_of_memory = 1;
        OUT_OF_MEMORY
    };
    drop(given);
    if is_refused(rt.alloc(), mark) {
        counts.faults = 1;
    }
    Ok(counts)
}

/// Asks a question again for each of its requests, with that one refused, and with it and all that
/// follow: each time the answer is the one that is wanted, or memory ran out, and nothing of it is
/// held. In the end it is asked with none refused.
pub fn ask_again<R: AllocGlobal + Print>(
    rt: &R,
    question: &str,
    answer: &str,
) -> io::Result<Refusals> {
    let mut counts = Refusals::none();
    for _round in 0..MOST {
        if !is_refused(rt.alloc(), AGAIN) {
            // the last time none was refused
            counts.as_wanted = counts.as_wanted.saturating_sub(1);
            return Ok(counts);
        }
        counts.add(asked(rt, question, answer)?);
    }
    counts.faults = 1;
    Ok(counts)
}
