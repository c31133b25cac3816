//! Files of vectors that are run, and what is told of each.
use crate::line_for;
use crate::refusing::{Refusals, ask_again};
use crate::vectors::{Block, blocks_of, folder_of, with_octets};
use std::rt::Files;
use std::{fs, io};

/// How many vectors there are, how many were answered as they say, and what came of them where
/// memory was refused.
#[derive(Clone, Copy)]
pub struct Tally {
    vectors: u64,
    passed: u64,
    refusals: Refusals,
}

impl Tally {
    /// Makes an empty tally.
    pub fn new() -> Tally {
        Tally {
            vectors: 0,
            passed: 0,
            refusals: Refusals::none(),
        }
    }

    /// Adds a vector.
    pub fn count(&mut self, passes: bool) {
        self.vectors = self.vectors.saturating_add(1);
        if passes {
            self.passed = self.passed.saturating_add(1);
        }
    }

    /// Adds the vectors of another tally.
    pub fn add(&mut self, other: Tally) {
        self.vectors = self.vectors.saturating_add(other.vectors);
        self.passed = self.passed.saturating_add(other.passed);
        self.refusals.add(other.refusals);
    }

    /// Returns whether there are vectors, and each was answered as it says.
    pub fn is_clean(&self) -> bool {
        self.vectors != 0 && self.vectors == self.passed
    }

    /// Prints the two numbers behind a name.
    pub fn print(&self, rt: &impl Print, name: &str) -> io::Result<()> {
        let vectors = self.vectors;
        let passed = self.passed;
        println!(rt; "{name}: {vectors} vectors, {passed} passed")
    }

    /// Prints what came of all vectors, also where memory was refused.
    pub fn print_all(&self, rt: &impl Print) -> io::Result<()> {
        self.print(rt, "all")?;
        self.refusals.print(rt)
    }
}

// Whether a question is answered as is wanted; where it isn't, prints both answers.
fn is_answered<R: AllocGlobal + Print>(
    rt: &R,
    place: (&str, &str),
    question: &str,
    answer: &str,
) -> io::Result<bool> {
    let given = line_for(rt.alloc(), question)?;
    if given.line() == answer {
        return Ok(true);
    }
    let (file, name) = place;
    println!(rt;
        "{file}: {name}\n  wanted   {answer}\n  answered {}",
        given.line()
    )?;
    Ok(false)
}

// Asks a question, and again with memory refused where that is to be.
fn asked<R: AllocGlobal + Print>(
    rt: &R,
    place: (&str, &str),
    question: &str,
    answer: &str,
) -> io::Result<Tally> {
    let mut tally = Tally::new();
    if !is_answered(rt, place, question, answer)? {
        tally.count(false);
        return Ok(tally);
    }
    tally.refusals = ask_again(rt, question, answer)?;
    let is_clean = tally.refusals.is_clean();
    if !is_clean {
        let (file, name) = place;
        println!(rt; "{file}: {name}: fails with memory refused")?;
    }
    tally.count(is_clean);
    Ok(tally)
}

// Runs the vector, and prints its name and what differs where something does.
fn ran<R: Files + AllocGlobal + Print>(rt: &R, file: &str, block: Block<'_>) -> io::Result<Tally> {
    match block {
        Block::Malformed(first) => {
            println!(rt; "{file}: no vector of three lines: {first}")?;
            let mut none = Tally::new();
            none.count(false);
            Ok(none)
        }
        Block::Vector {
            name,
            question,
            answer,
        } => {
            let whole = with_octets(rt, folder_of(file), question)?;
            asked(rt, (file, name), whole.line(), answer)
        }
    }
}

fn text_passes<R: Files + AllocGlobal + Print>(
    rt: &R,
    file: &str,
    text: &str,
) -> io::Result<Tally> {
    let mut tally = Tally::new();
    let blocks = blocks_of(rt.alloc(), text)?;
    for block in blocks.iter() {
        tally.add(ran(rt, file, *block)?);
    }
    Ok(tally)
}

/// Runs the vectors of a file, prints those that differ and how many pass. A file that can't be
/// read counts as a vector that differs.
pub fn run_file<R: Files + AllocGlobal + Print>(rt: &R, file: &str) -> io::Result<Tally> {
    let tally = match fs::read_to_string(rt, file) {
        Ok(text) => text_passes(rt, file, text.as_str())?,
        Err(_) => {
            println!(rt; "{file}: no such file")?;
            let mut none = Tally::new();
            none.count(false);
            none
        }
    };
    tally.print(rt, file)?;
    Ok(tally)
}
