//! Vectors in files: a name, a question and an answer on three adjacent lines.
//!
//! An empty line, or one that begins with `#`, stands between vectors. `@NAME` in a question stands
//! for the hexadecimal digits of the octets of the file `NAME.der` beside it, if there is one.
use crate::answer::Answer;
use std::alloc::{AllocError, Global};
use std::fs;
use std::rt::Files;

/// The lines between two empty ones.
#[derive(Clone, Copy)]
pub enum Block<'a> {
    /// A vector.
    Vector {
        /// What is told of the vector where it fails.
        name: &'a str,
        /// The question.
        question: &'a str,
        /// The answer that is wanted.
        answer: &'a str,
    },
    /// Fewer lines than a vector has, or more, and the first of them.
    Malformed(&'a str),
}

fn block_of<'a>(lines: &Vec<&'a str>) -> Option<Block<'a>> {
    let first = *lines.first()?;
    if lines.len() != 3 {
        return Some(Block::Malformed(first));
    }
    let (Some(question), Some(answer)) = (lines.get(1), lines.get(2)) else {
        return None;
    };
    Some(Block::Vector {
        name: first,
        question: *question,
        answer: *answer,
    })
}

fn end_block<'a>(blocks: &mut Vec<Block<'a>>, lines: &mut Vec<&'a str>) -> Result<(), AllocError> {
    if let Some(block) = block_of(lines) {
        blocks.push(block)?;
    }
    lines.clear();
    Ok(())
}

/// Returns the vectors of a file's text, in their order.
pub fn blocks_of<'a>(alloc: Global, text: &'a str) -> Result<Vec<Block<'a>>, AllocError> {
    let mut blocks: Vec<Block<'a>> = Vec::new(alloc);
    let mut lines: Vec<&'a str> = Vec::new(alloc);
    for line in text.split('\n') {
        if line.is_empty() || line.starts_with('#') {
            end_block(&mut blocks, &mut lines)?;
        } else {
            lines.push(line)?;
        }
    }
    end_block(&mut blocks, &mut lines)?;
    Ok(blocks)
}

fn is_of_name(octet: u8) -> bool {
    matches!(octet, b'a'..=b'z' | b'0'..=b'9' | b'-')
}

// How many octets of the text are of a file's name, from its beginning.
fn name_length(text: &str) -> usize {
    match text.as_bytes().iter().position(|octet| !is_of_name(*octet)) {
        Some(length) => length,
        None => text.len(),
    }
}

// The octets of `NAME.der` in a folder; nothing where there is no such file.
fn named(
    rt: &(impl Files + AllocGlobal),
    folder: &str,
    out: &mut Answer,
    name: &str,
) -> Option<Vec<u8>> {
    if name.is_empty() {
        return None;
    }
    match format!(in rt.alloc(); "{folder}/{name}.der") {
        Ok(path) => fs::read(rt, path.as_str()).ok(),
        Err(_) => {
            out.fail();
            None
        }
    }
}

// What stands behind an `@`, with the octets of the name that it begins with.
fn put_named(rt: &(impl Files + AllocGlobal), folder: &str, out: &mut Answer, text: &str) {
    let length = name_length(text);
    let (Some(name), Some(rest)) = (text.get(..length), text.get(length..)) else {
        return;
    };
    match named(rt, folder, out, name) {
        Some(octets) => {
            out.octets(&octets);
            out.text(rest);
            drop(octets);
        }
        None => {
            out.text("@");
            out.text(text);
        }
    }
}

/// Returns the folder that a file lies in.
pub fn folder_of(file: &str) -> &str {
    match file.rsplit_once('/') {
        Some((folder, _)) => folder,
        None => ".",
    }
}

/// Returns the question, with the octets of each file of the folder that it names.
pub fn with_octets(
    rt: &(impl Files + AllocGlobal),
    folder: &str,
    question: &str,
) -> Result<Answer, AllocError> {
    let mut out = Answer::new(rt.alloc());
    match question.split_once('@') {
        None => out.text(question),
        Some((before, rest)) => {
            out.text(before);
            for text in rest.split('@') {
                put_named(rt, folder, &mut out, text);
            }
        }
    }
    if out.has_failed() {
        drop(out);
        Err(AllocError)
    } else {
        Ok(out)
    }
}
