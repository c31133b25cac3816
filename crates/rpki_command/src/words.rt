//! The words of the command line, as bytes.
use anyhow::{Result, anyhow};
use std::env::{Env, FillError};

/// The most bytes of a word: Linux passes no longer word to a program.
const LONGEST: usize = 131_072;

/// Reads the words after the program's name, which may not be UTF-8.
///
/// # Errors
///
/// Returns an error if the system or memory fails.
pub fn words_of(rt: &HostRuntime) -> Result<Vec<Vec<u8>>> {
    let mut room = vec![in rt.alloc(); 0u8; LONGEST]?;
    let mut words = Vec::new(rt.alloc());
    for place in 1..usize::MAX {
        match rt.arg(place, &mut room) {
            Ok(length) => {
                let word = Vec::from_slice(rt.alloc(), &room[..length])?;
                words.push(word)?;
            }
            Err(FillError::NotPresent) => break,
            Err(FillError::TooLong) => return Err(anyhow!("word {place} is too long")),
        }
    }
    Ok(words)
}
