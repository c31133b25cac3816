//! The line program's input, as a question.
ghost use Rattle.std.specs.Prelude.{IfOk};
ghost use Rattle.rpki_lines.specs.Questions.{IsInput};

use crate::lines::{RevokedQuestion, revoked_from, split_line};
use crate::path_lines::{PathQuestion, moment_from, path_from};
use std::alloc::{AllocError, Global};

/// A question of the line program's input, or the line that isn't one.
#[derive(Drop)]
pub(crate) enum Input {
    /// Whether revokedCertificates have a serial number.
    Revoked(RevokedQuestion),
    /// Whether strings are a valid path.
    Path(PathQuestion),
    /// The number, from 1, of the first line that is wrong or missing.
    Bad(usize),
}

/// Reads the whole input.
pub(crate) fn from_text(alloc: Global, text: &[u8]) -> Result<Input, AllocError>
    ensures { IfOk result (λ input. IsInput input text.now) }
{
    let Some((line, others)) = split_line(text) else {
        return Ok(Input::Bad(1));
    };
    if let Some(now) = moment_from(line) {
        return path_from(alloc, now, others);
    }
    let Some(question) = revoked_from(alloc, line)? else {
        return Ok(Input::Bad(1));
    };
    if !others.is_empty() {
        return Ok(Input::Bad(2));
    }
    Ok(Input::Revoked(question))
}
