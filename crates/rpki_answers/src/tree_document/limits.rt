//! Limits that a walk reached below a CA, as parts of a document.
ghost use Rattle.std.specs.Prelude.{◌≡◌, ◌++◌, ◌∷◌, [], codes, OnOk};
ghost use Rattle.rpki_document.specs.Building.{Adds, spans_of};
ghost use Rattle.rpki_document.specs.Documents.{count, keep, say, tell, text};
ghost use Rattle.rpki_answers.specs.TreeDocuments.{limit_nodes, limit_spans};

use rpki_document::{Leaf, Part, Piece, add_further};
use rpki_folder::Limit;
use std::alloc::{AllocError, Global};

// Adds that a limit was reached.
fn push_limit_word<'p>(
    pieces: &mut Vec<Piece<'p>>,
    word: &'p str,
    says: &'p str,
) -> Result<(), AllocError>
    ensures { let its = keep (codes "limit") (text word.now) ∷ say says.now ∷ [] in
        OnOk result (spans_of pieces.new.items ≡ spans_of pieces.old.items ++ its) }
{
    pieces.push(Piece::Keep("limit", Leaf::Text(word)))?;
    pieces.push(Piece::Say(says))?;
    Ok(())
}

// Adds the number of steps that is needed to go on.
fn push_steps(pieces: &mut Vec<Piece<'_>>, steps: usize) -> Result<(), AllocError>
    ensures { let its = tell (codes "steps_needed") (count steps)
        ∷ say (codes " is needed") ∷ [] in
        OnOk result (spans_of pieces.new.items ≡ spans_of pieces.old.items ++ its) }
{
    pieces.push(Piece::Tell("steps_needed", Leaf::Count(steps as u64)))?;
    pieces.push(Piece::Say(" is needed"))?;
    Ok(())
}

// Adds that the limit of steps was reached below a CA, and the number that is needed there.
fn push_steps_limit(pieces: &mut Vec<Piece<'_>>, needed: Option<usize>) -> Result<(), AllocError>
    ensures { let its = limit_spans (Limit.Steps needed) in
        OnOk result (spans_of pieces.new.items ≡ spans_of pieces.old.items ++ its) }
{
    match needed {
        None => push_limit_word(
            pieces,
            "steps",
            "limit of steps reached below it, more than any --steps is needed",
        ),
        Some(steps) => {
            push_limit_word(pieces, "steps", "limit of steps reached below it, --steps ")?;
            push_steps(pieces, steps)
        }
    }
}

/// Adds that a limit was reached below a CA, and what is needed to go on there.
pub fn push_limit(pieces: &mut Vec<Piece<'_>>, limit: Limit) -> Result<(), AllocError>
    ensures { OnOk result
        (spans_of pieces.new.items ≡ spans_of pieces.old.items ++ limit_spans limit) }
{
    match limit {
        Limit::Depth => push_limit_word(
            pieces,
            "depth",
            "limit of depth reached below it, a greater --depth is needed",
        ),
        Limit::Steps(needed) => push_steps_limit(pieces, needed),
    }
}

/// Adds the limit that was reached below a CA, if one was.
pub fn add_limit(
    parts: &mut Vec<Part<'_>>,
    alloc: Global,
    limit: Option<Limit>,
) -> Result<(), AllocError>
    ensures { OnOk result (Adds (limit_nodes limit) parts.old.items parts.new.items) }
{
    let Some(limit) = limit else {
        return Ok(());
    };
    let mut pieces = Vec::new(alloc);
    push_limit(&mut pieces, limit)?;
    add_further(parts, pieces)
}
