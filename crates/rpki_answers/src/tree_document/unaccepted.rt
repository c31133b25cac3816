//! The rows of certificates that are rejected or have no verdict.
ghost use Rattle.std.specs.Prelude.{◌∷◌, [], Some, map, option_map, OnOk};
ghost use Rattle.rpki_document.specs.Building.{Adds};
ghost use Rattle.rpki_answers.specs.TreeDocuments.{file_first, index_node, issuer_spans, limited_spans, rejected_head, rejected_row, rejected_spans, row_head, unseen_row};

use crate::tree_document::limits::push_limit;
use crate::tree_document::name_of;
use crate::tree_rows::{Word, unseen_word};
use crate::verdict_document::add_fault;
use rpki_document::{Leaf, Part, Piece, add_head, add_unsaid};
use rpki_files::BareObject;
use rpki_folder::{Limit, Unseen};
use rpki_verdicts::Fault;
use std::alloc::{AllocError, Global};

// The head of a rejected certificate's row.
fn add_rejected_head<'p>(
    parts: &mut Vec<Part<'p>>,
    alloc: Global,
    file: &'p str,
    says: &'p str,
    name: &'p str,
    section: &'p str,
) -> Result<(), AllocError>
    ensures { let its = rejected_head file.now says.now name.now section.now in
        OnOk result (Adds (its ∷ []) parts.old.items parts.new.items) }
{
    let pieces = vec![in alloc;
        Piece::Keep("verdict", Leaf::Text(Word::Rejected.key())),
        Piece::Tell("file", Leaf::Inner(file)),
        Piece::Say(": "),
        Piece::Say(says),
        Piece::Say(" ("),
        Piece::Say(name),
        Piece::Say(", "),
        Piece::Say(section),
        Piece::Say(")"),
    ]?;
    add_head(parts, Word::Rejected.label(), pieces)
}

fn add_index<'p>(
    parts: &mut Vec<Part<'p>>,
    alloc: Global,
    index: usize,
    step: &'p str,
) -> Result<(), AllocError>
    ensures { OnOk result
        (Adds (index_node index step.now ∷ []) parts.old.items parts.new.items) }
{
    let pieces = vec![in alloc;
        Piece::Keep("index", Leaf::Count(index as u64)),
        Piece::Keep("step", Leaf::Text(step)),
    ]?;
    add_unsaid(parts, pieces)
}

pub fn add_rejected<'p>(
    parts: &mut Vec<Part<'p>>,
    alloc: Global,
    file: &'p str,
    fault: &Fault,
) -> Result<(), AllocError>
    ensures { OnOk result
        (Adds (rejected_row file.now fault.now) parts.old.items parts.new.items) }
{
    let says = fault.rule.says;
    let name = fault.name;
    let section = fault.rule.section;
    add_rejected_head(parts, alloc, file, says, name, section)?;
    add_index(parts, alloc, fault.index, fault.step)?;
    add_fault(parts, alloc, name, says, section)
}

// Adds the row of a word with the file's name.
fn add_alone<'p>(
    parts: &mut Vec<Part<'p>>,
    alloc: Global,
    word: Word,
    name: &'p str,
) -> Result<(), AllocError>
    ensures { let its = row_head word (file_first name.now []) in
        OnOk result (Adds (its ∷ []) parts.old.items parts.new.items) }
{
    let pieces = vec![in alloc;
        Piece::Keep("verdict", Leaf::Text(word.key())),
        Piece::Tell("file", Leaf::Inner(name)),
    ]?;
    add_head(parts, word.label(), pieces)
}

// Adds the row of a word with the file's name and its issuer's.
fn add_issued<'p>(
    parts: &mut Vec<Part<'p>>,
    alloc: Global,
    word: Word,
    name: &'p str,
    issuer: &'p str,
) -> Result<(), AllocError>
    ensures { let its = row_head word (file_first name.now (issuer_spans issuer.now)) in
        OnOk result (Adds (its ∷ []) parts.old.items parts.new.items) }
{
    let pieces = vec![in alloc;
        Piece::Keep("verdict", Leaf::Text(word.key())),
        Piece::Tell("file", Leaf::Inner(name)),
        Piece::Say(", issuer "),
        Piece::Tell("issuer", Leaf::Text(issuer)),
    ]?;
    add_head(parts, word.label(), pieces)
}

// Adds the row of a certificate that wasn't looked at, and its issuer.
fn add_limited_row<'p>(
    parts: &mut Vec<Part<'p>>,
    alloc: Global,
    name: &'p str,
    issuer: &'p str,
    limit: Limit,
) -> Result<(), AllocError>
    ensures { let its = row_head Word.NotLookedAt
        (file_first name.now (limited_spans issuer.now limit)) in
        OnOk result (Adds (its ∷ []) parts.old.items parts.new.items) }
{
    let mut pieces = vec![in alloc;
        Piece::Keep("verdict", Leaf::Text(Word::NotLookedAt.key())),
        Piece::Tell("file", Leaf::Inner(name)),
        Piece::Say(", issuer "),
        Piece::Tell("issuer", Leaf::Inner(issuer)),
        Piece::Say(": "),
    ]?;
    push_limit(&mut pieces, limit)?;
    add_head(parts, Word::NotLookedAt.label(), pieces)
}

// Adds the row of a certificate below a rejected CA, with its issuer and the issuer's error.
fn add_below_error<'p>(
    parts: &mut Vec<Part<'p>>,
    alloc: Global,
    name: &'p str,
    issuer: &'p str,
    error: &'p str,
) -> Result<(), AllocError>
    ensures { let its = row_head Word.BelowRejected
        (file_first name.now (rejected_spans issuer.now (Some error.now))) in
        OnOk result (Adds (its ∷ []) parts.old.items parts.new.items) }
{
    let pieces = vec![in alloc;
        Piece::Keep("verdict", Leaf::Text(Word::BelowRejected.key())),
        Piece::Tell("file", Leaf::Inner(name)),
        Piece::Say(", issuer "),
        Piece::Tell("issuer", Leaf::Inner(issuer)),
        Piece::Say(": "),
        Piece::Tell("issuer_fault", Leaf::Text(error)),
    ]?;
    add_head(parts, Word::BelowRejected.label(), pieces)
}

// Adds the row of a certificate below a rejected CA, with the issuer's error, if there is one.
fn add_below_rejected<'p>(
    parts: &mut Vec<Part<'p>>,
    alloc: Global,
    name: &'p str,
    issuer: &'p str,
    error: Option<&'static str>,
) -> Result<(), AllocError>
    ensures { let its = row_head Word.BelowRejected (file_first name.now
        (rejected_spans issuer.now (option_map (λ e. e.now) error.entry))) in
        OnOk result (Adds (its ∷ []) parts.old.items parts.new.items) }
{
    match error {
        Some(error) => add_below_error(parts, alloc, name, issuer, error),
        None => add_issued(parts, alloc, Word::BelowRejected, name, issuer),
    }
}

/// Adds the row of a certificate without a verdict.
pub fn add_unseen<'p>(
    parts: &mut Vec<Part<'p>>,
    alloc: Global,
    certs: &[&'p BareObject<'_>],
    name: &'p str,
    why: Unseen,
    error: Option<&'static str>,
) -> Result<(), AllocError>
    ensures { let error = option_map (λ e. e.now) error.entry in
        let its = unseen_row (map (λ f. f.now) certs.now) name.now why error in
        OnOk result (Adds its parts.old.items parts.new.items) }
{
    let word = unseen_word(why);
    match why {
        Unseen::NoIssuer => add_alone(parts, alloc, word, name),
        Unseen::NotLookedAt(issuer, limit) => {
            add_limited_row(parts, alloc, name, name_of(certs, issuer), limit)
        }
        Unseen::BelowRejected(issuer) => {
            add_below_rejected(parts, alloc, name, name_of(certs, issuer), error)
        }
        Unseen::NotBelow(issuer) | Unseen::NotCa(issuer) | Unseen::BelowUnseen(issuer) => {
            add_issued(parts, alloc, word, name, name_of(certs, issuer))
        }
    }
}
