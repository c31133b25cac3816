//! The row of a file.
ghost use Rattle.std.specs.Prelude.{◌≡◌, ◌∷◌, [], codes, map, IfOk, OnOk};
ghost use Rattle.rpki_document.specs.Building.{Adds, AddsSome, nodes_of};
ghost use Rattle.rpki_document.specs.Documents.{count, further, say, tell};
ghost use Rattle.rpki_answers.specs.TreeDocuments.{AreSaid, IsRowDocument, file_last, left_nodes, left_words, row_head};
ghost use Rattle.rpki_answers.specs.TreeDocuments.Steps.{PrintsSome};

use crate::tree_document::accepted::add_accepted;
use crate::tree_document::limits::add_limit;
use crate::tree_document::unaccepted::{add_rejected, add_unseen};
use crate::tree_rows::{Row, Said, Word};
use rpki_document::{Leaf, Part, Piece, add_further, add_head};
use rpki_files::BareObject;
use rpki_text::command_line::Format;
use std::alloc::{AllocError, Global};

// A row of a word with the file's name alone.
fn add_plain<'p>(
    parts: &mut Vec<Part<'p>>,
    alloc: Global,
    word: Word,
    name: &'p str,
) -> Result<(), AllocError>
    ensures { let its = row_head word (file_last name.now) in
        OnOk result (Adds (its ∷ []) parts.old.items parts.new.items) }
{
    let pieces = vec![in alloc;
        Piece::Keep("verdict", Leaf::Text(word.key())),
        Piece::Tell("file", Leaf::Text(name)),
    ]?;
    add_head(parts, word.label(), pieces)
}

// The finding on a file of this name.
fn add_said<'p>(
    parts: &mut Vec<Part<'p>>,
    alloc: Global,
    certs: &[&'p BareObject<'_>],
    name: &'p str,
    said: &Said<'_, 'p, '_>,
    format: Format,
) -> Result<(), AllocError>
    ensures { let Are = AreSaid (map (λ f. f.now) certs.now) name.now said.now in
        OnOk result (AddsSome (PrintsSome format Are) parts.old.items parts.new.items) }
{
    match said {
        Said::Accepted(tree, paths, kind) => {
            add_accepted(parts, alloc, name, *tree, paths, *kind, format)
        }
        Said::Rejected(fault) => add_rejected(parts, alloc, name, fault),
        Said::Unseen(why, error) => add_unseen(parts, alloc, certs, name, *why, *error),
        Said::Anchor => add_plain(parts, alloc, Word::Anchor, name),
        Said::Crl => add_plain(parts, alloc, Word::Crl, name),
        Said::Neither => add_plain(parts, alloc, Word::Neither, name),
    }
}

fn left_words(left: usize) -> &'static str
    ensures { result.now ≡ left_words left }
{
    if left == 1 {
        " byte after its end"
    } else {
        " bytes after its end"
    }
}

fn add_left_words<'p>(
    parts: &mut Vec<Part<'p>>,
    alloc: Global,
    left: usize,
    words: &'p str,
) -> Result<(), AllocError>
    ensures { let its = further (tell (codes "bytes_after_end") (count left)
        ∷ say words.now ∷ []) in
        OnOk result (Adds (its ∷ []) parts.old.items parts.new.items) }
{
    let pieces = vec![in alloc;
        Piece::Tell("bytes_after_end", Leaf::Count(left as u64)),
        Piece::Say(words),
    ]?;
    add_further(parts, pieces)
}

// The number of bytes after the object of a file, if there are some.
fn add_left(parts: &mut Vec<Part<'_>>, alloc: Global, left: usize) -> Result<(), AllocError>
    ensures { OnOk result (Adds (left_nodes left) parts.old.items parts.new.items) }
{
    if left > 0 {
        add_left_words(parts, alloc, left, left_words(left))
    } else {
        Ok(())
    }
}

/// Makes the document of a row, to be printed in a format.
pub fn row_document<'p>(
    alloc: Global,
    certs: &[&'p BareObject<'_>],
    row: &Row<'_, 'p, '_>,
    format: Format,
) -> Result<Vec<Part<'p>>, AllocError>
    ensures { let Is = IsRowDocument (map (λ f. f.now) certs.now) row.now in
        IfOk result (λ parts. PrintsSome format Is (nodes_of parts.items)) }
{
    let mut parts = Vec::new(alloc);
    add_said(&mut parts, alloc, certs, row.file.name(), &row.said, format)?;
    add_limit(&mut parts, alloc, row.limit)?;
    add_left(&mut parts, alloc, row.left)?;
    Ok(parts)
}
