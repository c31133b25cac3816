//! The heads of the TALs.
ghost use Rattle.std.specs.Prelude.{◌≡◌, ◌∷◌, [], OnOk};
ghost use Rattle.rpki_document.specs.Building.{Adds};
ghost use Rattle.rpki_answers.specs.TreeDocuments.{anchor_head, ended_word, no_anchor_head, tal_head, tal_node, tals_node};

use crate::tree_document::name_of;
use rpki_document::{Leaf, Part, Piece, add_each, add_head, add_inside};
use rpki_folder::Ended;
use rpki_verdicts::{Tree, TreeAnswer, TreePart, Trees};
use std::alloc::{AllocError, Global};

fn ended_word(ended: Ended) -> &'static str
    ensures { result.now ≡ ended_word ended }
{
    match ended {
        Ended::Whole => "whole",
        Ended::TooDeep => "too_deep",
        Ended::OutOfSteps => "out_of_steps",
    }
}

// A TAL of this name without a valid trust anchor.
fn add_unanchored<'p>(
    parts: &mut Vec<Part<'p>>,
    alloc: Global,
    name: &'p str,
) -> Result<(), AllocError>
    ensures { OnOk result (Adds (no_anchor_head name.now ∷ []) parts.old.items parts.new.items) }
{
    let pieces = vec![in alloc;
        Piece::Tell("tal", Leaf::Inner(name)),
        Piece::Say(": no valid trust anchor (NoAnchor, RFC 8630 3)"),
        Piece::Keep("fault", Leaf::Text("NoAnchor")),
        Piece::Keep("standard", Leaf::Text("RFC 8630 3")),
    ]?;
    add_head(parts, "TAL", pieces)
}

// A TAL of this name, and the trust anchor of its tree.
fn add_anchored<'p>(
    parts: &mut Vec<Part<'p>>,
    alloc: Global,
    name: &'p str,
    tree: &Tree<'p, '_>,
) -> Result<(), AllocError>
    ensures { let its = anchor_head name.now tree.now in
        OnOk result (Adds (its ∷ []) parts.old.items parts.new.items) }
{
    let anchor = Leaf::Text(name_of(&tree.certs, tree.anchor));
    let pieces = vec![in alloc;
        Piece::Tell("tal", Leaf::Inner(name)),
        Piece::Keep("ended", Leaf::Text(ended_word(tree.ended))),
        Piece::Say(", trust anchor "),
        Piece::Tell("trust_anchor", anchor),
    ]?;
    add_head(parts, "TAL", pieces)
}

// The head of a TAL of this name.
fn add_tal_head<'p>(
    parts: &mut Vec<Part<'p>>,
    alloc: Global,
    name: &'p str,
    answer: &TreeAnswer<'p, '_>,
) -> Result<(), AllocError>
    ensures { let its = tal_head name.now answer.now in
        OnOk result (Adds (its ∷ []) parts.old.items parts.new.items) }
{
    match answer {
        TreeAnswer::Walked(tree) => add_anchored(parts, alloc, name, tree),
        TreeAnswer::NoAnchor(_) => add_unanchored(parts, alloc, name),
    }
}

fn add_tal<'p>(
    parts: &mut Vec<Part<'p>>,
    alloc: Global,
    part: &TreePart<'p, '_>,
) -> Result<(), AllocError>
    ensures { OnOk result (Adds (tal_node part.now ∷ []) parts.old.items parts.new.items) }
{
    let mut own = Vec::new(alloc);
    add_tal_head(&mut own, alloc, part.locator.name(), &part.answer)?;
    add_inside(parts, "", own)
}

/// Adds the heads of the TALs.
pub fn add_tals<'p>(
    parts: &mut Vec<Part<'p>>,
    alloc: Global,
    trees: &Trees<'p, '_>,
) -> Result<(), AllocError>
    ensures { OnOk result (Adds (tals_node trees.now ∷ []) parts.old.items parts.new.items) }
{
    let mut each = Vec::new(alloc);
    for part in &trees.parts {
        add_tal(&mut each, alloc, part)?;
    }
    add_each(parts, "tals", each)
}
