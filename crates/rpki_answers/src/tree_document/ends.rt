//! The lines after those of the files, and the answer if a file given as a TAL isn't one.
ghost use Rattle.std.specs.Prelude.{◌≡◌, ◌∷◌, [], map, IfOk, OnOk};
ghost use Rattle.rpki_document.specs.Building.{Adds, nodes_of};
ghost use Rattle.rpki_answers.specs.TreeDocuments.{end_nodes, no_locator_nodes, searched_line, limited_line, whole_line, tree_asked, tree_unchecked, unread_node};
ghost use Rattle.rpki_verdicts.specs.Trees.{asked_of};

use crate::tree_document::counts::{add_all_counts, add_damage, add_errors};
use crate::tree_rows::Row;
use crate::verdict_document::{
    add_not_locators, add_time, add_unchecked, add_unchecked_names, add_unjudged,
};
use rpki_document::{Leaf, Part, Piece, add_each, add_kept, add_line, add_unsaid};
use rpki_folder::Ended;
use rpki_verdicts::{Fault, TreeQuestion, Trees};
use std::alloc::{AllocError, Global};

fn add_whole(parts: &mut Vec<Part<'_>>, alloc: Global) -> Result<(), AllocError>
    ensures { OnOk result (Adds (whole_line ∷ []) parts.old.items parts.new.items) }
{
    let pieces = vec![in alloc;
        Piece::Keep("ended", Leaf::Text("whole")),
        Piece::Say("every certificate below the trust anchors"),
    ]?;
    add_line(parts, "Searched", pieces)
}

fn add_limited<'p>(
    parts: &mut Vec<Part<'p>>,
    alloc: Global,
    word: &'p str,
    before: &'p str,
    limit: usize,
    behind: &'p str,
) -> Result<(), AllocError>
    ensures { let its = limited_line word.now before.now limit behind.now in
        OnOk result (Adds (its ∷ []) parts.old.items parts.new.items) }
{
    let pieces = vec![in alloc;
        Piece::Keep("ended", Leaf::Text(word)),
        Piece::Say(before),
        Piece::Show(Leaf::Count(limit as u64)),
        Piece::Say(behind),
    ]?;
    add_line(parts, "Searched", pieces)
}

// Whether every certificate was judged, or which limit was reached.
fn add_searched(
    parts: &mut Vec<Part<'_>>,
    alloc: Global,
    question: &TreeQuestion<'_, '_>,
    ended: Ended,
) -> Result<(), AllocError>
    ensures { let its = searched_line (asked_of question.now) ended in
        OnOk result (Adds (its ∷ []) parts.old.items parts.new.items) }
{
    match ended {
        Ended::Whole => add_whole(parts, alloc),
        Ended::TooDeep => add_limited(
            parts,
            alloc,
            "too_deep",
            "at most ",
            question.depth,
            " certificates down, more are below (--depth sets the limit)",
        ),
        Ended::OutOfSteps => add_limited(
            parts,
            alloc,
            "out_of_steps",
            "not all, the limit of ",
            question.steps,
            " steps was reached (--steps sets the limit)",
        ),
    }
}

fn add_tree_unchecked(
    parts: &mut Vec<Part<'_>>,
    alloc: Global,
    question: &TreeQuestion<'_, '_>,
) -> Result<(), AllocError>
    ensures { let its = tree_unchecked (asked_of question.now) in
        OnOk result (Adds its parts.old.items parts.new.items) }
{
    add_unchecked(parts, alloc, "manifests, a withheld file isn't missed")?;
    add_unchecked_names(parts, alloc, question.names)?;
    add_unchecked(parts, alloc, "whether the RPKI uses the last keys")
}

fn add_tree_asked(parts: &mut Vec<Part<'_>>, alloc: Global, names: bool) -> Result<(), AllocError>
    ensures { OnOk result (Adds (tree_asked names ∷ []) parts.old.items parts.new.items) }
{
    let pieces = vec![in alloc;
        Piece::Keep("names_checked", Leaf::Flag(names)),
        Piece::Keep("manifests_checked", Leaf::Flag(false)),
        Piece::Keep("last_keys_checked", Leaf::Flag(false)),
    ]?;
    add_unsaid(parts, pieces)
}

// The names of what can't be read.
fn add_unread<'p>(
    parts: &mut Vec<Part<'p>>,
    alloc: Global,
    unread: &[&'p [u8]],
) -> Result<(), AllocError>
    ensures { let its = unread_node (map (λ name. name.now) unread.now) in
        OnOk result (Adds (its ∷ []) parts.old.items parts.new.items) }
{
    let mut names = Vec::new(alloc);
    for name in unread {
        add_kept(&mut names, alloc, "", Leaf::Characters(*name))?;
    }
    add_each(parts, "unread", names)
}

/// Adds the lines after the rows.
pub fn add_end<'p>(
    parts: &mut Vec<Part<'p>>,
    alloc: Global,
    question: &TreeQuestion<'_, '_>,
    trees: &Trees<'_, '_>,
    rows: &[Row<'_, '_, '_>],
    unread: &[&'p [u8]],
) -> Result<(), AllocError>
    ensures { let names = map (λ name. name.now) unread.now in
        let its = end_nodes (asked_of question.now) trees.now rows.now names in
        OnOk result (Adds its parts.old.items parts.new.items) }
{
    add_time(parts, alloc, question.at)?;
    add_all_counts(parts, alloc, trees, rows)?;
    add_errors(parts, alloc, rows)?;
    add_unread(parts, alloc, unread)?;
    add_damage(parts, alloc, trees, rows)?;
    add_searched(parts, alloc, question, trees.ended())?;
    add_tree_unchecked(parts, alloc, question)?;
    add_tree_asked(parts, alloc, question.names)
}

/// Makes the document of a file given as a TAL that isn't one.
pub fn no_locator_document<'p>(
    alloc: Global,
    question: &TreeQuestion<'p, '_>,
    fault: &Fault,
) -> Result<Vec<Part<'p>>, AllocError>
    ensures { let its = no_locator_nodes (asked_of question.now) fault.now in
        IfOk result (λ parts. nodes_of parts.items ≡ its) }
{
    let mut parts = Vec::new(alloc);
    add_unjudged(
        &mut parts,
        alloc,
        fault.step,
        fault.rule.says,
        fault.name,
        fault.rule.section,
    )?;
    let mut others = Vec::new(alloc);
    add_not_locators(&mut others, alloc, question.locators)?;
    add_each(&mut parts, "not_tals", others)?;
    add_time(&mut parts, alloc, question.at)?;
    Ok(parts)
}
