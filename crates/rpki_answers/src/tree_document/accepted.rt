//! The row of an accepted certificate: its paths and its resources.
ghost use Rattle.std.specs.Prelude.{◌≡◌, ◌++◌, ◌∷◌, [], codes, map, OnOk};
ghost use Rattle.rpki_document.specs.Building.{Adds, AddsSome, spans_of};
ghost use Rattle.rpki_document.specs.Documents.{inner, say, show};
ghost use Rattle.rpki_answers.specs.TreeDocuments.{AreOtherPaths, ArePathNodes, AreAcceptedNodes, above_node, above_nodes, also_line, also_node, more_line, more_nodes, same_spans, shown_node, accepted_head, below_spans};
ghost use Rattle.rpki_answers.specs.TreeDocuments.Steps.{AreHeldAside, PrintsSome};

use crate::told::kind_leaf;
use crate::tree_document::name_of;
use crate::tree_rows::Word;
use crate::verdict_document::{add_held, some_held};
use rpki_cert::Kind;
use rpki_document::{
    Leaf, Part, Piece, add_aside, add_each, add_further, add_head, add_inside, add_kept,
};
use rpki_files::BareObject;
use rpki_folder::FoundPath;
use rpki_path::Judged;
use rpki_text::command_line::Format;
use rpki_verdicts::{ShownPaths, Tree, hold_same};
use std::alloc::{AllocError, Global};

// Adds an arrow and a name to a line.
fn push_arrow<'p>(pieces: &mut Vec<Piece<'p>>, name: &'p str) -> Result<(), AllocError>
    ensures { let its = say (codes " > ") ∷ show (inner name.now) ∷ [] in
        OnOk result (spans_of pieces.new.items ≡ spans_of pieces.old.items ++ its) }
{
    pieces.push(Piece::Say(" > "))?;
    pieces.push(Piece::Show(Leaf::Inner(name)))?;
    Ok(())
}

// Adds the names of the CAs at these places, each after an arrow.
fn push_below<'p>(
    pieces: &mut Vec<Piece<'p>>,
    certs: &[&'p BareObject<'_>],
    places: &[usize],
) -> Result<(), AllocError>
    ensures { let its = below_spans (map (λ f. f.now) certs.now) places.now in
        OnOk result (spans_of pieces.new.items ≡ spans_of pieces.old.items ++ its) }
{
    for place in places {
        push_arrow(pieces, name_of(certs, *place))?;
    }
    Ok(())
}

fn add_names<'p>(
    parts: &mut Vec<Part<'p>>,
    alloc: Global,
    certs: &[&'p BareObject<'_>],
    places: &[usize],
) -> Result<(), AllocError>
    ensures { let its = above_nodes (map (λ f. f.now) certs.now) places.now in
        OnOk result (Adds its parts.old.items parts.new.items) }
{
    for place in places {
        add_kept(parts, alloc, "", Leaf::Text(name_of(certs, *place)))?;
    }
    Ok(())
}

// The head of an accepted certificate's row.
fn add_accepted_head<'p>(
    parts: &mut Vec<Part<'p>>,
    alloc: Global,
    name: &'p str,
    tree: &Tree<'p, '_>,
    above: &[usize],
    kind: Kind,
) -> Result<(), AllocError>
    ensures { let its = accepted_head name.now tree.now above.now kind in
        OnOk result (Adds (its ∷ []) parts.old.items parts.new.items) }
{
    let mut pieces = vec![in alloc;
        Piece::Keep("verdict", Leaf::Text(Word::Accepted.key())),
        Piece::Tell("file", Leaf::Inner(name)),
        Piece::Say(", "),
        Piece::Tell("judged_as", kind_leaf(kind)),
        Piece::Say(", below "),
        Piece::Show(Leaf::Inner(name_of(&tree.certs, tree.anchor))),
    ]?;
    push_below(&mut pieces, &tree.certs, above)?;
    add_head(parts, Word::Accepted.label(), pieces)
}

// The names of the trust anchor and of the CAs at these places.
fn add_above<'p>(
    parts: &mut Vec<Part<'p>>,
    alloc: Global,
    tree: &Tree<'p, '_>,
    above: &[usize],
) -> Result<(), AllocError>
    ensures { let its = above_node tree.now above.now in
        OnOk result (Adds (its ∷ []) parts.old.items parts.new.items) }
{
    let mut names = Vec::new(alloc);
    let anchor = Leaf::Text(name_of(&tree.certs, tree.anchor));
    add_kept(&mut names, alloc, "", anchor)?;
    add_names(&mut names, alloc, &tree.certs, above)?;
    add_each(parts, "above", names)
}

// The shown path among all.
fn add_shown_path<'p>(
    parts: &mut Vec<Part<'p>>,
    alloc: Global,
    tree: &Tree<'p, '_>,
    above: &[usize],
) -> Result<(), AllocError>
    ensures { let its = shown_node tree.now above.now in
        OnOk result (Adds (its ∷ []) parts.old.items parts.new.items) }
{
    let mut own = Vec::new(alloc);
    add_above(&mut own, alloc, tree, above)?;
    add_kept(&mut own, alloc, "same_resources", Leaf::Flag(true))?;
    add_inside(parts, "", own)
}

// Adds that another path gives other resources.
fn push_same(pieces: &mut Vec<Piece<'_>>, same: bool) -> Result<(), AllocError>
    ensures { OnOk result
        (spans_of pieces.new.items ≡ spans_of pieces.old.items ++ same_spans same) }
{
    if !same {
        pieces.push(Piece::Say(": other resources"))?;
    }
    Ok(())
}

// The line of another path, by the CAs at these places.
fn add_also_below<'p>(
    parts: &mut Vec<Part<'p>>,
    alloc: Global,
    tree: &Tree<'p, '_>,
    above: &[usize],
    same: bool,
) -> Result<(), AllocError>
    ensures { let its = also_line tree.now above.now same in
        OnOk result (Adds (its ∷ []) parts.old.items parts.new.items) }
{
    let mut pieces = vec![in alloc;
        Piece::Keep("same_resources", Leaf::Flag(same)),
        Piece::Say("also below "),
        Piece::Show(Leaf::Inner(name_of(&tree.certs, tree.anchor))),
    ]?;
    push_below(&mut pieces, &tree.certs, above)?;
    push_same(&mut pieces, same)?;
    add_further(parts, pieces)
}

// Another path, which gives the same resources as the shown one or others.
fn add_path<'p>(
    parts: &mut Vec<Part<'p>>,
    alloc: Global,
    tree: &Tree<'p, '_>,
    above: &[usize],
    same: bool,
) -> Result<(), AllocError>
    ensures { let its = also_node tree.now above.now same in
        OnOk result (Adds (its ∷ []) parts.old.items parts.new.items) }
{
    let mut own = Vec::new(alloc);
    add_above(&mut own, alloc, tree, above)?;
    add_also_below(&mut own, alloc, tree, above, same)?;
    add_inside(parts, "", own)
}

// The other paths.
fn add_others<'p>(
    parts: &mut Vec<Part<'p>>,
    alloc: Global,
    tree: &Tree<'p, '_>,
    shown: &FoundPath,
    others: &[&FoundPath],
) -> Result<(), AllocError>
    ensures { let Are = AreOtherPaths tree.now shown.now (map (λ path. path.now) others.now) in
        OnOk result (AddsSome Are parts.old.items parts.new.items) }
{
    for path in others {
        add_path(parts, alloc, tree, &path.above, hold_same(shown, *path))?;
    }
    Ok(())
}

// All paths, if there are several.
fn add_paths<'p>(
    parts: &mut Vec<Part<'p>>,
    alloc: Global,
    tree: &Tree<'p, '_>,
    paths: &ShownPaths<'_>,
) -> Result<(), AllocError>
    ensures { let Are = ArePathNodes tree.now paths.now in
        OnOk result (AddsSome Are parts.old.items parts.new.items) }
{
    if paths.others.is_empty() {
        return Ok(());
    }
    let mut all = Vec::new(alloc);
    add_shown_path(&mut all, alloc, tree, &paths.shown.above)?;
    add_others(&mut all, alloc, tree, paths.shown, &paths.others)?;
    add_each(parts, "paths", all)
}

fn add_more_line(parts: &mut Vec<Part<'_>>, alloc: Global, more: usize) -> Result<(), AllocError>
    ensures { OnOk result (Adds (more_line more ∷ []) parts.old.items parts.new.items) }
{
    let pieces = vec![in alloc;
        Piece::Say("and "),
        Piece::Tell("more_paths", Leaf::Count(more as u64)),
        Piece::Say(" more"),
    ]?;
    add_further(parts, pieces)
}

// The number of paths that aren't kept, if there are some.
fn add_more(parts: &mut Vec<Part<'_>>, alloc: Global, more: usize) -> Result<(), AllocError>
    ensures { OnOk result (Adds (more_nodes more) parts.old.items parts.new.items) }
{
    if more > 0 {
        add_more_line(parts, alloc, more)
    } else {
        Ok(())
    }
}

// The resources, in no line.
fn add_held_aside(
    parts: &mut Vec<Part<'_>>,
    alloc: Global,
    judged: &Judged,
) -> Result<(), AllocError>
    ensures { let Are = AreHeldAside judged.now.holder judged.now.router in
        OnOk result (AddsSome Are parts.old.items parts.new.items) }
{
    let mut held = Vec::new(alloc);
    add_held(&mut held, alloc, judged)?;
    add_aside(parts, held)
}

// Adds the resources of the certificate, unless the format is text: no line of a text has them, and
// a CA may hold many blocks.
fn add_held_in(
    parts: &mut Vec<Part<'_>>,
    alloc: Global,
    judged: &Judged,
    format: Format,
) -> Result<(), AllocError>
    ensures { let Are = PrintsSome format (AreHeldAside judged.now.holder judged.now.router) in
        OnOk result (AddsSome Are parts.old.items parts.new.items) }
{
    match format {
        Format::Text => {
            some_held(judged);
            Ok(())
        }
        Format::Json | Format::JsonLines => add_held_aside(parts, alloc, judged),
    }
}

pub fn add_accepted<'p>(
    parts: &mut Vec<Part<'p>>,
    alloc: Global,
    name: &'p str,
    tree: &Tree<'p, '_>,
    paths: &ShownPaths<'_>,
    kind: Kind,
    format: Format,
) -> Result<(), AllocError>
    ensures { let Are = PrintsSome format (AreAcceptedNodes name.now tree.now paths.now kind) in
        OnOk result (AddsSome Are parts.old.items parts.new.items) }
{
    let shown = paths.shown;
    add_accepted_head(parts, alloc, name, tree, &shown.above, kind)?;
    add_above(parts, alloc, tree, &shown.above)?;
    add_held_in(parts, alloc, &shown.judged, format)?;
    add_paths(parts, alloc, tree, paths)?;
    add_more(parts, alloc, paths.more)
}
