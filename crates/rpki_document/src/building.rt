//! Documents that are being built.
ghost use Rattle.std.specs.Prelude.{◌∷◌, [], OnOk};
ghost use Rattle.rpki_document.specs.Documents.{aside, document_of, each, further, head, inside, item_node, kept_node, line, told_line, unsaid};
ghost use Rattle.rpki_document.specs.Building.{Adds, nodes_of, spans_of};
ghost use Rattle.rpki_document.specs.Views.{leaf_view};

use crate::parts::{Leaf, Part, Parts, Piece};
use std::alloc::{AllocError, Global};

/// Adds the head of an answer.
pub fn add_head<'a>(
    parts: &mut Parts<'a>,
    label: &'a str,
    pieces: Vec<Piece<'a>>,
) -> Result<(), AllocError>
    ensures { let its = head label.now (spans_of pieces.entry.items) in
        OnOk result (Adds (its ∷ []) parts.old.items parts.new.items) }
{
    parts.push(Part::Head(label, pieces))?;
    Ok(())
}

/// Adds a line.
pub fn add_line<'a>(
    parts: &mut Parts<'a>,
    label: &'a str,
    pieces: Vec<Piece<'a>>,
) -> Result<(), AllocError>
    ensures { let its = line label.now (spans_of pieces.entry.items) in
        OnOk result (Adds (its ∷ []) parts.old.items parts.new.items) }
{
    parts.push(Part::Line(label, pieces))?;
    Ok(())
}

/// Adds a further line of the label above.
pub fn add_further<'a>(parts: &mut Parts<'a>, pieces: Vec<Piece<'a>>) -> Result<(), AllocError>
    ensures { let its = further (spans_of pieces.entry.items) in
        OnOk result (Adds (its ∷ []) parts.old.items parts.new.items) }
{
    parts.push(Part::Further(pieces))?;
    Ok(())
}

/// Adds values that are in no line.
pub fn add_unsaid<'a>(parts: &mut Parts<'a>, pieces: Vec<Piece<'a>>) -> Result<(), AllocError>
    ensures { let its = unsaid (spans_of pieces.entry.items) in
        OnOk result (Adds (its ∷ []) parts.old.items parts.new.items) }
{
    parts.push(Part::Unsaid(pieces))?;
    Ok(())
}

/// Adds a line of one value, under a key.
pub fn add_told<'a>(
    parts: &mut Parts<'a>,
    alloc: Global,
    label: &'a str,
    key: &'a str,
    leaf: Leaf<'a>,
) -> Result<(), AllocError>
    ensures { let its = told_line label.now key.now (leaf_view leaf.entry) in
        OnOk result (Adds (its ∷ []) parts.old.items parts.new.items) }
{
    let pieces = vec![in alloc; Piece::Tell(key, leaf)]?;
    add_line(parts, label, pieces)
}

/// Adds a value that is in no line, under a key.
pub fn add_kept<'a>(
    parts: &mut Parts<'a>,
    alloc: Global,
    key: &'a str,
    leaf: Leaf<'a>,
) -> Result<(), AllocError>
    ensures { let its = kept_node key.now (leaf_view leaf.entry) in
        OnOk result (Adds (its ∷ []) parts.old.items parts.new.items) }
{
    let pieces = vec![in alloc; Piece::Keep(key, leaf)]?;
    add_unsaid(parts, pieces)
}

/// Adds parts that are an object under a key.
pub fn add_inside<'a>(
    parts: &mut Parts<'a>,
    key: &'a str,
    inner: Parts<'a>,
) -> Result<(), AllocError>
    ensures { let its = inside key.now (document_of (nodes_of inner.entry.items)) in
        OnOk result (Adds (its ∷ []) parts.old.items parts.new.items) }
{
    parts.push(Part::Inside(key, inner))?;
    Ok(())
}

/// Adds an object that is one line, to a list.
pub fn add_item<'a>(
    parts: &mut Parts<'a>,
    alloc: Global,
    label: &'a str,
    pieces: Vec<Piece<'a>>,
) -> Result<(), AllocError>
    ensures { let its = item_node label.now (spans_of pieces.entry.items) in
        OnOk result (Adds (its ∷ []) parts.old.items parts.new.items) }
{
    let mut own = Vec::new(alloc);
    add_line(&mut own, label, pieces)?;
    add_inside(parts, "", own)
}

/// Adds parts that are a list under a key.
pub fn add_each<'a>(parts: &mut Parts<'a>, key: &'a str, inner: Parts<'a>) -> Result<(), AllocError>
    ensures { let its = each key.now (document_of (nodes_of inner.entry.items)) in
        OnOk result (Adds (its ∷ []) parts.old.items parts.new.items) }
{
    parts.push(Part::Each(key, inner))?;
    Ok(())
}

/// Adds parts that are in no line.
pub fn add_aside<'a>(parts: &mut Parts<'a>, inner: Parts<'a>) -> Result<(), AllocError>
    ensures { let its = aside (document_of (nodes_of inner.entry.items)) in
        OnOk result (Adds (its ∷ []) parts.old.items parts.new.items) }
{
    parts.push(Part::Aside(inner))?;
    Ok(())
}
