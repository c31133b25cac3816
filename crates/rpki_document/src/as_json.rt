//! Documents as JSON.
ghost use Rattle.std.specs.Prelude.{◌≡◌, [], ◌∷◌, map, IfOk, IfSome, OnOk};
ghost use Rattle.std.specs.List.{flat_map};
ghost use Rattle.serde_json.specs.Data.{string};
ghost use Rattle.serde_json.specs.View.{view};
ghost use Rattle.rpki_document.specs.Documents.{document_json, list_of, node_members, object_of, span_members, told_json};
ghost use Rattle.rpki_document.specs.Views.{Puts, document_view, leaf_view, made_json, making_view, part_view, parts_members, piece_view};

use crate::leaves::{Characters, Colons};
use crate::parts::{Leaf, Part, Parts, Piece};
use serde_json::{Map, Value, put};
use std::alloc::{AllocError, Global};
use std::fmt;

// A value that is being made: the members of an object, or the values of a list.
#[derive(Drop)]
enum Gathered {
    Object(Map<String, Value>),
    Array(Vec<Value>),
}

impl Gathered {
    fn into_value(self) -> Value
        ensures { view result ≡ made_json (making_view self) }
    {
        match self {
            Gathered::Object(members) => Value::from(members),
            Gathered::Array(values) => Value::from(values),
        }
    }
}

// Adds a member to an object, or its value to a list.
fn gather(out: &mut Gathered, alloc: Global, key: &str, value: Value) -> Result<(), AllocError>
    ensures { OnOk result (Puts ((key.now, view value) ∷ []) out.old out.new) }
{
    match out {
        Gathered::Object(members) => put(members, alloc, key, value),
        Gathered::Array(values) => {
            values.push(value)?;
            Ok(())
        }
    }
}

fn text_value<T: fmt::Display>(alloc: Global, value: &T) -> Result<Value, AllocError>
    ensures { IfSome (T.output value.now) (λ text.
        IfOk result (λ made. view made ≡ string text)) }
{
    let text = format!(in alloc; "{value}")?;
    Ok(Value::from(text))
}

fn leaf_value(alloc: Global, leaf: &Leaf<'_>) -> Result<Value, AllocError>
    ensures { IfOk result (λ made. view made ≡ told_json (leaf_view leaf.now)) }
{
    match leaf {
        Leaf::Text(text) | Leaf::Inner(text) | Leaf::Words(_, text) => {
            Value::try_from_str(alloc, *text)
        }
        Leaf::Characters(octets) => text_value(alloc, &Characters(*octets)),
        Leaf::Count(n) => Ok(Value::from(*n)),
        Leaf::Octets(octets) => text_value(alloc, &Colons(*octets)),
        Leaf::Flag(is_so) => Ok(Value::from(*is_so)),
        Leaf::Own(text) | Leaf::Printed(text) => Value::try_from_str(alloc, text.as_str()),
        Leaf::Dated(_, n) => Ok(Value::from(*n)),
    }
}

// ---- pieces and parts

fn put_leaf(out: &mut Gathered, alloc: Global, key: &str, leaf: &Leaf<'_>) -> Result<(), AllocError>
    ensures { OnOk result (Puts ((key.now, told_json (leaf_view leaf.now)) ∷ []) out.old out.new) }
{
    let value = leaf_value(alloc, leaf)?;
    gather(out, alloc, key, value)
}

fn put_piece(out: &mut Gathered, alloc: Global, piece: &Piece<'_>) -> Result<(), AllocError>
    ensures { OnOk result (Puts (span_members (piece_view piece.now)) out.old out.new) }
{
    match piece {
        Piece::Say(_) | Piece::Show(_) => Ok(()),
        Piece::Tell(key, told) | Piece::Keep(key, told) => put_leaf(out, alloc, *key, told),
    }
}

#[tactic(auto, using(std::proofs::lemmas::Grind::common_steps, crate::proofs::Joined::put_both))]
fn put_line(out: &mut Gathered, alloc: Global, pieces: &[Piece<'_>]) -> Result<(), AllocError>
    ensures { OnOk result
        (Puts (flat_map span_members (map piece_view pieces.now)) out.old out.new) }
{
    for piece in pieces {
        put_piece(out, alloc, piece)?;
    }
    Ok(())
}

#[cycle(values)]
fn put_part(it: &Part<'_>, out: &mut Gathered, alloc: Global) -> Result<(), AllocError>
    ensures { OnOk result (Puts (node_members (part_view it.now)) out.old out.new) }
{
    match it {
        Part::Head(_, pieces)
        | Part::Line(_, pieces)
        | Part::Further(pieces)
        | Part::Unsaid(pieces) => put_line(out, alloc, pieces.as_slice()),
        Part::Inside(key, parts) => {
            let value = object_value(alloc, parts)?;
            gather(out, alloc, *key, value)
        }
        Part::Each(key, parts) => {
            let value = list_value(alloc, parts)?;
            gather(out, alloc, *key, value)
        }
        Part::Aside(parts) => put_parts(parts, out, alloc),
    }
}

#[cycle(values)]
#[tactic(auto, using(std::proofs::lemmas::Grind::common_steps, crate::proofs::Joined::put_both))]
fn put_parts(parts: &Parts<'_>, out: &mut Gathered, alloc: Global) -> Result<(), AllocError>
    ensures { OnOk result (Puts (parts_members parts.now.items) out.old out.new) }
{
    for it in parts {
        put_part(it, out, alloc)?;
    }
    Ok(())
}

#[cycle(values)]
fn object_value(alloc: Global, parts: &Parts<'_>) -> Result<Value, AllocError>
    ensures { IfOk result (λ made. view made ≡ object_of (parts_members parts.now.items)) }
{
    let mut out = Gathered::Object(Map::new(alloc));
    put_parts(parts, &mut out, alloc)?;
    Ok(out.into_value())
}

#[cycle(values)]
fn list_value(alloc: Global, parts: &Parts<'_>) -> Result<Value, AllocError>
    ensures { IfOk result (λ made. view made ≡ list_of (parts_members parts.now.items)) }
{
    let mut out = Gathered::Array(Vec::new(alloc));
    put_parts(parts, &mut out, alloc)?;
    Ok(out.into_value())
}

/// Makes the value of a document.
#[tactic(auto, using(crate::proofs::Joined::members_of_parts))]
pub fn json_of(alloc: Global, parts: &Parts<'_>) -> Result<Value, AllocError>
    ensures { IfOk result (λ made. view made ≡ document_json (document_view parts.now.items)) }
{
    object_value(alloc, parts)
}
