//! Documents as text.
ghost use Rattle.std.specs.Prelude.{◌≡◌, ◌++◌, map, string_bytes, IfOk, IfSome, OnOk};
ghost use Rattle.rpki_document.specs.Documents.{document_text, node_text, span_text, spans_text};
ghost use Rattle.rpki_document.specs.Texts.{line_feed};
ghost use Rattle.rpki_document.specs.Views.{document_view, part_view, node_parts_text, piece_view};

use crate::leaves::{Characters, Heading, Label, Margin};
use crate::parts::{Part, Parts, Piece};
use std::alloc::{AllocError, Global};
use std::fmt;

// Appends the text of a value.
fn append<T: fmt::Display>(out: &mut String, alloc: Global, value: &T) -> Result<(), AllocError>
    ensures { IfSome (T.output value.now) (λ text.
        OnOk result (string_bytes out.new ≡ string_bytes out.old ++ text)) }
{
    let made = format!(in alloc; "{value}")?;
    out.push_str(made.as_str())
}

fn write_piece(out: &mut String, alloc: Global, piece: &Piece<'_>) -> Result<(), AllocError>
    ensures { OnOk result
        (string_bytes out.new ≡ string_bytes out.old ++ span_text (piece_view piece.now)) }
{
    match piece {
        Piece::Say(said) => append(out, alloc, &Characters(said.as_bytes())),
        Piece::Tell(_, told) | Piece::Show(told) => append(out, alloc, told),
        Piece::Keep(_, _) => Ok(()),
    }
}

fn write_line<T: fmt::Display>(
    out: &mut String,
    alloc: Global,
    start: &T,
    pieces: &[Piece<'_>],
) -> Result<(), AllocError>
    ensures { IfSome (T.output start.now) (λ text. OnOk result (string_bytes out.new
        ≡ string_bytes out.old ++ (text ++ (spans_text (map piece_view pieces.now) ++ line_feed)))) }
{
    append(out, alloc, start)?;
    for piece in pieces {
        write_piece(out, alloc, piece)?;
    }
    out.push_str("\n")
}

#[cycle(write)]
fn write_part(out: &mut String, alloc: Global, it: &Part<'_>) -> Result<(), AllocError>
    ensures { OnOk result
        (string_bytes out.new ≡ string_bytes out.old ++ node_text (part_view it.now)) }
{
    match it {
        Part::Head(label, pieces) => write_line(out, alloc, &Heading(*label), pieces.as_slice()),
        Part::Line(label, pieces) => write_line(out, alloc, &Label(*label), pieces.as_slice()),
        Part::Further(pieces) => write_line(out, alloc, &Margin, pieces.as_slice()),
        Part::Unsaid(_) => Ok(()),
        Part::Aside(_) => Ok(()),
        Part::Inside(_, parts) | Part::Each(_, parts) => write_parts(out, alloc, parts),
    }
}

#[cycle(write)]
fn write_parts(out: &mut String, alloc: Global, parts: &Parts<'_>) -> Result<(), AllocError>
    ensures { OnOk result
        (string_bytes out.new ≡ string_bytes out.old ++ node_parts_text parts.now.items) }
{
    for it in parts {
        write_part(out, alloc, it)?;
    }
    Ok(())
}

/// Writes a document as text.
#[tactic(auto, using(crate::proofs::Joined::text_of_parts))]
pub fn text_of(alloc: Global, parts: &Parts<'_>) -> Result<String, AllocError>
    ensures { IfOk result (λ text. string_bytes text ≡ document_text (document_view parts.now.items)) }
{
    let mut out = String::new(alloc);
    write_parts(&mut out, alloc, parts)?;
    Ok(out)
}
