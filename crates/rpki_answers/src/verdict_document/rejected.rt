//! The reason of a rejection.
ghost use Rattle.std.specs.Prelude.{◌≡◌, ◌++◌, [], ◌∷◌, None, codes, option_map, OnOk};
ghost use Rattle.rpki_document.specs.Building.{Adds, AddsSome};
ghost use Rattle.rpki_document.specs.Documents.{inner, say, show, unsaid};
ghost use Rattle.rpki_answers.specs.Verdicts.{AreRejection, fault_spans, faulty_file, place_spans, reason_spans, rejected_head, rejected_nodes, step_line, unjudged_nodes};
ghost use Rattle.rpki_answers.specs.VerdictTexts.{file_name_at};

use crate::details::{Details, add_details, details_of};
use rpki_document::{
    Leaf, Parts, Piece, add_head, add_inside, add_kept, add_line, add_told, add_unsaid,
};
use rpki_files::Object;
use rpki_verdicts::{Fault, Question};
use std::alloc::{AllocError, Global};

/// Adds an error for a program.
pub(crate) fn add_fault<'p>(
    parts: &mut Parts<'p>,
    alloc: Global,
    name: &'p str,
    says: &'p str,
    section: &'p str,
) -> Result<(), AllocError>
    ensures { let its = fault_spans name.now says.now section.now in
        OnOk result (Adds (unsaid its ∷ []) parts.old.items parts.new.items) }
{
    let pieces = vec![in alloc;
        Piece::Keep("fault", Leaf::Text(name)),
        Piece::Keep("why", Leaf::Text(says)),
        Piece::Keep("standard", Leaf::Text(section)),
    ]?;
    add_unsaid(parts, pieces)
}

// The head of a rejection, by the file of the certificate that is wrong.
fn add_rejected_file<'p>(
    parts: &mut Parts<'p>,
    alloc: Global,
    file: &'p str,
    says: &'p str,
    name: &'p str,
    section: &'p str,
) -> Result<(), AllocError>
    ensures { let reason = reason_spans says.now name.now section.now in
        let its = rejected_head (show (inner file.now) ∷ say (codes ": ") ∷ reason) in
        OnOk result (Adds (its ∷ []) parts.old.items parts.new.items) }
{
    let pieces = vec![in alloc;
        Piece::Keep("accepted", Leaf::Flag(false)),
        Piece::Show(Leaf::Inner(file)),
        Piece::Say(": "),
        Piece::Say(says),
        Piece::Say(" ("),
        Piece::Say(name),
        Piece::Say(", "),
        Piece::Say(section),
        Piece::Say(")"),
    ]?;
    add_head(parts, "rejected", pieces)
}

// The head of a rejection, by the path index of the certificate that is wrong.
fn add_rejected_index<'p>(
    parts: &mut Parts<'p>,
    alloc: Global,
    index: usize,
    says: &'p str,
    name: &'p str,
    section: &'p str,
) -> Result<(), AllocError>
    ensures { let reason = reason_spans says.now name.now section.now in
        let its = rejected_head (place_spans index None ++ reason) in
        OnOk result (Adds (its ∷ []) parts.old.items parts.new.items) }
{
    let pieces = vec![in alloc;
        Piece::Keep("accepted", Leaf::Flag(false)),
        Piece::Say("path index "),
        Piece::Show(Leaf::Count(index as u64)),
        Piece::Say(": "),
        Piece::Say(says),
        Piece::Say(" ("),
        Piece::Say(name),
        Piece::Say(", "),
        Piece::Say(section),
        Piece::Say(")"),
    ]?;
    add_head(parts, "rejected", pieces)
}

fn add_rejected_head<'p>(
    parts: &mut Parts<'p>,
    alloc: Global,
    fault: &Fault,
    file: Option<&'p str>,
) -> Result<(), AllocError>
    ensures { let f = fault.now in
        let place = place_spans f.index (option_map (λ name. name.now) file.entry) in
        let its = rejected_head (place
        ++ reason_spans f.rule.says.now f.name.now f.rule.section.now) in
        OnOk result (Adds (its ∷ []) parts.old.items parts.new.items) }
{
    let says = fault.rule.says;
    let name = fault.name;
    let section = fault.rule.section;
    match file {
        Some(file) => add_rejected_file(parts, alloc, file, says, name, section),
        None => add_rejected_index(parts, alloc, fault.index, says, name, section),
    }
}

fn add_faulty_file<'p>(
    parts: &mut Parts<'p>,
    alloc: Global,
    name: Option<&'p str>,
) -> Result<(), AllocError>
    ensures { let its = faulty_file (option_map (λ name. name.now) name.entry) in
        OnOk result (Adds its parts.old.items parts.new.items) }
{
    match name {
        Some(name) => add_kept(parts, alloc, "file", Leaf::Text(name)),
        None => Ok(()),
    }
}

fn add_step<'p>(
    parts: &mut Parts<'p>,
    alloc: Global,
    step: &'p str,
    index: usize,
) -> Result<(), AllocError>
    ensures { OnOk result (Adds (step_line step.now index ∷ []) parts.old.items parts.new.items) }
{
    let pieces = vec![in alloc;
        Piece::Tell("step", Leaf::Text(step)),
        Piece::Say(" (path index "),
        Piece::Tell("index", Leaf::Count(index as u64)),
        Piece::Say(")"),
    ]?;
    add_line(parts, "Step", pieces)
}

// The step and the path index of a rejection, and its reason.
fn add_why<'p>(
    parts: &mut Parts<'p>,
    alloc: Global,
    fault: &Fault,
    name: Option<&'p str>,
    details: &Details<'p>,
) -> Result<(), AllocError>
    ensures { let name = option_map (λ name. name.now) name.entry in
        let its = rejected_nodes fault.now name details.now in
        OnOk result (Adds its parts.old.items parts.new.items) }
{
    add_step(parts, alloc, fault.step, fault.index)?;
    add_faulty_file(parts, alloc, name)?;
    let rule = fault.rule;
    add_fault(parts, alloc, fault.name, rule.says, rule.section)?;
    add_details(parts, alloc, details)
}

pub(crate) fn name_at<'p>(members: &'p [Object<'_>], index: usize) -> Option<&'p str>
    ensures { option_map (λ name. name.now) result ≡ file_name_at members.now index }
{
    match members.get(index) {
        Some(object) => Some(object.name()),
        None => None,
    }
}

pub(crate) fn add_rejection<'p>(
    parts: &mut Parts<'p>,
    alloc: Global,
    question: &Question<'p, '_>,
    fault: &Fault,
) -> Result<(), AllocError>
    ensures { let Are = AreRejection question.now fault.now in
        OnOk result (AddsSome Are parts.old.items parts.new.items) }
{
    let details = details_of(question, fault);
    let name = name_at(question.members, fault.index);
    add_rejected_head(parts, alloc, fault, name)?;
    let mut why = Vec::new(alloc);
    add_why(&mut why, alloc, fault, name, &details)?;
    add_inside(parts, "rejected", why)
}

// The head of a rejection by a file given as a TAL or as a CRL that is none.
fn add_unjudged_head<'p>(
    parts: &mut Parts<'p>,
    alloc: Global,
    says: &'p str,
    name: &'p str,
    section: &'p str,
) -> Result<(), AllocError>
    ensures { let its = rejected_head (reason_spans says.now name.now section.now) in
        OnOk result (Adds (its ∷ []) parts.old.items parts.new.items) }
{
    let pieces = vec![in alloc;
        Piece::Keep("accepted", Leaf::Flag(false)),
        Piece::Say(says),
        Piece::Say(" ("),
        Piece::Say(name),
        Piece::Say(", "),
        Piece::Say(section),
        Piece::Say(")"),
    ]?;
    add_head(parts, "rejected", pieces)
}

// The head and the reason of a rejection without a verdict on the path.
pub(crate) fn add_unjudged<'p>(
    parts: &mut Parts<'p>,
    alloc: Global,
    step: &'p str,
    says: &'p str,
    name: &'p str,
    section: &'p str,
) -> Result<(), AllocError>
    ensures { let its = unjudged_nodes step.now says.now name.now section.now in
        OnOk result (Adds its parts.old.items parts.new.items) }
{
    add_unjudged_head(parts, alloc, says, name, section)?;
    let mut why = Vec::new(alloc);
    add_told(&mut why, alloc, "Step", "step", Leaf::Text(step))?;
    add_fault(&mut why, alloc, name, says, section)?;
    add_inside(parts, "rejected", why)
}

pub(crate) fn add_no_path(parts: &mut Parts<'_>, alloc: Global) -> Result<(), AllocError>
    ensures { let its = rejected_head (say (codes "no certificate was given") ∷ []) in
        OnOk result (Adds (its ∷ []) parts.old.items parts.new.items) }
{
    let pieces = vec![in alloc;
        Piece::Keep("accepted", Leaf::Flag(false)),
        Piece::Say("no certificate was given"),
    ]?;
    add_head(parts, "rejected", pieces)
}
