//! The verdict on a path as a document.
ghost use Rattle.std.specs.Prelude.{◌≡◌, [], ◌∷◌, All, map, IfOk, OnOk};
ghost use Rattle.rpki_document.specs.Building.{Adds, AddsSome, nodes_of};
ghost use Rattle.rpki_document.specs.Documents.{kept_node, text};
ghost use Rattle.rpki_verdicts.specs.GivenLocators.{IsRead};
ghost use Rattle.rpki_answers.specs.Verdicts.{IsClosing, IsOpening, IsVerdict, accepted_head, are_some, asked_nodes, last_name, time_node};

mod accepted;
mod files;
mod rejected;

use crate::told::moment_leaf;
use crate::verdicts::Finding;
use accepted::add_acceptance;
pub(crate) use accepted::{add_held, add_unchecked, add_unchecked_names, some_held};
use files::add_files;
pub(crate) use files::add_not_locators;
pub(crate) use rejected::{add_fault, add_unjudged};
use rejected::{add_no_path, add_rejection, name_at};
use rpki_der::Time;
use rpki_document::{Leaf, Parts, Piece, add_each, add_head, add_kept, add_told, add_unsaid};
use rpki_files::Object;
use rpki_verdicts::{GivenLocator, Question, Verdict};
use std::alloc::{AllocError, Global};

/// The error of a file given as a CRL that isn't one.
const NO_LIST: &str = "a file given as a CRL isn't one";

fn last_name<'p>(members: &'p [Object<'_>]) -> &'p str
    ensures { result.now ≡ last_name members.now }
{
    match name_at(members, members.len().saturating_sub(1)) {
        Some(name) => name,
        None => "",
    }
}

fn add_accepted<'p>(parts: &mut Parts<'p>, alloc: Global, name: &'p str) -> Result<(), AllocError>
    ensures { OnOk result (Adds (accepted_head name.now ∷ []) parts.old.items parts.new.items) }
{
    let pieces = vec![in alloc;
        Piece::Keep("accepted", Leaf::Flag(true)),
        Piece::Show(Leaf::Text(name)),
    ]?;
    add_head(parts, "accepted", pieces)
}

fn add_verdict_line<'p>(
    parts: &mut Parts<'p>,
    alloc: Global,
    question: &Question<'p, '_>,
    verdict: &Option<Verdict>,
) -> Result<(), AllocError>
    ensures { let Are = IsOpening question.now (Finding.Decided verdict.now) in
        OnOk result (AddsSome Are parts.old.items parts.new.items) }
{
    match verdict {
        Some(Verdict::Accepted(_)) => add_accepted(parts, alloc, last_name(question.members)),
        Some(Verdict::Rejected(fault)) => add_rejection(parts, alloc, question, fault),
        None => add_no_path(parts, alloc),
    }
}

// The verdict, and the reason of a rejection.
fn add_opening<'p>(
    parts: &mut Parts<'p>,
    alloc: Global,
    question: &Question<'p, '_>,
    finding: &Finding,
) -> Result<(), AllocError>
    ensures { let Are = IsOpening question.now finding.now in
        OnOk result (AddsSome Are parts.old.items parts.new.items) }
{
    match finding {
        Finding::NotALocator(fault) => {
            let it = fault.rule;
            add_unjudged(parts, alloc, fault.step, it.says, fault.name, it.section)
        }
        Finding::NotAList => {
            let section = "RFC 6487 5, own rules";
            add_unjudged(parts, alloc, "crls", NO_LIST, "NotACrl", section)
        }
        Finding::Decided(verdict) => add_verdict_line(parts, alloc, question, verdict),
    }
}

// The resources of an accepted path, and what was checked.
fn add_closing<'p>(
    parts: &mut Parts<'p>,
    alloc: Global,
    question: &Question<'p, '_>,
    finding: &Finding,
) -> Result<(), AllocError>
    requires { All (IsRead question.now.strict) question.now.locators }
    ensures { let Are = IsClosing question.now finding.now in
        OnOk result (AddsSome Are parts.old.items parts.new.items) }
{
    match finding {
        Finding::Decided(Some(Verdict::Accepted(judged))) => {
            add_acceptance(parts, alloc, question, judged)
        }
        Finding::Decided(_) | Finding::NotAList | Finding::NotALocator(_) => Ok(()),
    }
}

fn add_path<'p>(
    parts: &mut Parts<'p>,
    alloc: Global,
    members: &'p [Object<'_>],
) -> Result<(), AllocError>
    ensures { let its = map (λ file. kept_node [] (text file.name)) members.now in
        OnOk result (Adds its parts.old.items parts.new.items) }
{
    for file in members {
        add_kept(parts, alloc, "", Leaf::Text(file.name()))?;
    }
    Ok(())
}

fn has_lists(lists: &[Object<'_>]) -> bool
    ensures { result ≡ are_some lists.now }
{
    !lists.is_empty()
}

fn has_locators(locators: &[GivenLocator<'_>]) -> bool
    ensures { result ≡ are_some locators.now }
{
    !locators.is_empty()
}

// The options of the question, for a program.
fn add_asked<'p>(
    parts: &mut Parts<'p>,
    alloc: Global,
    question: &Question<'p, '_>,
) -> Result<(), AllocError>
    ensures { OnOk result (Adds (asked_nodes question.now) parts.old.items parts.new.items) }
{
    let mut path = Vec::new(alloc);
    add_path(&mut path, alloc, question.members)?;
    add_each(parts, "path", path)?;
    let pieces = vec![in alloc;
        Piece::Keep("tal_checked", Leaf::Flag(has_locators(question.locators))),
        Piece::Keep("names_checked", Leaf::Flag(question.names)),
        Piece::Keep("revocation_checked", Leaf::Flag(has_lists(question.lists))),
        Piece::Keep("manifests_checked", Leaf::Flag(false)),
    ]?;
    add_unsaid(parts, pieces)
}

pub(crate) fn add_time(parts: &mut Parts<'_>, alloc: Global, at: Time) -> Result<(), AllocError>
    ensures { OnOk result (Adds (time_node at ∷ []) parts.old.items parts.new.items) }
{
    let leaf = moment_leaf(alloc, at)?;
    add_told(parts, alloc, "Validation time", "validation_time", leaf)
}

/// Makes the document of the verdict on a path.
pub fn verdict_document<'p>(
    alloc: Global,
    question: &Question<'p, '_>,
    finding: &Finding,
) -> Result<Parts<'p>, AllocError>
    requires { All (IsRead question.now.strict) question.now.locators }
    ensures { IfOk result (λ parts. IsVerdict question.now finding.now (nodes_of parts.items)) }
{
    let mut parts = Vec::new(alloc);
    add_opening(&mut parts, alloc, question, finding)?;
    add_files(&mut parts, alloc, question)?;
    add_time(&mut parts, alloc, question.at)?;
    add_asked(&mut parts, alloc, question)?;
    add_closing(&mut parts, alloc, question, finding)?;
    Ok(parts)
}
