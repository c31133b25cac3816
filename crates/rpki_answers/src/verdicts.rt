//! The verdict on a path, for a person or as JSON.
ghost use Rattle.std.specs.Prelude.{◌≡◌, ◌≢◌, ◌↔◌, All, IfOk, IsTrue, string_bytes};
ghost use Rattle.rpki_keys.specs.RsaSignatures.{IsSignedByRsa};
ghost use Rattle.rpki_cert.specs.Verification.{context};
ghost use Rattle.rpki_files.specs.Contents.{IsList};
ghost use Rattle.rpki_files.specs.Files.{contents};
ghost use Rattle.rpki_verdicts.specs.GivenLocators.{IsRead};
ghost use Rattle.rpki_verdicts.specs.PathFiles.{demands_of};
ghost use Rattle.rpki_document.specs.Building.{nodes_of};
ghost use Rattle.rpki_document.specs.Documents.{document_json, document_of, document_text};
ghost use Rattle.rpki_answers.specs.JsonTexts.{json_value_text};
ghost use Rattle.rpki_answers.specs.Outcomes.{IsOutcomeOfValidate};
ghost use Rattle.rpki_answers.specs.Verdicts.{IsJsonOfPath, IsTextOfPath};
ghost use Rattle.rpki_answers.specs.VerdictTexts.{IsAcceptedFinding, IsFinding};

use crate::as_json::value_text;
use crate::outcomes::{Answer, Outcome};
use crate::verdict_document::verdict_document;
use rpki_document::{Parts, json_of, text_of};
use rpki_files::Object;
use rpki_text::command_line::Format;
use rpki_verdicts::{Fault, Question, Verdict, first_no_locator, judge};
use std::alloc::{AllocError, Global};

/// The findings on a path: the verdict, which exists if the path has a file; or that a file given
/// as a TAL isn't one, and why; or that a file given as a CRL isn't one. Nothing is judged in the
/// last two cases.
#[derive(Drop)]
pub enum Finding {
    NotALocator(Fault),
    NotAList,
    Decided(Option<Verdict>),
}

// The JSON of a document, in a format.
fn json_text(alloc: Global, parts: &Parts<'_>, format: Format) -> Result<String, AllocError>
    ensures { let d = document_of (nodes_of parts.now.items) in
        IfOk result (λ text. string_bytes text ≡ json_value_text format (document_json d)) }
{
    let value = json_of(alloc, parts)?;
    let text = value_text(alloc, &value, format);
    drop(value);
    text
}

/// Writes a document in a format.
pub(crate) fn rendered(
    alloc: Global,
    parts: &Parts<'_>,
    format: Format,
) -> Result<String, AllocError>
    ensures text { let d = document_of (nodes_of parts.now.items) in
        format ≡ Format.Text → IfOk result (λ text. string_bytes text ≡ document_text d) }
    ensures json { let d = document_of (nodes_of parts.now.items) in
        format ≢ Format.Text
        → IfOk result (λ text. string_bytes text ≡ json_value_text format (document_json d)) }
{
    if format == Format::Text {
        return text_of(alloc, parts);
    }
    json_text(alloc, parts, format)
}

// Whether each file given as a CRL is one.
fn are_lists(lists: &[Object<'_>]) -> bool
    ensures { IsTrue result ↔ All IsList (contents lists.now) }
{
    let mut are_lists = true;
    for object in lists {
        are_lists &= object.is_list();
    }
    are_lists
}

fn find(alloc: Global, question: &Question<'_, '_>) -> Result<Finding, AllocError>
    requires { All (IsRead question.now.strict) question.now.locators }
    ensures { let x = context IsSignedByRsa question.now.at question.now.strict in
        IfOk result (IsFinding x question.now) }
{
    if let Some(fault) = first_no_locator(question) {
        return Ok(Finding::NotALocator(fault));
    }
    let are_lists = are_lists(question.lists);
    if are_lists {
        let verdict = judge(alloc, question)?;
        return Ok(Finding::Decided(verdict));
    }
    Ok(Finding::NotAList)
}

// Whether the path is accepted; it isn't if it has no file.
fn is_accepted(finding: &Finding) -> bool
    ensures { IsTrue result ↔ IsAcceptedFinding finding.now }
{
    match finding {
        Finding::Decided(Some(Verdict::Accepted(_))) => true,
        Finding::Decided(_) | Finding::NotAList | Finding::NotALocator(_) => false,
    }
}

/// Validates the path and writes the findings, as lines for a person or as JSON. The outcome is
/// success if each file given as a TAL is one, each file given as a CRL is one that nothing
/// follows, and the path is accepted.
///
/// # Errors
///
/// Returns an error only if memory runs out.
pub fn validated(
    alloc: Global,
    question: &Question<'_, '_>,
    format: Format,
) -> Result<Answer, AllocError>
    requires { All (IsRead question.now.strict) question.now.locators }
    ensures outcome { let x = context IsSignedByRsa question.now.at question.now.strict in
        let d = demands_of question.now in
        let members = contents question.now.members in
        let lists = contents question.now.lists in
        IfOk result (λ answer. IsOutcomeOfValidate x d members lists answer.outcome) }
    ensures text { let x = context IsSignedByRsa question.now.at question.now.strict in
        format ≡ Format.Text
        → IfOk result (λ answer. IsTextOfPath x question.now (string_bytes answer.text)) }
    ensures json { let x = context IsSignedByRsa question.now.at question.now.strict in
        format ≢ Format.Text
        → IfOk result (λ answer. IsJsonOfPath format x question.now (string_bytes answer.text)) }
{
    let finding = find(alloc, question)?;
    let is_accepted = is_accepted(&finding);
    let parts = verdict_document(alloc, question, &finding);
    drop(finding);
    let parts = parts?;
    let text = rendered(alloc, &parts, format);
    drop(parts);
    let text = text?;
    Ok(Answer {
        text,
        outcome: Outcome::of_answer(is_accepted),
    })
}
