//! The verdicts on the certificates among files, as text or JSON, and the outcome of a run by them.
ghost use Rattle.std.specs.Prelude.{◌≡◌, ◌↔◌, ◌++◌, All, map, IfOk, IsTrue, MatchOption, OnOk, string_bytes};
ghost use Rattle.rpki_keys.specs.RsaSignatures.{IsSignedByRsa};
ghost use Rattle.rpki_cert.specs.Verification.{context};
ghost use Rattle.rpki_document.specs.Building.{nodes_of};
ghost use Rattle.rpki_answers.specs.AnswerTexts.{IsTreeBy};
ghost use Rattle.rpki_answers.specs.Outcomes.{IsOutcomeOfTree};
ghost use Rattle.rpki_answers.specs.TreeDocuments.{AreTreesSaid, IsTree, PrintsTrees, is_printed, rendered};
ghost use Rattle.rpki_answers.specs.TreeDocuments.Steps.{AddsRow, AddsRows, AppendsRow, AppendsRows};
ghost use Rattle.rpki_answers.specs.TreeRows.{IsAcceptingFinding, IsTreeFinding};
ghost use Rattle.rpki_files.specs.LocatorFiles.{AreLocator};
ghost use Rattle.rpki_verdicts.specs.GivenLocators.{IsRead, locator_octets};
ghost use Rattle.rpki_verdicts.specs.PathAnswers.{IsNoLocator};
ghost use Rattle.rpki_verdicts.specs.TreeParts.{AreDamaged};
ghost use Rattle.rpki_verdicts.specs.Trees.{asked_of};

use crate::outcomes::{Answer, Outcome};
use crate::tree_document::{add_end, add_tals, no_locator_document, row_document};
use crate::tree_rows::{Row, rows_of};
use crate::verdicts::rendered;
use rpki_document::{Part, add_each, add_inside};
use rpki_files::BareObject;
use rpki_text::command_line::Format;
use rpki_verdicts::{
    Fault, Question, TreeQuestion, Trees, first_no_locator, issuers_of, judge_all,
};
use std::alloc::{AllocError, Global};

/// The findings on files in any order: the verdicts below each TAL; or that a file given as a TAL
/// isn't one, and why, so that nothing is judged.
#[derive(Drop)]
pub enum TreeFinding<'q, 'n> {
    NotALocator(Fault),
    Answered(Trees<'q, 'n>),
}

/// How a tree is printed, and what makes the run fail.
#[derive(Clone, Copy)]
pub struct TreeOptions {
    pub format: Format,
    /// Whether only certificates that aren't accepted are printed.
    pub only_rejected: bool,
    /// Whether a damaged cache is an error.
    pub strict_exit: bool,
}

// The error of the first file that is given as a TAL and isn't one.
fn no_locator_of(question: &TreeQuestion<'_, '_>) -> Option<Fault>
    requires { All (IsRead question.now.strict) question.now.locators.now }
    ensures { let files = locator_octets question.now.locators.now in
        MatchOption result (All (AreLocator question.now.strict) files)
        (IsNoLocator question.now.strict files) }
{
    first_no_locator(&Question {
        members: &[],
        lists: &[],
        locators: question.locators,
        names: false,
        strict: question.strict,
        at: question.at,
    })
}

fn find<'q, 'n>(
    alloc: Global,
    question: &TreeQuestion<'q, 'n>,
) -> Result<TreeFinding<'q, 'n>, AllocError>
    requires { All (IsRead question.now.strict) question.now.locators.now }
    ensures { let x = context IsSignedByRsa question.now.at question.now.strict in
        IfOk result (IsTreeFinding x (asked_of question.now)) }
{
    if let Some(fault) = no_locator_of(question) {
        return Ok(TreeFinding::NotALocator(fault));
    }
    let trees = judge_all(alloc, question)?;
    Ok(TreeFinding::Answered(trees))
}

// Whether damage fails the run, and the cache is damaged.
fn is_damage_refused(trees: &Trees<'_, '_>, strict_exit: bool) -> bool
    ensures { IsTrue result ↔ (IsTrue strict_exit × AreDamaged trees.now) }
{
    strict_exit && trees.are_damaged()
}

// Whether each certificate is a trust anchor or accepted, no limit was reached, and, if damage fails
// the run, the cache isn't damaged.
fn is_accepting(finding: &TreeFinding<'_, '_>, strict_exit: bool) -> bool
    ensures { IsTrue result ↔ IsAcceptingFinding strict_exit finding.now }
{
    match finding {
        TreeFinding::Answered(trees) => {
            trees.are_accepted() && !is_damage_refused(trees, strict_exit)
        }
        TreeFinding::NotALocator(_) => false,
    }
}

// Writes a document in a format.
fn formed(alloc: Global, parts: &Vec<Part<'_>>, format: Format) -> Result<String, AllocError>
    ensures { IfOk result (λ text.
        string_bytes text ≡ rendered format (nodes_of parts.now.items)) }
{
    rendered(alloc, parts, format)
}

// Appends a document in a format.
fn append(
    out: &mut String,
    alloc: Global,
    parts: &Vec<Part<'_>>,
    format: Format,
) -> Result<(), AllocError>
    ensures { let its = rendered format (nodes_of parts.now.items) in
        OnOk result (string_bytes out.new ≡ string_bytes out.old ++ its) }
{
    let text = formed(alloc, parts, format)?;
    out.push_str(text.as_str())
}

// Whether a row is printed.
fn is_printed(row: &Row<'_, '_, '_>, only_rejected: bool) -> bool
    ensures { result ≡ is_printed only_rejected row.now }
{
    if only_rejected {
        return row.said.word().is_unaccepted();
    }
    true
}

// Appends the document of a row.
fn append_row<'p>(
    out: &mut String,
    alloc: Global,
    certs: &[&'p BareObject<'_>],
    row: &Row<'_, 'p, '_>,
    options: TreeOptions,
) -> Result<(), AllocError>
    ensures { let files = map (λ f. f.now) certs.now in
        OnOk result (AppendsRow options.format options.only_rejected files row.now
        (string_bytes out.old) (string_bytes out.new)) }
{
    if is_printed(row, options.only_rejected) {
        let parts = row_document(alloc, certs, row, options.format)?;
        return append(out, alloc, &parts, options.format);
    }
    Ok(())
}

fn append_rows<'p>(
    out: &mut String,
    alloc: Global,
    certs: &[&'p BareObject<'_>],
    rows: &[Row<'_, 'p, '_>],
    options: TreeOptions,
) -> Result<(), AllocError>
    ensures { let files = map (λ f. f.now) certs.now in
        OnOk result (AppendsRows options.format options.only_rejected files rows.now
        (string_bytes out.old) (string_bytes out.new)) }
{
    for row in rows {
        append_row(out, alloc, certs, row, options)?;
    }
    Ok(())
}

// Adds the document of a row to a list.
fn add_row<'p>(
    files: &mut Vec<Part<'p>>,
    alloc: Global,
    certs: &[&'p BareObject<'_>],
    row: &Row<'_, 'p, '_>,
    only_rejected: bool,
) -> Result<(), AllocError>
    ensures { let its = map (λ f. f.now) certs.now in
        OnOk result (AddsRow only_rejected its row.now files.old.items files.new.items) }
{
    if is_printed(row, only_rejected) {
        let parts = row_document(alloc, certs, row, Format::Json)?;
        return add_inside(files, "", parts);
    }
    Ok(())
}

fn add_rows<'p>(
    files: &mut Vec<Part<'p>>,
    alloc: Global,
    certs: &[&'p BareObject<'_>],
    rows: &[Row<'_, 'p, '_>],
    only_rejected: bool,
) -> Result<(), AllocError>
    ensures { let its = map (λ f. f.now) certs.now in
        OnOk result (AddsRows only_rejected its rows.now files.old.items files.new.items) }
{
    for row in rows {
        add_row(files, alloc, certs, row, only_rejected)?;
    }
    Ok(())
}

// The heads, the rows and the end as lines for a person.
fn as_lines(
    alloc: Global,
    question: &TreeQuestion<'_, '_>,
    trees: &Trees<'_, '_>,
    rows: &[Row<'_, '_, '_>],
    unread: &[&[u8]],
    options: TreeOptions,
) -> Result<String, AllocError>
    requires { options.format ≡ Format.Text }
    ensures { IfOk result (λ text. PrintsTrees options.format options.only_rejected
        (asked_of question.now) trees.now rows.now (map (λ name. name.now) unread.now)
        (string_bytes text)) }
{
    let mut out = String::new(alloc);
    let mut heads = Vec::new(alloc);
    add_tals(&mut heads, alloc, trees)?;
    append(&mut out, alloc, &heads, options.format)?;
    append_rows(&mut out, alloc, &trees.certs, rows, options)?;
    let mut ends = Vec::new(alloc);
    add_end(&mut ends, alloc, question, trees, rows, unread)?;
    append(&mut out, alloc, &ends, options.format)?;
    Ok(out)
}

// Each row as a line of JSON, and one line for the rest.
fn as_json_lines<'p>(
    alloc: Global,
    question: &TreeQuestion<'_, '_>,
    trees: &Trees<'p, '_>,
    rows: &[Row<'_, 'p, '_>],
    unread: &[&'p [u8]],
    options: TreeOptions,
) -> Result<String, AllocError>
    requires { options.format ≡ Format.JsonLines }
    ensures { IfOk result (λ text. PrintsTrees options.format options.only_rejected
        (asked_of question.now) trees.now rows.now (map (λ name. name.now) unread.now)
        (string_bytes text)) }
{
    let mut out = String::new(alloc);
    append_rows(&mut out, alloc, &trees.certs, rows, options)?;
    let mut rest = Vec::new(alloc);
    add_tals(&mut rest, alloc, trees)?;
    add_end(&mut rest, alloc, question, trees, rows, unread)?;
    append(&mut out, alloc, &rest, options.format)?;
    Ok(out)
}

// One object of JSON.
fn as_object<'p>(
    alloc: Global,
    question: &TreeQuestion<'_, '_>,
    trees: &Trees<'p, '_>,
    rows: &[Row<'_, 'p, '_>],
    unread: &[&'p [u8]],
    options: TreeOptions,
) -> Result<String, AllocError>
    requires { options.format ≡ Format.Json }
    ensures { IfOk result (λ text. PrintsTrees options.format options.only_rejected
        (asked_of question.now) trees.now rows.now (map (λ name. name.now) unread.now)
        (string_bytes text)) }
{
    let mut whole = Vec::new(alloc);
    add_tals(&mut whole, alloc, trees)?;
    let mut files = Vec::new(alloc);
    add_rows(&mut files, alloc, &trees.certs, rows, options.only_rejected)?;
    add_each(&mut whole, "files", files)?;
    add_end(&mut whole, alloc, question, trees, rows, unread)?;
    formed(alloc, &whole, options.format)
}

// The trees of files, with these rows.
fn printed_rows<'p>(
    alloc: Global,
    question: &TreeQuestion<'_, '_>,
    trees: &Trees<'p, '_>,
    rows: &[Row<'_, 'p, '_>],
    unread: &[&'p [u8]],
    options: TreeOptions,
) -> Result<String, AllocError>
    ensures { IfOk result (λ text. PrintsTrees options.format options.only_rejected
        (asked_of question.now) trees.now rows.now (map (λ name. name.now) unread.now)
        (string_bytes text)) }
{
    match options.format {
        Format::Text => as_lines(alloc, question, trees, rows, unread, options),
        Format::JsonLines => as_json_lines(alloc, question, trees, rows, unread, options),
        Format::Json => as_object(alloc, question, trees, rows, unread, options),
    }
}

// The trees of files.
fn printed_trees<'p>(
    alloc: Global,
    question: &TreeQuestion<'p, '_>,
    trees: &Trees<'p, '_>,
    unread: &[&'p [u8]],
    options: TreeOptions,
) -> Result<String, AllocError>
    ensures { IfOk result (λ text. AreTreesSaid options.format options.only_rejected
        (asked_of question.now) trees.now (map (λ name. name.now) unread.now) (string_bytes text)) }
{
    let issuers = issuers_of(alloc, trees)?;
    let rows = rows_of(alloc, trees, &issuers, question.files)?;
    printed_rows(alloc, question, trees, &rows, unread, options)
}

fn printed_finding<'p>(
    alloc: Global,
    question: &TreeQuestion<'p, '_>,
    finding: &TreeFinding<'p, '_>,
    unread: &[&'p [u8]],
    options: TreeOptions,
) -> Result<String, AllocError>
    ensures { let q = asked_of question.now in let names = map (λ name. name.now) unread.now in
        IfOk result (λ text.
        IsTree options.format options.only_rejected q finding.now names (string_bytes text)) }
{
    match finding {
        TreeFinding::Answered(trees) => printed_trees(alloc, question, trees, unread, options),
        TreeFinding::NotALocator(fault) => {
            let parts = no_locator_document(alloc, question, fault)?;
            formed(alloc, &parts, options.format)
        }
    }
}

/// Judges all certificates among files, and writes the findings on each file, as lines for a person
/// or as JSON, with the names of what can't be read. The outcome is success if each file given as a
/// TAL is one and has a valid trust anchor, each certificate is a trust anchor or accepted, no limit
/// was reached, and, if that is required, the cache isn't damaged.
///
/// # Errors
///
/// Returns an error only if memory runs out.
pub fn treed<'p>(
    alloc: Global,
    question: &TreeQuestion<'p, '_>,
    unread: &[&'p [u8]],
    options: TreeOptions,
) -> Result<Answer, AllocError>
    requires { All (IsRead question.now.strict) question.now.locators.now }
    ensures answer { let q = asked_of question.now in let names = map (λ name. name.now) unread.now in
        IfOk result (λ answer. IsTreeBy options q names answer.outcome (string_bytes answer.text)) }
    ensures outcome { IfOk result (λ answer. IsOutcomeOfTree answer.outcome) }
{
    let finding = find(alloc, question)?;
    let is_accepting = is_accepting(&finding, options.strict_exit);
    let text = printed_finding(alloc, question, &finding, unread, options);
    drop(finding);
    Ok(Answer {
        text: text?,
        outcome: Outcome::of_answer(is_accepting),
    })
}
