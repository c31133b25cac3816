//! The answers about files.
ghost use Rattle.std.specs.Prelude.{◌≡◌, ◌≢◌, ◌↔◌, ◌⊎◌, [], All, List, length, map, slice_get, unwrap_or, IfOk, IsFalse, IsTrue, string_bytes};
ghost use Rattle.std.specs.Bool.{MatchBool};
ghost use Rattle.rpki_keys.specs.RsaSignatures.{IsSignedByRsa};
ghost use Rattle.rpki_cert.specs.Verification.{context};
ghost use Rattle.rpki_answers.specs.AnswerTexts.{IsJsonBy, IsTextBy, IsTreeBy, options_of, question_of, tree_options_of, tree_question_of};
ghost use Rattle.rpki_text.specs.CommandLines.Views.{fields_of};
ghost use Rattle.rpki_answers.specs.Outcomes.{IsOutcomeOfTree, AreAllRead, EndsBy, IsOutcomeOfShow, IsOutcomeOfValidate};
ghost use Rattle.rpki_command.specs.NamedFiles.{AreNamedAndRead, AreSomeNamed};
ghost use Rattle.rpki_answers.specs.ShownFiles.{IsJsonOfFiles, IsTextOfFiles, is_single};
ghost use Rattle.rpki_answers.specs.UnreadNames.{unread_names};
ghost use Rattle.rpki_answers.specs.Verdicts.{IsJsonOfPath, IsTextOfPath};
ghost use Rattle.rpki_files.specs.Files.{FileFields, contents, file_names};
ghost use Rattle.rpki_verdicts.specs.GivenLocators.{IsRead, LocatorFields, locator_files};
ghost use Rattle.rpki_verdicts.specs.PathFiles.{demands_of};
ghost use Rattle.rpki_verdicts.specs.Trees.{asked_of};

use rpki_answers::{Answer, Options, Outcome, TreeOptions, shown, treed, unread_names, validated};
use rpki_der::Time;
use rpki_files::{BareObject, Object};
use rpki_folder::USUAL_STEPS;
use rpki_text::command_line::{Format, Request, Task};
use rpki_verdicts::{GivenLocator, Question, TreeQuestion};
use std::alloc::{AllocError, Global};

/// Returns whether all files of these names could be read, of which `count` could be.
pub fn are_read(names: &[&[u8]], count: usize) -> bool
    ensures { let names = map (λ name. name.now) names.now in (files : List FileFields)
        → AreSomeNamed names files → count ≡ length files
        → IsTrue result ↔ (file_names files ≡ names) }
{
    count == names.len()
}

/// Returns whether all files, CRLs and TALs of a request could be read, of which so many could be.
pub fn are_all_read(request: &Request<'_>, files: usize, lists: usize, locators: usize) -> bool
    ensures { let r = fields_of request.now in (read lists_read : List FileFields)
        → (locators_read : List LocatorFields) → AreNamedAndRead r read lists_read locators_read
        → files ≡ length read → lists ≡ length lists_read → locators ≡ length locators_read
        → IsTrue result ↔ AreAllRead r read lists_read (locator_files locators_read) }
{
    are_read(&request.files, files)
        && are_read(&request.lists, lists)
        && are_read(&request.locators, locators)
}

// Whether just one file is named.
fn is_single(names: &[&[u8]]) -> bool
    ensures { result ≡ is_single (map (λ name. name.now) names.now) }
{
    names.len() == 1
}

// Shows files in the format that is asked.
fn shown_as(
    alloc: Global,
    request: &Request<'_>,
    now: Time,
    files: &[Object<'_>],
) -> Result<Answer, AllocError>
    ensures outcome { IfOk result (λ answer.
        IsOutcomeOfShow request.now.strict (contents files.now) answer.outcome) }
    ensures text { let options = options_of (fields_of request.now) now in
        request.now.format ≡ Format.Text
        → IfOk result (λ answer. IsTextOfFiles options files.now (string_bytes answer.text)) }
    ensures json { let r = fields_of request.now in request.now.format ≢ Format.Text
        → IfOk result (λ answer. IsJsonOfFiles r.format (is_single r.files) (options_of r now)
        files.now (string_bytes answer.text)) }
{
    let options = Options {
        at: now,
        strict: request.strict,
        all: request.all,
    };
    let is_single = is_single(&request.files);
    shown(alloc, files, &options, request.format, is_single)
}

// Shows the files that could be read. The outcome is theirs, where all could be.
fn show(
    alloc: Global,
    request: &Request<'_>,
    now: Time,
    files: &[Object<'_>],
    are_all_read: bool,
) -> Result<Answer, AllocError>
    ensures outcome { IfOk result (λ answer. MatchBool are_all_read
        (IsOutcomeOfShow request.now.strict (contents files.now) answer.outcome)
        (answer.outcome ≡ Outcome.Unread)) }
    ensures text { let options = options_of (fields_of request.now) now in
        request.now.format ≡ Format.Text
        → IfOk result (λ answer. IsTextOfFiles options files.now (string_bytes answer.text)) }
    ensures json { let r = fields_of request.now in request.now.format ≢ Format.Text
        → IfOk result (λ answer. IsJsonOfFiles r.format (is_single r.files) (options_of r now)
        files.now (string_bytes answer.text)) }
{
    let answer = shown_as(alloc, request, now, files)?;
    if are_all_read {
        return Ok(answer);
    }
    let Answer { text, outcome: _ } = answer;
    Ok(Answer {
        text,
        outcome: Outcome::Unread,
    })
}

// The outcome of an answer, where all files could be read.
fn if_read(answer: Answer, are_all_read: bool) -> Answer
    ensures outcome { MatchBool are_all_read (result.outcome ≡ answer.outcome)
        (result.outcome ≡ Outcome.Unread) }
    ensures text { result.text ≡ answer.text }
{
    if are_all_read {
        return answer;
    }
    let Answer { text, outcome: _ } = answer;
    Answer {
        text,
        outcome: Outcome::Unread,
    }
}

/// The greatest depth of a path below a trust anchor, if the command line doesn't set it.
const USUAL_DEPTH: usize = 32;

// The first folder of a request, below which names are compared with URIs.
fn root_of<'a>(request: &Request<'a>) -> &'a [u8]
    ensures { result.now ≡ unwrap_or (slice_get (fields_of request.now).folders 0) [] }
{
    match request.folders.first() {
        Some(folder) => *folder,
        None => &[],
    }
}

/// Returns the question of a request about files in any order.
pub fn tree_question<'q, 'n>(
    request: &'q Request<'q>,
    now: Time,
    files: &'q [BareObject<'n>],
    locators: &'q [GivenLocator<'n>],
) -> TreeQuestion<'q, 'n>
    ensures { asked_of result
        ≡ tree_question_of (fields_of request.now) now files.now locators.now }
{
    TreeQuestion {
        files,
        locators,
        root: root_of(request),
        names: request.names,
        strict: request.strict,
        at: now,
        depth: request.depth.unwrap_or(USUAL_DEPTH),
        steps: request.steps.unwrap_or(USUAL_STEPS),
    }
}

// Judges all certificates among the files that could be read. The outcome is theirs, where all
// could be.
fn tree(
    alloc: Global,
    request: &Request<'_>,
    now: Time,
    files: &[BareObject<'_>],
    locators: &[GivenLocator<'_>],
    are_all_read: bool,
) -> Result<Answer, AllocError>
    requires { All (IsRead request.now.strict) locators.now }
    ensures outcome { IfOk result (λ answer. MatchBool are_all_read
        (IsOutcomeOfTree answer.outcome) (answer.outcome ≡ Outcome.Unread)) }
    ensures answer { let q = tree_question_of (fields_of request.now) now files.now locators.now in
        let options = tree_options_of (fields_of request.now) in
        let unread = unread_names (fields_of request.now).files files.now in
        IfOk result (λ answer. IsTreeBy options q unread answer.outcome (string_bytes answer.text)) }
{
    let question = tree_question(request, now, files, locators);
    let options = TreeOptions {
        format: request.format,
        only_rejected: request.only_rejected,
        strict_exit: request.strict_exit,
    };
    let unread = unread_names(alloc, &request.files, files)?;
    let answer = treed(alloc, &question, &unread, options)?;
    Ok(if_read(answer, are_all_read))
}

// Validates the path of files.
fn path(
    alloc: Global,
    request: &Request<'_>,
    now: Time,
    files: &[Object<'_>],
    lists: &[Object<'_>],
    locators: &[GivenLocator<'_>],
) -> Result<Answer, AllocError>
    requires { All (IsRead request.now.strict) locators.now }
    ensures outcome { let x = context IsSignedByRsa now request.now.strict in
        let r = fields_of request.now in
        let q = question_of r now files.now lists.now locators.now in
        IfOk result (λ answer. IsOutcomeOfValidate x (demands_of q)
        (contents files.now) (contents lists.now) answer.outcome) }
    ensures text { let x = context IsSignedByRsa now request.now.strict in
        let r = fields_of request.now in
        let q = question_of r now files.now lists.now locators.now in
        request.now.format ≡ Format.Text
        → IfOk result (λ answer. IsTextOfPath x q (string_bytes answer.text)) }
    ensures json { let x = context IsSignedByRsa now request.now.strict in
        let r = fields_of request.now in
        let q = question_of r now files.now lists.now locators.now in
        request.now.format ≢ Format.Text
        → IfOk result (λ answer. IsJsonOfPath r.format x q (string_bytes answer.text)) }
{
    let question = Question {
        members: files,
        lists,
        locators,
        names: request.names,
        strict: request.strict,
        at: now,
    };
    validated(alloc, &question, request.format)
}

// Of a path of which a file can't be read nothing is judged.
fn unjudged(alloc: Global) -> Answer
    ensures outcome { result.outcome ≡ Outcome.Unread }
    ensures text { string_bytes result.text ≡ [] }
{
    Answer {
        text: String::new(alloc),
        outcome: Outcome::Unread,
    }
}

/// Answers `show` or `validate` at this time, with those of its files, CRLs and TALs that could be
/// read, as if `--quiet` weren't given.
///
/// # Errors
///
/// Returns an error only if memory runs out.
pub fn answer_objects(
    alloc: Global,
    request: &Request<'_>,
    now: Time,
    files: &[Object<'_>],
    lists: &[Object<'_>],
    locators: &[GivenLocator<'_>],
) -> Result<Answer, AllocError>
    requires asks { let task = request.now.task in (task ≡ Task.Show) ⊎ (task ≡ Task.Validate) }
    requires given { AreNamedAndRead (fields_of request.now) files.now lists.now locators.now }
    ensures ends { let request = fields_of request.now in
        let its = locator_files locators.now in
        IfOk result (λ answer. EndsBy request now files.now lists.now its answer.outcome) }
    ensures text { let request = fields_of request.now in
        request.format ≡ Format.Text → IfOk result (λ answer. IsTextBy request.task answer.outcome
        request now files.now lists.now locators.now (string_bytes answer.text)) }
    ensures json { let request = fields_of request.now in
        request.format ≢ Format.Text → IfOk result (λ answer. IsJsonBy request.task answer.outcome
        request now files.now lists.now locators.now (string_bytes answer.text)) }
{
    let are_all_read = are_all_read(request, files.len(), lists.len(), locators.len());
    match request.task {
        Task::Show => show(alloc, request, now, files, are_all_read),
        Task::Validate => {
            if !are_all_read {
                return Ok(unjudged(alloc));
            }
            path(alloc, request, now, files, lists, locators)
        }
        Task::Tree | Task::Help | Task::Version => unreachable!(),
    }
}

/// Answers `tree` at this time, with those of its files, CRLs and TALs that could be read, as if
/// `--quiet` weren't given.
///
/// # Errors
///
/// Returns an error only if memory runs out.
pub fn answer_tree(
    alloc: Global,
    request: &Request<'_>,
    now: Time,
    files: &[BareObject<'_>],
    lists: &[BareObject<'_>],
    locators: &[GivenLocator<'_>],
) -> Result<Answer, AllocError>
    requires asks { request.now.task ≡ Task.Tree }
    requires given { AreNamedAndRead (fields_of request.now) files.now lists.now locators.now }
    ensures ends { let request = fields_of request.now in
        let its = locator_files locators.now in
        IfOk result (λ answer. EndsBy request now files.now lists.now its answer.outcome) }
    ensures text { let request = fields_of request.now in
        request.format ≡ Format.Text → IfOk result (λ answer. IsTextBy request.task answer.outcome
        request now files.now lists.now locators.now (string_bytes answer.text)) }
    ensures json { let request = fields_of request.now in
        request.format ≢ Format.Text → IfOk result (λ answer. IsJsonBy request.task answer.outcome
        request now files.now lists.now locators.now (string_bytes answer.text)) }
{
    let are_all_read = are_all_read(request, files.len(), lists.len(), locators.len());
    tree(alloc, request, now, files, locators, are_all_read)
}

/// Keeps the outcome of an answer, and its text unless `--quiet` is given.
pub fn quieted(alloc: Global, answer: Answer, is_quiet: bool) -> Answer
    ensures outcome { result.outcome ≡ answer.outcome }
    ensures quiet { IsTrue is_quiet → string_bytes result.text ≡ [] }
    ensures told { IsFalse is_quiet → result.text ≡ answer.text }
{
    if !is_quiet {
        return answer;
    }
    let Answer { text, outcome } = answer;
    drop(text);
    Answer {
        text: String::new(alloc),
        outcome,
    }
}
