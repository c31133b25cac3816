//! A run of the command: from its words, with a source of files and a clock, to its output.
ghost use Rattle.std.specs.Prelude.{◌≡◌, ◌≢◌, ◌⊎◌, List, ℕ, IfOk, OnErr, OnOk, string_bytes};
ghost use Rattle.std.specs.Io.KnownBytes.{Appends};
ghost use Rattle.rpki_text.specs.CommandLines.Views.{fields_of, word_octets};
ghost use Rattle.rpki_answers.specs.Outcomes.{AsksOfFiles};
ghost use Rattle.rpki_text.specs.MisuseTexts.{misuse_text};
ghost use Rattle.rpki_command.specs.Messages.{misuse_message};
ghost use Rattle.rpki_command.specs.Outputs.{Makes, Output};
ghost use Rattle.rpki_command.specs.Runs.{IsRunAnswer, IsAnswerBy, IsAnswerIn, IsAnswerOf, IsAnswerOfNamed, IsWholeAnswer, LineEnds, RunEnds};

use crate::about::{Topic, text_about, topic_of};
use crate::answering::{answer_objects, answer_tree, quieted};
use crate::clock::{MomentSource, moment};
use crate::ended::Ended;
use crate::files::FileSource;
use crate::folders::{
    file_names, opened, roots_of, with_files, with_further, with_path, with_roots,
};
use crate::making::FileMaker;
use crate::reading::{GivenFiles, read_given};
use crate::requests::run_request;
use crate::searching::{SoughtNames, names_sought};
use anyhow::{Result, anyhow};
use rpki_answers::{Answer, Outcome};
use rpki_der::Time;
use rpki_files::{BareObject, Object};
use rpki_requests::is_request;
use rpki_text::command_line::{Misuse, Request, Task, read_words};
use std::alloc::Global;
use std::io::Write;

// Says what is wrong of the command line, unless memory ran out.
fn say<E: Write>(err: &mut E, topic: Topic, misuse: &Misuse<'_>) -> Result<()>
    ensures memory { OnOk result (misuse.now ≢ Misuse.Memory) }
    ensures said { OnOk result
        (Appends (E.contents err.old) (E.contents err.new)
        (misuse_message topic (misuse_text misuse.now))) }
{
    if let Misuse::Memory = misuse {
        return Err(anyhow!("out of memory"));
    }
    let called = topic.called();
    let hint = topic.hint();
    write!(err, "{called}: {misuse}\n{hint}")?;
    Ok(())
}

// What `show` or `validate` is answered of the files that are named, as if it weren't quiet.
fn objects_answered<F: FileSource, E: Write>(
    alloc: Global,
    files: &F,
    err: &mut E,
    request: &Request<'_>,
    now: Time,
) -> Result<Answer>
    requires { let task = request.now.task in (task ≡ Task.Show) ⊎ (task ≡ Task.Validate) }
    ensures { let request = fields_of request.now in IfOk result (λ answer. (said : List ℕ)
        × IsWholeAnswer (F.reads files.now) request now
        answer.outcome (string_bytes answer.text) said
        × Appends (E.contents err.old) (E.contents err.new) said) }
{
    let given: GivenFiles<'_, Object<'_>> = read_given(alloc, files, err, request)?;
    let answer = answer_objects(
        alloc,
        request,
        now,
        &given.files,
        &given.lists,
        &given.locators,
    )?;
    drop(given);
    Ok(answer)
}

// What `tree` is answered of them.
fn tree_answered<F: FileSource, E: Write>(
    alloc: Global,
    files: &F,
    err: &mut E,
    request: &Request<'_>,
    now: Time,
) -> Result<Answer>
    requires { request.now.task ≡ Task.Tree }
    ensures { let request = fields_of request.now in IfOk result (λ answer. (said : List ℕ)
        × IsWholeAnswer (F.reads files.now) request now
        answer.outcome (string_bytes answer.text) said
        × Appends (E.contents err.old) (E.contents err.new) said) }
{
    let given: GivenFiles<'_, BareObject<'_>> = read_given(alloc, files, err, request)?;
    let answer = answer_tree(
        alloc,
        request,
        now,
        &given.files,
        &given.lists,
        &given.locators,
    )?;
    drop(given);
    Ok(answer)
}

// What is answered of them, as if the request weren't quiet.
fn whole_answered<F: FileSource, E: Write>(
    alloc: Global,
    files: &F,
    err: &mut E,
    request: &Request<'_>,
    now: Time,
) -> Result<Answer>
    requires { AsksOfFiles request.now.task }
    ensures { let request = fields_of request.now in IfOk result (λ answer. (said : List ℕ)
        × IsWholeAnswer (F.reads files.now) request now
        answer.outcome (string_bytes answer.text) said
        × Appends (E.contents err.old) (E.contents err.new) said) }
{
    match request.task {
        Task::Show | Task::Validate => objects_answered(alloc, files, err, request, now),
        Task::Tree => tree_answered(alloc, files, err, request, now),
        Task::Help | Task::Version => unreachable!(),
    }
}

// What is answered of them.
fn answered<F: FileSource, E: Write>(
    alloc: Global,
    files: &F,
    err: &mut E,
    request: &Request<'_>,
    now: Time,
) -> Result<Answer>
    requires { AsksOfFiles request.now.task }
    ensures { let request = fields_of request.now in IfOk result (λ answer. (said : List ℕ)
        × IsRunAnswer (F.reads files.now) request now answer.outcome (string_bytes answer.text) said
        × Appends (E.contents err.old) (E.contents err.new) said) }
{
    let answer = whole_answered(alloc, files, err, request, now)?;
    Ok(quieted(alloc, answer, request.quiet))
}

/// Answers a request about the source's files at this time, and writes the answer. Reports on
/// standard error each file that can't be read.
///
/// # Errors
///
/// Returns an error if memory runs out or writing to standard error fails; no answer was written
/// then.
pub fn answer<F: FileSource, O: Write, E: Write>(
    alloc: Global,
    files: &F,
    out: &mut O,
    err: &mut E,
    request: &Request<'_>,
    now: Time,
) -> Result<Ended>
    requires { AsksOfFiles request.now.task }
    ensures answer { let request = fields_of request.now in
        IfOk result (λ ended. (text : List ℕ) × (said : List ℕ)
        × IsRunAnswer (F.reads files.now) request now ended.outcome text said
        × OnOk ended.written (Appends (O.contents out.old) (O.contents out.new) text)
        × Appends (E.contents err.old) (E.contents err.new) said) }
    ensures unwritten { OnErr result (out.new ≡ out.old) }
{
    let Answer { text, outcome } = answered(alloc, files, err, request, now)?;
    let written = out.write_all(text.as_bytes());
    drop(text);
    Ok(Ended { outcome, written })
}

// Answers the request of the files that stand for its names, as listing folders gives them.
fn answer_of_named<F: FileSource, O: Write, E: Write>(
    alloc: Global,
    files: &F,
    out: &mut O,
    err: &mut E,
    request: Request<'_>,
    now: Time,
) -> Result<Ended>
    requires { AsksOfFiles request.task }
    ensures answer { let request = fields_of request.entry in
        IfOk result (λ ended. (text : List ℕ) × (said : List ℕ)
        × IsAnswerOfNamed (F.reads files.now) (F.lists files.now) request now
        ended.outcome text said
        × OnOk ended.written (Appends (O.contents out.old) (O.contents out.new) text)
        × Appends (E.contents err.old) (E.contents err.new) said) }
    ensures unwritten { OnErr result (out.new ≡ out.old) }
{
    let names = file_names(alloc, files, err, &request)?;
    let roots = roots_of(alloc, &request.files)?;
    let request = with_roots(alloc, with_files(alloc, request, &names)?, &roots)?;
    answer(alloc, files, out, err, &request, now)
}

// Answers the request of the path that was sought, if what is asked for could be read. It ends as
// unread where another file couldn't be.
fn answer_by<F: FileSource, O: Write, E: Write>(
    alloc: Global,
    files: &F,
    out: &mut O,
    err: &mut E,
    request: Request<'_>,
    now: Time,
    sought: &Option<SoughtNames>,
) -> Result<Ended>
    requires { AsksOfFiles request.task }
    ensures answer { let request = fields_of request.entry in
        IfOk result (λ ended. (text : List ℕ) × (said : List ℕ)
        × IsAnswerBy (F.reads files.now) request now sought.now ended.outcome text said
        × OnOk ended.written (Appends (O.contents out.old) (O.contents out.new) text)
        × Appends (E.contents err.old) (E.contents err.new) said) }
    ensures unwritten { OnErr result (out.new ≡ out.old) }
{
    let Some(sought) = sought else {
        drop(request);
        return Ok(Ended {
            outcome: Outcome::Unread,
            written: Ok(()),
        });
    };
    let request = with_path(alloc, request, &sought.files, &sought.lists)?;
    let ended = answer(alloc, files, out, err, &request, now)?;
    Ok(ended.if_read(sought.are_all_read))
}

// Answers the request of the path to its file that is sought among the files that stand for the
// names of its folders.
fn answer_in<F: FileSource, O: Write, E: Write>(
    alloc: Global,
    files: &F,
    out: &mut O,
    err: &mut E,
    request: Request<'_>,
    now: Time,
) -> Result<Ended>
    requires { AsksOfFiles request.task }
    ensures answer { let request = fields_of request.entry in
        IfOk result (λ ended. (text : List ℕ) × (said : List ℕ)
        × IsAnswerIn (F.reads files.now) (F.lists files.now) request now ended.outcome text said
        × OnOk ended.written (Appends (O.contents out.old) (O.contents out.new) text)
        × Appends (E.contents err.old) (E.contents err.new) said) }
    ensures unwritten { OnErr result (out.new ≡ out.old) }
{
    let names = opened(alloc, files, err, &request.folders)?;
    let roots = roots_of(alloc, &request.folders)?;
    let request = with_roots(alloc, with_further(request, &names)?, &roots)?;
    let sought = names_sought(alloc, files, err, &request, now)?;
    answer_by(alloc, files, out, err, request, now, &sought)
}

// Answers the request of its files, which are sought where it has folders.
fn answer_named<F: FileSource, O: Write, E: Write>(
    alloc: Global,
    files: &F,
    out: &mut O,
    err: &mut E,
    request: Request<'_>,
    now: Time,
) -> Result<Ended>
    requires { AsksOfFiles request.task }
    ensures answer { let request = fields_of request.entry in
        IfOk result (λ ended. (text : List ℕ) × (said : List ℕ)
        × IsAnswerOf (F.reads files.now) (F.lists files.now) request now ended.outcome text said
        × OnOk ended.written (Appends (O.contents out.old) (O.contents out.new) text)
        × Appends (E.contents err.old) (E.contents err.new) said) }
    ensures unwritten { OnErr result (out.new ≡ out.old) }
{
    if request.folders.is_empty() {
        return answer_of_named(alloc, files, out, err, request, now);
    }
    answer_in(alloc, files, out, err, request, now)
}

// Answers the words of a command line: writes what they ask, or says what is wrong of them.
fn run_line<S: FileSource + MomentSource, O: Write, E: Write>(
    alloc: Global,
    system: &S,
    out: &mut O,
    err: &mut E,
    words: &[Vec<u8>],
) -> Result<Ended>
    ensures ended { let words = word_octets words.now in IfOk result (λ ended. (text : List ℕ)
        × (said : List ℕ)
        × LineEnds (S.reads system.now) (S.lists system.now) (S.tells system.now) words
        ended.outcome text said
        × OnOk ended.written (Appends (O.contents out.old) (O.contents out.new) text)
        × Appends (E.contents err.old) (E.contents err.new) said) }
    ensures unwritten { OnErr result (out.new ≡ out.old) }
{
    let request = match read_words(alloc, words) {
        Ok(request) => request,
        Err(misuse) => {
            say(err, topic_of(words), &misuse)?;
            return Ok(Ended {
                outcome: Outcome::WrongUse,
                written: Ok(()),
            });
        }
    };
    if let Some(text) = text_about(request.task, topic_of(words)) {
        let written = out.write_all(text.as_bytes());
        return Ok(Ended {
            outcome: Outcome::Success,
            written,
        });
    }
    let now = moment(system, request.at)?;
    answer_named(alloc, system, out, err, request, now)
}

/// Runs the words after the program's name: writes the answer to their request about the source's
/// files and directories, at the given time or else at the clock's. Reports on standard error what
/// is wrong with the words, why a request to prepare or complete is refused, and why a file can't
/// be read or written.
///
/// # Errors
///
/// Returns an error if memory runs out, or if the clock or standard error fails; nothing was
/// written on standard output then.
pub fn run<S: FileSource + MomentSource, M: FileMaker, O: Write, E: Write>(
    alloc: Global,
    system: &S,
    files: &mut M,
    out: &mut O,
    err: &mut E,
    words: &[Vec<u8>],
) -> Result<Ended>
    ensures ended { let words = word_octets words.now in IfOk result (λ ended. (output : Output)
        × RunEnds (S.reads system.now) (S.lists system.now) (S.tells system.now) words
        ended.outcome output
        × OnOk ended.written (Appends (O.contents out.old) (O.contents out.new) output.text)
        × Appends (E.contents err.old) (E.contents err.new) output.said
        × Makes (M.made files.old) (M.made files.new) output.files) }
    ensures unwritten { OnErr result (out.new ≡ out.old) }
{
    if is_request(words) {
        return run_request(alloc, system, files, out, err, words);
    }
    run_line(alloc, system, out, err, words)
}
