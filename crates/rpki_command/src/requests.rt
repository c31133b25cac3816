//! A run that prepares or completes a certificate or a CRL: from its words, with a source of files
//! and a clock, to its output.
ghost use Rattle.std.specs.Prelude.{◌≡◌, ◌≢◌, ◌++◌, List, ℕ, map, IfErr, IfOk, IsFalse, IsTrue, OnErr, OnOk, Ok};
ghost use Rattle.std.specs.Io.KnownBytes.{Appends};
ghost use Rattle.rpki_text.specs.CommandLines.Views.{word_octets};
ghost use Rattle.rpki_requests.specs.Fulfilment.{Fulfils, context_of};
ghost use Rattle.rpki_requests.specs.Refusals.{TellsPath};
ghost use Rattle.rpki_requests.specs.RefusedErrands.{IsSoOf};
ghost use Rattle.rpki_requests.specs.RequestMisuses.{request_misuse_text};
ghost use Rattle.rpki_requests.specs.RequestWords.{given_values};
ghost use Rattle.rpki_requests.specs.RequestWords.Views.{asked_fields};
ghost use Rattle.rpki_command.specs.Messages.{misuse_message, refusal_hint, refusal_message, refusal_outcome, told_refusal, topic_asked};
ghost use Rattle.rpki_command.specs.Outputs.{IsApart, Makes, Output, placed_output};
ghost use Rattle.rpki_command.specs.PemTexts.{IsPemText};
ghost use Rattle.rpki_command.specs.RequestRuns.{AskedEnds, InputsEnd, IsLineOf, IsUnmadeOf, IsWritten, PlaceEnds, RequestEnds, WordsEnd, names_read};
ghost use Rattle.rpki_command.specs.RequestRuns.Views.{input_fields};

use crate::about::{Topic, topic_of};
use crate::clock::{MomentSource, moment};
use crate::ended::Ended;
use crate::files::{FileSource, Unread};
use crate::inputs::{Objects, Unreadable, read_inputs};
use crate::making::{FileMaker, Unmade, make_named};
use crate::pem::pem_text;
use crate::reading::tell;
use anyhow::{Result, anyhow};
use bytes::Bytes;
use rpki_answers::Outcome;
use rpki_der::Time;
use rpki_requests::{
    Errand, Made, Misuse, Order, Refusal, Setting, ToldRefusal, asks_help, fulfil, named_moment,
    read_request, words_about,
};
use std::alloc::{AllocError, Global};
use std::io;
use std::io::Write;

// Says what is wrong of the words, unless memory ran out.
fn say<E: Write>(err: &mut E, topic: Topic, misuse: &Misuse<'_>) -> Result<()>
    ensures memory { OnOk result (misuse.now ≢ Misuse.Memory) }
    ensures said { OnOk result (Appends (E.contents err.old) (E.contents err.new)
        (misuse_message topic (request_misuse_text misuse.now))) }
{
    if let Misuse::Memory = misuse {
        return Err(anyhow!("out of memory"));
    }
    let called = topic.called();
    let hint = topic.hint();
    write!(err, "{called}: {misuse}\n{hint}")?;
    Ok(())
}

// The command by which an errand is asked.
fn topic_asked(errand: Errand) -> Topic
    ensures { result ≡ topic_asked errand }
{
    match errand {
        Errand::Completion => Topic::Complete,
        _ => Topic::Prepare,
    }
}

// How a run ends by a refusal.
fn refusal_outcome(refusal: &Refusal) -> Outcome
    ensures { result ≡ refusal_outcome refusal.now }
{
    match refusal {
        Refusal::Value(_) => Outcome::WrongUse,
        _ => Outcome::Rejection,
    }
}

// The line that says where the help is that a refusal asks for.
fn refusal_hint(topic: Topic, refusal: &Refusal) -> &'static str
    ensures { result.now ≡ refusal_hint topic refusal.now }
{
    match refusal {
        Refusal::Value(_) => topic.hint(),
        _ => "",
    }
}

// Says why a request gives nothing, of a wrong value also where the command's help is.
fn say_refusal<E: Write>(
    err: &mut E,
    topic: Topic,
    refusal: &Refusal,
    words: &[&[u8]],
) -> Result<()>
    ensures { let words = map (λ word. word.now) words.now in OnOk result
        (Appends (E.contents err.old) (E.contents err.new)
        (told_refusal topic words refusal.now)) }
{
    let called = topic.called();
    let told = ToldRefusal { refusal, words };
    let hint = refusal_hint(topic, refusal);
    write!(err, "{called}: {told}\n{hint}")?;
    Ok(())
}

// Says why an order gives nothing, unless memory ran out.
fn refuse<E: Write>(alloc: Global, err: &mut E, order: &Order<'_>, refusal: &Refusal) -> Result<()>
    ensures memory { OnOk result (refusal.now ≢ Refusal.Memory) }
    ensures said { OnOk result (Appends (E.contents err.old) (E.contents err.new)
        (refusal_message (asked_fields order.now) refusal.now)) }
{
    if let Refusal::Memory = refusal {
        return Err(anyhow!("out of memory"));
    }
    let words = words_about(alloc, order, refusal)?;
    say_refusal(err, topic_asked(order.errand), refusal, &words)
}

// Says which file can't be read, and why, unless memory ran out.
fn tell_unreadable<E: Write>(alloc: Global, err: &mut E, file: &Unreadable<'_>) -> Result<()>
    ensures { OnOk result ((said : List ℕ) × IsLineOf file.now said
        × Appends (E.contents err.old) (E.contents err.new) said) }
{
    if let Unread::Memory = file.why {
        return Err(anyhow!("out of memory"));
    }
    tell(alloc, err, file.name, &file.why)
}

// A run that writes nothing.
fn silent(outcome: Outcome) -> Ended
    ensures outcome { result.outcome ≡ outcome }
    ensures written { result.written ≡ Ok tt }
{
    Ended {
        outcome,
        written: Ok(()),
    }
}

// What is written of octets: these, or in PEM under a label.
fn written_as(alloc: Global, octets: Bytes, is_pem: bool, label: &str) -> Result<Bytes, AllocError>
    ensures octets { IsFalse is_pem → IfOk result (λ text. text ≡ octets) }
    ensures pem { IsTrue is_pem → IfOk result (IsPemText label.now octets) }
{
    if is_pem {
        let text = pem_text(alloc, label, &octets)?;
        drop(octets);
        return Ok(Bytes::from_vec(text)?);
    }
    Ok(octets)
}

// What is written of what is given.
fn written(alloc: Global, made: Made, is_pem: bool) -> Result<Bytes, AllocError>
    ensures { IfOk result (IsWritten is_pem made) }
{
    match made {
        Made::ToSign(octets) => Ok(octets),
        Made::Certificate(octets) => written_as(alloc, octets, is_pem, "CERTIFICATE"),
        Made::RevocationList(octets) => written_as(alloc, octets, is_pem, "X509 CRL"),
    }
}

// What a request gives at a moment, as it is written.
fn text_of(
    alloc: Global,
    order: &Order<'_>,
    objects: &Objects<'_>,
    now: Time,
) -> Result<Bytes, Refusal>
    ensures given { let asked = asked_fields order.now in
        IfOk result (λ text. (given : Made)
        × Fulfils asked (input_fields objects.now) now given
        × IsWritten asked.is_pem given text) }
    ensures refused { IfErr result (λ why. why ≢ Refusal.Memory → (given : Made)
        → Fulfils (asked_fields order.now) (input_fields objects.now) now given → ⊥) }
    ensures told { let inputs = input_fields objects.now in
        let x = context_of (asked_fields order.now) now in
        IfErr result (TellsPath x inputs.issuers inputs.lists) }
    ensures so { IfErr result (IsSoOf (asked_fields order.now) (input_fields objects.now) now) }
{
    let made = fulfil(alloc, order, &objects.as_inputs(), now)?;
    Ok(written(alloc, made, order.is_pem)?)
}

/// A file that can't be written, by its name, and the reason.
#[derive(Drop)]
pub struct Unplaced<'a> {
    pub name: &'a [u8],
    pub why: Unmade,
}

// Puts a text into the file that is named, if one is, and else out, as where `-` is named. Errs
// where that file can't be made, or is one of those that were read.
fn put<'a, M: FileMaker, O: Write>(
    files: &mut M,
    out: &mut O,
    names: &[&'a [u8]],
    overwrites: bool,
    read: &[&[u8]],
    text: &[u8],
) -> Result<io::Result<()>, Unplaced<'a>>
    ensures written { let names = map (λ name. name.now) names.now in
        let read = map (λ name. name.now) read.now in IfOk result (λ written.
        OnOk written (Appends (O.contents out.old) (O.contents out.new)
        (placed_output names overwrites read text.now).text)) }
    ensures made { let names = map (λ name. name.now) names.now in
        let read = map (λ name. name.now) read.now in IfOk result (λ _.
        Makes (M.made files.old) (M.made files.new)
        (placed_output names overwrites read text.now).files) }
    ensures apart { OnOk result (IsApart (map (λ name. name.now) names.now)
        (map (λ name. name.now) read.now)) }
    ensures unmade { IfErr result (IsUnmadeOf (map (λ name. name.now) names.now)
        (map (λ name. name.now) read.now)) }
    ensures kept { OnErr result (M.made files.new ≡ M.made files.old) }
    ensures unwritten { OnErr result (out.new ≡ out.old) }
{
    let Some((name, _others)) = names.split_first() else {
        return Ok(out.write_all(text));
    };
    if *name == b"-".as_slice() {
        return Ok(out.write_all(text));
    }
    match make_named(files, *name, text, overwrites, read) {
        Ok(()) => Ok(Ok(())),
        Err(why) => Err(Unplaced { name: *name, why }),
    }
}

// Puts a text so; where that file can't be made, it says why.
fn place<M: FileMaker, O: Write, E: Write>(
    alloc: Global,
    files: &mut M,
    out: &mut O,
    err: &mut E,
    names: &[&[u8]],
    overwrites: bool,
    read: &[&[u8]],
    text: &[u8],
) -> Result<Ended>
    ensures ended { let names = map (λ name. name.now) names.now in
        let read = map (λ name. name.now) read.now in IfOk result (λ ended.
        (output : Output) × PlaceEnds names overwrites read text.now ended.outcome output
        × OnOk ended.written (Appends (O.contents out.old) (O.contents out.new) output.text)
        × Appends (E.contents err.old) (E.contents err.new) output.said
        × Makes (M.made files.old) (M.made files.new) output.files) }
    ensures unwritten { OnErr result (out.new ≡ out.old) }
{
    match put(files, out, names, overwrites, read, text) {
        Ok(written) => Ok(Ended {
            outcome: Outcome::Success,
            written,
        }),
        Err(file) => {
            tell(alloc, err, file.name, &file.why)?;
            drop(file);
            Ok(silent(Outcome::Unread))
        }
    }
}

// Appends the values of an option.
fn push_values<'a>(
    alloc: Global,
    order: &Order<'a>,
    setting: Setting,
    names: &mut Vec<&'a [u8]>,
) -> Result<(), AllocError>
    ensures { OnOk result (map (λ name. name.now) names.new.items
        ≡ map (λ name. name.now) names.old.items ++ given_values setting (asked_fields order.now).given) }
{
    let values = order.values_of(alloc, setting)?;
    names.extend_from_slice(&values)
}

// The names of all files of a request.
fn names_read<'a>(alloc: Global, order: &Order<'a>) -> Result<Vec<&'a [u8]>, AllocError>
    ensures { IfOk result (λ names. map (λ name. name.now) names.items
        ≡ names_read (asked_fields order.now)) }
{
    let mut names = order.files.as_slice().to_vec(alloc)?;
    push_values(alloc, order, Setting::Issuer, &mut names)?;
    push_values(alloc, order, Setting::Crl, &mut names)?;
    push_values(alloc, order, Setting::Key, &mut names)?;
    push_values(alloc, order, Setting::Previous, &mut names)?;
    push_values(alloc, order, Setting::Revoke, &mut names)?;
    Ok(names)
}

// Puts out what a request gives at a moment, or says why it gives nothing, or why the file that it
// names can't be made.
fn answer_inputs<M: FileMaker, O: Write, E: Write>(
    alloc: Global,
    files: &mut M,
    out: &mut O,
    err: &mut E,
    order: &Order<'_>,
    objects: &Objects<'_>,
    now: Time,
) -> Result<Ended>
    ensures ended { let inputs = input_fields objects.now in IfOk result (λ ended.
        (output : Output)
        × InputsEnd (asked_fields order.now) inputs now ended.outcome output
        × OnOk ended.written (Appends (O.contents out.old) (O.contents out.new) output.text)
        × Appends (E.contents err.old) (E.contents err.new) output.said
        × Makes (M.made files.old) (M.made files.new) output.files) }
    ensures unwritten { OnErr result (out.new ≡ out.old) }
{
    let names = order.values_of(alloc, Setting::Out)?;
    let read = names_read(alloc, order)?;
    match text_of(alloc, order, objects, now) {
        Ok(text) => {
            let ended = place(
                alloc,
                files,
                out,
                err,
                &names,
                order.overwrites,
                &read,
                &text,
            );
            drop(text);
            drop(read);
            drop(names);
            ended
        }
        Err(refusal) => {
            drop(read);
            drop(names);
            refuse(alloc, err, order, &refusal)?;
            let outcome = refusal_outcome(&refusal);
            drop(refusal);
            Ok(silent(outcome))
        }
    }
}

// Puts out what is asked, of files as reading them gives them, at the moment that is named or else
// at the one that the clock tells; or says why there is nothing.
fn answer_order<S: FileSource + MomentSource, M: FileMaker, O: Write, E: Write>(
    alloc: Global,
    system: &S,
    files: &mut M,
    out: &mut O,
    err: &mut E,
    order: &Order<'_>,
) -> Result<Ended>
    ensures ended { let asked = asked_fields order.now in IfOk result (λ ended.
        (output : Output)
        × AskedEnds (S.reads system.now) (S.tells system.now) asked ended.outcome output
        × OnOk ended.written (Appends (O.contents out.old) (O.contents out.new) output.text)
        × Appends (E.contents err.old) (E.contents err.new) output.said
        × Makes (M.made files.old) (M.made files.new) output.files) }
    ensures unwritten { OnErr result (out.new ≡ out.old) }
{
    let named = match named_moment(alloc, order, Setting::At) {
        Ok(named) => named,
        Err(refusal) => {
            refuse(alloc, err, order, &refusal)?;
            drop(refusal);
            return Ok(silent(Outcome::WrongUse));
        }
    };
    let now = moment(system, named)?;
    match read_inputs(alloc, system, order) {
        Ok(objects) => {
            let ended = answer_inputs(alloc, files, out, err, order, &objects, now);
            drop(objects);
            ended
        }
        Err(unreadable) => {
            tell_unreadable(alloc, err, &unreadable)?;
            drop(unreadable);
            Ok(silent(Outcome::Unread))
        }
    }
}

// Answers words that don't ask how the command is used.
fn answer_words<S: FileSource + MomentSource, M: FileMaker, O: Write, E: Write>(
    alloc: Global,
    system: &S,
    files: &mut M,
    out: &mut O,
    err: &mut E,
    words: &[Vec<u8>],
) -> Result<Ended>
    ensures ended { let words = word_octets words.now in IfOk result (λ ended. (output : Output)
        × WordsEnd (S.reads system.now) (S.tells system.now) words ended.outcome output
        × OnOk ended.written (Appends (O.contents out.old) (O.contents out.new) output.text)
        × Appends (E.contents err.old) (E.contents err.new) output.said
        × Makes (M.made files.old) (M.made files.new) output.files) }
    ensures unwritten { OnErr result (out.new ≡ out.old) }
{
    match read_request(alloc, words) {
        Ok(order) => {
            let ended = answer_order(alloc, system, files, out, err, &order);
            drop(order);
            ended
        }
        Err(misuse) => {
            say(err, topic_of(words), &misuse)?;
            Ok(silent(Outcome::WrongUse))
        }
    }
}

/// Runs words that start as a request does: writes what is prepared or completed of the source's
/// files, at the given time or else at the clock's. Reports on standard error what is wrong with
/// the words, why the request is refused, or why a file can't be read or written. If the words ask
/// for help, writes the usage text.
///
/// # Errors
///
/// Returns an error if memory runs out, or if the clock or an output fails; nothing was written on
/// standard output then.
pub fn run_request<S: FileSource + MomentSource, M: FileMaker, O: Write, E: Write>(
    alloc: Global,
    system: &S,
    files: &mut M,
    out: &mut O,
    err: &mut E,
    words: &[Vec<u8>],
) -> Result<Ended>
    ensures ended { let words = word_octets words.now in IfOk result (λ ended. (output : Output)
        × RequestEnds (S.reads system.now) (S.tells system.now) words ended.outcome output
        × OnOk ended.written (Appends (O.contents out.old) (O.contents out.new) output.text)
        × Appends (E.contents err.old) (E.contents err.new) output.said
        × Makes (M.made files.old) (M.made files.new) output.files) }
    ensures unwritten { OnErr result (out.new ≡ out.old) }
{
    if asks_help(words) {
        let written = out.write_all(topic_of(words).help().as_bytes());
        return Ok(Ended {
            outcome: Outcome::Success,
            written,
        });
    }
    answer_words(alloc, system, files, out, err, words)
}
