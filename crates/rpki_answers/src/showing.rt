//! The answer of `show`, as text or as JSON.
ghost use Rattle.std.specs.Prelude.{◌≡◌, ◌≢◌, ◌↔◌, All, IfOk, IsTrue, OnOk, map, string_bytes};
ghost use Rattle.serde_json.specs.View.{view};
ghost use Rattle.rpki_files.specs.Files.{contents};
ghost use Rattle.rpki_files.specs.ToBeSigned.{CanBeShown};
ghost use Rattle.rpki_answers.specs.Outcomes.{IsOutcomeOfShow};
ghost use Rattle.rpki_answers.specs.ShownFiles.{Grows, IsFileItem, IsFileText, IsFileValue, IsFurtherText, IsJsonOfFiles, IsTextOfFiles};
ghost use Rattle.rpki_answers.specs.VerdictTexts.{SaysOfEach};

mod certificates;
mod documents;
mod lists;
mod subjects;

use crate::as_json::values_text;
use crate::outcomes::{Answer, Outcome};
use documents::file_document;
use rpki_der::Time;
use rpki_document::{json_of, text_of};
use rpki_files::Object;
use rpki_text::command_line::Format;
use serde_json::Value;
use std::alloc::{AllocError, Global};
use subjects::subject_of;

/// The options of `show`: a validation time, whether names and comments are read strictly, and whether
/// all is shown.
#[derive(Clone, Copy)]
pub struct Options {
    pub at: Time,
    pub strict: bool,
    pub all: bool,
}

// The text of a file, and whether the file can be shown.
#[derive(Drop)]
struct FileText {
    text: String,
    shows: bool,
}

fn file_text(alloc: Global, object: &Object<'_>, options: &Options) -> Result<FileText, AllocError>
    ensures shows { IfOk result (λ it.
        IsTrue it.shows ↔ CanBeShown options.now.strict object.now.octets) }
    ensures text { IfOk result (λ it. IsFileText options.now object.now (string_bytes it.text)) }
{
    let subject = subject_of(alloc, object, options.strict)?;
    let shows = subject.can_be_shown();
    let parts = file_document(alloc, object, &subject, options)?;
    let text = text_of(alloc, &parts)?;
    drop(parts);
    drop(subject);
    Ok(FileText { text, shows })
}

// The value of a file, and whether the file can be shown.
#[derive(Drop)]
struct FileValue {
    value: Value,
    shows: bool,
}

fn file_value(
    alloc: Global,
    object: &Object<'_>,
    options: &Options,
) -> Result<FileValue, AllocError>
    ensures shows { IfOk result (λ it.
        IsTrue it.shows ↔ CanBeShown options.now.strict object.now.octets) }
    ensures value { IfOk result (λ it. IsFileValue options.now object.now (view it.value)) }
{
    let whole = Options {
        at: options.at,
        strict: options.strict,
        all: true,
    };
    let subject = subject_of(alloc, object, whole.strict)?;
    let shows = subject.can_be_shown();
    let parts = file_document(alloc, object, &subject, &whole)?;
    let value = json_of(alloc, &parts)?;
    drop(parts);
    drop(subject);
    Ok(FileValue { value, shows })
}

// ---- as text

// Appends the text of a file. Returns whether the file can be shown.
fn show(
    out: &mut String,
    alloc: Global,
    object: &Object<'_>,
    options: &Options,
) -> Result<bool, AllocError>
    ensures shows { IfOk result (λ shows.
        IsTrue shows ↔ CanBeShown options.now.strict object.now.octets) }
    ensures text { let Is = IsFileText options.now object.now in
        OnOk result (Grows Is (string_bytes out.old) (string_bytes out.new)) }
{
    let it = file_text(alloc, object, options)?;
    let FileText { text, shows } = it;
    out.push_str(text.as_str())?;
    Ok(shows)
}

// Appends an empty line and the text of a file.
fn show_further(
    out: &mut String,
    alloc: Global,
    object: &Object<'_>,
    options: &Options,
) -> Result<bool, AllocError>
    ensures shows { IfOk result (λ shows.
        IsTrue shows ↔ CanBeShown options.now.strict object.now.octets) }
    ensures text { let Is = IsFurtherText options.now object.now in
        OnOk result (Grows Is (string_bytes out.old) (string_bytes out.new)) }
{
    out.push_str("\n")?;
    show(out, alloc, object, options)
}

// Appends the texts of the files after the first one.
fn show_more(
    out: &mut String,
    alloc: Global,
    objects: &[Object<'_>],
    options: &Options,
) -> Result<bool, AllocError>
    ensures shows { IfOk result (λ shows.
        IsTrue shows ↔ All (CanBeShown options.now.strict) (contents objects.now)) }
    ensures text { let Is = SaysOfEach (IsFurtherText options.now) objects.now in
        OnOk result (Grows Is (string_bytes out.old) (string_bytes out.new)) }
{
    let mut can_be_shown = true;
    for object in objects {
        let shows = show_further(out, alloc, object, options)?;
        can_be_shown &= shows;
    }
    Ok(can_be_shown)
}

// Appends the texts of all files.
fn show_all(
    out: &mut String,
    alloc: Global,
    objects: &[Object<'_>],
    options: &Options,
) -> Result<bool, AllocError>
    ensures shows { IfOk result (λ shows.
        IsTrue shows ↔ All (CanBeShown options.now.strict) (contents objects.now)) }
    ensures text { let Is = IsTextOfFiles options.now objects.now in
        OnOk result (Grows Is (string_bytes out.old) (string_bytes out.new)) }
{
    let Some((first, more)) = objects.split_first() else {
        return Ok(true);
    };
    let is_first = show(out, alloc, first, options)?;
    let are_more = show_more(out, alloc, more, options)?;
    Ok(are_more & is_first)
}

fn text_of_files(
    alloc: Global,
    objects: &[Object<'_>],
    options: &Options,
) -> Result<Answer, AllocError>
    ensures outcome { IfOk result (λ answer.
        IsOutcomeOfShow options.now.strict (contents objects.now) answer.outcome) }
    ensures text { IfOk result (λ answer.
        IsTextOfFiles options.now objects.now (string_bytes answer.text)) }
{
    let mut text = String::new(alloc);
    let can_be_shown = show_all(&mut text, alloc, objects, options)?;
    Ok(Answer {
        text,
        outcome: Outcome::of_answer(can_be_shown),
    })
}

// ---- as JSON

// Adds the value of a file. Returns whether the file can be shown.
fn push_value(
    values: &mut Vec<Value>,
    alloc: Global,
    object: &Object<'_>,
    options: &Options,
) -> Result<bool, AllocError>
    ensures shows { IfOk result (λ shows.
        IsTrue shows ↔ CanBeShown options.now.strict object.now.octets) }
    ensures pushed { let Is = IsFileItem options.now object.now in
        OnOk result (Grows Is (map view values.old.items) (map view values.new.items)) }
{
    let it = file_value(alloc, object, options)?;
    let FileValue { value, shows } = it;
    values.push(value)?;
    Ok(shows)
}

fn push_values(
    values: &mut Vec<Value>,
    alloc: Global,
    objects: &[Object<'_>],
    options: &Options,
) -> Result<bool, AllocError>
    ensures shows { IfOk result (λ shows.
        IsTrue shows ↔ All (CanBeShown options.now.strict) (contents objects.now)) }
    ensures pushed { let Is = SaysOfEach (IsFileItem options.now) objects.now in
        OnOk result (Grows Is (map view values.old.items) (map view values.new.items)) }
{
    let mut can_be_shown = true;
    for object in objects {
        let shows = push_value(values, alloc, object, options)?;
        can_be_shown &= shows;
    }
    Ok(can_be_shown)
}

fn json_of_files(
    alloc: Global,
    objects: &[Object<'_>],
    options: &Options,
    format: Format,
    is_single: bool,
) -> Result<Answer, AllocError>
    ensures outcome { IfOk result (λ answer.
        IsOutcomeOfShow options.now.strict (contents objects.now) answer.outcome) }
    ensures json { IfOk result (λ answer.
        IsJsonOfFiles format is_single options.now objects.now (string_bytes answer.text)) }
{
    let mut values = Vec::new(alloc);
    let can_be_shown = push_values(&mut values, alloc, objects, options)?;
    let text = values_text(alloc, values, format, is_single)?;
    Ok(Answer {
        text,
        outcome: Outcome::of_answer(can_be_shown),
    })
}

/// Writes the contents of the files, as lines for a person or as JSON, which is one value if exactly one
/// file is named. The outcome is success if each file starts with a certificate or a CRL, or is a
/// TAL or a to-be-signed part.
///
/// # Errors
///
/// Returns an error only if memory runs out.
pub fn shown(
    alloc: Global,
    objects: &[Object<'_>],
    options: &Options,
    format: Format,
    is_single: bool,
) -> Result<Answer, AllocError>
    ensures outcome { IfOk result (λ answer.
        IsOutcomeOfShow options.now.strict (contents objects.now) answer.outcome) }
    ensures text { format ≡ Format.Text
        → IfOk result (λ answer. IsTextOfFiles options.now objects.now (string_bytes answer.text)) }
    ensures json { format ≢ Format.Text
        → IfOk result (λ answer. IsJsonOfFiles format is_single options.now objects.now
        (string_bytes answer.text)) }
{
    if format == Format::Text {
        return text_of_files(alloc, objects, options);
    }
    json_of_files(alloc, objects, options, format, is_single)
}
