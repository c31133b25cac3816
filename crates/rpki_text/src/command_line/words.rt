//! Adds the words after the command to a request.
ghost use Rattle.std.specs.Prelude.{◌≡◌, ◌≢◌, ℕ, List, [], ◌∷◌, ◌++◌, map, IfSome, IfNone, MatchOption, OnOk, IfOk, IfErr};
ghost use Rattle.std.specs.Bool.{OnTrue, OnFalse};
ghost use Rattle.rpki_text.specs.CommandLines.{IsFormatName, IsTaskName, IsCountText, IsPart, IsSwitch, LinePart, setting_name, with_files, with_part};
ghost use Rattle.rpki_text.specs.CommandLines.Views.{word_octets, fields_of};
ghost use Rattle.rpki_text.specs.WordParts.{AddsPart, AddsParts, IsFirstWrong, Joins};
ghost use Rattle.rpki_text.specs.Misuses.{IsWrongFirst};
ghost use Rattle.rpki_text.specs.Misuses.Steps.{IsBound, NamesFormat, TellsValue, TellsWord};
ghost use Rattle.rpki_text.specs.CommandLines.Steps.{AddsSet, IsOptionName};

use crate::command_line::arguments::{Format, Misuse, Request, Setting, Task};
use crate::command_line::parts::{is, is_option, place_of_equals};
use crate::moments;

// What a call that adds to a request returns.
type Added<'a> = Result<(), Misuse<'a>>;

pub(crate) fn task_of(word: &[u8]) -> Option<Task>
    ensures named { IfSome result (λ task. IsTaskName task word.now) }
    ensures unknown { IfNone result ((task : Task) → IsTaskName task word.now → ⊥) }
{
    if is(word, "show") {
        Some(Task::Show)
    } else if is(word, "validate") {
        Some(Task::Validate)
    } else if is(word, "tree") {
        Some(Task::Tree)
    } else if is(word, "help") || is(word, "--help") || is(word, "-h") {
        Some(Task::Help)
    } else if is(word, "--version") || is(word, "-V") {
        Some(Task::Version)
    } else {
        None
    }
}

// The option with a value that has this name.
fn setting_of(word: &[u8]) -> Option<Setting>
    ensures named { IfSome result (λ setting. IsOptionName setting word.now) }
    ensures unknown { IfNone result ((setting : Setting) → IsOptionName setting word.now → ⊥) }
{
    if is(word, "--crl") {
        Some(Setting::Crl)
    } else if is(word, "--tal") {
        Some(Setting::Tal)
    } else if is(word, "--in") {
        Some(Setting::In)
    } else if is(word, "--depth") {
        Some(Setting::Depth)
    } else if is(word, "--steps") {
        Some(Setting::StepCount)
    } else if is(word, "--at") {
        Some(Setting::At)
    } else if is(word, "--max-size") {
        Some(Setting::MaxSize)
    } else if is(word, "--output") {
        Some(Setting::Output)
    } else if is(word, "-o") {
        Some(Setting::ShortOutput)
    } else if is(word, "--only") {
        Some(Setting::Only)
    } else {
        None
    }
}

// The option and its value in a word `OPTION=VALUE`.
fn joined<'a>(word: &'a [u8]) -> Option<(Setting, &'a [u8])>
    ensures joined { IfSome result (λ found. Joins (setting_name found.0) found.1.now word.now) }
    ensures unknown { IfNone result
        ((setting : Setting) (value : List ℕ) → Joins (setting_name setting) value word.now → ⊥) }
{
    let place = place_of_equals(word)?;
    let setting = setting_of(&word[..place])?;
    Some((setting, &word[place + 1..]))
}

// The number below 2^64 in decimal digits.
fn number_of(text: &[u8]) -> Option<u64>
    ensures { MatchOption result ((n : ℕ) → IsCountText n text.now → ⊥)
        (λ n. IsCountText n text.now) }
{
    let Ok(digits) = str::from_utf8(text) else {
        return None;
    };
    if digits.starts_with('+') {
        return None;
    }
    digits.parse::<u64>().ok()
}

// The number that is the value of an option.
#[tactic(auto, using(crate::proofs::WrongWords::no_number, crate::proofs::WrongWords::value_told))]
fn count_of<'a>(setting: Setting, text: &'a [u8]) -> Result<usize, Misuse<'a>>
    ensures number { IfOk result (λ n. IsCountText n text.now) }
    ensures told { IfErr result (λ e. IsBound setting → TellsValue e setting text.now) }
{
    match number_of(text) {
        Some(count) => Ok(count as usize),
        None => Err(Misuse::WrongValue(setting, text)),
    }
}

fn format_of(text: &[u8]) -> Option<Format>
    ensures named { IfSome result (λ format. IsFormatName format text.now) }
    ensures unknown { IfNone result ((format : Format) → IsFormatName format text.now → ⊥) }
{
    if is(text, "text") {
        Some(Format::Text)
    } else if is(text, "json") {
        Some(Format::Json)
    } else if is(text, "jsonl") {
        Some(Format::JsonLines)
    } else {
        None
    }
}

fn push_name<'a>(names: &mut Vec<&'a [u8]>, name: &'a [u8]) -> Added<'a>
    ensures added { OnOk result (map (λ n. n.now) names.new.items
        ≡ map (λ n. n.now) names.old.items ++ name.now ∷ []) }
    ensures memory { IfErr result (λ e. e ≡ Misuse.Memory) }
{
    match names.push(name) {
        Ok(()) => Ok(()),
        Err(_) => Err(Misuse::Memory),
    }
}

// Adds an option without a value. Returns false if the word isn't one.
fn switch(request: &mut Request<'_>, word: &[u8]) -> bool
    ensures added { let adds = AddsPart IsPart with_part (word.now ∷ []) in
        OnTrue result (adds (fields_of request.old) (fields_of request.new)) }
    ensures unknown { OnFalse result ((part : LinePart) → IsSwitch part word.now → ⊥) }
{
    if is(word, "--lenient") {
        request.strict = false;
        true
    } else if is(word, "--json") || is(word, "-j") {
        request.format = Format::Json;
        true
    } else if is(word, "--quiet") || is(word, "-q") {
        request.quiet = true;
        true
    } else if is(word, "--all") {
        request.all = true;
        true
    } else if is(word, "--no-names") {
        request.names = false;
        true
    } else if is(word, "--trust-first") {
        request.trust_first = true;
        true
    } else if is(word, "--no-crl") {
        request.no_crl = true;
        true
    } else if is(word, "--strict-exit") {
        request.strict_exit = true;
        true
    } else if is(word, "--help") || is(word, "-h") {
        request.task = Task::Help;
        true
    } else {
        false
    }
}

#[tactic(auto, using(crate::proofs::WrongWords::no_format, crate::proofs::WrongWords::value_told))]
fn add_format<'a>(request: &mut Request<'a>, setting: Setting, text: &'a [u8]) -> Added<'a>
    ensures added { OnOk result
        (AddsSet Setting.Output text.now (fields_of request.old) (fields_of request.new)) }
    ensures told { IfErr result (λ e. NamesFormat setting → TellsValue e setting text.now) }
{
    match format_of(text) {
        Some(format) => {
            request.format = format;
            Ok(())
        }
        None => Err(Misuse::WrongValue(setting, text)),
    }
}

// Adds the most bytes of a file.
#[tactic(auto, using(crate::proofs::WrongWords::no_size, crate::proofs::WrongWords::value_told))]
fn add_size<'a>(request: &mut Request<'a>, text: &'a [u8]) -> Added<'a>
    ensures added { OnOk result
        (AddsSet Setting.MaxSize text.now (fields_of request.old) (fields_of request.new)) }
    ensures told { IfErr result (λ e. TellsValue e Setting.MaxSize text.now) }
{
    match number_of(text) {
        Some(size) => {
            request.max_size = size;
            Ok(())
        }
        None => Err(Misuse::WrongValue(Setting::MaxSize, text)),
    }
}

// Adds that only certificates that aren't accepted are printed.
#[tactic(auto, using(crate::proofs::WrongWords::not_only, crate::proofs::WrongWords::value_told))]
fn add_only<'a>(request: &mut Request<'a>, text: &'a [u8]) -> Added<'a>
    ensures added { OnOk result
        (AddsSet Setting.Only text.now (fields_of request.old) (fields_of request.new)) }
    ensures told { IfErr result (λ e. TellsValue e Setting.Only text.now) }
{
    if is(text, "rejected") {
        request.only_rejected = true;
        return Ok(());
    }
    Err(Misuse::WrongValue(Setting::Only, text))
}

// Adds an option with its value.
fn add_set<'a>(request: &mut Request<'a>, setting: Setting, value: &'a [u8]) -> Added<'a>
    ensures added { OnOk result
        (AddsSet setting value.now (fields_of request.old) (fields_of request.new)) }
    ensures told { IfErr result
        (λ e. e ≢ Misuse.Memory → TellsValue e setting value.now) }
{
    match setting {
        Setting::Crl => push_name(&mut request.lists, value),
        Setting::Tal => push_name(&mut request.locators, value),
        Setting::In => push_name(&mut request.folders, value),
        Setting::Depth => {
            request.depth = Some(count_of(setting, value)?);
            Ok(())
        }
        Setting::StepCount => {
            request.steps = Some(count_of(setting, value)?);
            Ok(())
        }
        Setting::At => match moments::from_text(value) {
            Some(moment) => {
                request.at = Some(moment);
                Ok(())
            }
            None => Err(Misuse::WrongValue(setting, value)),
        },
        Setting::MaxSize => add_size(request, value),
        Setting::Output | Setting::ShortOutput => add_format(request, setting, value),
        Setting::Only => add_only(request, value),
    }
}

// Adds the file or the option that a word is by itself.
fn add_word<'a>(request: &mut Request<'a>, word: &'a [u8]) -> Added<'a>
    requires { (setting : Setting) → IsOptionName setting word.now → ⊥ }
    ensures added { let adds = AddsPart IsPart with_part (word.now ∷ []) in
        OnOk result (adds (fields_of request.old) (fields_of request.new)) }
    ensures told { IfErr result (λ e. e ≢ Misuse.Memory → TellsWord e word.now) }
{
    if !is_option(word) {
        return push_name(&mut request.files, word);
    }
    if let Some((setting, value)) = joined(word) {
        return add_set(request, setting, value);
    }
    if switch(request, word) {
        Ok(())
    } else {
        Err(Misuse::Unknown(word))
    }
}

// Adds the words before `--`.
pub(crate) fn add_words<'a>(request: &mut Request<'a>, words: &'a [Vec<u8>]) -> Added<'a>
    ensures added { let adds = AddsParts IsPart with_part (word_octets words.now) in
        OnOk result (adds (fields_of request.old) (fields_of request.new)) }
    ensures told { IfErr result
        (λ e. e ≢ Misuse.Memory → IsFirstWrong IsPart IsWrongFirst e (word_octets words.now)) }
{
    // The option whose value is the next word.
    let mut awaiting = None;
    for word in words {
        let word = word.as_slice();
        if let Some(setting) = awaiting {
            add_set(request, setting, word)?;
            awaiting = None;
        } else if let Some(setting) = setting_of(word) {
            awaiting = Some(setting);
        } else {
            add_word(request, word)?;
        }
    }
    match awaiting {
        Some(setting) => Err(Misuse::NoValue(setting)),
        None => Ok(()),
    }
}

// Adds the words after `--`, which are files.
pub(crate) fn add_files<'a>(request: &mut Request<'a>, words: &'a [Vec<u8>]) -> Added<'a>
    ensures added { OnOk result
        (fields_of request.new ≡ with_files (fields_of request.old) (word_octets words.now)) }
    ensures memory { IfErr result (λ e. e ≡ Misuse.Memory) }
{
    for word in words {
        push_name(&mut request.files, word.as_slice())?;
    }
    Ok(())
}
