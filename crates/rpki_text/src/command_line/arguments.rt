//! The request that the command line makes.
ghost use Rattle.std.specs.Prelude.{◌≡◌, ◌≢◌, Some, IfOk, IfErr};
ghost use Rattle.std.specs.Fmt.{WritesOnOk};
ghost use Rattle.rpki_text.specs.CommandLines.{RequestFields, only_task, setting_name, IsCommandLine};
ghost use Rattle.rpki_text.specs.CommandLines.Views.{word_octets, fields_of};
ghost use Rattle.rpki_text.specs.Misuses.{IsMisuse};
ghost use Rattle.rpki_text.specs.MisuseTexts.{expected_value, misuse_text, value_kind, wrong_value_text};

use crate::command_line::parts::around_dashes;
use crate::command_line::suiting::misuse_of;
use crate::command_line::words::{add_files, add_words, task_of};
use rpki_der::Time;
use rpki_document::Characters;
use std::alloc::Global;
use std::fmt;

/// The words that name a command.
const COMMANDS: &str = "show, validate, tree, prepare, complete, help or --version";

/// The most bytes of a file, unless the command line says it: 64 MiB.
const USUAL_SIZE: u64 = 67_108_864;

/// The three commands, and the two texts about them.
#[derive(Clone, Copy, PartialEq, Eq)]
pub enum Task {
    Show,
    Validate,
    Tree,
    Help,
    Version,
}

/// The format of an answer: lines for a person, or JSON, in which each value is on a line of its
/// own or each answer is on one line.
#[derive(Clone, Copy, PartialEq, Eq)]
pub enum Format {
    Text,
    Json,
    JsonLines,
}

/// The name of an option that takes a value, as the next word or after `=`.
#[derive(Clone, Copy)]
pub enum Setting {
    Crl,
    Tal,
    In,
    Depth,
    StepCount,
    At,
    MaxSize,
    /// `--output`.
    Output,
    /// `-o`, which means the same.
    ShortOutput,
    Only,
}

/// A request. A file's name is the bytes of its word.
#[derive(Drop)]
pub struct Request<'a> {
    pub task: Task,
    pub at: Option<Time>,
    pub strict: bool,
    pub format: Format,
    pub quiet: bool,
    pub all: bool,
    pub max_size: u64,
    pub names: bool,
    pub files: Vec<&'a [u8]>,
    pub lists: Vec<&'a [u8]>,
    pub locators: Vec<&'a [u8]>,
    pub folders: Vec<&'a [u8]>,
    /// Whether the first certificate is trusted without a TAL.
    pub trust_first: bool,
    /// Whether no CRL is checked.
    pub no_crl: bool,
    /// Whether a damaged cache is an error.
    pub strict_exit: bool,
    /// Whether only certificates that aren't accepted are printed.
    pub only_rejected: bool,
    pub depth: Option<usize>,
    pub steps: Option<usize>,
}

/// Why the words of the command line aren't a request.
#[derive(Drop)]
pub enum Misuse<'a> {
    /// There is no word.
    NoTask,
    /// The first word names no command.
    UnknownTask(&'a [u8]),
    /// There is no such option, or the command doesn't take it.
    Unknown(&'a [u8]),
    /// The option is the last word, without its value.
    NoValue(Setting),
    /// The option doesn't take this value.
    WrongValue(Setting, &'a [u8]),
    /// No file is named.
    NoFile,
    /// A path to a file is to be found, and the number of files isn't one.
    OneFile,
    /// `--crl` is given together with directories, in which CRLs are found.
    ListsIn,
    /// `tree` is given no TAL.
    NoLocator,
    /// A path is to be found, and no TAL is given.
    NoLocatorIn,
    /// A limit of the walk is given, and no path is to be found.
    BoundsIn,
    /// Standard input is named as a file of a command that reads its files twice.
    InputIn,
    /// A path is given, and neither a TAL nor that its first certificate is trusted.
    NoAnchor,
    /// Both are given.
    BothAnchors,
    /// A path is given, and neither CRLs nor that none is checked.
    NoLists,
    /// Both are given.
    BothLists,
    Memory,
}

fn name_of(setting: Setting) -> &'static str
    ensures { result.now ≡ setting_name setting }
{
    match setting {
        Setting::Crl => "--crl",
        Setting::Tal => "--tal",
        Setting::In => "--in",
        Setting::Depth => "--depth",
        Setting::StepCount => "--steps",
        Setting::At => "--at",
        Setting::MaxSize => "--max-size",
        Setting::Output => "--output",
        Setting::ShortOutput => "-o",
        Setting::Only => "--only",
    }
}

fn value_kind(setting: Setting) -> &'static str
    ensures { result.now ≡ value_kind setting }
{
    match setting {
        Setting::Crl | Setting::Tal => "a file",
        Setting::In => "a directory",
        Setting::Depth | Setting::StepCount | Setting::MaxSize => "a number below 2^64",
        Setting::At => "a time",
        Setting::Output | Setting::ShortOutput => "an output format",
        Setting::Only => "a verdict to print alone",
    }
}

fn expected_value(setting: Setting) -> &'static str
    ensures { result.now ≡ expected_value setting }
{
    match setting {
        Setting::Crl | Setting::Tal => "FILE",
        Setting::In => "DIRECTORY",
        Setting::Depth | Setting::StepCount => "a number of certificates",
        Setting::MaxSize => "a number of bytes",
        Setting::At => "YYYY-MM-DD[THH:MM:SSZ]",
        Setting::Output | Setting::ShortOutput => "text, json or jsonl",
        Setting::Only => "rejected",
    }
}

// Writes the error of a value that the option doesn't accept.
fn write_wrong<W: fmt::Write>(
    f: &mut fmt::Formatter<W>,
    setting: Setting,
    value: &[u8],
) -> fmt::Result
    ensures { WritesOnOk W.write_str_gives f.old result (wrong_value_text setting value.now) f.new }
{
    let option = name_of(setting);
    let value = Characters(value);
    let kind = value_kind(setting);
    let expected = expected_value(setting);
    write!(f, "{option} {value}: not {kind}; expected {expected}")
}

impl fmt::Display for Misuse<'_> {
    ghost output = { λ misuse. Some (misuse_text misuse) };

    fn fmt<W: fmt::Write>(&self, f: &mut fmt::Formatter<W>) -> fmt::Result {
        match self {
            Misuse::NoTask => {
                let commands = COMMANDS;
                write!(f, "no command; expected {commands}")
            }
            Misuse::UnknownTask(word) => {
                let word = Characters(*word);
                let commands = COMMANDS;
                write!(f, "{word}: not a command; expected {commands}")
            }
            Misuse::Unknown(word) => {
                let word = Characters(*word);
                write!(f, "{word}: not an option of this command")
            }
            Misuse::NoValue(setting) => {
                let option = name_of(*setting);
                let expected = expected_value(*setting);
                write!(f, "{option}: no value; expected {expected}")
            }
            Misuse::WrongValue(setting, value) => write_wrong(f, *setting, *value),
            Misuse::NoFile => f.write_str("no file; expected FILE"),
            Misuse::OneFile => f.write_str("--in: expected exactly one FILE"),
            Misuse::ListsIn => {
                f.write_str("--crl: not accepted with --in, which finds CRLs in its directories")
            }
            Misuse::NoLocator => f.write_str("no --tal; expected --tal FILE"),
            Misuse::NoLocatorIn => f.write_str("--in: no --tal; expected --tal FILE"),
            Misuse::BoundsIn => f.write_str("--depth and --steps: accepted only with --in"),
            Misuse::InputIn => {
                f.write_str("-: standard input can't be read twice; with --in, expected files")
            }
            Misuse::NoAnchor => f.write_str(
                "no trust anchor; expected --tal FILE, or --trust-first to trust the first file",
            ),
            Misuse::BothAnchors => f.write_str("--trust-first: not accepted with --tal"),
            Misuse::NoLists => f.write_str(
                "no CRL; expected --crl FILE or --in DIRECTORY, or --no-crl to check no revocation",
            ),
            Misuse::BothLists => f.write_str("--no-crl: not accepted with --crl or --in"),
            Misuse::Memory => f.write_str("out of memory"),
        }
    }
}

// A request with no option and no file.
fn new_request<'a>(alloc: Global, task: Task) -> Request<'a>
    ensures { fields_of result ≡ only_task task }
{
    Request {
        task,
        at: None,
        strict: true,
        format: Format::Text,
        quiet: false,
        all: false,
        max_size: USUAL_SIZE,
        names: true,
        files: Vec::new(alloc),
        lists: Vec::new(alloc),
        locators: Vec::new(alloc),
        folders: Vec::new(alloc),
        trust_first: false,
        no_crl: false,
        strict_exit: false,
        only_rejected: false,
        depth: None,
        steps: None,
    }
}

/// Reads the words after the program's name.
///
/// # Errors
///
/// Returns what is wrong with the first wrong word or with the words together, and `Memory`.
pub fn read_words<'a>(alloc: Global, words: &'a [Vec<u8>]) -> Result<Request<'a>, Misuse<'a>>
    ensures command_line { IfOk result (λ r. IsCommandLine (fields_of r) (word_octets words.now)) }
    ensures nothing_else { IfOk result (λ r. (other : RequestFields)
        → IsCommandLine other (word_octets words.now) → other ≡ fields_of r) }
    ensures rejected { IfErr result (λ e. e ≢ Misuse.Memory
        → (r : RequestFields) → IsCommandLine r (word_octets words.now) → ⊥) }
    ensures told { IfErr result (λ e. e ≢ Misuse.Memory → IsMisuse e (word_octets words.now)) }
{
    let Some((first, rest)) = words.split_first() else {
        return Err(Misuse::NoTask);
    };
    let Some(task) = task_of(first.as_slice()) else {
        return Err(Misuse::UnknownTask(first.as_slice()));
    };
    let mut request = new_request(alloc, task);
    let (before, behind) = around_dashes(rest);
    add_words(&mut request, before)?;
    add_files(&mut request, behind)?;
    if let Some(misuse) = misuse_of(&request) {
        drop(request);
        return Err(misuse);
    }
    Ok(request)
}
