//! The search for a path: the names of its files, and of the CRLs beside them.
ghost use Rattle.std.specs.Prelude.{◌≡◌, ◌↔◌, ◌++◌, ◌∷◌, [], List, ℕ, map, IfOk, IsTrue, Ok, OnOk};
ghost use Rattle.std.specs.Io.KnownBytes.{Appends};
ghost use Rattle.rpki_keys.specs.RsaSignatures.{IsSignedByRsa};
ghost use Rattle.rpki_cert.specs.Verification.{context};
ghost use Rattle.rpki_text.specs.CommandLines.Views.{fields_of, word_octets};
ghost use Rattle.rpki_files.specs.Files.{FileFields, file_names};
ghost use Rattle.rpki_verdicts.specs.Searches.{IsSoughtPath};
ghost use Rattle.rpki_verdicts.specs.Trees.{asked_of};
ghost use Rattle.rpki_answers.specs.AnswerTexts.{tree_question_of};
ghost use Rattle.rpki_command.specs.Messages.{bound_message};
ghost use Rattle.rpki_command.specs.NamedFiles.{AreNamedAndRead};
ghost use Rattle.rpki_command.specs.PassedFiles.{SaysOfFiles};
ghost use Rattle.rpki_command.specs.SoughtPaths.{AreListNames, IsFirstRead, IsPathSearch, IsSearchOf, AreSoughtNames, SaysOfSearch, SaysOfSought};

use crate::answering::{are_all_read, are_read, tree_question};
use crate::files::FileSource;
use crate::passed::{tell_no_list, tell_others};
use crate::reading::{GivenFiles, read_given};
use anyhow::{Error, Result};
use rpki_der::Time;
use rpki_files::BareObject;
use rpki_folder::Ended;
use rpki_text::command_line::Request;
use rpki_verdicts::{GivenLocator, Sought, TreeQuestion, seek};
use std::alloc::{AllocError, Global};
use std::io;
use std::io::Write;

/// The names of the files of a path that was searched, and of all CRLs among the files.
#[derive(Drop)]
pub struct SoughtNames {
    pub files: Vec<Vec<u8>>,
    pub lists: Vec<Vec<u8>>,
    /// How the walk ended that found no valid path; else `Whole`.
    pub ended: Ended,
    /// Whether all files that were searched could be read.
    pub are_all_read: bool,
}

// Adds a file's name.
fn push_name(
    alloc: Global,
    names: &mut Vec<Vec<u8>>,
    file: &BareObject<'_>,
) -> Result<(), AllocError>
    ensures { OnOk result
        (word_octets names.new.items ≡ word_octets names.old.items ++ file.now.name ∷ []) }
{
    let name = file.name().as_bytes().to_vec(alloc)?;
    names.push(name)?;
    Ok(())
}

// The names of the files of a path.
fn names_of(alloc: Global, path: &[&BareObject<'_>]) -> Result<Vec<Vec<u8>>, AllocError>
    ensures { IfOk result (λ names.
        word_octets names.items ≡ file_names (map (λ f. f.now) path.now)) }
{
    let mut names = Vec::new(alloc);
    for file in path {
        push_name(alloc, &mut names, *file)?;
    }
    Ok(names)
}

// Adds the name of a file that is a list.
fn push_list_name(
    alloc: Global,
    names: &mut Vec<Vec<u8>>,
    file: &BareObject<'_>,
) -> Result<(), AllocError>
    ensures { OnOk result ((its : List (List ℕ)) × AreListNames (file.now ∷ []) its
        × (word_octets names.new.items ≡ word_octets names.old.items ++ its)) }
{
    if file.is_list() {
        return push_name(alloc, names, file);
    }
    Ok(())
}

// The names of those of the files that are lists.
fn list_names(alloc: Global, files: &[BareObject<'_>]) -> Result<Vec<Vec<u8>>, AllocError>
    ensures { IfOk result (λ names. AreListNames files.now (word_octets names.items)) }
{
    let mut names = Vec::new(alloc);
    for file in files {
        push_list_name(alloc, &mut names, file)?;
    }
    Ok(names)
}

// The names of `list_names`. It is said which files are passed over, and where there is no list.
fn lists_told<E: Write>(
    alloc: Global,
    err: &mut E,
    files: &[BareObject<'_>],
) -> Result<Vec<Vec<u8>>>
    ensures lists { IfOk result (λ names. AreListNames files.now (word_octets names.items)) }
    ensures said { IfOk result (λ names. (said : List ℕ)
        × SaysOfFiles files.now (word_octets names.items) said
        × Appends (E.contents err.old) (E.contents err.new) said) }
{
    tell_others(alloc, err, files)?;
    let names = list_names(alloc, files)?;
    if let Err(error) = tell_no_list(err, &names) {
        drop(names);
        return Err(Error::from(error));
    }
    Ok(names)
}

// The names of the files of the path that a question seeks to the first of its files, and how the
// walk ended that came to no valid path.
fn path_names(
    alloc: Global,
    question: &TreeQuestion<'_, '_>,
) -> Result<(Vec<Vec<u8>>, Ended), AllocError>
    ensures { let q = asked_of question.now in let x = context IsSignedByRsa q.at q.strict in
        IfOk result (λ found. (path : List FileFields)
        × ((file : FileFields) (more : List FileFields) → q.files ≡ file ∷ more
        → IsSoughtPath x q file path found.1) × (word_octets found.0.items ≡ file_names path)) }
{
    let Sought { path, ended } = seek(alloc, question)?;
    let names = names_of(alloc, &path);
    drop(path);
    Ok((names?, ended))
}

// Says that not every path was searched, if the search reached a limit of its question.
fn tell_bound<E: Write>(
    err: &mut E,
    question: &TreeQuestion<'_, '_>,
    ended: Ended,
) -> io::Result<()>
    ensures said { let message = bound_message (asked_of question.now) ended in
        OnOk result (Appends (E.contents err.old) (E.contents err.new) message) }
    ensures whole { ended ≡ Ended.Whole → result ≡ Ok tt }
{
    match ended {
        Ended::Whole => Ok(()),
        Ended::TooDeep => {
            let depth = question.depth;
            writeln!(
                err,
                "rpki: not every path was searched: at most {depth} certificates down, more are below (--depth sets the limit)"
            )
        }
        Ended::OutOfSteps => {
            let steps = question.steps;
            writeln!(
                err,
                "rpki: not every path was searched: the limit of {steps} steps was reached (--steps sets the limit)"
            )
        }
    }
}

// The names and the end of `path_names`. Where the walk met a bound, that is said.
fn path_told<E: Write>(
    alloc: Global,
    err: &mut E,
    question: &TreeQuestion<'_, '_>,
) -> Result<(Vec<Vec<u8>>, Ended)>
    ensures path { let q = asked_of question.now in let x = context IsSignedByRsa q.at q.strict in
        IfOk result (λ found. (path : List FileFields)
        × ((file : FileFields) (more : List FileFields) → q.files ≡ file ∷ more
        → IsSoughtPath x q file path found.1) × (word_octets found.0.items ≡ file_names path)) }
    ensures said { IfOk result (λ found. Appends (E.contents err.old) (E.contents err.new)
        (bound_message (asked_of question.now) found.1)) }
{
    let (names, ended) = path_names(alloc, question)?;
    if let Err(error) = tell_bound(err, question, ended) {
        drop(names);
        return Err(Error::from(error));
    }
    Ok((names, ended))
}

// The path that is sought to the first of these files, and the lists among them, where all files
// could be read or not. It says which files are passed over, where there is no list, and where the
// search met a bound.
fn sought_among<E: Write>(
    alloc: Global,
    err: &mut E,
    request: &Request<'_>,
    now: Time,
    files: &[BareObject<'_>],
    locators: &[GivenLocator<'_>],
    are_all_read: bool,
) -> Result<SoughtNames>
    ensures sought { IfOk result (AreSoughtNames
        (tree_question_of (fields_of request.now) now files.now locators.now)) }
    ensures read { IfOk result (λ sought. sought.are_all_read ≡ are_all_read) }
    ensures said { let q = tree_question_of (fields_of request.now) now files.now locators.now in
        IfOk result (λ sought. (said : List ℕ) × SaysOfSought q sought said
        × Appends (E.contents err.old) (E.contents err.new) said) }
{
    let question = tree_question(request, now, files, locators);
    let lists = lists_told(alloc, err, files)?;
    match path_told(alloc, err, &question) {
        Ok((files, ended)) => Ok(SoughtNames {
            files,
            lists,
            ended,
            are_all_read,
        }),
        Err(error) => {
            drop(lists);
            Err(error)
        }
    }
}

// Whether the first of these names is that of the first of the files that could be read.
fn is_first_read(names: &[&[u8]], files: &[BareObject<'_>]) -> bool
    ensures { IsTrue result ↔ IsFirstRead (map (λ name. name.now) names.now) files.now }
{
    let Some((name, _names)) = names.split_first() else {
        return false;
    };
    let Some((file, _files)) = files.split_first() else {
        return false;
    };
    file.name().as_bytes() == *name
}

// What is sought among the files that could be read, where what is asked for could be.
fn sought_if_read<E: Write>(
    alloc: Global,
    err: &mut E,
    request: &Request<'_>,
    now: Time,
    files: &[BareObject<'_>],
    lists: &[BareObject<'_>],
    locators: &[GivenLocator<'_>],
) -> Result<Option<SoughtNames>>
    requires { AreNamedAndRead (fields_of request.now) files.now lists.now locators.now }
    ensures gives { IfOk result
        (IsSearchOf (fields_of request.now) now files.now lists.now locators.now) }
    ensures said { let q = tree_question_of (fields_of request.now) now files.now locators.now in
        IfOk result (λ sought. (said : List ℕ) × SaysOfSearch q sought said
        × Appends (E.contents err.old) (E.contents err.new) said) }
{
    if !is_first_read(&request.files, files) || !are_read(&request.locators, locators.len()) {
        return Ok(None);
    }
    let are_all_read = are_all_read(request, files.len(), lists.len(), locators.len());
    let sought = sought_among(alloc, err, request, now, files, locators, are_all_read)?;
    Ok(Some(sought))
}

/// Searches the path to the first file of a request among the source's other files. Returns `None`
/// if the first file or a TAL can't be read. Reports on standard error each file that can't be
/// read, the files that are skipped because they are neither certificates nor CRLs, that there is
/// no CRL, and a limit that was reached before a valid path was found.
///
/// # Errors
///
/// Returns an error only if memory runs out or writing to standard error fails.
pub fn names_sought<F: FileSource, E: Write>(
    alloc: Global,
    files: &F,
    err: &mut E,
    request: &Request<'_>,
    now: Time,
) -> Result<Option<SoughtNames>>
    ensures { IfOk result (λ sought. (said : List ℕ)
        × IsPathSearch (F.reads files.now) (fields_of request.now) now sought said
        × Appends (E.contents err.old) (E.contents err.new) said) }
{
    let given: GivenFiles<'_, BareObject<'_>> = read_given(alloc, files, err, request)?;
    let sought = sought_if_read(
        alloc,
        err,
        request,
        now,
        &given.files,
        &given.lists,
        &given.locators,
    )?;
    drop(given);
    Ok(sought)
}
