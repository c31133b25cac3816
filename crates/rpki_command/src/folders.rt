//! The files of a request's names: if a name is a directory's, the files in it and below it.
ghost use Rattle.std.specs.Cmp.Lexicographic.{slice_cmp};
ghost use Rattle.std.specs.List.{count_by, filter};
ghost use Rattle.std.specs.List.Sorted.{IsPermutation, IsSorted};
ghost use Rattle.std.specs.Ordering.{nat_cmp};
ghost use Rattle.std.specs.Prelude.{◌≡◌, ◌≢◌, ◌||◌, ◌⊎◌, ◌+◌, ◌++◌, ◌∷◌, [], Bool, List, ℕ, Ok, Some, map, IfErr, IfOk, MatchOption, OnOk, true};
ghost use Rattle.std.specs.Bool.{MatchBool};
ghost use Rattle.std.specs.Io.KnownBytes.{Appends};
ghost use Rattle.rpki_text.specs.CommandLines.Views.{fields_of, word_octets};
ghost use Rattle.rpki_answers.specs.UnreadNames.{closed_name};
ghost use Rattle.rpki_command.specs.ListedFolders.{AreDown, AreFilesOf, AreOpened, IsNoFolder, StandFor, StandsForItself, barred, holds, is_folder_name, is_passed, is_taken, roots_of, slashed, told_count};
ghost use Rattle.rpki_command.specs.Messages.{passed_message};

use crate::files::{FileSource, Unread};
use crate::reading::tell;
use anyhow::{Result, anyhow};
use rpki_text::Count;
use rpki_text::command_line::{Request, Task};
use std::alloc::{AllocError, Global};
use std::io;
use std::io::Write;

/// The levels of directories that are opened below a named one.
const LEVELS: usize = 32;

// The names that stand for others, and how many files were passed over.
#[derive(Drop)]
struct Names {
    all: Vec<Vec<u8>>,
    passed: usize,
}

// Whether a listing gives the name as a folder's.
fn is_folder_name(name: &[u8]) -> bool
    ensures { result ≡ is_folder_name name.now }
{
    name.ends_with(b"/".as_slice())
}

// Whether the name may be a folder's: at first each may, and else as a listing gives it.
fn may_be_folder(name: &[u8], is_first: bool) -> bool
    ensures { result ≡ (is_first || is_folder_name name.now) }
{
    is_first || is_folder_name(name)
}

// Whether the name is that of a folder, a certificate or a revocation list.
fn is_taken(name: &[u8]) -> bool
    ensures { result ≡ is_taken name.now }
{
    is_folder_name(name) || name.ends_with(b".cer".as_slice()) || name.ends_with(b".crl".as_slice())
}

// The names by their octets.
fn sorted(mut names: Vec<Vec<u8>>) -> Vec<Vec<u8>>
    ensures permutation { IsPermutation (word_octets names.items) (word_octets result.items) }
    ensures sorted { IsSorted (slice_cmp nat_cmp) (word_octets result.items) }
{
    names.sort_unstable();
    names
}

// What the folder of a name has, unless it is none. Errs where it can't be listed.
fn listed<F: FileSource>(
    alloc: Global,
    files: &F,
    name: &[u8],
) -> Result<Option<Vec<Vec<u8>>>, Unread>
    ensures listed { let lists = F.lists files.now in IfOk result (λ listed.
        MatchOption listed (IsNoFolder lists name.now)
        (λ given. lists name.now (holds (word_octets given.items)))) }
    ensures unlisted { IfErr result (λ why.
        why ≢ Unread.Memory → F.lists files.now name.now barred) }
{
    match str::from_utf8(name) {
        Ok(text) => files.list_folder(alloc, text),
        Err(_) => Ok(None),
    }
}

/// Adds a name.
///
/// # Errors
///
/// Returns an error only if memory runs out.
pub fn push(all: &mut Vec<Vec<u8>>, name: Vec<u8>) -> Result<(), AllocError>
    ensures { OnOk result
        (word_octets all.new.items ≡ word_octets all.old.items ++ name.items ∷ []) }
{
    all.push(name)?;
    Ok(())
}

// Adds those of the names that are taken. Returns how many others there are.
fn push_taken(all: &mut Vec<Vec<u8>>, names: Vec<Vec<u8>>) -> Result<usize, AllocError>
    ensures taken { OnOk result (word_octets all.new.items
        ≡ word_octets all.old.items ++ filter is_taken (word_octets names.items)) }
    ensures passed { IfOk result (λ passed.
        passed ≡ told_count (count_by is_passed (word_octets names.items))) }
{
    let mut passed = 0usize;
    for name in names {
        if is_taken(name.as_slice()) {
            push(all, name)?;
        } else {
            passed = passed.saturating_add(1);
        }
    }
    Ok(passed)
}

// The name under which a folder stays that can't be listed: no file has it, and it isn't opened again.
fn closed(mut name: Vec<u8>) -> Result<Vec<u8>, AllocError>
    ensures { IfOk result (λ closed. closed.items ≡ closed_name name.items) }
{
    name.push(0)?;
    Ok(name)
}

// The name of a folder as its path begins.
fn slashed(mut name: Vec<u8>) -> Result<Vec<u8>, AllocError>
    ensures { IfOk result (λ whole. whole.items ≡ slashed name.items) }
{
    if !is_folder_name(name.as_slice()) {
        name.push(b'/')?;
    }
    Ok(name)
}

// Adds what stands for a name. Returns how many files are passed over. Says where the name is that
// of a folder that can't be listed.
fn push_opened<F: FileSource, E: Write>(
    alloc: Global,
    files: &F,
    err: &mut E,
    all: &mut Vec<Vec<u8>>,
    name: Vec<u8>,
) -> Result<usize>
    ensures { IfOk result (λ told. (its : List (List ℕ)) × (passed : ℕ) × (said : List ℕ)
        × StandFor (F.lists files.now) name.items its passed said
        × (word_octets all.new.items ≡ word_octets all.old.items ++ its)
        × (told ≡ told_count passed)
        × Appends (E.contents err.old) (E.contents err.new) said) }
{
    match listed(alloc, files, name.as_slice()) {
        Ok(Some(given)) => {
            let passed = push_taken(all, sorted(given))?;
            Ok(passed)
        }
        Ok(None) => {
            push(all, name)?;
            Ok(0)
        }
        Err(Unread::Memory) => Err(anyhow!("out of memory")),
        Err(why) => {
            tell(alloc, err, name.as_slice(), &why)?;
            drop(why);
            push(all, closed(name)?)?;
            Ok(0)
        }
    }
}

// Adds what stands for a name, where it is to be opened, and else the name. Returns how many files
// are passed over.
fn push_name<F: FileSource, E: Write>(
    alloc: Global,
    files: &F,
    err: &mut E,
    all: &mut Vec<Vec<u8>>,
    opens: bool,
    name: Vec<u8>,
) -> Result<usize>
    ensures { IfOk result (λ told. (its : List (List ℕ)) × (passed : ℕ) × (said : List ℕ)
        × MatchBool opens (StandFor (F.lists files.now) name.items its passed said)
        (StandsForItself name.items its passed said)
        × (word_octets all.new.items ≡ word_octets all.old.items ++ its)
        × (told ≡ told_count passed)
        × Appends (E.contents err.old) (E.contents err.new) said) }
{
    if opens {
        return push_opened(alloc, files, err, all, name);
    }
    push(all, name)?;
    Ok(0)
}

// Opens the folders among the names; at first each name may be one.
fn level<F: FileSource, E: Write>(
    alloc: Global,
    files: &F,
    err: &mut E,
    names: Names,
    is_first: bool,
) -> Result<Names>
    ensures { IfOk result (λ opened. (passed : ℕ) × (said : List ℕ)
        × AreOpened (F.lists files.now) (λ name. is_first || is_folder_name name)
        (word_octets names.all.items) (word_octets opened.all.items) passed said
        × (opened.passed ≡ told_count (names.passed + passed))
        × Appends (E.contents err.old) (E.contents err.new) said) }
{
    let Names { all, passed } = names;
    let mut opened = Vec::new(alloc);
    let mut count = passed;
    for name in all {
        let opens = may_be_folder(name.as_slice(), is_first);
        let further = push_name(alloc, files, err, &mut opened, opens, name)?;
        count = count.saturating_add(further);
    }
    Ok(Names {
        all: opened,
        passed: count,
    })
}

// Opens the folders among the names, and those in them.
fn opened_down<F: FileSource, E: Write>(
    alloc: Global,
    files: &F,
    err: &mut E,
    names: Names,
) -> Result<Names>
    ensures { IfOk result (λ opened. (passed : ℕ) × (said : List ℕ)
        × AreDown (F.lists files.now) 32
        (word_octets names.all.items) (word_octets opened.all.items) passed said
        × (opened.passed ≡ told_count (names.passed + passed))
        × Appends (E.contents err.old) (E.contents err.new) said) }
{
    let mut opened = names;
    for _level in 0..LEVELS {
        opened = level(alloc, files, err, opened, false)?;
    }
    Ok(opened)
}

// A copy of the names.
fn copied(alloc: Global, names: &[&[u8]]) -> Result<Vec<Vec<u8>>, AllocError>
    ensures { IfOk result (λ all. word_octets all.items ≡ map (λ name. name.now) names.now) }
{
    let mut all = Vec::new(alloc);
    for name in names {
        let name = name.to_vec(alloc)?;
        all.push(name)?;
    }
    Ok(all)
}

// Says how many files of folders were passed over.
fn tell_passed<E: Write>(err: &mut E, passed: usize) -> io::Result<()>
    ensures said { OnOk result
        (Appends (E.contents err.old) (E.contents err.new) (passed_message passed)) }
    ensures none { passed ≡ 0 → result ≡ Ok tt }
{
    if passed == 0 {
        return Ok(());
    }
    let count = Count {
        number: passed as u64,
        one: " file whose name ends",
        others: " files whose names end",
    };
    writeln!(
        err,
        "rpki: skipped in directories: {count} neither in .cer nor in .crl"
    )
}

/// Returns the names of the files, if each given name may be a directory's. Reports each directory
/// that can't be listed, and how many files are skipped, on standard error.
///
/// # Errors
///
/// Returns an error only if memory runs out or writing to standard error fails.
pub fn opened<F: FileSource, E: Write>(
    alloc: Global,
    files: &F,
    err: &mut E,
    names: &[&[u8]],
) -> Result<Vec<Vec<u8>>>
    ensures { let names = map (λ name. name.now) names.now in
        IfOk result (λ all. (said : List ℕ)
        × AreFilesOf (F.lists files.now) Task.Tree names (word_octets all.items) said
        × Appends (E.contents err.old) (E.contents err.new) said) }
{
    let given = Names {
        all: copied(alloc, names)?,
        passed: 0,
    };
    let first = level(alloc, files, err, given, true)?;
    let Names { all, passed } = opened_down(alloc, files, err, first)?;
    tell_passed(err, passed)?;
    Ok(all)
}

/// Returns the names of a request's files: those of the files in and below its directories, as
/// [`opened`] does, if it may name directories, and else its own.
///
/// # Errors
///
/// Returns an error only if memory runs out or writing to standard error fails.
pub fn file_names<F: FileSource, E: Write>(
    alloc: Global,
    files: &F,
    err: &mut E,
    request: &Request<'_>,
) -> Result<Vec<Vec<u8>>>
    ensures { let names = map (λ name. name.now) request.now.files.items in
        IfOk result (λ all. (said : List ℕ)
        × AreFilesOf (F.lists files.now) request.now.task names (word_octets all.items) said
        × Appends (E.contents err.old) (E.contents err.new) said) }
{
    match request.task {
        Task::Tree => opened(alloc, files, err, &request.files),
        Task::Show | Task::Validate | Task::Help | Task::Version => {
            let names = copied(alloc, &request.files)?;
            Ok(names)
        }
    }
}

/// Returns the path with which names begin below the directory of a name that is given alone: the
/// name with a `/` at its end. Returns none of several names.
///
/// # Errors
///
/// Returns an error only if memory runs out.
pub fn roots_of(alloc: Global, names: &[&[u8]]) -> Result<Vec<Vec<u8>>, AllocError>
    ensures { IfOk result (λ roots.
        word_octets roots.items ≡ roots_of (map (λ name. name.now) names.now)) }
{
    let mut roots = Vec::new(alloc);
    if names.len() == 1 {
        roots.push(slashed(names[0].to_vec(alloc)?)?)?;
    }
    Ok(roots)
}

/// Returns the request below these directories.
///
/// # Errors
///
/// Returns an error only if memory runs out.
pub fn with_roots<'a>(
    alloc: Global,
    request: Request<'a>,
    roots: &'a [Vec<u8>],
) -> Result<Request<'a>, AllocError>
    ensures { IfOk result (λ new.
        fields_of new ≡ record (fields_of request.entry) { folders = word_octets roots.now }) }
{
    let mut folders = Vec::new(alloc);
    for root in roots {
        folders.push(root.as_slice())?;
    }
    let mut request = request;
    request.folders = folders;
    Ok(request)
}

/// Returns the request with these files in place of its own.
///
/// # Errors
///
/// Returns an error only if memory runs out.
pub fn with_files<'a>(
    alloc: Global,
    request: Request<'a>,
    names: &'a [Vec<u8>],
) -> Result<Request<'a>, AllocError>
    ensures { IfOk result (λ new.
        fields_of new ≡ record (fields_of request.entry) { files = word_octets names.now }) }
{
    let mut files = Vec::new(alloc);
    for name in names {
        files.push(name.as_slice())?;
    }
    let mut request = request;
    request.files = files;
    Ok(request)
}

/// Returns the request with these files after its own.
///
/// # Errors
///
/// Returns an error only if memory runs out.
pub fn with_further<'a>(
    request: Request<'a>,
    names: &'a [Vec<u8>],
) -> Result<Request<'a>, AllocError>
    ensures { let r = fields_of request.entry in IfOk result (λ new.
        fields_of new ≡ record r { files = r.files ++ word_octets names.now }) }
{
    let mut request = request;
    for name in names {
        request.files.push(name.as_slice())?;
    }
    Ok(request)
}

/// Returns the request with these files and CRLs in place of its own.
///
/// # Errors
///
/// Returns an error only if memory runs out.
pub fn with_path<'a>(
    alloc: Global,
    request: Request<'a>,
    names: &'a [Vec<u8>],
    list_names: &'a [Vec<u8>],
) -> Result<Request<'a>, AllocError>
    ensures { let r = fields_of request.entry in IfOk result (λ new. fields_of new
        ≡ record r { files = word_octets names.now; lists = word_octets list_names.now }) }
{
    let mut lists = Vec::new(alloc);
    for name in list_names {
        lists.push(name.as_slice())?;
    }
    let mut request = with_files(alloc, request, names)?;
    request.lists = lists;
    Ok(request)
}
