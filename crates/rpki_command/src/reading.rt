//! The files of a request, and the reports on those that can't be read.
ghost use Rattle.std.specs.Io.KnownBytes.{Appends};
ghost use Rattle.std.specs.Prelude.{◌≡◌, [], ◌∷◌, ◌++◌, All, List, ℕ, Some, map, IfErr, IfOk, MatchOption, OnOk};
ghost use Rattle.rpki_text.specs.CommandLines.Views.{fields_of};
ghost use Rattle.rpki_command.specs.NamedFiles.{AreFilesRead, AreObjectsRead, AreRead};
ghost use Rattle.rpki_command.specs.UnreadFiles.{IsLineAbout, IsWhyUnread, SaysUnread, input_name, file_message};
ghost use Rattle.rpki_verdicts.specs.GivenLocators.{LocatorFields, IsRead, locator_files};

use crate::files::{FileSource, Unread};
use anyhow::{Result, anyhow};
use rpki_answers::is_closed_name;
use rpki_document::Characters;
use rpki_files::{BareObject, Object, read_bare_object, read_object};
use rpki_text::command_line::Request;
use rpki_verdicts::GivenLocator;
use std::alloc::{AllocError, Global};
use std::fmt::Display;
use std::io;
use std::io::Write;

// Writes what a file is called, and why nothing comes of it.
fn put_line<E: Write>(err: &mut E, name: &[u8], why: &str) -> io::Result<()>
    ensures { let message = file_message (input_name name.now) why.now in
        OnOk result (Appends (E.contents err.old) (E.contents err.new) message) }
{
    if name == b"-".as_slice() {
        return writeln!(err, "rpki: standard input: {why}");
    }
    let name = Characters(name);
    writeln!(err, "rpki: {name}: {why}")
}

/// Writes a line with a file's name and what is wrong with it.
///
/// # Errors
///
/// Returns an error if memory runs out or writing fails.
pub fn tell<E: Write, W: Display>(alloc: Global, err: &mut E, name: &[u8], why: &W) -> Result<()>
    ensures { OnOk result ((line : List ℕ) × IsLineAbout (input_name name.now) (W.output why.now) line
        × Appends (E.contents err.old) (E.contents err.new) line) }
{
    let text = why.to_string(alloc)?;
    put_line(err, name, &text)?;
    drop(text);
    Ok(())
}

/// Returns the content of the file of this name, or why it can't be read.
pub fn octets_by<'a, F: FileSource>(
    alloc: Global,
    files: &F,
    name: &'a [u8],
    most: u64,
) -> Result<(&'a str, Vec<u8>), Unread>
    ensures name { IfOk result (λ read. read.0.now ≡ name.now) }
    ensures octets { IfOk result (λ read.
        F.reads files.now name.now most (Some read.1.items)) }
    ensures unread { IfErr result (IsWhyUnread (F.reads files.now) most name.now) }
{
    match str::from_utf8(name) {
        Ok(text) => match files.read_file(alloc, text, most) {
            Ok(octets) => Ok((text, octets)),
            Err(why) => Err(why),
        },
        Err(_) => Err(Unread::OtherName),
    }
}

// What a file of this name holds; where it can't be read, that is said, unless it was said when its
// folder was opened, and there is nothing.
fn octets_told<'a, F: FileSource, E: Write>(
    alloc: Global,
    files: &F,
    err: &mut E,
    name: &'a [u8],
    most: u64,
) -> Result<Option<(&'a str, Vec<u8>)>>
    ensures { let reads = F.reads files.now in IfOk result (λ read. (said : List ℕ)
        × MatchOption read (SaysUnread reads most name.now said)
        (λ r. (r.0.now ≡ name.now) × reads name.now most (Some r.1.items) × (said ≡ []))
        × Appends (E.contents err.old) (E.contents err.new) said) }
{
    if is_closed_name(name) {
        return Ok(None);
    }
    match octets_by(alloc, files, name, most) {
        Ok(read) => Ok(Some(read)),
        Err(Unread::Memory) => Err(anyhow!("out of memory")),
        Err(why) => {
            tell(alloc, err, name, &why)?;
            drop(why);
            Ok(None)
        }
    }
}

/// What is kept of a file: its object with all that is read of it, or its bare object.
pub trait Kept<'a>: Sized + Drop {
    ghost use Rattle.rpki_files.specs.Files.{FileFields};
    ghost use Rattle.rpki_files.specs.PemFiles.{IsObjectOf};

    /// The file's name, and the bytes of its object.
    ghost fields: { Self → FileFields };

    /// Reads the object of a file.
    ///
    /// # Errors
    ///
    /// Returns an error only if memory runs out.
    fn keep(alloc: Global, name: &'a str, file: Vec<u8>) -> Result<Self, AllocError>
        ensures name { IfOk result (λ kept. (fields kept).name ≡ name.now) }
        ensures object { IfOk result (λ kept. IsObjectOf file.items (fields kept).octets) };
}

impl<'a> Kept<'a> for Object<'a> {
    ghost fields = { λ object. object };

    fn keep(alloc: Global, name: &'a str, file: Vec<u8>) -> Result<Object<'a>, AllocError> {
        read_object(alloc, name, file)
    }
}

impl<'a> Kept<'a> for BareObject<'a> {
    ghost fields = { λ object. object };

    fn keep(alloc: Global, name: &'a str, file: Vec<u8>) -> Result<BareObject<'a>, AllocError> {
        read_bare_object(alloc, name, file)
    }
}

// Reads a file and pushes what is kept of it, if it can be read.
fn push_file<'a, F: FileSource, E: Write, K: Kept<'a>>(
    alloc: Global,
    files: &F,
    err: &mut E,
    all: &mut Vec<K>,
    name: &'a [u8],
    most: u64,
) -> Result<()>
    ensures { OnOk result ((its : List K) × (said : List ℕ)
        × AreObjectsRead (F.reads files.now) most (name.now ∷ []) (map K.fields its) said
        × (all.new.items ≡ all.old.items ++ its)
        × Appends (E.contents err.old) (E.contents err.new) said) }
{
    match octets_told(alloc, files, err, name, most)? {
        Some((text, octets)) => {
            let file = K::keep(alloc, text, octets)?;
            all.push(file)?;
            Ok(())
        }
        None => Ok(()),
    }
}

// Reads a file and pushes the locator that it is given as, or what is wrong of it, if the file can
// be read.
fn push_locator<'a, F: FileSource, E: Write>(
    alloc: Global,
    files: &F,
    err: &mut E,
    all: &mut Vec<GivenLocator<'a>>,
    name: &'a [u8],
    most: u64,
    strict: bool,
) -> Result<()>
    ensures { OnOk result ((its : List LocatorFields) × (said : List ℕ)
        × AreFilesRead (F.reads files.now) most (name.now ∷ []) (locator_files its) said
        × All (IsRead strict) its × (all.new.items ≡ all.old.items ++ its)
        × Appends (E.contents err.old) (E.contents err.new) said) }
{
    match octets_told(alloc, files, err, name, most)? {
        Some((text, octets)) => {
            let locator = GivenLocator::read(alloc, text, octets, strict)?;
            all.push(locator)?;
            Ok(())
        }
        None => Ok(()),
    }
}

/// Reads the files of these names as TALs, each of at most so many bytes, and reports on standard
/// error why a file can't be read.
///
/// # Errors
///
/// Returns an error only if memory runs out or writing to standard error fails.
pub fn read_locators<'a, F: FileSource, E: Write>(
    alloc: Global,
    files: &F,
    err: &mut E,
    names: &[&'a [u8]],
    most: u64,
    strict: bool,
) -> Result<Vec<GivenLocator<'a>>>
    ensures files { let names = map (λ name. name.now) names.now in
        IfOk result (λ all. (said : List ℕ)
        × AreFilesRead (F.reads files.now) most names (locator_files all.items) said
        × Appends (E.contents err.old) (E.contents err.new) said) }
    ensures read { IfOk result (λ all. All (IsRead strict) all.items) }
{
    let mut all = Vec::new(alloc);
    for name in names {
        push_locator(alloc, files, err, &mut all, *name, most, strict)?;
    }
    Ok(all)
}

/// Reads the files of these names, each of at most so many bytes, and reports on standard error why
/// a file can't be read.
///
/// # Errors
///
/// Returns an error only if memory runs out or writing to standard error fails.
pub fn read_files<'a, F: FileSource, E: Write, K: Kept<'a>>(
    alloc: Global,
    files: &F,
    err: &mut E,
    names: &[&'a [u8]],
    most: u64,
) -> Result<Vec<K>>
    ensures { let names = map (λ name. name.now) names.now in
        IfOk result (λ all. (said : List ℕ)
        × AreObjectsRead (F.reads files.now) most names (map K.fields all.items) said
        × Appends (E.contents err.old) (E.contents err.new) said) }
{
    let mut all = Vec::new(alloc);
    let mut read = 0;
    for name in names {
        push_file(alloc, files, err, &mut all, *name, most)?;
        read += 1;
        files.hear_read(read, names.len());
    }
    Ok(all)
}

/// The files, CRLs and TALs of a request that could be read.
#[derive(Drop)]
pub struct GivenFiles<'a, K> {
    pub files: Vec<K>,
    pub lists: Vec<K>,
    pub locators: Vec<GivenLocator<'a>>,
}

/// Reads the files, CRLs and TALs of a request, and reports on standard error why a file can't be
/// read.
///
/// # Errors
///
/// Returns an error only if memory runs out or writing to standard error fails.
pub fn read_given<'a, F: FileSource, E: Write, K: Kept<'a>>(
    alloc: Global,
    files: &F,
    err: &mut E,
    request: &Request<'a>,
) -> Result<GivenFiles<'a, K>>
    ensures { let request = fields_of request.now in IfOk result (λ given. (said : List ℕ)
        × (let all = map K.fields given.files.items in let lists = map K.fields given.lists.items in
        AreRead (F.reads files.now) request all lists given.locators.items said)
        × Appends (E.contents err.old) (E.contents err.new) said) }
{
    let most = request.max_size;
    let members = read_files(alloc, files, err, &request.files, most)?;
    let lists = read_files(alloc, files, err, &request.lists, most)?;
    let locators = read_locators(alloc, files, err, &request.locators, most, request.strict)?;
    Ok(GivenFiles {
        files: members,
        lists,
        locators,
    })
}
