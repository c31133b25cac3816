//! The names of files and directories that are to be validated and can't be read.
ghost use Rattle.std.specs.Prelude.{◌≡◌, ◌++◌, ◌∷◌, List, ℕ, drop, map, IfOk};
ghost use Rattle.rpki_answers.specs.UnreadNames.{is_closed_name, is_next, open_name, unread_names};

use rpki_files::BareObject;
use std::alloc::{AllocError, Global};

/// Returns whether a name is that of a directory that couldn't be listed, which was reported when it
/// was opened: a NUL follows its own name.
pub fn is_closed_name(name: &[u8]) -> bool
    ensures { result ≡ is_closed_name name.now }
{
    name.ends_with(b"\0".as_slice())
}

// A name without that NUL.
fn open_name(name: &[u8]) -> &[u8]
    ensures { result.now ≡ open_name name.now }
{
    if is_closed_name(name) {
        &name[..name.len().saturating_sub(1)]
    } else {
        name
    }
}

// Whether the file at a place has the name.
fn is_at(name: &[u8], files: &[BareObject<'_>], place: usize) -> bool
    ensures { result ≡ is_next name.now (drop place files.now) }
{
    match files.get(place) {
        Some(file) => file.name().as_bytes() == name,
        None => false,
    }
}

// Adds a name, unless the file at the place has it. Returns the place of the next file.
fn push_unread<'a>(
    unread: &mut Vec<&'a [u8]>,
    name: &'a [u8],
    files: &[BareObject<'_>],
    place: usize,
) -> Result<usize, AllocError>
    ensures { IfOk result (λ next. (more : List (List ℕ))
        → map (λ name. name.now) unread.old.items ++ unread_names (name.now ∷ more) (drop place files.now)
        ≡ map (λ name. name.now) unread.new.items ++ unread_names more (drop next files.now)) }
{
    if is_at(name, files, place) {
        return Ok(place + 1);
    }
    unread.push(open_name(name))?;
    Ok(place)
}

/// Returns those of the names that no file has, if the files are in the order of the names.
///
/// # Errors
///
/// Returns an error only if memory runs out.
pub fn unread_names<'a>(
    alloc: Global,
    names: &[&'a [u8]],
    files: &[BareObject<'_>],
) -> Result<Vec<&'a [u8]>, AllocError>
    ensures { let names = map (λ name. name.now) names.now in IfOk result (λ unread.
        map (λ name. name.now) unread.items ≡ unread_names names files.now) }
{
    let mut unread = Vec::new(alloc);
    let mut next = 0;
    for name in names {
        next = push_unread(&mut unread, *name, files, next)?;
    }
    Ok(unread)
}
