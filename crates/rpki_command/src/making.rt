//! The maker of files, and why a file can't be written.
ghost use Rattle.std.specs.List.{list_any};
ghost use Rattle.std.specs.Prelude.{◌≡◌, [], ◌∷◌, List, None, Option, IfErr, IsFalse, OnErr, OnOk, bytes_eq, map};
ghost use Rattle.rpki_command.specs.Outputs.{Makes, is_among};
ghost use Rattle.rpki_command.specs.UnreadFiles.{IsWhyUnmade, unmade_text};

use crate::files::write_failure;
use crate::placing::{Place, is_file, make_new, replace, write_there};
use std::fs::Metadata;
use std::io::ErrorKind;
use std::{fmt, io};

/// Why a file can't be written.
#[derive(Drop)]
pub enum Unmade {
    /// Its name isn't UTF-8, which names of files have to be here (own).
    OtherName,
    /// This run read it.
    WasRead,
    /// This run read it, under another name.
    WasReadAs,
    Failed(io::Error),
}

impl fmt::Display for Unmade {
    ghost output = { λ why. unmade_text why };

    fn fmt<W: fmt::Write>(&self, f: &mut fmt::Formatter<W>) -> fmt::Result {
        match self {
            Unmade::OtherName => f.write_str("a file whose name isn't UTF-8 can't be opened"),
            Unmade::WasRead => f.write_str("is read too; expected another file for --out"),
            Unmade::WasReadAs => {
                f.write_str("is read too, under another name; expected another file for --out")
            }
            Unmade::Failed(error) => match error.kind() {
                ErrorKind::AlreadyExists => f.write_str("exists already (--force replaces it)"),
                _ => write_failure(f, error),
            },
        }
    }
}

/// Why the maker of files writes none.
#[derive(Drop)]
pub enum Refused {
    /// This run read the file, under another name.
    WasRead,
    Failed(io::Error),
}

/// A maker of files by their names. An implementation states by the ghost member `made` which files
/// it has written, if that is known. It isn't known for the system's files.
pub trait FileMaker {
    ghost use Rattle.rpki_command.specs.Outputs.{MadeFile};

    /// The files that were written.
    ghost made: { Self → Option (List MadeFile) } = { λ _. None };

    /// Writes the file of this name with these bytes; `read` has the names of the files that were
    /// read. An existing file is overwritten only if `overwrites` is set and it wasn't read.
    ///
    /// # Errors
    ///
    /// Returns why the file can't be written. An existing file is then unchanged.
    fn make_file(
        &mut self,
        name: &str,
        octets: &[u8],
        overwrites: bool,
        read: &[&[u8]],
    ) -> Result<(), Refused>
        ensures made { let read = map (λ name. name.now) read.now in
            OnOk result (Makes (made self.old) (made self.new)
            (record { name = name.now; octets = octets.now; overwrites = overwrites; read = read } ∷ [])) }
        ensures unmade { OnErr result (made self.new ≡ made self.old) };
}

/// Writes the system's files.
#[derive(Drop)]
pub struct SystemFiles<'a> {
    pub rt: &'a HostRuntime,
}

impl SystemFiles<'_> {
    // Whether the file that has these data is one of those of these names.
    fn was_read(&self, there: &Metadata, read: &[&[u8]]) -> bool {
        read.iter().any(|name| match str::from_utf8(name) {
            Ok(name) => is_file(self.rt, there, name),
            Err(_) => false,
        })
    }
}

// That a file is in the way.
fn in_the_way() -> Result<(), Refused> {
    Err(Refused::Failed(io::Error::from(ErrorKind::AlreadyExists)))
}

// As the maker of files says that one can't be made.
fn unless_failed(made: io::Result<()>) -> Result<(), Refused> {
    match made {
        Ok(()) => Ok(()),
        Err(error) => Err(Refused::Failed(error)),
    }
}

impl FileMaker for SystemFiles<'_> {
    fn make_file(
        &mut self,
        name: &str,
        octets: &[u8],
        overwrites: bool,
        read: &[&[u8]],
    ) -> Result<(), Refused> {
        match Place::of(self.rt, name) {
            Place::Nothing => unless_failed(make_new(self.rt, name, octets, overwrites)),
            Place::File(there) if self.was_read(&there, read) => Err(Refused::WasRead),
            Place::File(_) | Place::Other if !overwrites => in_the_way(),
            Place::File(there) => unless_failed(replace(self.rt, name, &there, octets)),
            Place::Other => unless_failed(write_there(self.rt, name, octets)),
        }
    }
}

// Whether a name is one of these, each of which is borrowed.
fn is_one_of(name: &[u8], names: &[&[u8]]) -> bool
    ensures { result ≡ list_any (λ other. bytes_eq other.now name.now) names.now }
{
    names.iter().any(|other| *other == name)
}

// Whether a name is one of these.
fn is_among(name: &[u8], names: &[&[u8]]) -> bool
    ensures { result ≡ is_among name.now (map (λ name. name.now) names.now) }
{
    is_one_of(name, names)
}

/// Writes the file of a name, which may not be UTF-8; `read` has the names of the files that were
/// read.
///
/// # Errors
///
/// Returns why the file can't be written, or that it is one of those that were read.
pub fn make_named<M: FileMaker>(
    files: &mut M,
    name: &[u8],
    octets: &[u8],
    overwrites: bool,
    read: &[&[u8]],
) -> Result<(), Unmade>
    ensures unmade { IfErr result (IsWhyUnmade (map (λ name. name.now) read.now) name.now) }
    ensures kept { OnErr result (M.made files.new ≡ M.made files.old) }
    ensures apart { OnOk result (IsFalse (is_among name.now (map (λ name. name.now) read.now))) }
    ensures made { let read = map (λ name. name.now) read.now in
        OnOk result (Makes (M.made files.old) (M.made files.new)
        (record { name = name.now; octets = octets.now; overwrites = overwrites; read = read } ∷ [])) }
{
    if is_among(name, read) {
        return Err(Unmade::WasRead);
    }
    match str::from_utf8(name) {
        Ok(name) => match files.make_file(name, octets, overwrites, read) {
            Ok(()) => Ok(()),
            Err(Refused::WasRead) => Err(Unmade::WasReadAs),
            Err(Refused::Failed(error)) => Err(Unmade::Failed(error)),
        },
        Err(_) => Err(Unmade::OtherName),
    }
}
