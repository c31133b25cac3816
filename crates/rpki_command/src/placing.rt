//! How a file of the system is written: under a new name beside its place, and then put there in
//! one step. A full disk or a signal therefore leaves the existing file unchanged.
use std::alloc::{AllocError, Global};
use std::fs::{File, Metadata, OpenOptions};
use std::io::{ErrorKind, Write};
use std::os::unix::fs::MetadataExt;
use std::{fs, io};

// How many names are tried beside a place.
const TRIES: u32 = 1000;

/// The entry at a place.
#[derive(Drop)]
pub enum Place {
    Nothing,
    /// A file, or a link to one, with these metadata.
    File(Metadata),
    /// A directory, a device, a pipe, or a link that leads nowhere.
    Other,
}

impl Place {
    /// Returns the entry at the place of this name.
    pub fn of(rt: &HostRuntime, name: &str) -> Place {
        if fs::symlink_metadata(rt, name).is_err() {
            return Place::Nothing;
        }
        match fs::metadata(rt, name) {
            Ok(there) if there.is_file() => Place::File(there),
            _ => Place::Other,
        }
    }
}

/// Returns whether the file of this name is the one with these metadata.
pub fn is_file(rt: &HostRuntime, there: &Metadata, name: &str) -> bool {
    match fs::metadata(rt, name) {
        Ok(other) => other.dev() == there.dev() && other.ino() == there.ino(),
        Err(_) => false,
    }
}

// The name with this number in the folder of a name.
fn name_beside(alloc: Global, name: &str, number: u32) -> Result<String, AllocError> {
    match name.rsplit_once('/') {
        Some((folder, _)) => format!(in alloc; "{folder}/.rpki-{number}"),
        None => format!(in alloc; ".rpki-{number}"),
    }
}

// An open file beside a place, with its name.
#[derive(Drop)]
struct Beside {
    name: String,
    file: File,
}

// Makes the file of this number beside a place.
fn make_beside(rt: &HostRuntime, place: &str, number: u32) -> io::Result<Beside> {
    let name = name_beside(rt.alloc(), place, number)?;
    let file = File::create_new(rt, name.as_str())?;
    Ok(Beside { name, file })
}

// Makes a file beside a place, under the first name that nothing has.
fn open_beside(rt: &HostRuntime, place: &str) -> io::Result<Beside> {
    for number in 0..TRIES {
        match make_beside(rt, place, number) {
            Err(error) if error.kind() == ErrorKind::AlreadyExists => drop(error),
            made => return made,
        }
    }
    Err(io::Error::other("too many files .rpki-N are beside it"))
}

// Writes octets into an open file, and waits until the disk has them.
fn fill(mut file: File, octets: &[u8]) -> io::Result<()> {
    let written = file.write_all(octets);
    let synced = file.sync_all();
    drop(file);
    written?;
    synced
}

// Puts a file into a place where nothing is, on a file system without links.
fn claim(rt: &HostRuntime, beside: &str, place: &str) -> io::Result<()> {
    let claimed = File::create_new(rt, place)?;
    drop(claimed);
    let put = fs::rename(rt, beside, place);
    if put.is_err() {
        let _removed = fs::remove_file(rt, place);
    }
    put
}

// Puts a file into a place where nothing is. What has come there meanwhile is in the way.
fn link(rt: &HostRuntime, beside: &str, place: &str) -> io::Result<()> {
    match fs::hard_link(rt, beside, place) {
        Err(error) if error.kind() != ErrorKind::AlreadyExists => {
            drop(error);
            claim(rt, beside, place)
        }
        put => put,
    }
}

// Puts a file into a place: over what is there, where that is said.
fn put(rt: &HostRuntime, beside: &str, place: &str, overwrites: bool) -> io::Result<()> {
    if overwrites {
        return fs::rename(rt, beside, place);
    }
    link(rt, beside, place)
}

// Fills a file beside a place, and puts it there. Of a file that isn't put nothing is left.
fn place_beside(
    rt: &HostRuntime,
    beside: Beside,
    place: &str,
    octets: &[u8],
    overwrites: bool,
) -> io::Result<()> {
    let Beside { name, file } = beside;
    let mut put_there = fill(file, octets);
    if put_there.is_ok() {
        put_there = put(rt, name.as_str(), place, overwrites);
    }
    // (where it was renamed, there is nothing to remove)
    let _removed = fs::remove_file(rt, name.as_str());
    drop(name);
    put_there
}

/// Writes a file at a place that is empty.
pub fn make_new(rt: &HostRuntime, place: &str, octets: &[u8], overwrites: bool) -> io::Result<()> {
    let beside = open_beside(rt, place)?;
    place_beside(rt, beside, place, octets, overwrites)
}

// Makes a file beside the place of one that has these data, which the same may read. Errs where it
// can't be made so, and has left nothing.
fn open_beside_as(rt: &HostRuntime, place: &str, there: &Metadata) -> io::Result<Beside> {
    let beside = open_beside(rt, place)?;
    match beside.file.set_permissions(there.permissions()) {
        Ok(()) => Ok(beside),
        Err(error) => {
            let _removed = fs::remove_file(rt, beside.name.as_str());
            drop(beside);
            Err(error)
        }
    }
}

// Puts octets in place of a file that isn't a link, and keeps who may read it.
fn replace_file(rt: &HostRuntime, place: &str, there: &Metadata, octets: &[u8]) -> io::Result<()> {
    // What may not be written isn't replaced.
    drop(OpenOptions::new().write(true).open(rt, place)?);
    let beside = open_beside_as(rt, place, there)?;
    place_beside(rt, beside, place, octets, true)
}

// Whether a name is that of a link.
fn is_link(rt: &HostRuntime, name: &str) -> bool {
    match fs::symlink_metadata(rt, name) {
        Ok(metadata) => metadata.is_symlink(),
        Err(_) => false,
    }
}

/// Replaces the content of the file with these metadata. A link to it stays.
pub fn replace(rt: &HostRuntime, name: &str, there: &Metadata, octets: &[u8]) -> io::Result<()> {
    if !is_link(rt, name) {
        return replace_file(rt, name, there, octets);
    }
    let place = fs::canonicalize(rt, name)?;
    let replaced = replace_file(rt, place.as_str(), there, octets);
    drop(place);
    replaced
}

/// Writes bytes to an entry that isn't a file, such as a device.
pub fn write_there(rt: &HostRuntime, name: &str, octets: &[u8]) -> io::Result<()> {
    let mut options = OpenOptions::new();
    options.write(true);
    options.create(true);
    options.truncate(true);
    let mut file = options.open(rt, name)?;
    file.write_all(octets)
}
