//! The progress of reading many files, for a person who waits.
ghost use Rattle.std.specs.Prelude.{◌≡◌, ◌⊎◌, ◌↔◌, ◌≤◌, ◌%◌, IsTrue, OnOk};
ghost use Rattle.std.specs.Io.KnownBytes.{Appends};
ghost use Rattle.rpki_command.specs.Messages.{progress_message};

use std::io;
use std::io::{IsTerminal, Write};

// After how many files a person is told.
const EACH: usize = 1000;

// Whether a person is told, when so many of so many files were read: after each thousand, and of as
// many after the last.
fn is_told(read: usize, of: usize) -> bool
    ensures { IsTrue result ↔ ((1000 ≤ of) × ((read % 1000 ≡ 0) ⊎ (read ≡ of))) }
{
    of >= EACH && (read % EACH == 0 || read == of)
}

// Tells it. A line is written over the one before.
fn put_progress<E: Write>(err: &mut E, read: usize, of: usize) -> io::Result<()>
    ensures { OnOk result
        (Appends (E.contents err.old) (E.contents err.new) (progress_message read of)) }
{
    if read == of {
        return writeln!(err, "\rrpki: {read} of {of} files read");
    }
    write!(err, "\rrpki: {read} of {of} files read")
}

/// Reports on standard error, if that is a terminal, how many of the files were read: after each
/// thousand files, and after the last one if there are at least a thousand.
pub fn tell_read(rt: &HostRuntime, read: usize, of: usize) {
    if !is_told(read, of) {
        return;
    }
    let mut err = rt.stderr();
    if err.is_terminal() {
        let _told = put_progress(&mut err, read, of);
    }
}
