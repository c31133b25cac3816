//! The command for people: `rpki show`, `rpki validate`, `rpki tree`, `rpki prepare` and `rpki
//! complete`. It shows certificates, CRLs and TALs, validates paths of files, validates all
//! certificates among files, and prepares and completes certificates and CRLs.
#![tactic(auto)]

ghost use Rattle.std.specs.Prelude.{◌≡◌, ◌≢◌, ◌↔◌, ◌⊎◌, ◌≤◌, IfOk, IsErr, IsErrAnd, IsOkAnd};
ghost use Rattle.std.specs.IoError.{error_kind};
ghost use Rattle.std.specs.Process.{exit_status};
ghost use Rattle.rpki_text.specs.CommandLines.Views.{word_octets};
ghost use Rattle.rpki_lines.specs.Watching.{HasFailed, device};
ghost use Rattle.rpki_command.specs.Failures.{TellsFailure};
ghost use Rattle.rpki_command.specs.Runs.{RunEndsAs};

mod about;
mod answering;
mod clock;
mod ended;
mod files;
mod folders;
mod inputs;
mod making;
mod passed;
mod pem;
mod placing;
mod progress;
mod reading;
mod requests;
mod running;
mod searching;
mod speaking;
mod words;

use anyhow::{Error, Result};
use clock::MomentSource;
use ended::Ended;
use files::FileSource;
use making::{FileMaker, SystemFiles};
use rpki_answers::{Outcome, status_of};
use running::run;
use speaking::Speaker;
use std::alloc::Global;
use std::io;
use std::io::{ErrorKind, Write};
use std::process::ExitCode;
use words::words_of;

// A reader that has closed its end of a pipe wants no more, and nothing failed.
fn unless_closed(written: io::Result<()>) -> io::Result<()>
    ensures { IsErr result ↔ IsErrAnd written (λ e. error_kind e ≢ ErrorKind.BrokenPipe) }
{
    match written {
        Ok(()) => Ok(()),
        Err(error) => {
            if error.kind() == ErrorKind::BrokenPipe {
                return Ok(());
            }
            Err(error)
        }
    }
}

// The outcome of a run, unless the run failed, or what it writes to.
fn settled(ended: Result<Ended>) -> Result<Outcome>
    ensures outcome { IfOk result (λ outcome. IsOkAnd ended (λ e. outcome ≡ e.outcome)) }
    ensures fails { IsErr result → IsErr ended ⊎ IsOkAnd ended
        (λ e. IsErrAnd e.written (λ why. error_kind why ≢ ErrorKind.BrokenPipe)) }
{
    let Ended { outcome, written } = ended?;
    unless_closed(written)?;
    Ok(outcome)
}

// Says why a run failed, and ends so. Where this can't be said, the status still tells it.
fn failed<E: Write>(alloc: Global, err: &mut Speaker<E>, error: Error) -> ExitCode
    ensures status { exit_status result ≡ 3 }
    ensures told { TellsFailure E.contents err.new.watched }
{
    match format!(in alloc; "{error:#}") {
        Ok(why) => {
            err.tell_failure(&why);
            drop(why);
        }
        Err(_) => err.tell_failure("out of memory"),
    }
    drop(error);
    ExitCode::from(3)
}

// Runs the command on the words of a command line: writes what the files hold that they name, or
// the verdict on their path, or on each certificate among them, or what they prepare or complete.
// The exit status is 0 where all files were shown, the path or all certificates are accepted, or
// something was prepared or completed; 1 where a file is no certificate, list or locator, the path
// is rejected, a file given as a list or a locator is none, or nothing is prepared or completed; 2
// where the command line has another form, or an option a value that it doesn't take; and 3 where a
// file can't be read or made, which is said, or where the clock, memory or an output failed, which
// the last line says, unless it can't be said.
fn command<S: FileSource + MomentSource, M: FileMaker, O: Write, E: Write>(
    alloc: Global,
    system: &S,
    files: &mut M,
    out: &mut O,
    err: &mut Speaker<E>,
    words: &[Vec<u8>],
) -> ExitCode
    requires { HasFailed err.old.watched → ⊥ }
    ensures success { let words = word_octets words.now in
        let Ends = RunEndsAs (S.reads system.now) (S.lists system.now) (S.tells system.now) words in
        exit_status result ≡ 0 → Ends Outcome.Success (E.contents (device err.old.watched))
        (E.contents (device err.new.watched)) (M.made files.old) (M.made files.new) }
    ensures rejection { let words = word_octets words.now in
        let Ends = RunEndsAs (S.reads system.now) (S.lists system.now) (S.tells system.now) words in
        exit_status result ≡ 1 → Ends Outcome.Rejection (E.contents (device err.old.watched))
        (E.contents (device err.new.watched)) (M.made files.old) (M.made files.new) }
    ensures wrong_use { let words = word_octets words.now in
        let Ends = RunEndsAs (S.reads system.now) (S.lists system.now) (S.tells system.now) words in
        exit_status result ≡ 2 → Ends Outcome.WrongUse (E.contents (device err.old.watched))
        (E.contents (device err.new.watched)) (M.made files.old) (M.made files.new) }
    ensures failure { let words = word_octets words.now in
        let Ends = RunEndsAs (S.reads system.now) (S.lists system.now) (S.tells system.now) words in
        exit_status result ≡ 3 → Ends Outcome.Unread (E.contents (device err.old.watched))
        (E.contents (device err.new.watched)) (M.made files.old) (M.made files.new)
        ⊎ TellsFailure E.contents err.new.watched }
    ensures no_other { exit_status result ≤ 3 }
{
    let ended = settled(run(alloc, system, files, out, err, words));
    let status = status_of(&ended);
    match ended {
        Ok(_outcome) => ExitCode::from(status),
        Err(error) => failed(alloc, err, error),
    }
}

fn main(rt: HostRuntime) -> ExitCode {
    let mut out = rt.stdout();
    let mut err = Speaker::new(rt.stderr());
    match words_of(&rt) {
        Ok(words) => {
            let mut files = SystemFiles { rt: &rt };
            let code = command(rt.alloc(), &rt, &mut files, &mut out, &mut err, &words);
            drop(words);
            code
        }
        Err(error) => failed(rt.alloc(), &mut err, error),
    }
}
