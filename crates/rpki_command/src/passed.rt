//! The reports of a search: the files that it skips, and that there is no CRL.
ghost use Rattle.std.specs.Io.KnownBytes.{Appends};
ghost use Rattle.std.specs.Prelude.{◌≡◌, ◌==◌, [], List, ℕ, Ok, OnOk, Some, codes, if◌then◌else◌};
ghost use Rattle.rpki_text.specs.CommandLines.Views.{word_octets};
ghost use Rattle.rpki_answers.specs.VerdictTexts.{SaysOfEach};
ghost use Rattle.rpki_command.specs.PassedFiles.{SaysIfPassed, SaysOfOthers, neither_text, no_list_message};

use crate::reading::tell;
use anyhow::Result;
use rpki_files::BareObject;
use std::alloc::Global;
use std::io::Write;
use std::{fmt, io};

// That a file is neither a certificate nor a CRL, where so many bytes follow a CRL that it starts
// with.
#[derive(Drop)]
struct Neither(usize);

// What bytes do, of which there are so many.
fn follow(left: usize) -> &'static str
    ensures { result.now ≡ (if left == 1 then codes " byte follows" else codes " bytes follow") }
{
    if left == 1 {
        " byte follows"
    } else {
        " bytes follow"
    }
}

impl fmt::Display for Neither {
    ghost output = { λ neither. Some (neither_text neither.0) };

    fn fmt<W: fmt::Write>(&self, f: &mut fmt::Formatter<W>) -> fmt::Result {
        let left = self.0;
        if left == 0 {
            return f.write_str("neither a certificate nor a CRL");
        }
        let follow = follow(left);
        write!(f, "neither a certificate nor a CRL, {left}{follow} its CRL")
    }
}

// Says of a file that it is passed over, where it is neither a certificate nor a list.
fn tell_if_passed<E: Write>(alloc: Global, err: &mut E, file: &BareObject<'_>) -> Result<()>
    ensures { OnOk result ((said : List ℕ) × SaysIfPassed file.now said
        × Appends (E.contents err.old) (E.contents err.new) said) }
{
    if file.is_certificate() || file.is_list() {
        return Ok(());
    }
    let why = Neither(file.left());
    tell(alloc, err, file.name().as_bytes(), &why)
}

// Says it of each of the files.
fn tell_each<E: Write>(alloc: Global, err: &mut E, files: &[BareObject<'_>]) -> Result<()>
    ensures { OnOk result ((said : List ℕ) × SaysOfEach SaysIfPassed files.now said
        × Appends (E.contents err.old) (E.contents err.new) said) }
{
    for file in files {
        tell_if_passed(alloc, err, file)?;
    }
    Ok(())
}

/// Reports on standard error which files after the first are skipped, because they are neither
/// certificates nor CRLs.
///
/// # Errors
///
/// Returns an error only if memory runs out or writing to standard error fails.
pub fn tell_others<E: Write>(alloc: Global, err: &mut E, files: &[BareObject<'_>]) -> Result<()>
    ensures { OnOk result ((said : List ℕ) × SaysOfOthers files.now said
        × Appends (E.contents err.old) (E.contents err.new) said) }
{
    match files.split_first() {
        Some((_, others)) => tell_each(alloc, err, others),
        None => Ok(()),
    }
}

/// Reports on standard error that no path is searched, because there is no CRL.
///
/// # Errors
///
/// Returns an error only if writing to standard error fails.
pub fn tell_no_list<E: Write>(err: &mut E, lists: &[Vec<u8>]) -> io::Result<()>
    ensures said { let message = no_list_message (word_octets lists.now) in
        OnOk result (Appends (E.contents err.old) (E.contents err.new) message) }
    ensures some { (lists.now ≡ [] → ⊥) → result ≡ Ok tt }
{
    if lists.is_empty() {
        return writeln!(
            err,
            "rpki: none of the files is a CRL: no path is searched, and the file is validated alone"
        );
    }
    Ok(())
}
