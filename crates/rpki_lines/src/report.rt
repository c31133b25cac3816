//! The output of the line program.
ghost use Rattle.std.specs.Prelude.{◌≡◌, ◌≢◌, ℕ, List, [], ◌∷◌, IfOk, OnOk, Contains, cond, string_bytes, codes, decimal};
ghost use Rattle.rpki_path.specs.Paths.{IsUnasked};
ghost use Rattle.rpki_lines.specs.Program.{decode_faults, output_of, IsFaultTold, PrintsFault, Says, SaysOfList, SaysOfPath};
ghost use Rattle.rpki_lines.specs.Reports.{accepted_text, HasSortedSets};
ghost use Rattle.rpki_lines.specs.Questions.{IsInput, path_question};
ghost use Rattle.rpki_crl.specs.RevokedEntries.{IsRevokedCertificates};
ghost use Rattle.rpki_der.specs.Place.{MeansOrMemory};

use crate::input::Input;
use crate::lines::RevokedQuestion;
use crate::path_lines::PathQuestion;
use crate::printing::{As, V4, V6, set_line};
use crate::running::Status;
use bytes::Bytes;
use rpki_cert::ResourceCert;
use rpki_crl::{RevokedCertificates, laws};
use rpki_der::{Cursor, DecodeError};
use rpki_parts::{StandIn, TalInfo};
use rpki_path::{PathError, PathFault, validate_path};
use std::alloc::{AllocError, Global};

/// The text that is printed, and how the run ends.
#[derive(Drop)]
pub(crate) struct Report {
    pub(crate) status: Status,
    pub(crate) text: String,
}

// The list that the octets are, all of them.
fn read_list(alloc: Global, octets: &Bytes) -> Result<RevokedCertificates, DecodeError>
    ensures { MeansOrMemory IsRevokedCertificates result octets.now }
{
    laws::unambiguous();
    let mut cursor = Cursor::new(octets);
    let list = RevokedCertificates::take_from(alloc, &mut cursor)?;
    cursor.finish()?;
    Ok(list)
}

// The name of a reader's fault; running out of memory is none.
fn decode_fault(error: &DecodeError) -> Result<&'static str, AllocError>
    ensures named { IfOk result (λ name. Contains decode_faults name.now) }
    ensures other { OnOk result (error.now ≢ DecodeError.Memory) }
{
    if matches!(error, DecodeError::Memory) {
        return Err(AllocError);
    }
    Ok(error.name())
}

// That the octets are no list.
fn no_list(alloc: Global, error: &DecodeError) -> Result<Report, AllocError>
    ensures status { IfOk result (λ report. report.status ≡ Status.Refused) }
    ensures text { IfOk result (λ report. (name : List ℕ) × Contains decode_faults name
        × (string_bytes report.text ≡ output_of (codes "refused decode " ∷ name ∷ []))) }
    ensures other { OnOk result (error.now ≢ DecodeError.Memory) }
{
    let name = decode_fault(error)?;
    let text = format!(in alloc; "refused decode {name}\n")?;
    Ok(Report {
        status: Status::Refused,
        text,
    })
}

// Whether a serial number was found.
fn found(alloc: Global, is_found: bool) -> Result<Report, AllocError>
    ensures status { IfOk result (λ report. report.status ≡ Status.Done) }
    ensures text { IfOk result (λ report. string_bytes report.text
        ≡ output_of (cond is_found (codes "yes") (codes "no") ∷ [])) }
{
    let text = match is_found {
        true => String::from_str(alloc, "yes\n")?,
        false => String::from_str(alloc, "no\n")?,
    };
    Ok(Report {
        status: Status::Done,
        text,
    })
}

// Whether the list has the serial number.
fn of_list(alloc: Global, question: &RevokedQuestion) -> Result<Report, AllocError>
    ensures { IfOk result (λ report. SaysOfList
        question.now.list question.now.serial (string_bytes report.text) report.status) }
{
    match read_list(alloc, &question.list) {
        Ok(list) => found(alloc, list.contains(question.serial)),
        Err(error) => no_list(alloc, &error),
    }
}

// The numbers that the last member of a valid path holds.
fn accepted(alloc: Global, cert: &ResourceCert) -> Result<Report, AllocError>
    ensures status { IfOk result (λ report. report.status ≡ Status.Done) }
    ensures text { IfOk result (λ report. string_bytes report.text ≡ accepted_text cert.now) }
    ensures sorted { OnOk result (HasSortedSets cert.now) }
{
    let v4 = set_line::<V4>(alloc, "v4", cert.v4_resources())?;
    let v6 = set_line::<V6>(alloc, "v6", cert.v6_resources())?;
    let asns = set_line::<As>(alloc, "as", cert.as_resources())?;
    let text = format!(in alloc; "stand-in signatures\naccepted\n{v4}{v6}{asns}")?;
    Ok(Report {
        status: Status::Done,
        text,
    })
}

// At which stage a fault was met, and its name; running out of memory is none. No lists were asked.
fn told(fault: &PathFault) -> Result<(&'static str, &'static str), AllocError>
    requires { IsUnasked fault.now }
    ensures { IfOk result (λ words. IsFaultTold fault.now words.0.now words.1.now) }
{
    match fault {
        PathFault::Decode(error) => Ok(("decode", decode_fault(error)?)),
        PathFault::Inspect(error) => Ok(("inspect", error.name())),
        PathFault::Verify(error) => Ok(("verify", error.name())),
        PathFault::Revocation(_) => unreachable!(),
        PathFault::Memory => Err(AllocError),
    }
}

// Where a path is wrong, and how.
fn wrong(alloc: Global, error: &PathError) -> Result<Report, AllocError>
    requires { IsUnasked error.now.fault }
    ensures status { IfOk result (λ report. report.status ≡ Status.Refused) }
    ensures text { IfOk result (λ report. PrintsFault error.now (string_bytes report.text)) }
{
    let index = error.index;
    let (stage, name) = told(&error.fault)?;
    let text = format!(in alloc; "stand-in signatures\nrefused {index} {stage} {name}\n")?;
    Ok(Report {
        status: Status::Refused,
        text,
    })
}

// Whether the strings are a valid path, where signatures are those of the stand-in.
fn of_path(alloc: Global, question: PathQuestion) -> Result<Report, AllocError>
    ensures { IfOk result (λ report.
        SaysOfPath (path_question question) (string_bytes report.text) report.status) }
{
    let PathQuestion {
        now,
        strict,
        anchor,
        cas,
        leaf,
    } = question;
    let tal = TalInfo::from_name(String::new(alloc)).into_rc(alloc)?;
    match validate_path(alloc, &anchor, &cas, leaf, tal, strict, now, &StandIn) {
        Ok(cert) => {
            let report = accepted(alloc, &cert);
            drop(cert);
            report
        }
        Err(error) => {
            let report = wrong(alloc, &error);
            drop(error);
            report
        }
    }
}

fn bad_input(alloc: Global, number: usize) -> Result<Report, AllocError>
    ensures status { IfOk result (λ report. report.status ≡ Status.BadInput) }
    ensures text { IfOk result (λ report. string_bytes report.text
        ≡ output_of (codes "bad input " ∷ decimal number ∷ [])) }
{
    let text = format!(in alloc; "bad input {number}\n")?;
    Ok(Report {
        status: Status::BadInput,
        text,
    })
}

impl Report {
    /// Answers an input.
    pub(crate) fn of(alloc: Global, input: Input) -> Result<Report, AllocError>
        ensures { (text : List ℕ) → IsInput input text
            → IfOk result (λ report. Says text (string_bytes report.text) report.status) }
    {
        match input {
            Input::Revoked(question) => of_list(alloc, &question),
            Input::Path(question) => of_path(alloc, question),
            Input::Bad(number) => bad_input(alloc, number),
        }
    }
}
