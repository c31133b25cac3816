//! One run of the line program: from the bytes of a reader to those of a writer.
ghost use Rattle.std.specs.Prelude.{◌≡◌, ◌≢◌, ◌↔◌, ◌⊎◌, ◌+◌, ◌^◌, ◌≤◌, length, IfOk, OnOk, IsErr, IfErr, IsErrOf};
ghost use Rattle.std.specs.Io.KnownBytes.{Appends, Consumes, IsAtEnd};
ghost use Rattle.rpki_lines.specs.Watching.{device, HasFailed, Takes, TakesAtMost};
ghost use Rattle.rpki_lines.specs.Program.{HasAnswered};

use crate::input::from_text;
use crate::report::Report;
use crate::watched::Watched;
use std::alloc::{AllocError, Global};
use std::io::{Read, Write};
use thiserror::Error;

/// The most bytes that an input may have: 2^24.
pub const MAX_INPUT: usize = 0x100_0000;

/// How a run ended that wrote an answer.
#[derive(Clone, Copy, Debug, PartialEq, Eq)]
pub enum Status {
    /// The question was answered.
    Done,
    /// The answer is `refused`: the bytes of the question aren't revokedCertificates, or aren't a
    /// valid path.
    Refused,
    /// The input doesn't have its form; the answer is `bad input` and a line's number.
    BadInput,
}

/// The error of a run without an answer.
#[derive(Debug, Drop, Error)]
pub enum RunFault {
    /// The reader failed.
    #[error("the input couldn't be read")]
    Read,
    /// The writer failed, or wrote nothing. A part of the answer may be written.
    #[error("the output couldn't be written")]
    Write,
    /// Memory ran out.
    #[error("out of memory")]
    Memory,
    /// The input has more than [`MAX_INPUT`] bytes.
    #[error("the input is too long")]
    TooLong,
}

impl RunFault {
    ghost use Rattle.std.specs.Prelude.{◌≡◌, ◌↔◌, IsTrue};
    ghost use Rattle.rpki_lines.specs.RunFaultNames.{run_fault_name};
    ghost use Rattle.rpki_lines.specs.declared.running.RunFault.TheVariants as fault;

    /// Returns the variant's name.
    pub fn name(&self) -> &'static str
        ensures { result.now ≡ run_fault_name self.now }
    {
        match self {
            RunFault::Read => "Read",
            RunFault::Write => "Write",
            RunFault::Memory => "Memory",
            RunFault::TooLong => "TooLong",
        }
    }

    /// Returns whether memory ran out.
    pub fn is_memory(&self) -> bool
        ensures { IsTrue result ↔ self.now ≡ fault.Memory }
    {
        match self {
            RunFault::Memory => true,
            _ => false,
        }
    }
}

impl From<AllocError> for RunFault {
    ghost use Rattle.std.specs.Prelude.{◌≡◌};
    ghost use Rattle.rpki_lines.specs.declared.running.RunFault.TheVariants.{Memory};

    ghost from_gives = { λ _ e. e ≡ Memory };

    fn from(_e: AllocError) -> RunFault {
        RunFault::Memory
    }
}

/// Reads the whole input and writes its answer. The end of the last line may be absent. Bytes are
/// written in hexadecimal digits, or as `-` if there are none.
///
/// The line `revoked LIST SERIAL` asks whether revokedCertificates (RFC 5280 5.1) have a serial
/// number, which is below 2^160. The answer is one of:
///
/// - `yes` or `no`
/// - `refused decode` and an error's name, if the bytes aren't revokedCertificates
///
/// These lines ask whether strings are a valid path at that time, with dummy signatures:
///
/// - `at YYYYMMDDhhmmss`
/// - `strict` or `lenient`
/// - `ta HEX`
/// - any number of `ca HEX`
/// - at most one `ee HEX` or `detached HEX`
///
/// The answer's first line is `stand-in signatures`. Then one of these follows:
///
/// - `accepted`, and the lines `v4`, `v6` and `as` with the ranges that the last certificate holds,
///   or `none`
/// - `refused`, the path index of the first wrong certificate (the trust anchor's is 0), `decode`,
///   `inspect` or `verify`, and the error's name
///
/// The answer to any other input is `bad input` and the number of the first line that is wrong or
/// missing.
///
/// # Errors
///
/// Returns one of these:
///
/// - `Read` if and only if the reader failed
/// - `Write` if and only if the writer failed
/// - `TooLong` if the input has more than [`MAX_INPUT`] bytes
/// - `Memory` if memory runs out
///
/// Nothing is written before an error other than `Write`.
///
/// # Not checked
///
/// Signatures (see above), CRLs, and name chaining.
pub fn run<R: Read, W: Write>(
    alloc: Global,
    reader: &mut Watched<R>,
    writer: &mut Watched<W>,
) -> Result<Status, RunFault>
    requires reader { HasFailed reader.old → ⊥ }
    requires writer { HasFailed writer.old → ⊥ }

    // What was read, to the end, and what was written in answer.
    ensures answered { IfOk result
        (HasAnswered (R.remaining (device reader.old)) (R.remaining (device reader.new))
        (W.contents (device writer.old)) (W.contents (device writer.new))) }

    // Which fault it is.
    ensures read { IsErrOf result RunFault.Read ↔ HasFailed reader.new }
    ensures written { IsErrOf result RunFault.Write ↔ HasFailed writer.new }
    ensures too_long { IsErrOf result RunFault.TooLong
        → Takes (2 ^ 24 + 1) (R.remaining (device reader.old)) (R.remaining (device reader.new)) }

    // What stays as it was.
    ensures unwritten { IsErr result
        → IsErrOf result RunFault.Write ⊎ (writer.new ≡ writer.old) }
    ensures taken { TakesAtMost (2 ^ 24 + 1)
        (R.remaining (device reader.old)) (R.remaining (device reader.new)) }
{
    let text = read_whole(alloc, reader)?;
    let input = from_text(alloc, &text)?;
    let report = Report::of(alloc, input)?;
    write_whole(writer, report.text.as_bytes())?;
    Ok(report.status)
}

// The whole input.
fn read_whole<R: Read>(alloc: Global, reader: &mut Watched<R>) -> Result<Vec<u8>, RunFault>
    requires { HasFailed reader.old → ⊥ }
    ensures whole { IfOk result (λ input.
        Consumes (R.remaining (device reader.old)) (R.remaining (device reader.new)) input.items) }
    ensures end { OnOk result (IsAtEnd (R.remaining (device reader.new))) }
    ensures short { IfOk result (λ input. length input.items ≤ MAX_INPUT) }
    ensures too_long { IsErrOf result RunFault.TooLong
        → Takes (MAX_INPUT + 1) (R.remaining (device reader.old)) (R.remaining (device reader.new)) }
    ensures failed { IsErrOf result RunFault.Read ↔ HasFailed reader.new }
    ensures unwritten { result ≢ Err RunFault.Write }
    ensures taken { TakesAtMost (MAX_INPUT + 1)
        (R.remaining (device reader.old)) (R.remaining (device reader.new)) }
{
    let mut input = Vec::new(alloc);
    let mut chunk = [0u8; 0x4000];
    while input.len() <= MAX_INPUT {
        let room = chunk.len().min(MAX_INPUT + 1 - input.len());
        match reader.read(&mut chunk[..room]) {
            Ok(0) => return Ok(input),
            Ok(n) => input.extend_from_slice(&chunk[..n])?,
            Err(_) => return Err(RunFault::Read),
        }
    }
    Err(RunFault::TooLong)
}

// Writes all of the octets.
fn write_whole<W: Write>(writer: &mut Watched<W>, octets: &[u8]) -> Result<(), RunFault>
    requires { HasFailed writer.old → ⊥ }
    ensures written { OnOk result
        (Appends (W.contents (device writer.old)) (W.contents (device writer.new)) octets.now) }
    ensures failed { IsErr result ↔ HasFailed writer.new }
    ensures fault { IfErr result (λ e. e ≡ RunFault.Write) }
{
    let mut rest = octets;
    while !rest.is_empty() {
        match writer.write(rest) {
            Ok(0) | Err(_) => return Err(RunFault::Write),
            Ok(n) => (_, rest) = rest.split_at(n),
        }
    }
    Ok(())
}
