//! The line program: a run over its input and output, and its exit status.
ghost use Rattle.std.specs.Prelude.{◌≡◌, ◌↔◌, ◌⊎◌, ◌+◌, ◌^◌, ◌≤◌, Ok, IsErr};
ghost use Rattle.std.specs.Process.{exit_status};
ghost use Rattle.rpki_lines.specs.Watching.{device, HasFailed, TakesAtMost};
ghost use Rattle.rpki_lines.specs.Program.{HasAnswered};

use crate::running::{RunFault, Status, run};
use crate::watched::Watched;
use std::alloc::Global;
use std::io::{Read, Write};
use std::process::ExitCode;

// 0 where the question was answered, 1 where octets were rejected, 2 where the input doesn't have
// its form, 3 after a fault, of which this status alone tells.
fn status_of(answer: Result<Status, RunFault>) -> u8
    ensures done { result ≡ 0 ↔ answer ≡ Ok Status.Done }
    ensures refused { result ≡ 1 ↔ answer ≡ Ok Status.Refused }
    ensures bad_input { result ≡ 2 ↔ answer ≡ Ok Status.BadInput }
    ensures fault { result ≡ 3 ↔ IsErr answer }
    ensures no_other { result ≤ 3 }
{
    match answer {
        Ok(Status::Done) => 0,
        Ok(Status::Refused) => 1,
        Ok(Status::BadInput) => 2,
        Err(_) => 3,
    }
}

/// Reads the input to its end and writes the answer to the output, as [`run`] does. Returns the
/// exit status:
///
/// - 0 if the question was answered
/// - 1 if the answer is `refused`: bytes were rejected
/// - 2 if the input doesn't have its form
/// - 3 if reading, writing or memory failed, or if the input is too long; no output says which of
///   these
///
/// The reader and the writer that are lent show what was read and what was written.
///
/// # Not checked
///
/// Signatures: the line program checks dummy signatures ([`rpki_parts::StandIn`]).
pub fn program<R: Read, W: Write>(
    alloc: Global,
    reader: &mut Watched<R>,
    writer: &mut Watched<W>,
) -> ExitCode
    requires reader { HasFailed reader.old → ⊥ }
    requires writer { HasFailed writer.old → ⊥ }

    // What was read, to the end, and what was written in answer.
    ensures done { exit_status result ≡ 0 → HasAnswered
        (R.remaining (device reader.old)) (R.remaining (device reader.new))
        (W.contents (device writer.old)) (W.contents (device writer.new)) Status.Done }
    ensures refused { exit_status result ≡ 1 → HasAnswered
        (R.remaining (device reader.old)) (R.remaining (device reader.new))
        (W.contents (device writer.old)) (W.contents (device writer.new)) Status.Refused }
    ensures bad_input { exit_status result ≡ 2 → HasAnswered
        (R.remaining (device reader.old)) (R.remaining (device reader.new))
        (W.contents (device writer.old)) (W.contents (device writer.new)) Status.BadInput }
    ensures no_other { exit_status result ≤ 3 }

    // Which failures end with 3, and what stays as it was then.
    ensures read { HasFailed reader.new → exit_status result ≡ 3 }
    ensures written { HasFailed writer.new → exit_status result ≡ 3 }
    ensures unwritten { exit_status result ≡ 3
        → HasFailed writer.new ⊎ (writer.new ≡ writer.old) }
    ensures taken { TakesAtMost (2 ^ 24 + 1)
        (R.remaining (device reader.old)) (R.remaining (device reader.new)) }
{
    let answer = run(alloc, reader, writer);
    ExitCode::from(status_of(answer))
}
