//! Why a path is rejected: the step of an error, its name, and what it means.
ghost use Rattle.std.specs.Prelude.{◌≡◌};
ghost use Rattle.rpki_files.specs.FaultRules.{rule_of};
ghost use Rattle.rpki_verdicts.specs.Reasons.{IsPathReason, error_name, reason};

use bytes::Bytes;
use rpki_files::rules::{
    Rule, of_inspected, of_reading, of_revocation, of_verification, out_of_memory,
};
use rpki_path::PathFault;

/// Returns the name of an error of a path's certificate.
pub fn name_of(fault: &PathFault) -> &'static str
    ensures { result.now ≡ error_name fault.now }
{
    match fault {
        PathFault::Decode(fault) => fault.name(),
        PathFault::Inspect(fault) => fault.name(),
        PathFault::Verify(fault) => fault.name(),
        PathFault::Revocation(fault) => fault.name(),
        PathFault::Memory => fault.name(),
    }
}

/// Returns the step of an error of a path's certificate, the error's name, and what it means. The
/// certificate is at the start of these bytes.
pub fn of_path(fault: &PathFault, octets: &Bytes) -> (&'static str, &'static str, Rule)
    ensures { let answer = reason result.0.now result.1.now (rule_of result.2) in
        IsPathReason fault.now octets.now answer }
{
    match fault {
        PathFault::Decode(fault) => ("reading", fault.name(), of_reading(fault, octets)),
        PathFault::Inspect(fault) => ("profile", fault.name(), of_inspected(*fault, octets)),
        PathFault::Verify(fault) => ("verification", fault.name(), of_verification(fault)),
        PathFault::Revocation(fault) => ("revocation", fault.name(), of_revocation(fault)),
        PathFault::Memory => ("memory", fault.name(), out_of_memory()),
    }
}
