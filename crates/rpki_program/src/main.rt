//! Answers the question on standard input by lines on standard output: one of a list, several of a
//! path.
#![tactic(auto)]

use rpki_lines::{Watched, program};
use std::process::ExitCode;

fn main(rt: HostRuntime) -> ExitCode {
    let mut input = Watched::new(rt.stdin());
    let mut output = Watched::new(rt.stdout());
    program(rt.alloc(), &mut input, &mut output)
}
