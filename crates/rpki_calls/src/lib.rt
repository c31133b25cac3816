//! One public call that may allocate, over a worked input: what it answers, and whether what stands
//! afterwards is what has to stand. `tests/refusals` has each call made with each of its requests
//! for memory refused in turn: `call PATH` of `rpki_vectors` has it made.
#![tactic(auto)]

mod asking;
mod blocks;
mod decoding;
mod ends;
mod extensions;
mod folders;
mod inputs;
mod issuing;
mod lists;
mod making;
mod parts;
mod paths;
mod stores;
mod validating;

use asking::Told;
use std::alloc::Global;
use std::io;
use std::process::ExitCode;

// What the call of this path answered.
fn told(alloc: Global, path: &str) -> Option<Told> {
    ends::told(alloc, path)
        .or(blocks::told(alloc, path))
        .or(parts::told(alloc, path))
        .or(extensions::told(alloc, path))
        .or(making::told(alloc, path))
        .or(validating::told(alloc, path))
        .or(lists::told(alloc, path))
        .or(stores::told(alloc, path))
        .or(paths::told(alloc, path))
        .or(issuing::told(alloc, path))
        .or(folders::told(alloc, path))
        .or(decoding::told(alloc, path))
}

/// Makes the call of this public path, as `rpki_cert::Cert::take_from`, and prints `ok` or the name
/// of its error, and then `kept` or `changed`; `none` where no call here has the path, and where
/// its input could not be made.
pub fn make(rt: &HostRuntime, path: &str) -> io::Result<ExitCode> {
    match told(rt.alloc(), path) {
        Some(told) => {
            let stands = if told.stands { "kept" } else { "changed" };
            println!(rt; "{} {stands}", told.answer)?;
            Ok(told.status)
        }
        None => {
            println!(rt; "none")?;
            Ok(ExitCode::FAILURE)
        }
    }
}
