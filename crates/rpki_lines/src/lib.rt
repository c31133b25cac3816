//! The line program: questions on standard input, and their answers.
#![tactic(auto)]

pub mod comparing;
mod exiting;
mod input;
mod lines;
mod path_lines;
mod printing;
mod report;
mod running;
mod watched;

pub use exiting::program;
pub use running::{MAX_INPUT, RunFault, Status, run};
pub use watched::Watched;
