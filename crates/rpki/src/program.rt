//! The line program, over any reader and writer: it reads a question and writes the answer.
pub use rpki_lines::{MAX_INPUT, RunFault, Status, Watched, program, run};
