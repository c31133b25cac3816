//! The command line of the command for people: the request that its words make, or what is wrong
//! with them, in one line. Only words are read here and never a file, so a request is known before
//! any file is opened.

mod arguments;
pub mod parts;
mod suiting;
mod words;

pub use arguments::{Format, Misuse, Request, Setting, Task, read_words};
