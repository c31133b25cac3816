//! Texts for a person, what is found of certificates and keys, notes on what a standard forbids
//! (`notes`), and the requests of the command line (`command_line`).
#![tactic(auto)]

pub mod blocks;
pub mod certificate;
pub mod command_line;
mod counts;
mod identifiers;
pub mod keys;
pub mod moments;
pub mod notes;

pub use counts::Count;
pub use identifiers::Identifier;
