//! The facade: the public names of all layers, under the paths that the Rust crate has them under.
//! A caller depends on this crate alone.
#![tactic(auto)]

pub mod base64;
pub mod comparing;
pub mod crypto;
pub mod der;
pub mod laws;
pub mod program;
pub mod repository;
pub mod round_trips;
pub mod uri;

pub use rpki_der::oid;
