//! Notes: what is accepted of a certificate although a standard forbids it, each with its section.
//! A note changes no verdict. And facts: what a certificate has beside the fields that readers
//! keep.

mod access;
mod canonical;
mod characters;
mod contents;
mod fact;
mod facts;
mod fields;
mod finding;
mod flags;
mod further;
mod inside;
mod note;
mod noting;
mod qualifiers;
mod repeated;
mod times;

pub use fact::{Fact, FactKind};
pub use facts::facts_of;
pub use note::Note;
pub use noting::notes_of;
