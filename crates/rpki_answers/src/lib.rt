//! The answers of the command about files, as text for a person or as JSON: the content of a file,
//! the verdict on a path, and a line for each of several files; and the outcome of a run.
#![tactic(auto)]

mod as_json;
mod details;
mod outcome_laws;
mod outcomes;
mod showing;
mod told;
mod tree_document;
mod tree_laws;
mod tree_rows;
mod trees;
mod unread;
mod verdict_document;
mod verdicts;

pub use outcome_laws::one_outcome;
pub use outcomes::{Answer, Outcome, status_of};
pub use showing::{Options, shown};
pub use tree_laws::rows;
pub use trees::{TreeFinding, TreeOptions, treed};
pub use unread::{is_closed_name, unread_names};
pub use verdicts::{Finding, validated};
