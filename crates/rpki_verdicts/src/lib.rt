//! The verdict on a path of files, from a trust anchor down, with real signatures, and with
//! revocation if CRLs are given; the verdicts on all certificates among files in any order; and the
//! path to one of them.
#![tactic(auto)]

mod damage;
mod issuers;
pub mod laws;
mod locators;
mod named_paths;
mod parts;
mod path;
pub mod reasons;
mod search;
mod shown_paths;
mod unordered;

pub use issuers::{Issuers, issuers_of};
pub use locators::GivenLocator;
pub use parts::{TreePart, Trees, judge_all};
pub use path::{
    Fault, Question, Verdict, accepted_are_unrevoked, first_no_locator, judge, lists_of, located,
    one_acceptance, one_answer,
};
pub use search::{Sought, seek, signer_of};
pub use shown_paths::{ShownPaths, hold_same};
pub use unordered::{Tree, TreeAnswer, TreeQuestion, WrongAnchor};
