//! Folders of certificates and CRLs, in any order, and the walk down from a trust anchor (RFC 6487
//! 7.2, RFC 8630 3).
#![tactic(auto)]

mod admission;
mod anchors;
mod bounds;
mod children;
mod entity;
mod filed;
mod find;
mod firsts;
mod folder;
mod issuer_lists;
mod issuers;
mod judging;
mod keys;
mod known;
pub mod laws;
mod limits;
mod lines;
mod names;
mod share;
mod unseen;
mod visitor;
mod walk;
mod walk_error;

pub use admission::{Admission, AllAdmitted};
pub use anchors::{FoundAnchor, WrongCandidate};
pub use bounds::{Bounds, Ended, Limit, USUAL_STEPS, Walked};
pub use filed::Filed;
pub use find::{Found, FoundPath};
pub use firsts::Firsts;
pub use folder::{Added, Folder};
pub use limits::{LimitTable, Reached};
pub use lines::{AcceptedPaths, Line, Lines};
pub use unseen::{IssuerStatus, IssuersByKey, KnownIssuer, Unseen, is_looked_below};
pub use visitor::{Accepted, Visitor};
pub use walk::Walk;
pub use walk_error::WalkError;
