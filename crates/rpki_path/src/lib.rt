//! Certification paths, from a trust anchor down to the last certificate (RFC 6487 7.2), and the
//! sources that answer for revocation along them (`revocation`).
#![tactic(auto)]

mod given;
pub mod issuing;
mod judging;
pub mod laws;
mod located;
mod members;
mod names;
mod path_fault;
pub mod revocation;
mod router;
mod validating;
mod validator;

pub use given::{GivenPath, Last};
pub use judging::{Judged, judge};
pub use located::{LocatedError, has_locator_key, lists_numbers, test_anchor, validate_located};
pub use members::Member;
pub use names::{first_unchained, is_self_named, names_chain};
pub use path_fault::{PathError, PathFault};
pub use router::validate_router;
pub use rpki_crl::RevocationError;
pub use validating::{Leaf, validate_path, validate_path_with};
pub use validator::{Role, Validator};
