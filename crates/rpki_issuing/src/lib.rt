//! Issuing with a key that is elsewhere: a certificate or CRL is prepared for signing, and
//! completed by its signature once that verifies.
//!
//! `values` has the values that a person writes as texts, and `wanted` makes certificates and CRLs
//! of such values, as bytes.
#![tactic(auto)]

mod any_signature;
mod assembling;
mod checked;
mod completing;
mod issuing_error;
pub mod laws;
mod list_error;
mod next;
mod prepared;
mod prepared_list;
mod role;
pub mod values;
pub mod wanted;

pub use checked::{Checked, CheckedError};
pub use completing::complete;
pub use issuing_error::IssuingError;
pub use list_error::ListError;
pub use next::{NextListError, next_list};
pub use prepared::{Prepared, prepare};
pub use prepared_list::{PreparedList, complete_list, prepare_list};
pub use role::Role;
