//! Certificates and CRLs made of the values that a person chooses: their fields, the bytes to
//! sign, and the bytes of the certificate or CRL that a signature completes.

pub mod issuers;
mod lists;
mod making;
mod preparing;
mod reading;
mod rules;
mod wanted;

pub use lists::{WantedList, complete_list_octets, list_fields, prepare_list_octets};
pub use making::fields;
pub use preparing::{WantedError, complete_octets, prepare_octets};
pub use reading::read_tbs;
pub use rules::IssuingRule;
pub use wanted::{Numbers, Places, Wanted};
