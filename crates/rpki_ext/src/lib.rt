//! Single extensions of certificates and CRLs, the sequence of a certificate's extensions, and the
//! errors of inspection.
#![tactic(auto)]

mod authority_access;
mod basic_constraints;
pub mod comparing;
mod distribution_points;
mod early_exits;
mod encode;
mod extended_key_usage;
mod extensions;
mod inspection;
mod kept;
mod key_identifiers;
mod key_usage;
pub mod laws;
mod listed_resources;
mod names;
mod policies;
mod reading;
mod router_purpose;
mod subject_access;

pub use authority_access::{
    encode_authority_information_access, take_authority_information_access,
};
pub use basic_constraints::{encode_basic_constraints, take_basic_constraints};
pub use distribution_points::{encode_crl_distribution_points, take_crl_distribution_points};
pub use early_exits::beside;
pub use extended_key_usage::{
    ExtendedKeyUsage, encode_extended_key_usage, take_extended_key_usage,
};
pub use extensions::Extensions;
pub use inspection::InspectionError;
pub use key_identifiers::{
    encode_authority_key_identifier, encode_subject_key_identifier, take_authority_key_identifier,
    take_subject_key_identifier,
};
pub use key_usage::{KeyUsage, encode_key_usage, take_key_usage};
pub use policies::{encode_certificate_policies, take_certificate_policies};
pub use reading::is_known;
pub use rpki_der::take_extension;
pub use subject_access::{Sia, encode_subject_information_access, take_subject_information_access};
