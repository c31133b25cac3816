//! Resource certificates (RFC 6487).
#![tactic(auto)]

mod cert;
pub mod comparing;
mod elements;
mod extra;
mod fields;
mod frame;
mod inspect;
mod issue;
pub mod laws;
mod making;
mod order;
pub mod profile_laws;
mod rearrange_error;
mod rearranging;
mod resolved;
mod resource_cert;
mod resources;
pub mod round_trip;
mod saying;
mod tbs;
mod validate;
mod validation_error;
mod verification_error;
pub mod verification_laws;
mod verify;
mod verify_owned;
mod writing;

pub use cert::Cert;
pub use extra::Extra;
pub use inspect::Kind;
pub use issue::{IssueCaError, issue_ca};
pub use rearrange_error::RearrangeError;
pub use rearranging::rearrange;
pub use resource_cert::ResourceCert;
pub use rpki_blocks::Overclaim;
pub use rpki_ext::{ExtendedKeyUsage, InspectionError, KeyUsage, Sia};
pub use saying::{Said, is_router, kind_of, said_kind};
pub use tbs::TbsCert;
pub use validation_error::ValidationError;
pub use verification_error::VerificationError;
