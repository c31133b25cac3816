//! CRLs: certificate revocation lists (RFC 5280 5, RFC 6487 5).
#![tactic(auto)]

mod check;
pub mod comparing;
mod crl;
mod entry;
mod extensions;
mod fields;
mod head;
mod invalid_extension;
pub mod laws;
mod making;
mod revocation_error;
mod revoked;
pub mod round_trip;
mod store;
mod table;
mod tbs;
mod verify;
mod writing;

pub use crl::Crl;
pub use entry::CrlEntry;
pub use head::named_key;
pub use invalid_extension::InvalidExtension;
pub use revocation_error::RevocationError;
pub use revoked::{RevokedCertificates, RevokedCertificatesIter};
pub use store::CrlStore;
pub use tbs::TbsCertList;
