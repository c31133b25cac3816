//! What an RPKI repository has: certificates, CRLs, and their parts.
pub mod cert;
pub mod crl;
pub mod decoding;
pub mod error;
pub mod extension;
pub mod folder;
pub mod issuing;
pub mod path;
pub mod resources;
pub mod revocation;
pub mod tal;
pub mod x509;

pub use rpki_cert::{Cert, ResourceCert};
pub use rpki_crl::Crl;
