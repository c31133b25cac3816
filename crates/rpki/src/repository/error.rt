//! The errors of rejected certificates.
pub use rpki_cert::{InspectionError, ValidationError, VerificationError};
