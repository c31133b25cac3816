//! Signatures by the RPKI's RSA keys, verified from bytes.
pub use rpki_keys::{is_rpki_key, verify};
