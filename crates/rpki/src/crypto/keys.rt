//! The form of a public key, and whether the RPKI uses such a key (RFC 7935, RFC 8608).
pub use rpki_keys::{KeyForm, form_of, is_point, is_usable};
