//! Base64 whose digits are in lines (RFC 8630 2).
pub use rpki_keys::tal::{octets_of, push_digits};
