//! TALs, trust anchor locators (RFC 8630): the URIs of a trust anchor's certificate, and the key
//! that it has to have. Nothing is fetched.

mod digits;
pub mod laws;
mod lines;
mod sections;
mod tal;
mod tal_error;
mod tal_uri;

pub use digits::{octets_of, push_digits};
pub use tal::Tal;
pub use tal_error::TalError;
pub use tal_uri::TalUri;
