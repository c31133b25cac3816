//! TALs (RFC 8630): reading them, and whether a key is theirs.
pub use rpki_keys::tal::{Tal, TalError, TalUri};
pub use rpki_parts::TalInfo;
