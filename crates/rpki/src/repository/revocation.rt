//! Sources that say whether a certificate is revoked (RFC 6487 7.2).
pub use rpki_path::revocation::{GivenLists, NobodyAsked, RevocationSource, has_begun, supersedes};
