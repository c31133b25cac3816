//! The sources that answer whether the certificates of a path are revoked (RFC 6487 7.2): a store
//! of CRLs, CRLs as they were given (`GivenLists`), a source that checks nothing (`NobodyAsked`),
//! or a source of the caller's own.

mod given;
pub mod laws;
mod source;

pub use given::{
    GivenLists, goes_first, has_begun, is_named_by, is_signed_by, said_by, supersedes,
};
pub use source::{NobodyAsked, RevocationSource};
