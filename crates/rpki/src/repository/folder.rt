//! Folders of certificates and CRLs, in any order, and the walk down from a trust anchor (RFC 6487
//! 7.2, RFC 8630 3).
pub use rpki_folder::{
    Accepted, AcceptedPaths, Added, Admission, AllAdmitted, Bounds, Ended, Filed, Folder, Found,
    FoundPath, Limit, LimitTable, Line, Lines, Reached, Visitor, Walk, WalkError, Walked,
};
