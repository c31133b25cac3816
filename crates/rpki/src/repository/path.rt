//! Whole paths, from a trust anchor down to the last certificate, and routers' certificates below
//! it (RFC 6487 7.2, RFC 8209 3.3).
pub use rpki_path::{
    GivenPath, Judged, Last, Leaf, LocatedError, Member, PathError, PathFault, Role, Validator,
    first_unchained, has_locator_key, is_self_named, judge, lists_numbers, names_chain,
    test_anchor, validate_located, validate_path, validate_path_with, validate_router,
};
