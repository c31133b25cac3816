//! Resource certificates (RFC 6487).
pub use rpki_cert::{
    Cert, ExtendedKeyUsage, Extra, IssueCaError, KeyUsage, Kind, Overclaim, RearrangeError,
    ResourceCert, Said, Sia, TbsCert, is_router, issue_ca, kind_of, rearrange, said_kind,
};
