//! CRLs (RFC 5280 5, RFC 6487 5).
pub use rpki_crl::{
    Crl, CrlEntry, CrlStore, InvalidExtension, RevocationError, RevokedCertificates,
    RevokedCertificatesIter, TbsCertList,
};
