//! Decoding of certificates and CRLs that reports the offset at which decoding fails.
pub use rpki_files::{
    ExtensionFlaw, Flaw, Misread, Place, SerialFlaw, TimeFlaw, VersionFlaw, decode_cert, decode_crl,
};
