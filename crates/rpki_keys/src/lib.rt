//! Keys of the RPKI, signatures by them (RFC 7935 2, 3), and TALs, which name a trust anchor's key
//! (`tal`): the form of a public key, whether the RPKI uses such a key, and RSASSA-PKCS1-v1_5 with
//! SHA-256 for RSA keys of 2048 bits with the exponent 65537, on numbers of many limbs (`numbers`).
//!
//! Certificates are read whatever the bits of their keys are; a caller who uses a key checks it
//! here. Signatures are verified here, and made elsewhere. This code runs in variable time, which
//! is harmless because all its inputs are public, and which makes it unfit for a private key.
#![tactic(auto)]

mod curve;
mod encoding;
mod form;
mod key;
pub mod laws;
pub mod numbers;
mod octets;
mod rsa;
pub mod tal;
mod verifier;
mod verifying;

pub use curve::is_point;
pub use form::{KeyForm, form_of, is_usable};
pub use key::is_rpki_key;
pub use verifier::RsaVerifier;
pub use verifying::verify;
