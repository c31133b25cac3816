//! Keys, algorithms and signatures. A `Verifier` defines which signatures are valid, and a `Signer`
//! makes signatures. `RsaVerifier` verifies those of the RPKI. `keys` says which keys the RPKI
//! uses.
pub mod keys;
pub mod rsa;

pub use rpki_keys::RsaVerifier;
pub use rpki_parts::{
    KeyIdentifier, PublicKey, PublicKeyFormat, RpkiSignatureAlgorithm, Signature,
    SignatureVerificationError, Signer, SigningError, StandIn, Verifier,
};
