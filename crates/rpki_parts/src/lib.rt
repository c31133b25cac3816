//! Keys, names, URIs, periods of validity, algorithms, signatures and signed data.
#![tactic(auto)]

mod algorithm;
pub mod comparing;
mod dotted;
mod https;
mod key;
mod name;
mod name_forms;
mod name_text;
mod rsync;
mod signature;
mod signed;
mod stand_in;
mod tal;
mod uri;
pub mod uri_laws;
mod valid_at;
mod validity;

pub use algorithm::RpkiSignatureAlgorithm;
pub use dotted::Dotted;
pub use https::Https;
pub use key::{KeyIdentifier, PublicKey, PublicKeyFormat};
pub use name::{InvalidName, Name};
pub use rsync::Rsync;
pub use signature::{Signature, SignatureVerificationError, Signer, SigningError, Verifier};
pub use signed::SignedData;
pub use stand_in::StandIn;
pub use tal::TalInfo;
pub use uri::{BadUri, UriError};
pub use valid_at::ValidityError;
pub use validity::Validity;
