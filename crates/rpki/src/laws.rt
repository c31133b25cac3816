//! Laws about the definitions, each the contract of a function with an empty body.
pub use rpki_blocks::laws as resources;
pub use rpki_cert::{
    laws as certificates, profile_laws as profiles, verification_laws as verification,
};
pub use rpki_crl::laws as lists;
pub use rpki_der::laws as der;
pub use rpki_ext::laws as extensions;
pub use rpki_folder::laws as folders;
pub use rpki_isolation::laws as isolation;
pub use rpki_issuing::laws as issuing;
pub use rpki_keys::laws as keys;
pub use rpki_keys::tal::laws as locators;
pub use rpki_parts::uri_laws as uris;
pub use rpki_path::laws as paths;
pub use rpki_path::revocation::laws as revocation;
