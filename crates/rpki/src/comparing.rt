//! What copies, equality, order and hashes promise, each as the contract of a function that makes
//! the call.
pub use rpki_blocks::comparing as resources;
pub use rpki_cert::comparing as certificates;
pub use rpki_crl::comparing as lists;
pub use rpki_der::comparing as der;
pub use rpki_ext::comparing as extensions;
pub use rpki_lines::comparing as program;
pub use rpki_parts::comparing as parts;
