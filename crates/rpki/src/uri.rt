//! URIs: `rsync` and `https`.
pub use rpki_parts::{BadUri, Https, Rsync, UriError};
