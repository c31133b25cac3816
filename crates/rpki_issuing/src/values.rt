//! Values that a person writes as texts: serial numbers, URIs, and blocks of addresses and of AS
//! numbers.

mod families;
mod listing;
mod systems;
mod texts;

pub use families::{Family, V4Texts, V6Texts, addresses};
pub use listing::{BlockText, listed};
pub use systems::{AsTexts, as_numbers};
pub use texts::{Textual, serial_of};
