//! JSON values as texts.

mod ascii;
mod texts;

pub use texts::{value_text, values_text};
