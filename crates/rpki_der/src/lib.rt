//! DER values (X.690): read from shared bytes, and appended to vectors.
#![tactic(auto)]

mod bits;
mod boolean;
pub mod comparing;
mod cursor;
mod error;
mod extension;
mod header;
mod integer;
pub mod laws;
pub mod oid;
mod piece;
mod put;
mod serial;
mod simple;
mod skip;
pub mod tag;
mod text;
mod time;

pub use cursor::Cursor;
pub use error::{DecodeError, EncodeError, Field};
pub use extension::{end_extension, put_extension, take_extension};
pub use oid::Oid;
pub use piece::Piece;
pub use put::{
    MAX_LEN, enclose, end_value, put_bits, put_bool, put_oid, put_parts, put_unsigned, put_value,
};
pub use serial::Serial;
pub use text::write_hexadecimal;
pub use time::Time;
