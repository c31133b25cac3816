//! The families of addresses.

/// The family of addresses of a block. An IPv4 address is in the upper 32 bits.
#[derive(Clone, Copy, PartialEq, Eq)]
pub enum Family {
    V4,
    V6,
}
