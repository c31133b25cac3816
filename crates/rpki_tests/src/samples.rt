//! What tests are made of, also those of other crates: keys, URIs, and certificates.

mod data;
mod digits;

pub use data::{
    anchor, anchor_octets, authority, authority_octets, bare, day, end_entity, end_entity_octets,
    inherit_all, router, rsa, set_authority, set_issuer, set_places, signed, uri, valid_anchor,
    written,
};
pub use digits::{octets, shared};
