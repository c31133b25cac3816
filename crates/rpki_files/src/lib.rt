//! Files with certificates, CRLs and TALs: the object that a file has, in DER or PEM, the kind of a
//! certificate, the place where reading stops and what is found there, and what an error means,
//! with the standard's section.
#![tactic(auto)]

mod bare;
mod contents;
mod decoding;
mod digits;
mod expected;
pub mod faults;
mod files;
mod flaws;
mod found;
mod kinds;
mod locators;
mod naming;
mod places;
mod policies;
pub mod rules;
mod sorts;
mod unsigned;

pub use bare::{BareObject, Front, read_bare_object};
pub use contents::{Content, Form, looks_like};
pub use decoding::{Misread, decode_cert, decode_crl, place_for};
pub use files::{Object, read_object};
pub use flaws::{ExtensionFlaw, Flaw, SerialFlaw, TimeFlaw, VersionFlaw};
pub use locators::{looks_like_locator, read_locator};
pub use places::Place;
pub use policies::extensions_in;
pub use sorts::{Description, Sort, describe};
pub use unsigned::as_unsigned;
