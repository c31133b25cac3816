//! What a certificate says that it is, and what it is.
ghost use Rattle.std.specs.Prelude.{◌↔◌, IsTrue, IsSomeAnd};
ghost use Rattle.rpki_ext.specs.RouterPurposes.{HasRouterPurpose};
ghost use Rattle.rpki_cert.specs.SaidKinds.{SaysRouter, SaysKind, IsKindOf, IsSaid};

use crate::cert::Cert;
use crate::inspect::Kind;
use crate::tbs::TbsCert;
use rpki_parts::{KeyIdentifier, PublicKeyFormat};

// Whether a further purpose of the key is that of routers (RFC 8209 3.1.3.2).
fn has_router_purpose(tbs: &TbsCert) -> bool
    ensures { IsTrue result ↔ IsSomeAnd tbs.now.extensions.extended_key_usage HasRouterPurpose }
{
    match tbs.extended_key_usage() {
        Some(purposes) => purposes.inspect_router().is_ok(),
        None => false,
    }
}

/// Returns whether the certificate says that it is a BGPsec router's: it has the purpose of routers
/// (RFC 8209 3.1.3.2); or it has a P-256 key (RFC 8608), doesn't say that it is a CA, and has no
/// URI of a signed object (own).
///
/// # Not checked
///
/// The profile of routers ([`Cert::inspect_router`]).
pub fn is_router(tbs: &TbsCert) -> bool
    ensures { IsTrue result ↔ SaysRouter tbs.now }
{
    if has_router_purpose(tbs) {
        return true;
    }
    match tbs.subject_public_key_info().algorithm() {
        PublicKeyFormat::Rsa => false,
        PublicKeyFormat::EcdsaP256 => !tbs.is_ca() && tbs.signed_object().is_none(),
    }
}

/// Returns the kind that the certificate says that it is of, below a trust anchor (own): router,
/// CA, end entity with the URI of a signed object, or else detached end entity. It is never
/// [`Kind::Anchor`].
///
/// # Not checked
///
/// The profile of that kind, and the signature.
pub fn said_kind(tbs: &TbsCert) -> Kind
    ensures { SaysKind result tbs.now }
{
    if is_router(tbs) {
        Kind::Router
    } else if tbs.is_ca() {
        Kind::Authority
    } else if tbs.signed_object().is_some() {
        Kind::EndEntity
    } else {
        Kind::Detached
    }
}

/// Returns the certificate's kind: [`Kind::Anchor`] if it meets the profile of a trust anchor, else
/// [`said_kind`] (own).
///
/// # Not checked
///
/// The signature, and the profile of any kind but the trust anchor's.
pub fn kind_of(cert: &Cert, strict: bool) -> Kind
    ensures { IsKindOf result strict cert.now }
{
    match cert.inspect_ta(strict) {
        Ok(()) => Kind::Anchor,
        Err(_) => said_kind(cert.as_tbs()),
    }
}

/// What a certificate says of its place among others: its kind and two key identifiers (RFC 5280
/// 4.2.1.1).
#[derive(Clone, Copy)]
pub struct Said {
    /// The kind that it says that it is of, below a trust anchor ([`said_kind`]).
    pub kind: Kind,
    /// Its Subject Key Identifier.
    pub key: KeyIdentifier,
    /// Its Authority Key Identifier, if it has one.
    pub signer: Option<KeyIdentifier>,
}

impl Said {
    /// Returns what the certificate says. Nothing of it is checked.
    pub fn of(cert: &Cert) -> Said
        ensures { IsSaid result cert.now.fields }
    {
        let tbs = cert.as_tbs();
        Said {
            kind: said_kind(tbs),
            key: tbs.subject_key_identifier(),
            signer: tbs.authority_key_identifier(),
        }
    }
}
