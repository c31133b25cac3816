//! What a certificate has beside the fields that readers keep.
use std::alloc::AllocError;

/// The subject of a fact.
#[derive(Clone, Copy, PartialEq, Eq)]
pub enum FactKind {
    /// An extension of a kind that readers don't know, by its identifier: the content of the OBJECT
    /// IDENTIFIER.
    UnknownExtension,
    /// The URI of the policy's certification practice statement (RFC 5280 4.2.1.4, RFC 7318 2).
    PracticeStatement,
    /// A further URI of the issuer's CRL, beside the one that is kept (RFC 6487 4.8.6).
    FurtherList,
    /// A further URI of the issuer's certificate, beside the one that is kept (RFC 6487 4.8.7).
    FurtherIssuer,
    /// A further URI of the repository, beside the one that is kept (RFC 6487 4.8.8.1).
    FurtherRepository,
    /// A further URI of the manifest, beside the one that is kept (RFC 6487 4.8.8.1).
    FurtherManifest,
    /// A further URI of the signed object, beside the one that is kept (RFC 6487 4.8.8.2).
    FurtherObject,
    /// A further URI of the update notification file, beside the one that is kept (RFC 8182 3.2).
    FurtherNotify,
    /// An access method that readers don't know, by its identifier.
    UnknownMethod,
    /// The URI after the unknown method before it.
    MethodUri,
}

/// A fact: what an extension of a certificate has beside the fields that readers keep.
#[derive(Clone, Copy)]
pub struct Fact<'a> {
    pub kind: FactKind,
    pub octets: &'a [u8],
}

/// The facts that are gathered so far.
pub(crate) type Facts<'a> = Vec<Fact<'a>>;

/// What a call that adds facts returns: an error only if memory runs out.
pub(crate) type Put = Result<(), AllocError>;
