//! Router certificates, below the last certificate of a path (RFC 8209 3.3).
ghost use Rattle.std.specs.Prelude.{OnOk, IfErr, IfNone, option_map};
ghost use Rattle.rpki_cert.specs.Verification.{context};
ghost use Rattle.rpki_path.specs.Asking.{RevocationChecks};
ghost use Rattle.rpki_path.specs.Paths.{UnlessMemory, Finds, IsUnasked};
ghost use Rattle.rpki_path.specs.Routers.{BeginsWithRouter, by_uri_if_any, router_demand};

use crate::members::Member;
use crate::path_fault::PathFault;
use crate::revocation::{NobodyAsked, RevocationSource};
use crate::validator::Validator;
use bytes::Bytes;
use rpki_cert::{ResourceCert, laws};
use rpki_crl::CrlStore;
use rpki_der::Time;
use rpki_parts::Verifier;
use std::alloc::Global;

// Whether the bytes start with a router's certificate that is valid below the issuer.
fn test_router<R: RevocationSource, V: Verifier>(
    alloc: Global,
    octets: &Bytes,
    issuer: &ResourceCert,
    asked: &R,
    strict: bool,
    now: Time,
    verifier: &V,
) -> Result<(), PathFault>
    ensures ok { let x = context (V.verifies verifier.now) now strict in
        OnOk result (BeginsWithRouter x (R.asks asked.now x) issuer.now octets.now) }
    ensures fault { let x = context (V.verifies verifier.now) now strict in
        IfErr result (Finds x (router_demand x (R.asks asked.now x) issuer.now) octets.now) }
{
    let validator = Validator {
        alloc,
        asked,
        strict,
        at: now,
        verifier,
    };
    let cert = validator.router(&Member::of(octets), issuer)?;
    drop(cert);
    Ok(())
}

/// Validates a router's certificate below the last certificate of a path.
///
/// The bytes have to start with a certificate; the rest is ignored. The certificate is decoded,
/// inspected as a router's and verified below this issuer at this time (RFC 8209 3.3). If CRLs are
/// given,
/// [`CrlStore::check`] decides whether it is revoked. The issuer is what `validate_path` and
/// `validate_path_with` return. A router is no `Leaf` of theirs: a path ends in a [`ResourceCert`],
/// and none is made of a router's certificate. [`crate::judge`] validates both at once.
///
/// # Errors
///
/// Returns the first of these checks that fails; without CRLs never `Revocation`.
///
/// # Not checked
///
/// Whether a CRL is its issuer's newest, and name chaining (own).
pub fn validate_router<V: Verifier>(
    alloc: Global,
    octets: &Bytes,
    issuer: &ResourceCert,
    lists: Option<&CrlStore>,
    strict: bool,
    now: Time,
    verifier: &V,
) -> Result<(), PathFault>
    // The bytes start with a router's certificate that is valid below the issuer, and unrevoked if
    // CRLs are given.
    ensures ok { let x = context (V.verifies verifier.now) now strict in
        let asked = by_uri_if_any x (option_map (λ store. store.now.pairs) lists.entry) in
        OnOk result (BeginsWithRouter x asked issuer.now octets.now) }
    // The bytes start with no such certificate, unless memory ran out.
    ensures rejected { let x = context (V.verifies verifier.now) now strict in
        let asked = by_uri_if_any x (option_map (λ store. store.now.pairs) lists.entry) in
        let accepted = BeginsWithRouter x asked issuer.now octets.now in
        IfErr result (λ e. UnlessMemory e (accepted → ⊥)) }
    // The error is one of these bytes.
    ensures fault { let x = context (V.verifies verifier.now) now strict in
        let asked = by_uri_if_any x (option_map (λ store. store.now.pairs) lists.entry) in
        IfErr result (Finds x (router_demand x asked issuer.now) octets.now) }
    ensures unasked { IfNone lists.entry (IfErr result IsUnasked) }
{
    laws::unambiguous();
    match lists {
        Some(store) => test_router(alloc, octets, issuer, store, strict, now, verifier),
        None => test_router(alloc, octets, issuer, &NobodyAsked, strict, now, verifier),
    }
}
