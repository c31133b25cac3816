//! Certificates are prepared for signing, and completed by their signatures, as bytes.
ghost use Rattle.std.specs.Prelude.{◌≡◌, ◌≢◌, ◌⊎◌, ◌↔◌, ◌<◌, ◌≤◌, ◌^◌, ℕ, List, length, option_map, IsOk, IsTrue, OnOk, IfOk, IfErr, MatchOption};
ghost use Rattle.rpki_cert.specs.Certificates.{IsCertificate, encoding};
ghost use Rattle.rpki_cert.specs.Verification.{context};
ghost use Rattle.rpki_crl.specs.Revocation.{revocation_checks};
ghost use Rattle.rpki_issuing.specs.Acceptance.{AskedIn, IsAcceptedBelow, IsUnrevokedIn};
ghost use Rattle.rpki_issuing.specs.Readiness.{signed_with, unsigned_certificate, IsReady, IsSignatureOf};
ghost use Rattle.rpki_issuing.specs.Roles.{GetsNumbers, IsValidAs};
ghost use Rattle.rpki_issuing.specs.declared.issuing_error.IssuingError.TheVariants.{TooLong};
ghost use Rattle.rpki_keys.specs.RsaSignatures.{IsSignedByRsa};
ghost use Rattle.rpki_parts.specs.Conditions.{Tests};
ghost use Rattle.rpki_parts.specs.SignedDatas.{signed_content, signed_data};
ghost use Rattle.rpki_issuing.specs.PreparedOctets.{HasNoRole, IsCompleted, IsListedFault, IsPrepared, IsRoleOf, IsUncompleted, IsUnprepared, IsUnpreparedAs, IsUnsignedAs};
ghost use Rattle.rpki_issuing.specs.declared.wanted.preparing.WantedError.TheVariants.{Memory, Unsigned};

use crate::wanted::rules::{IssuingRule, first_broken};
use crate::{IssuingError, ListError, NextListError, Prepared, Role, complete, prepare};
use bytes::Bytes;
use rpki_cert::{Cert, Kind, ResourceCert, TbsCert};
use rpki_crl::RevocationError;
use rpki_der::{EncodeError, Time};
use rpki_keys::RsaVerifier;
use rpki_path::revocation::RevocationSource;
use std::alloc::{AllocError, Global};

/// The error of a certificate or CRL that isn't prepared or completed.
#[derive(Drop)]
pub enum WantedError {
    /// A trust anchor has an issuer, or another certificate has none.
    NoRole,
    /// The certificate breaks a rule for issuers.
    Broken(IssuingRule),
    /// The certificate's fields aren't ready to be signed.
    Unready(IssuingError),
    /// The bytes aren't those that are prepared of the fields.
    OtherOctets,
    /// The signature isn't one of the bytes by the issuer's key.
    Unsigned(IssuingError),
    /// The issuer's CRLs don't show that the certificate is unrevoked.
    Listed(RevocationError),
    /// The CRL may not follow the previous one.
    NoList(NextListError),
    /// The CRL's fields aren't ready to be signed.
    UnreadyList(ListError),
    /// The signature isn't one of the CRL's bytes by the issuer's key.
    UnsignedList(ListError),
    /// Memory ran out.
    Memory,
}

impl From<AllocError> for WantedError {
    ghost from_gives = { λ _ e. e ≡ Memory };

    fn from(_error: AllocError) -> WantedError {
        WantedError::Memory
    }
}

// The role of a certificate of the kind below this issuer.
fn role_of<'i>(kind: Kind, issuer: Option<&'i ResourceCert>) -> Option<Role<'i>>
    ensures { let above = option_map (λ above. above.now) issuer.entry in
        MatchOption result (HasNoRole kind above) (IsRoleOf kind above) }
{
    match (kind, issuer) {
        (Kind::Anchor, None) => Some(Role::Anchor),
        (Kind::Authority, Some(issuer)) => Some(Role::Authority(issuer)),
        (Kind::EndEntity, Some(issuer)) => Some(Role::EndEntity(issuer)),
        (Kind::Detached, Some(issuer)) => Some(Role::Detached(issuer)),
        (Kind::Router, Some(issuer)) => Some(Role::Router(issuer)),
        _ => None,
    }
}

// What is prepared of the fields, in the role.
fn prepared(
    alloc: Global,
    tbs: &TbsCert,
    role: &Role<'_>,
    strict: bool,
    at: Time,
) -> Result<Prepared, WantedError>
    ensures fields { IfOk result (λ p. p ≡ tbs.now) }
    ensures ready { OnOk result (IsReady at strict role.now tbs.now) }
    ensures unready { IfErr result (λ e. e ≢ Memory → IsReady at strict role.now tbs.now → ⊥) }
    ensures told { IfErr result (IsUnpreparedAs at strict role.now tbs.now) }
{
    match prepare(alloc, tbs, role, strict, at) {
        Ok(prepared) => Ok(prepared),
        Err(error) => {
            if error.is_memory() {
                drop(error);
                return Err(WantedError::Memory);
            }
            Err(WantedError::Unready(error))
        }
    }
}

// Whether these are the octets that are to be signed.
fn is_prepared(prepared: &Prepared, octets: &[u8]) -> bool
    ensures { IsTrue result ↔ (octets.now ≡ encoding prepared.now) }
{
    octets == prepared.octets()
}

// Asks who is given whether the certificate below its issuer is unrevoked; of a trust anchor nobody
// is asked.
fn ask<R: RevocationSource>(
    cert: &Cert,
    issuer: Option<&ResourceCert>,
    asked: &R,
    strict: bool,
    at: Time,
) -> Result<(), RevocationError>
    ensures { let x = context IsSignedByRsa at strict in
        let above = option_map (λ above. above.now) issuer.entry in
        Tests (AskedIn (R.asks asked.now x) above cert.now) revocation_checks result }
{
    match issuer {
        Some(issuer) => asked.ask(cert, issuer, strict, at, &RsaVerifier),
        None => Ok(()),
    }
}

// The octets that are to be signed, where what was prepared is unrevoked.
fn octets_to_sign<R: RevocationSource>(
    alloc: Global,
    prepared: &Prepared,
    issuer: Option<&ResourceCert>,
    asked: &R,
    strict: bool,
    at: Time,
) -> Result<Bytes, WantedError>
    ensures octets { IfOk result (λ octets. octets ≡ encoding prepared.now) }
    ensures unrevoked { let x = context IsSignedByRsa at strict in
        let above = option_map (λ above. above.now) issuer.entry in
        IsOk result → IsUnrevokedIn (R.asks asked.now x) above (unsigned_certificate prepared.now) }
    ensures told { let x = context IsSignedByRsa at strict in
        let above = option_map (λ above. above.now) issuer.entry in
        IfErr result (IsListedFault (R.asks asked.now x) above (unsigned_certificate prepared.now)) }
{
    match ask(prepared.as_cert(), issuer, asked, strict, at) {
        Ok(()) => Ok(Bytes::copy_from_slice(alloc, prepared.octets())?),
        Err(error) => Err(WantedError::Listed(error)),
    }
}

/// Prepares a certificate of the kind with these fields below `issuer`, the last one of `path`, or
/// without an issuer and a path if it is a trust anchor's. Returns the bytes to sign.
///
/// The result is `Ok` if and only if only the signature is missing, the rules for issuers
/// ([`IssuingRule`]) are kept, and `asked` leaves the certificate unrevoked.
///
/// # Errors
///
/// Returns the first error:
///
/// - `NoRole` if a trust anchor has an issuer, or another certificate has none
/// - `Broken` if a rule for issuers is broken
/// - `Unready` if the certificate wouldn't be valid once it is signed
/// - `Listed` if `asked` doesn't leave it unrevoked
/// - `Memory` if memory runs out
///
/// # Not checked
///
/// Whether the issuer itself is valid, and the last one of `path`: the caller has validated it.
pub fn prepare_octets<R: RevocationSource>(
    alloc: Global,
    tbs: &TbsCert,
    kind: Kind,
    issuer: Option<&ResourceCert>,
    path: &[Bytes],
    asked: &R,
    strict: bool,
    at: Time,
) -> Result<Bytes, WantedError>
    ensures prepared { let x = context IsSignedByRsa at strict in
        let above = option_map (λ above. above.now) issuer.entry in
        IfOk result (IsPrepared kind above path.now (R.asks asked.now x) at strict tbs.now) }
    ensures refused { let x = context IsSignedByRsa at strict in
        let above = option_map (λ above. above.now) issuer.entry in
        IfErr result (λ e. e ≢ Memory → (octets : List ℕ)
        → IsPrepared kind above path.now (R.asks asked.now x) at strict tbs.now octets → ⊥) }
    ensures told { let x = context IsSignedByRsa at strict in
        let above = option_map (λ above. above.now) issuer.entry in
        IfErr result (IsUnprepared kind above path.now (R.asks asked.now x) at strict tbs.now) }
{
    let Some(role) = role_of(kind, issuer) else {
        return Err(WantedError::NoRole);
    };
    if let Some(rule) = first_broken(alloc, tbs, kind, issuer, path)? {
        return Err(WantedError::Broken(rule));
    }
    let prepared = prepared(alloc, tbs, &role, strict, at)?;
    let octets = octets_to_sign(alloc, &prepared, issuer, asked, strict, at);
    drop(prepared);
    octets
}

// The octets of a certificate.
fn octets_of(alloc: Global, cert: &Cert) -> Result<Bytes, WantedError>
    ensures ok { IfOk result (λ octets. octets ≡ signed_data cert.now.signed_data) }
    ensures fits { IsOk result → length (signed_content cert.now.signed_data) < 2 ^ 32 }
    ensures told { IfErr result (λ e. (e ≡ Memory) ⊎ ((e ≡ Unsigned TooLong)
        × (2 ^ 32 ≤ length (signed_content cert.now.signed_data)))) }
{
    match cert.to_captured(alloc) {
        Ok(octets) => Ok(octets),
        Err(EncodeError::TooLong) => Err(WantedError::Unsigned(IssuingError::TooLong)),
        Err(EncodeError::Memory) => Err(WantedError::Memory),
    }
}

// The octets of a certificate, where it is unrevoked.
fn octets_unrevoked<R: RevocationSource>(
    alloc: Global,
    cert: &Cert,
    issuer: Option<&ResourceCert>,
    asked: &R,
    strict: bool,
    at: Time,
) -> Result<Bytes, WantedError>
    ensures ok { IfOk result (λ octets. octets ≡ signed_data cert.now.signed_data) }
    ensures fits { IsOk result → length (signed_content cert.now.signed_data) < 2 ^ 32 }
    ensures unrevoked { let x = context IsSignedByRsa at strict in
        let above = option_map (λ above. above.now) issuer.entry in
        IsOk result → IsUnrevokedIn (R.asks asked.now x) above cert.now }
    ensures told { let x = context IsSignedByRsa at strict in
        let above = option_map (λ above. above.now) issuer.entry in
        IfErr result (λ e. IsListedFault (R.asks asked.now x) above cert.now e
        ⊎ ((e ≡ Unsigned TooLong)
        × (2 ^ 32 ≤ length (signed_content cert.now.signed_data)))) }
{
    match ask(cert, issuer, asked, strict, at) {
        Ok(()) => octets_of(alloc, cert),
        Err(error) => Err(WantedError::Listed(error)),
    }
}

// The certificate that the signature completes.
fn completed(
    alloc: Global,
    prepared: &Prepared,
    signature: &[u8],
    role: &Role<'_>,
    strict: bool,
    at: Time,
) -> Result<Cert, WantedError>
    requires { IsReady at strict role.now prepared.now }
    ensures same { IfOk result (λ c. c ≡ signed_with prepared.now signature.now) }
    ensures read { IfOk result (λ c. IsCertificate c (signed_data c.signed_data)) }
    ensures valid { IfOk result (IsValidAs (context IsSignedByRsa at strict) role.now) }
    ensures numbers { IfOk result (GetsNumbers role.now) }
    ensures signed { OnOk result
        (IsSignatureOf IsSignedByRsa role.now prepared.now signature.now) }
    ensures unsigned { let signed = (signed_with prepared.now signature.now).signed_data in
        IfErr result (λ e. e ≢ Memory → length (signed_content signed) < 2 ^ 32
        → IsSignatureOf IsSignedByRsa role.now prepared.now signature.now → ⊥) }
    ensures told { IfErr result (IsUnsignedAs role.now prepared.now signature.now) }
{
    match complete(alloc, prepared, signature, role, strict, at, &RsaVerifier) {
        Ok(cert) => Ok(cert),
        Err(error) => {
            if error.is_memory() {
                drop(error);
                return Err(WantedError::Memory);
            }
            Err(WantedError::Unsigned(error))
        }
    }
}

/// Completes a prepared certificate with its signature. Returns the certificate's bytes.
///
/// The result is `Ok` if and only if all of these are so:
///
/// - [`prepare_octets`] accepts the fields
/// - `octets` are those that it returns
/// - the issuer's key, or a trust anchor's own key, signed them (RSA, RFC 7935)
/// - `asked` leaves the certificate unrevoked
///
/// The certificate is accepted: alone if it is a trust anchor's, below the issuer if it is a
/// router's, and else as the last one behind every valid path to the issuer (`accepted`).
///
/// # Errors
///
/// Returns the first error:
///
/// - `NoRole`, `Broken` or `Unready`, as [`prepare_octets`]
/// - `OtherOctets` if `octets` aren't those that are prepared of the fields
/// - `Unsigned` if the signature doesn't verify, or if the certificate would be too long
/// - `Listed` if `asked` doesn't leave it unrevoked
/// - `Memory` if memory runs out
///
/// # Not checked
///
/// As [`prepare_octets`].
pub fn complete_octets<R: RevocationSource>(
    alloc: Global,
    tbs: &TbsCert,
    octets: &[u8],
    signature: &[u8],
    kind: Kind,
    issuer: Option<&ResourceCert>,
    path: &[Bytes],
    asked: &R,
    strict: bool,
    at: Time,
) -> Result<Bytes, WantedError>
    ensures completed { let x = context IsSignedByRsa at strict in
        let above = option_map (λ above. above.now) issuer.entry in
        IfOk result (IsCompleted kind above path.now (R.asks asked.now x) at strict
        tbs.now octets.now signature.now) }
    ensures read { IfOk result (IsCertificate (signed_with tbs.now signature.now)) }
    ensures accepted { let x = context IsSignedByRsa at strict in
        let above = option_map (λ above. above.now) issuer.entry in
        IfOk result (IsAcceptedBelow x (R.asks asked.now x) kind above) }
    ensures refused { let x = context IsSignedByRsa at strict in
        let above = option_map (λ above. above.now) issuer.entry in
        IfErr result (λ e. e ≢ Memory → (made : List ℕ)
        → IsCompleted kind above path.now (R.asks asked.now x) at strict
        tbs.now octets.now signature.now made → ⊥) }
    ensures told { let x = context IsSignedByRsa at strict in
        let above = option_map (λ above. above.now) issuer.entry in
        IfErr result (IsUncompleted kind above path.now (R.asks asked.now x) at strict
        tbs.now octets.now signature.now) }
{
    let Some(role) = role_of(kind, issuer) else {
        return Err(WantedError::NoRole);
    };
    if let Some(rule) = first_broken(alloc, tbs, kind, issuer, path)? {
        return Err(WantedError::Broken(rule));
    }
    let prepared = prepared(alloc, tbs, &role, strict, at)?;
    if !is_prepared(&prepared, octets) {
        drop(prepared);
        return Err(WantedError::OtherOctets);
    }
    let completed = completed(alloc, &prepared, signature, &role, strict, at);
    drop(prepared);
    let cert = completed?;
    let made = octets_unrevoked(alloc, &cert, issuer, asked, strict, at);
    drop(cert);
    made
}
