//! Rules that a certificate has to keep only if it is issued here.
ghost use Rattle.std.specs.Prelude.{◌≡◌, ◌↔◌, option_map, IfOk, IsTrue, MatchOption};
ghost use Rattle.rpki_parts.specs.Conditions.{IsFirstFalse};
ghost use Rattle.rpki_issuing.specs.IssuingRules.{CertifiesKey, HasOwnKey, IsNoKeyOf, IsNotIssuersKey, KeepsRules, RuleCheck, issuing_rules};

use bytes::Bytes;
use rpki_cert::{Cert, Kind, ResourceCert, TbsCert, laws};
use rpki_der::Serial;
use rpki_parts::PublicKey;
use std::alloc::{AllocError, Global};

/// A rule for issuers, which validation doesn't check.
#[derive(Debug, Clone, Copy)]
pub enum IssuingRule {
    /// The serial number has to be positive (RFC 6487 4.2).
    ZeroSerial,
    /// notBefore has to be in 1950 or later: UTCTime is required through 2049, and has no earlier
    /// year (RFC 5280 4.1.2.5).
    EarlyValidity,
    /// A CA has to have another key than its issuer and each certificate of its issuer's path (own
    /// rule). With one of these keys, the CAs would form a circle.
    IssuerKey,
}

// Whether the keys are one: their algorithm and their bits are.
fn is_one_key(one: &PublicKey, other: &PublicKey) -> bool
    ensures { IsTrue result ↔ one.now ≡ other.now }
{
    one.algorithm() == other.algorithm() && one.bits() == other.bits()
}

// Whether the certificate has this key.
fn has_key(cert: &Cert, key: &PublicKey) -> bool
    ensures { IsTrue result ↔ cert.now.fields.key ≡ key.now }
{
    is_one_key(cert.as_tbs().subject_public_key_info(), key)
}

// Whether the octets begin with a certificate of this key.
fn certifies(alloc: Global, octets: &Bytes, key: &PublicKey) -> Result<bool, AllocError>
    ensures { IfOk result (λ is. IsTrue is ↔ CertifiesKey key.now octets.now) }
{
    // Called for what it ensures alone.
    laws::unambiguous();
    match Cert::decode_shared(alloc, octets.clone()?) {
        Ok(cert) => {
            let is_own = has_key(&cert, key);
            drop(cert);
            Ok(is_own)
        }
        Err(error) => {
            let is_memory = error.is_memory();
            drop(error);
            if is_memory {
                Err(AllocError)
            } else {
                Ok(false)
            }
        }
    }
}

// Whether no certificate of the path has this key.
fn is_no_key_of(alloc: Global, path: &[Bytes], key: &PublicKey) -> Result<bool, AllocError>
    ensures { IfOk result (λ is. IsTrue is ↔ IsNoKeyOf path.now key.now) }
{
    for octets in path {
        if certifies(alloc, octets, key)? {
            return Ok(false);
        }
    }
    Ok(true)
}

// Whether the issuer, where there is one, has another key.
fn is_not_issuers_key(issuer: Option<&ResourceCert>, key: &PublicKey) -> bool
    ensures { let above = option_map (λ above. above.now) issuer.entry in
        IsTrue result ↔ IsNotIssuersKey above key.now }
{
    match issuer {
        Some(issuer) => !has_key(issuer.as_cert(), key),
        None => true,
    }
}

// Whether neither the issuer nor a certificate of its path has this key.
fn is_own_key(
    alloc: Global,
    key: &PublicKey,
    issuer: Option<&ResourceCert>,
    path: &[Bytes],
) -> Result<bool, AllocError>
    ensures { let above = option_map (λ above. above.now) issuer.entry in
        IfOk result (λ is. IsTrue is ↔ IsNotIssuersKey above key.now × IsNoKeyOf path.now key.now) }
{
    if is_not_issuers_key(issuer, key) {
        is_no_key_of(alloc, path, key)
    } else {
        Ok(false)
    }
}

// Whether a CA has another key than its issuer and each certificate of its issuer's path.
fn has_own_key(
    alloc: Global,
    tbs: &TbsCert,
    kind: Kind,
    issuer: Option<&ResourceCert>,
    path: &[Bytes],
) -> Result<bool, AllocError>
    ensures { let above = option_map (λ above. above.now) issuer.entry in
        IfOk result (λ has. IsTrue has ↔ HasOwnKey kind above path.now tbs.now) }
{
    match kind {
        Kind::Authority => is_own_key(alloc, tbs.subject_public_key_info(), issuer, path),
        _ => Ok(true),
    }
}

/// Returns the first rule that the certificate of the kind doesn't keep below this issuer, the last
/// one of this path, or `None` if it keeps all.
///
/// # Errors
///
/// Returns an error only if memory runs out.
pub(crate) fn first_broken(
    alloc: Global,
    tbs: &TbsCert,
    kind: Kind,
    issuer: Option<&ResourceCert>,
    path: &[Bytes],
) -> Result<Option<IssuingRule>, AllocError>
    ensures { let above = option_map (λ above. above.now) issuer.entry in
        IfOk result (λ found. MatchOption found (KeepsRules kind above path.now tbs.now)
        (IsFirstFalse (RuleCheck kind above path.now tbs.now) issuing_rules)) }
{
    if tbs.serial_number() == Serial::from(0u64) {
        return Ok(Some(IssuingRule::ZeroSerial));
    }
    if tbs.validity().not_before().year() < 1950 {
        return Ok(Some(IssuingRule::EarlyValidity));
    }
    if !has_own_key(alloc, tbs, kind, issuer, path)? {
        return Ok(Some(IssuingRule::IssuerKey));
    }
    Ok(None)
}
