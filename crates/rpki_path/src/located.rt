//! Certification paths from the trust anchor of a TAL.
ghost use Rattle.std.specs.Prelude.{◌≡◌, ◌↔◌, ℕ, List, Ok, Err, IsTrue, IsFalse, IfOk, OnOk, IfErr};
ghost use Rattle.std.proofs.Common.{rc_value};
ghost use Rattle.rpki_blocks.specs.IssuedSets.{IsListed};
ghost use Rattle.rpki_cert.specs.Certificates.{IsCertificate};
ghost use Rattle.rpki_cert.specs.Verification.{context};
ghost use Rattle.rpki_ext.specs.Kinds.{Means};
ghost use Rattle.rpki_path.specs.Asking.{by_uri};
ghost use Rattle.rpki_path.specs.LocatedPaths.{BeginsWithAnchor, BeginsWithKey, BeginsWithOtherKey, IsAnchorFault, IsLocatedFault, IsOutOfMemory, ListsSome, ValidatesFrom, located_error_name};
ghost use Rattle.rpki_path.specs.Paths.{candidates, IsAccepted};
ghost use Rattle.rpki_path.specs.Paths.Steps.{IsUnread};
ghost use Rattle.rpki_path.specs.Validators.{validator_view};
ghost use Rattle.rpki_path.specs.declared.path_fault.PathFault.TheVariants.{Memory};

use crate::members::Member;
use crate::path_fault::{PathError, PathFault};
use crate::revocation::RevocationSource;
use crate::validating::{Leaf, walked};
use crate::validator::{Validator, placed};
use bytes::Bytes;
use rpki_blocks::{Bound, Resources};
use rpki_cert::{Cert, ResourceCert, laws};
use rpki_crl::CrlStore;
use rpki_der::Time;
use rpki_keys::tal::Tal;
use rpki_parts::{TalInfo, Verifier};
use std::alloc::Global;
use std::rc::Rc;
use thiserror::Error;

/// Why a path isn't accepted below the trust anchor of a TAL (RFC 8630 3).
#[derive(Debug, Drop, Error)]
pub enum LocatedError {
    /// The trust anchor's key isn't the TAL's (RFC 8630 3).
    #[error("the trust anchor has another key than the locator")]
    OtherKey,
    /// The trust anchor lists no IP address and no AS number (RFC 8630 2.3).
    #[error("the trust anchor lists no resources")]
    NoResources,
    /// A certificate of the path is wrong.
    #[error("{0}")]
    Path(PathError),
}

impl LocatedError {
    /// Returns the variant's name.
    pub fn name(&self) -> &'static str
        ensures { result.now ≡ located_error_name self.now }
    {
        match self {
            LocatedError::OtherKey => "OtherKey",
            LocatedError::NoResources => "NoResources",
            LocatedError::Path(_) => "Path",
        }
    }

    /// Returns whether memory ran out.
    pub fn is_memory(&self) -> bool
        ensures { IsTrue result ↔ IsOutOfMemory self.now }
    {
        match self {
            LocatedError::OtherKey | LocatedError::NoResources => false,
            LocatedError::Path(error) => error.is_memory(),
        }
    }
}

impl From<PathError> for LocatedError {
    ghost use Rattle.rpki_path.specs.declared.located.LocatedError.TheVariants.{Path};

    ghost from_gives = { λ error e. e ≡ Path error };

    fn from(error: PathError) -> LocatedError {
        LocatedError::Path(error)
    }
}

/// Returns whether the certificate at the start of a trust anchor's bytes has the TAL's key (RFC
/// 8630 3): its algorithm and its bits. A certificate that was read before isn't read again.
///
/// # Errors
///
/// Returns `Decode` if the bytes don't start with a certificate, and `Memory`.
///
/// # Not checked
///
/// Whether the certificate is valid, and whether its own key signed it.
pub fn has_locator_key(alloc: Global, anchor: &Member<'_>, tal: &Tal) -> Result<bool, PathFault>
    ensures same { IfOk result (λ b. IsTrue b → BeginsWithKey tal.now.tal anchor.now) }
    ensures other { IfOk result (λ b. IsFalse b → BeginsWithOtherKey tal.now.tal anchor.now) }
    ensures fault { IfErr result (IsUnread anchor.now) }
{
    match anchor.cert() {
        Some(cert) => Ok(tal.has_key(cert.as_tbs().subject_public_key_info())),
        None => {
            let cert = anchor.decoded(alloc)?;
            let is_same = tal.has_key(cert.as_tbs().subject_public_key_info());
            drop(cert);
            Ok(is_same)
        }
    }
}

// Whether the resources list a number.
fn lists_number<B: Bound>(resources: &Resources<B>) -> bool
    ensures { IsTrue result ↔ ((n : ℕ) × IsListed n resources.now) }
{
    if resources.is_inherited() {
        return false;
    }
    resources.is_present()
}

/// Returns whether the certificate itself lists an IP address or an AS number, as a trust anchor
/// has to (RFC 8630 2.3). Inherited resources don't count.
pub fn lists_numbers(cert: &Cert) -> bool
    ensures { IsTrue result ↔ ListsSome cert.now }
{
    let tbs = cert.as_tbs();
    lists_number(tbs.v4_resources())
        || lists_number(tbs.v6_resources())
        || lists_number(tbs.as_resources())
}

// Whether the certificate can be the TAL's trust anchor.
fn test_cert(cert: &Cert, tal: &Tal) -> Result<(), LocatedError>
    ensures ok { (octets : List ℕ) → Means IsCertificate cert.now octets
        → OnOk result (BeginsWithAnchor tal.now.tal octets) }
    ensures fault { (octets : List ℕ) → Means IsCertificate cert.now octets
        → IfErr result (IsAnchorFault tal.now.tal octets) }
{
    if !tal.has_key(cert.as_tbs().subject_public_key_info()) {
        return Err(LocatedError::OtherKey);
    }
    if !lists_numbers(cert) {
        return Err(LocatedError::NoResources);
    }
    Ok(())
}

/// Checks that the certificate at the start of a trust anchor's bytes can be the TAL's trust
/// anchor: it has the TAL's key (RFC 8630 3), and lists an IP address or an AS number (RFC 8630
/// 2.3). A certificate that was read before isn't read again.
///
/// # Errors
///
/// Returns the first of these errors whose condition holds:
///
/// - `Decode` at path index 0: the bytes don't start with a certificate; or `Memory`
/// - `OtherKey`: the certificate doesn't have the TAL's key
/// - `NoResources`: the certificate lists no IP address and no AS number
///
/// # Not checked
///
/// Whether the certificate is valid, and whether its own key signed it.
pub fn test_anchor(alloc: Global, anchor: &Member<'_>, tal: &Tal) -> Result<(), LocatedError>
    ensures ok { OnOk result (BeginsWithAnchor tal.now.tal anchor.now) }
    ensures fault { IfErr result (IsAnchorFault tal.now.tal anchor.now) }
{
    match anchor.cert() {
        Some(cert) => test_cert(cert, tal),
        None => {
            let cert = placed(0, anchor.decoded(alloc))?;
            let answer = test_cert(&cert, tal);
            drop(cert);
            answer
        }
    }
}

// The TAL's name, which is shared.
fn name_of(tal: &Tal) -> Result<Rc<TalInfo>, PathFault>
    ensures ok { IfOk result (λ info. rc_value info ≡ tal.now.name) }
    ensures memory { IfErr result (λ e. e ≡ Memory) }
{
    Ok(tal.info().clone()?)
}

// The answer of the walk below a trust anchor that can be the TAL's.
fn walked_from<R: RevocationSource, V: Verifier>(
    validator: &Validator<'_, '_, R, V>,
    tal: &Tal,
    anchor: &Member<'_>,
    cas: &[Bytes],
    leaf: &Option<Leaf>,
) -> Result<ResourceCert, LocatedError>
    ensures ok { let v = validator_view V.verifies R.asks validator.now in
        let below = candidates cas.now leaf.now in
        IfOk result (λ r. BeginsWithAnchor tal.now.tal anchor.now
        × IsAccepted v.context v.asked anchor.now below tal.now.name r) }
    ensures named { let v = validator_view V.verifies R.asks validator.now in
        let below = candidates cas.now leaf.now in
        IfErr result (IsLocatedFault v.context v.asked tal.now.tal anchor.now below) }
{
    laws::unambiguous();
    test_anchor(validator.alloc, anchor, tal)?;
    let name = placed(0, name_of(tal))?;
    Ok(walked(validator, anchor, cas, leaf, name)?)
}

/// Validates a path below a TAL: as [`crate::validate_path_with`] does, after the trust anchor's
/// key was compared with the TAL's (RFC 8630 3, step 3) and the anchor was found to list an IP
/// address or an AS number (RFC 8630 2.3). Returns what the last certificate holds, with the TAL's
/// name. Nothing is fetched: the caller passes the bytes.
///
/// # Errors
///
/// Returns `OtherKey` or `NoResources`, and then nothing else was checked; or the path index of the
/// first certificate that is wrong or isn't found unrevoked, and why.
///
/// # Not checked
///
/// Whether a CRL is its issuer's newest, name chaining ([`crate::first_unchained`]), and manifests
/// (own).
pub fn validate_located<V: Verifier>(
    alloc: Global,
    tal: &Tal,
    store: &CrlStore,
    anchor: &Bytes,
    cas: &[Bytes],
    leaf: Option<Leaf>,
    strict: bool,
    now: Time,
    verifier: &V,
) -> Result<ResourceCert, LocatedError>
    // Ok if and only if each string starts with a certificate of a valid path, none of which is
    // revoked and whose trust anchor has the TAL's key and lists a number.
    ensures validates { let x = context (V.verifies verifier.now) now strict in
        let asked = by_uri x store.now.pairs in
        ValidatesFrom x asked tal.now anchor.now (candidates cas.now leaf) result }
    // The trust anchor has another key, or lists no number; or the certificates before the index
    // are a valid path, unrevoked, and the error is that of the string there.
    ensures named { let x = context (V.verifies verifier.now) now strict in
        let asked = by_uri x store.now.pairs in
        IfErr result (IsLocatedFault x asked tal.now.tal anchor.now (candidates cas.now leaf)) }
{
    laws::unambiguous();
    let validator = Validator {
        alloc,
        asked: store,
        strict,
        at: now,
        verifier,
    };
    let cert = placed(0, Member::of(anchor).decoded(alloc))?;
    let answer = walked_from(&validator, tal, &Member::read_as(anchor, &cert), cas, &leaf);
    drop(cert);
    answer
}
