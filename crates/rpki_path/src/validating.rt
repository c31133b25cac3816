//! Certification paths: from a trust anchor down to the last certificate (RFC 6487 7.2; own: name
//! chaining is a check of its own).
ghost use Rattle.std.specs.Prelude.{◌≡◌, Ok, Err, IfOk, IfErr};
ghost use Rattle.std.proofs.Common.{rc_value};
ghost use Rattle.rpki_cert.specs.Verification.{context};
ghost use Rattle.rpki_path.specs.Asking.{nobody, by_uri};
ghost use Rattle.rpki_path.specs.declared.path_fault.PathFault.TheVariants.{Memory};
ghost use Rattle.rpki_path.specs.Paths.{candidates, IsAccepted, IsFault, IsUnasked, Validates};
ghost use Rattle.rpki_path.specs.Validators.{validator_view};

use crate::given::Last;
use crate::members::Member;
use crate::path_fault::{PathError, PathFault};
use crate::revocation::{NobodyAsked, RevocationSource};
use crate::validator::{Validator, placed};
use bytes::Bytes;
use rpki_cert::{ResourceCert, laws};
use rpki_crl::CrlStore;
use rpki_der::Time;
use rpki_parts::{TalInfo, Verifier};
use std::alloc::Global;
use std::rc::Rc;

/// The last certificate of a path, if it isn't a CA's.
#[derive(Drop)]
pub enum Leaf {
    /// An end entity, which signs an object that its certificate names.
    Ee(Bytes),
    /// An end entity that signs any object.
    DetachedEe(Bytes),
}

// Certificates of which nothing was read yet.
fn members_of<'p>(alloc: Global, strings: &'p [Bytes]) -> Result<Vec<Member<'p>>, PathFault>
    ensures ok { IfOk result (λ members. members.items ≡ strings.now) }
    ensures memory { IfErr result (λ e. e ≡ Memory) }
{
    Ok(Member::of_each(alloc, strings)?)
}

// The answer of the walk down to the leaf, below certificates of which nothing was read yet.
fn to_leaf<R: RevocationSource, V: Verifier>(
    validator: &Validator<'_, '_, R, V>,
    anchor: &Member<'_>,
    cas: &[Member<'_>],
    leaf: &Option<Leaf>,
    tal: Rc<TalInfo>,
) -> Result<ResourceCert, PathError>
    ensures ok { let v = validator_view V.verifies R.asks validator.now in
        let below = candidates cas.now leaf.now in
        IfOk result (IsAccepted v.context v.asked anchor.now below (rc_value tal)) }
    ensures named { let v = validator_view V.verifies R.asks validator.now in
        IfErr result (IsFault v.context v.asked anchor.now (candidates cas.now leaf.now)) }
{
    match leaf {
        None => validator.members(anchor, cas, None, tal),
        Some(Leaf::Ee(octets)) => {
            let end = Member::of(octets);
            validator.members(anchor, cas, Some(Last::Ee(&end)), tal)
        }
        Some(Leaf::DetachedEe(octets)) => {
            let end = Member::of(octets);
            validator.members(anchor, cas, Some(Last::DetachedEe(&end)), tal)
        }
    }
}

// The answer of the walk down these strings, below a trust anchor that may have been read.
pub(crate) fn walked<R: RevocationSource, V: Verifier>(
    validator: &Validator<'_, '_, R, V>,
    anchor: &Member<'_>,
    cas: &[Bytes],
    leaf: &Option<Leaf>,
    tal: Rc<TalInfo>,
) -> Result<ResourceCert, PathError>
    ensures ok { let v = validator_view V.verifies R.asks validator.now in
        let below = candidates cas.now leaf.now in
        IfOk result (IsAccepted v.context v.asked anchor.now below (rc_value tal)) }
    ensures named { let v = validator_view V.verifies R.asks validator.now in
        IfErr result (IsFault v.context v.asked anchor.now (candidates cas.now leaf.now)) }
{
    let cas = placed(0, members_of(validator.alloc, cas))?;
    let answer = to_leaf(validator, anchor, &cas, leaf, tal);
    drop(cas);
    answer
}

/// Validates a path: the trust anchor, the CAs below it from the top down, and a leaf, if there is
/// one.
///
/// Each string has to start with a certificate; the rest is ignored. A certificate is decoded,
/// inspected as its kind and verified before the next one is: the trust anchor at this time and by
/// its own key, each later one below the one above it (RFC 6487 7.2). Returns the last certificate,
/// with the resources that the trust anchor lists and every later one lists or inherits, and with
/// the TAL's name. `strict` affects only which string types names may have. The leaf is consumed,
/// also if the path is rejected.
///
/// # Errors
///
/// Returns the path index of the first wrong certificate, and what is wrong with it; never
/// `Revocation`.
///
/// # Not checked
///
/// Whether a certificate is revoked ([`validate_path_with`]), name chaining
/// ([`crate::first_unchained`]), whether the trust anchor has a TAL's key
/// ([`crate::validate_located`]), and manifests (own).
pub fn validate_path<V: Verifier>(
    alloc: Global,
    anchor: &Bytes,
    cas: &[Bytes],
    leaf: Option<Leaf>,
    tal: Rc<TalInfo>,
    strict: bool,
    now: Time,
    verifier: &V,
) -> Result<ResourceCert, PathError>
    // Ok if and only if each string starts with a certificate of a valid path: the headline.
    ensures validates { let x = context (V.verifies verifier.now) now strict in
        Validates x nobody anchor.now (candidates cas.now leaf) (rc_value tal) result }
    // The certificates before the index are a valid path; the error is that of the string there.
    ensures named { let x = context (V.verifies verifier.now) now strict in
        IfErr result (IsFault x nobody anchor.now (candidates cas.now leaf)) }
    ensures unasked { IfErr result (λ e. IsUnasked e.fault) }
{
    laws::unambiguous();
    let validator = Validator {
        alloc,
        asked: &NobodyAsked,
        strict,
        at: now,
        verifier,
    };
    walked(&validator, &Member::of(anchor), cas, &leaf, tal)
}

/// Validates a path as [`validate_path`] does, and checks revocation by a store of CRLs.
///
/// Each certificate below the trust anchor is checked once it is verified and before the next is
/// decoded, by [`CrlStore::check`] with its CRL URI, its serial number and its issuer (RFC 6487
/// 7.2).
///
/// # Errors
///
/// Returns the path index of the first certificate that is wrong or isn't found unrevoked, and why.
///
/// # Not checked
///
/// Whether a CRL is its issuer's newest: the first under the URI is used. Name chaining
/// ([`crate::first_unchained`]), and manifests (own).
pub fn validate_path_with<V: Verifier>(
    alloc: Global,
    store: &CrlStore,
    anchor: &Bytes,
    cas: &[Bytes],
    leaf: Option<Leaf>,
    tal: Rc<TalInfo>,
    strict: bool,
    now: Time,
    verifier: &V,
) -> Result<ResourceCert, PathError>
    // Ok if and only if each string starts with a certificate of a valid path, none revoked.
    ensures validates { let x = context (V.verifies verifier.now) now strict in
        let asked = by_uri x store.now.pairs in
        Validates x asked anchor.now (candidates cas.now leaf) (rc_value tal) result }
    // The certificates before the index are a valid path, unrevoked, and the error is that of the
    // string there.
    ensures named { let x = context (V.verifies verifier.now) now strict in
        let asked = by_uri x store.now.pairs in
        IfErr result (IsFault x asked anchor.now (candidates cas.now leaf)) }
{
    laws::unambiguous();
    let validator = Validator {
        alloc,
        asked: store,
        strict,
        at: now,
        verifier,
    };
    walked(&validator, &Member::of(anchor), cas, &leaf, tal)
}
