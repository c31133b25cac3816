//! The trust anchor of a TAL among the certificates of a folder.
ghost use Rattle.std.specs.Prelude.{◌≡◌, ◌↔◌, ◌<◌, length, IfOk, IsTrue};
ghost use Rattle.rpki_folder.specs.Folders.{string_at};
ghost use Rattle.rpki_folder.specs.FoundAnchors.{IsFound, anchor_order};
ghost use Rattle.rpki_folder.specs.FoundAnchors.Steps.{IsKeptFound, IsTried};
ghost use Rattle.rpki_folder.specs.WalkViews.{walk_view};

use crate::admission::Admission;
use crate::walk::Walk;
use crate::walk_error::WalkError;
use rpki_cert::{Cert, ResourceCert, laws};
use rpki_keys::tal::Tal;
use rpki_parts::Verifier;
use rpki_path::Member;
use std::alloc::AllocError;
use std::cmp::Ordering;

/// A certificate that has the key of a TAL, and what is wrong with it as the trust anchor.
#[derive(Drop)]
pub struct WrongCandidate {
    /// Its place.
    pub place: usize,
    pub error: WalkError,
}

/// The result of [`Walk::find_anchor`].
#[derive(Drop)]
pub enum FoundAnchor {
    /// The place of the trust anchor, and the trust anchor with its resources.
    Valid(usize, ResourceCert),
    /// No certificate is a valid trust anchor. These have the TAL's key, in the order of places.
    Wrong(Vec<WrongCandidate>),
}

// What is found of one certificate: it has another key than the TAL; it is a valid trust anchor, and
// holds this; or it is wrong so.
#[derive(Drop)]
enum Tried {
    OtherKey,
    Valid(ResourceCert),
    Wrong(WalkError),
}

// The octets of a certificate's signature.
fn signature_of(cert: &Cert) -> &[u8]
    ensures { result.now ≡ cert.now.signed_data.signature.value }
{
    cert.signed_data().signature().value()
}

// How two certificates stand as trust anchors: that which is valid longer is the greater one, then
// that which began later, then that whose signed octets are greater, and then that whose signature is.
fn order(one: &Cert, other: &Cert) -> Ordering
    ensures { result ≡ anchor_order one.now other.now }
{
    let validity = one.as_tbs().validity();
    let others = other.as_tbs().validity();
    validity
        .not_after()
        .cmp(&others.not_after())
        .then(validity.not_before().cmp(&others.not_before()))
        .then(one.signed_data().data().cmp(other.signed_data().data()))
        .then(signature_of(one).cmp(signature_of(other)))
}

// Whether the first of two is the lesser one.
fn is_less(order: Ordering) -> bool
    ensures { IsTrue result ↔ (order ≡ Ordering.Less) }
{
    match order {
        Ordering::Less => true,
        Ordering::Equal | Ordering::Greater => false,
    }
}

// Keeps what is wrong with one candidate more, unless a valid one was found.
fn with_wrong(found: FoundAnchor, wrong: WrongCandidate) -> Result<FoundAnchor, AllocError>
    ensures { IfOk result (IsKeptFound found wrong.place (Tried.Wrong wrong.error)) }
{
    match found {
        FoundAnchor::Valid(place, issuer) => {
            drop(wrong);
            Ok(FoundAnchor::Valid(place, issuer))
        }
        FoundAnchor::Wrong(mut all) => {
            all.push(wrong)?;
            Ok(FoundAnchor::Wrong(all))
        }
    }
}

// Keeps a valid trust anchor, unless one was found before that isn't less.
fn with_valid(found: FoundAnchor, place: usize, issuer: ResourceCert) -> FoundAnchor
    ensures { IsKeptFound found place (Tried.Valid issuer) result }
{
    match found {
        FoundAnchor::Valid(before, best) => {
            if is_less(order(best.as_cert(), issuer.as_cert())) {
                drop(best);
                return FoundAnchor::Valid(place, issuer);
            }
            drop(issuer);
            FoundAnchor::Valid(before, best)
        }
        FoundAnchor::Wrong(wrong) => {
            drop(wrong);
            FoundAnchor::Valid(place, issuer)
        }
    }
}

// Keeps what was found of the certificate at a place.
fn kept(found: FoundAnchor, place: usize, tried: Tried) -> Result<FoundAnchor, AllocError>
    ensures { IfOk result (IsKeptFound found place tried) }
{
    match tried {
        Tried::OtherKey => Ok(found),
        Tried::Wrong(error) => with_wrong(found, WrongCandidate { place, error }),
        Tried::Valid(issuer) => Ok(with_valid(found, place, issuer)),
    }
}

impl<'w, A: Admission, V: Verifier> Walk<'w, A, V> {
    // What is found of the certificate at a place as the trust anchor.
    fn try_anchor(&self, tal: &Tal, place: usize) -> Result<Tried, AllocError>
        requires { place < length self.now.folder.now.certs }
        ensures { let w = walk_view V.verifies A.admits self.now in
            let octets = string_at w.folder.certs place in
            IfOk result (IsTried w.context w.asked w.names tal.now octets) }
    {
        laws::unambiguous();
        let file = &self.folder.certs()[place];
        let cert = file.cert(self.alloc)?;
        if !tal.has_key(cert.as_tbs().subject_public_key_info()) {
            drop(cert);
            return Ok(Tried::OtherKey);
        }
        let answer = self.trust_anchor(tal, &Member::read_as(file.octets(), &cert));
        drop(cert);
        match answer {
            Ok(issuer) => Ok(Tried::Valid(issuer)),
            Err(WalkError::Memory) => Err(AllocError),
            Err(error) => Ok(Tried::Wrong(error)),
        }
    }

    /// Finds the trust anchor of a TAL among the certificates of the folder: one that has the TAL's
    /// key (RFC 8630 3) and is valid as its trust anchor ([`Walk::trust_anchor`]).
    ///
    /// If several are valid, it is the one that is valid longest, then the one whose validity starts
    /// last, then the one whose to-be-signed bytes are
    /// greatest, then the one whose signature is (own). So no certificate that isn't
    /// valid can take its place, and no older one.
    ///
    /// # Errors
    ///
    /// Returns an error only if memory runs out.
    ///
    /// # Not checked
    ///
    /// As for [`Walk::trust_anchor`].
    pub fn find_anchor(&self, tal: &Tal) -> Result<FoundAnchor, AllocError>
        ensures { let w = walk_view V.verifies A.admits self.now in
            IfOk result (IsFound w.context w.asked w.names tal.now w.folder.certs) }
    {
        laws::unambiguous();
        let count = self.folder.certs().len();
        let mut found = FoundAnchor::Wrong(Vec::new(self.alloc));
        for place in 0..count {
            let tried = self.try_anchor(tal, place)?;
            found = kept(found, place, tried)?;
        }
        Ok(found)
    }
}
