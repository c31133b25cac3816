//! The entity of an issuer, by which circles are found.
ghost use Rattle.std.specs.Prelude.{◌≡◌, ◌↔◌, ◌<◌, ℕ, length, Contains, Result, Ok, IfOk, IsTrue, IsFalse};
ghost use Rattle.rpki_cert.specs.Certificates.{CertFields};
ghost use Rattle.rpki_path.specs.Repeats.{AreOneEntity};
ghost use Rattle.rpki_folder.specs.Walks.{StandsAt, IsLastOf, IsRepeated, EndsNoCircle};
ghost use Rattle.rpki_folder.specs.WalkViews.{walk_view};

use crate::admission::Admission;
use crate::walk::Walk;
use rpki_cert::{Cert, ResourceCert, laws};
use rpki_parts::{PublicKey, Verifier};
use std::alloc::AllocError;

/// Returns whether the keys are equal: their algorithms and their bits are.
pub(crate) fn is_one_key(one: &PublicKey, other: &PublicKey) -> bool
    ensures { IsTrue result ↔ one.now ≡ other.now }
{
    one.algorithm() == other.algorithm() && one.bits() == other.bits()
}

/// Returns whether two certificates are of one entity: they have the same key, and the same subject
/// if names are checked (own).
pub(crate) fn are_one_entity(one: &Cert, other: &Cert, names: bool) -> bool
    ensures { IsTrue result ↔ AreOneEntity names one.now other.now }
{
    let (one, other) = (one.as_tbs(), other.as_tbs());
    if !is_one_key(
        one.subject_public_key_info(),
        other.subject_public_key_info(),
    ) {
        return false;
    }
    !names || one.subject().as_bytes() == other.subject().as_bytes()
}

impl<'w, A: Admission, V: Verifier> Walk<'w, A, V> {
    // Whether the certificate at a place is of the same entity as this one.
    fn is_one_at(&self, place: usize, cert: &Cert) -> Result<bool, AllocError>
        requires { place < length self.now.folder.now.certs }
        ensures { let w = walk_view V.verifies A.admits self.now in
            IfOk result (λ is. IsTrue is ↔ ((d : CertFields) × StandsAt w.folder.certs place d
            × AreOneEntity w.names d cert.now)) }
    {
        laws::unambiguous();
        let other = self.folder.certs()[place].cert(self.alloc)?;
        let is_one = are_one_entity(&other, cert, self.names);
        drop(other);
        Ok(is_one)
    }

    // Whether this certificate is of the same entity as the one below which the walk started, or as
    // one at these places.
    fn is_one_of(
        &self,
        top: &ResourceCert,
        places: &[usize],
        cert: &Cert,
    ) -> Result<bool, AllocError>
        requires { (place : ℕ) → Contains places.now place
            → place < length self.now.folder.now.certs }
        ensures { let w = walk_view V.verifies A.admits self.now in
            let is_repeated = IsRepeated w.names top.now.cert w.folder.certs places.now cert.now in
            IfOk result (λ is. IsTrue is ↔ is_repeated) }
    {
        if are_one_entity(top.as_cert(), cert, self.names) {
            return Ok(true);
        }
        for &place in places {
            let is_one = self.is_one_at(place, cert)?;
            if is_one {
                return Ok(true);
            }
        }
        Ok(false)
    }

    /// Whether the issuer, which is the last of the CAs at these places, is of an entity that is
    /// above it already.
    pub(crate) fn is_in_circle(
        &self,
        top: &ResourceCert,
        above: &[usize],
        issuer: &ResourceCert,
    ) -> Result<bool, AllocError>
        requires inside { (place : ℕ) → Contains above.now place
            → place < length self.now.folder.now.certs }
        requires last { let certs = self.now.folder.now.certs in
            IsLastOf top.now.cert certs above.now issuer.now.cert }
        ensures circle { let w = walk_view V.verifies A.admits self.now in
            let none = EndsNoCircle w.names top.now.cert w.folder.certs above.now in
            IfOk result (λ is. IsTrue is → none → ⊥) }
        ensures none { let w = walk_view V.verifies A.admits self.now in
            let none = EndsNoCircle w.names top.now.cert w.folder.certs above.now in
            IfOk result (λ is. IsFalse is → none) }
    {
        laws::unambiguous();
        match above.split_last() {
            Some((_, before)) => self.is_one_of(top, before, issuer.as_cert()),
            None => Ok(false),
        }
    }
}
