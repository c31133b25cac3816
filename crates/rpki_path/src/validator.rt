//! The walk down a path, for each verifier and each source of revocation.
ghost use Rattle.std.specs.Prelude.{◌≡◌, ℕ, List, Ok, Err, IfOk, OnOk, IfErr, map};
ghost use Rattle.std.proofs.Common.{rc_value};
ghost use Rattle.rpki_ext.specs.Kinds.{Means};
ghost use Rattle.rpki_cert.specs.Certificates.{IsCertificate};
ghost use Rattle.rpki_cert.specs.Validation.{IsValidBelow, IsInvalidBelow};
ghost use Rattle.rpki_cert.specs.declared.inspect.Kind.TheVariants.{Authority as authority};
ghost use Rattle.rpki_path.specs.GivenPaths.{members_below};
ghost use Rattle.rpki_path.specs.Paths.{candidate, trust_anchor_demand, Finds, IsFault, IsAccepted};
ghost use Rattle.rpki_path.specs.Paths.Steps.{kind_of, IsUnread, IsTrustAnchor, IsIssuedBy, demand_under};
ghost use Rattle.rpki_path.specs.Routers.{IsRouterUnder, router_demand};
ghost use Rattle.rpki_path.specs.Validators.{validator_view};

use crate::given::Last;
use crate::members::Member;
use crate::path_fault::{PathError, PathFault};
use crate::revocation::RevocationSource;
use rpki_cert::{Cert, ResourceCert, ValidationError};
use rpki_der::Time;
use rpki_ext::beside;
use rpki_parts::{TalInfo, Verifier};
use std::alloc::Global;
use std::rc::Rc;

/// The kind that a certificate below the trust anchor has to be. (A router isn't among them: it
/// holds no resources of the path.)
#[derive(Clone, Copy)]
pub enum Role {
    /// A CA.
    Authority,
    /// An end entity, which signs an object that its certificate names.
    EndEntity,
    /// An end entity that signs any object.
    Detached,
}

/// Returns the answer for the certificate at this path index.
pub(crate) fn placed<T: Drop>(index: usize, answer: Result<T, PathFault>) -> Result<T, PathError>
    ensures ok { IfOk result (λ r. answer ≡ Ok r) }
    ensures index { IfErr result (λ e. e.index ≡ index) }
    ensures fault { IfErr result (λ e. answer ≡ Err e.fault) }
{
    match answer {
        Ok(value) => Ok(value),
        Err(fault) => Err(PathError { index, fault }),
    }
}

// An answer, after the issuer is dropped.
fn without<T: Drop, A>(_issuer: T, answer: A) -> A
    ensures { result ≡ answer }
{
    answer
}

/// Validates paths certificate by certificate, for a caller who goes down many paths.
/// [`crate::judge`] and the calls like it make a path of the same steps.
#[derive(Drop)]
pub struct Validator<'r, 'v, R, V> {
    /// The allocator.
    pub alloc: Global,
    /// The source of revocation.
    pub asked: &'r R,
    /// Whether the stricter profile is required; it affects only which string types names may have.
    pub strict: bool,
    /// The validation time.
    pub at: Time,
    /// The verifier of signatures.
    pub verifier: &'v V,
}

impl<'r, 'v, R: RevocationSource, V: Verifier> Validator<'r, 'v, R, V> {
    /// Validates the trust anchor of a path, and returns the resources that it lists, with the
    /// TAL's name.
    ///
    /// # Errors
    ///
    /// Returns the first check that fails.
    ///
    /// # Not checked
    ///
    /// Whether its key is the TAL's ([`crate::test_anchor`]).
    pub fn trust_anchor(
        &self,
        anchor: &Member<'_>,
        tal: Rc<TalInfo>,
    ) -> Result<ResourceCert, PathFault>
        ensures ok { let v = validator_view V.verifies R.asks self.now in
            IfOk result (IsTrustAnchor v.context anchor.now (rc_value tal)) }
        ensures fault { let v = validator_view V.verifies R.asks self.now in
            IfErr result (Finds v.context (trust_anchor_demand v.context) anchor.now) }
    {
        match anchor.decoded(self.alloc) {
            Ok(cert) => {
                Ok(cert.validate_ta_at(self.alloc, tal, self.strict, self.at, self.verifier)?)
            }
            Err(error) => {
                drop(tal);
                Err(error)
            }
        }
    }

    // The certificate, valid below the issuer.
    fn valid_below(
        &self,
        cert: Cert,
        issuer: &ResourceCert,
        role: Role,
    ) -> Result<ResourceCert, ValidationError>
        ensures ok { let v = validator_view V.verifies R.asks self.now in
            IfOk result (IsValidBelow v.context issuer.now (kind_of role) cert) }
        ensures fault { let v = validator_view V.verifies R.asks self.now in
            IfErr result (IsInvalidBelow v.context issuer.now (kind_of role) cert) }
    {
        let (alloc, strict, now, verifier) = (self.alloc, self.strict, self.at, self.verifier);
        match role {
            Role::Authority => cert.validate_ca_at(alloc, issuer, strict, now, verifier),
            Role::EndEntity => cert.validate_ee_at(alloc, issuer, strict, now, verifier),
            Role::Detached => cert.validate_detached_ee_at(alloc, issuer, strict, now, verifier),
        }
    }

    /// Validates the next certificate below an issuer that was validated before, and checks that it
    /// isn't revoked (RFC 6487 7.2). Returns the certificate with the resources that it holds.
    ///
    /// # Errors
    ///
    /// Returns the first check that fails.
    ///
    /// # Not checked
    ///
    /// Name chaining ([`crate::names_chain`]).
    pub fn member(
        &self,
        issuer: &ResourceCert,
        given: &Member<'_>,
        role: Role,
    ) -> Result<ResourceCert, PathFault>
        ensures ok { let v = validator_view V.verifies R.asks self.now in
            IfOk result (IsIssuedBy v.context v.asked issuer.now (kind_of role) given.now) }
        ensures fault { let v = validator_view V.verifies R.asks self.now in
            let demand = demand_under v.context v.asked issuer.now (kind_of role) in
            IfErr result (Finds v.context demand given.now) }
    {
        let cert = given.decoded(self.alloc)?;
        let member = self.valid_below(cert, issuer, role)?;
        let (asked, strict, now, verifier) = (self.asked, self.strict, self.at, self.verifier);
        let test = asked.ask(member.as_cert(), issuer, strict, now, verifier);
        let (member, ()) = beside(member, test)?;
        Ok(member)
    }

    // The certificate at this path index, in place of its issuer.
    fn next(
        &self,
        issuer: ResourceCert,
        index: usize,
        given: &Member<'_>,
        role: Role,
    ) -> Result<ResourceCert, PathError>
        ensures ok { let v = validator_view V.verifies R.asks self.now in
            IfOk result (IsIssuedBy v.context v.asked issuer (kind_of role) given.now) }
        ensures index { IfErr result (λ e. e.index ≡ index) }
        ensures fault { let v = validator_view V.verifies R.asks self.now in
            let demand = demand_under v.context v.asked issuer (kind_of role) in
            IfErr result (λ e. Finds v.context demand given.now e.fault) }
    {
        let next = self.member(&issuer, given, role);
        placed(index, without(issuer, next))
    }

    // The trust anchor and the CAs below it.
    fn authorities(
        &self,
        anchor: &Member<'_>,
        cas: &[Member<'_>],
        tal: Rc<TalInfo>,
    ) -> Result<ResourceCert, PathError>
        ensures ok { let v = validator_view V.verifies R.asks self.now in
            let below = map (candidate authority) cas.now in
            IfOk result (IsAccepted v.context v.asked anchor.now below (rc_value tal)) }
        ensures named { let v = validator_view V.verifies R.asks self.now in
            let below = map (candidate authority) cas.now in
            IfErr result (IsFault v.context v.asked anchor.now below) }
    {
        let mut issuer = placed(0, self.trust_anchor(anchor, tal))?;
        for (i, ca) in cas.iter().enumerate() {
            issuer = self.next(issuer, i + 1, ca, Role::Authority)?;
        }
        Ok(issuer)
    }

    /// Validates the trust anchor, the CAs below it, and the end entity below them, if the last
    /// certificate is one.
    pub(crate) fn members(
        &self,
        anchor: &Member<'_>,
        cas: &[Member<'_>],
        last: Option<Last<'_, '_>>,
        tal: Rc<TalInfo>,
    ) -> Result<ResourceCert, PathError>
        ensures ok { let v = validator_view V.verifies R.asks self.now in
            let below = members_below cas.now last.entry in
            IfOk result (IsAccepted v.context v.asked anchor.now below (rc_value tal)) }
        ensures named { let v = validator_view V.verifies R.asks self.now in
            let below = members_below cas.now last.entry in
            IfErr result (IsFault v.context v.asked anchor.now below) }
    {
        let issuer = self.authorities(anchor, cas, tal)?;
        let below = cas.len() + 1;
        match last {
            None | Some(Last::Router(_)) => Ok(issuer),
            Some(Last::Ee(end)) => self.next(issuer, below, end, Role::EndEntity),
            Some(Last::DetachedEe(end)) => self.next(issuer, below, end, Role::Detached),
        }
    }

    // Whether the router's certificate is valid below the issuer, and not revoked. An error is one
    // of all bytes that start with it.
    fn test_router(&self, cert: &Cert, issuer: &ResourceCert) -> Result<(), PathFault>
        ensures ok { let v = validator_view V.verifies R.asks self.now in
            OnOk result (IsRouterUnder v.context v.asked issuer.now cert.now) }
        ensures fault { let v = validator_view V.verifies R.asks self.now in
            (octets : List ℕ) → Means IsCertificate cert.now octets
            → IfErr result (Finds v.context (router_demand v.context v.asked issuer.now) octets) }
    {
        let (strict, now, verifier) = (self.strict, self.at, self.verifier);
        cert.validate_router_at(issuer, strict, now, verifier)?;
        self.asked.ask(cert, issuer, strict, now, verifier)?;
        Ok(())
    }

    /// Validates the router's certificate at the start of these bytes, below an issuer that was
    /// validated before, and checks that it isn't revoked (RFC 8209 3.3).
    ///
    /// # Errors
    ///
    /// Returns the first check that fails.
    ///
    /// # Not checked
    ///
    /// Name chaining ([`crate::names_chain`]).
    pub fn router(&self, given: &Member<'_>, issuer: &ResourceCert) -> Result<Cert, PathFault>
        ensures begins { IfOk result (λ c. Means IsCertificate c given.now) }
        ensures under { let v = validator_view V.verifies R.asks self.now in
            IfOk result (IsRouterUnder v.context v.asked issuer.now) }
        ensures fault { let v = validator_view V.verifies R.asks self.now in
            IfErr result (Finds v.context (router_demand v.context v.asked issuer.now) given.now) }
    {
        let cert = given.decoded(self.alloc)?;
        let test = self.test_router(&cert, issuer);
        let (cert, ()) = beside(cert, test)?;
        Ok(cert)
    }
}
