//! Certificates that are verified become resource certificates (RFC 6487 7.2).
ghost use Rattle.std.specs.Prelude.{◌≡◌, IfOk};
ghost use Rattle.std.proofs.Common.{rc_value};
ghost use Rattle.rpki_cert.specs.Verification.{context, CheckUnder, TrustAnchorCheck, TestsOrMemory, HasListed, HasIssued, issued_checks, trust_anchor_checks};
ghost use Rattle.rpki_cert.specs.Verification.Views.{resource_fields};

use crate::cert::Cert;
use crate::resource_cert::{ResourceCert, Sets};
use crate::verification_error::VerificationError;
use rpki_der::Time;
use rpki_ext::beside;
use rpki_parts::{TalInfo, Verifier};
use std::alloc::Global;
use std::rc::Rc;

// What is kept beside a certificate that is verified.
#[derive(Drop)]
pub(crate) struct Kept {
    pub(crate) sets: Sets,
    pub(crate) tal: Rc<TalInfo>,
}

// The two in one.
pub(crate) fn joined(cert: Cert, kept: Kept) -> ResourceCert
    ensures { result ≡ resource_fields cert kept.sets (rc_value kept.tal) }
{
    let Kept { sets, tal } = kept;
    ResourceCert { cert, sets, tal }
}

impl Cert {
    // What is kept of a certificate that another one issued.
    fn kept_below<V: Verifier>(
        &self,
        alloc: Global,
        issuer: &ResourceCert,
        strict: bool,
        now: Time,
        verifier: &V,
    ) -> Result<Kept, VerificationError>
        ensures checks { let x = context (V.verifies verifier.now) now strict in
            TestsOrMemory (CheckUnder x issuer.now self.now) issued_checks result }
        ensures gives { IfOk result (λ k. HasIssued self.now issuer.now
            (resource_fields self.now k.sets (rc_value k.tal))) }
    {
        self.verify_basis(issuer, strict, now, verifier)?;
        let sets = self.issued_sets(alloc, issuer)?;
        let (sets, tal) = beside(sets, issuer.tal().clone())?;
        Ok(Kept { sets, tal })
    }

    /// Verifies the certificate as a CA's below this issuer: it is valid at this time, names the
    /// issuer's key, has a URI of the issuer's certificate, is signed by the issuer's key, and
    /// doesn't overclaim (RFC 6487 7.2). Returns it with the resources that it holds: what it lists
    /// or inherits of the issuer's.
    ///
    /// The certificate is used up, also if it is rejected. [`Cert::inspect_ca`] and its siblings
    /// borrow, so that several kinds can be tried first. The mode changes nothing.
    ///
    /// # Errors
    ///
    /// Returns the first of these errors whose condition holds:
    ///
    /// - `NotYetValid`, `Expired`: the validation time is before notBefore, or after notAfter
    /// - `MissingKeyId`, `WrongKeyId`: the Authority Key Identifier is absent, or isn't the
    ///   issuer's Subject Key Identifier
    /// - `MissingIssuerUri`: the URI of the issuer's certificate is absent
    /// - `BadSignature`: the issuer's key didn't sign the certificate
    /// - `OverclaimV4`, `OverclaimV6`, `OverclaimAs`: it lists resources that the issuer doesn't
    ///   hold, and its policy isn't that of RFC 8360, which trims them
    ///
    /// Returns `Memory` if memory runs out.
    ///
    /// # Not checked
    ///
    /// The profile ([`Cert::validate_ca_at`] checks it too): an end entity's certificate passes.
    /// Nor what [`Cert::validate_ca_at`] doesn't check.
    pub fn verify_ca_at<V: Verifier>(
        self,
        alloc: Global,
        issuer: &ResourceCert,
        strict: bool,
        now: Time,
        verifier: &V,
    ) -> Result<ResourceCert, VerificationError>
        ensures checks { let x = context (V.verifies verifier.now) now strict in
            TestsOrMemory (CheckUnder x issuer.now self) issued_checks result }
        ensures gives { IfOk result (HasIssued self issuer.now) }
    {
        let tested = self.kept_below(alloc, issuer, strict, now, verifier);
        let (cert, kept) = beside(self, tested)?;
        Ok(joined(cert, kept))
    }

    /// Verifies the certificate as an end entity's below this issuer, with the checks of
    /// [`Cert::verify_ca_at`]. Returns it with the resources that it holds.
    ///
    /// The certificate is used up, also if it is rejected. [`Cert::inspect_ee`] and its siblings
    /// borrow, so that several kinds can be tried first.
    ///
    /// # Errors
    ///
    /// As [`Cert::verify_ca_at`].
    ///
    /// # Not checked
    ///
    /// The profile ([`Cert::validate_ee_at`] checks it too): a CA's certificate passes. Nor what
    /// [`Cert::validate_ee_at`] doesn't check.
    pub fn verify_ee_at<V: Verifier>(
        self,
        alloc: Global,
        issuer: &ResourceCert,
        strict: bool,
        now: Time,
        verifier: &V,
    ) -> Result<ResourceCert, VerificationError>
        ensures checks { let x = context (V.verifies verifier.now) now strict in
            TestsOrMemory (CheckUnder x issuer.now self) issued_checks result }
        ensures gives { IfOk result (HasIssued self issuer.now) }
    {
        self.verify_ca_at(alloc, issuer, strict, now, verifier)
    }

    /// Verifies the certificate as a trust anchor: it is valid at this time, inherits no resources,
    /// and its own key signed it (RFC 6487 7.2, RFC 8630 2.3). Returns it with the resources that
    /// it lists.
    ///
    /// The certificate is used up, also if it is rejected. [`Cert::verify_ta_ref_at`] borrows, as
    /// do [`Cert::inspect_ta`] and its siblings, so that several kinds can be tried first. The mode
    /// changes nothing.
    ///
    /// # Errors
    ///
    /// Returns the first of these errors whose condition holds:
    ///
    /// - `NotYetValid`, `Expired`: the validation time is before notBefore, or after notAfter
    /// - `InheritedV4`, `InheritedV6`, `InheritedAs`: it inherits resources
    /// - `BadSignature`: its own key didn't sign it
    ///
    /// Returns `Memory` if memory runs out.
    ///
    /// # Not checked
    ///
    /// The profile ([`Cert::validate_ta_at`] checks it too), and what [`Cert::validate_ta_at`]
    /// doesn't check: the TAL's key above all, since `tal` is the TAL's name only.
    pub fn verify_ta_at<V: Verifier>(
        self,
        alloc: Global,
        tal: Rc<TalInfo>,
        strict: bool,
        now: Time,
        verifier: &V,
    ) -> Result<ResourceCert, VerificationError>
        ensures checks { let x = context (V.verifies verifier.now) now strict in
            TestsOrMemory (TrustAnchorCheck x self) trust_anchor_checks result }
        ensures gives { IfOk result (HasListed self (rc_value tal)) }
    {
        let tested = self.verify_ta_ref_at(strict, now, verifier);
        let (cert, _done) = beside(self, tested)?;
        let sets = Sets::listed(alloc);
        Ok(joined(cert, Kept { sets, tal }))
    }
}
