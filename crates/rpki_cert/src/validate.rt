//! Certificates are validated: inspected, then verified (RFC 6487 7.2; own: revocation and the
//! chaining of names are the caller's to ask).
ghost use Rattle.std.specs.Prelude.{◌≡◌, OnOk, IfOk, IfErr};
ghost use Rattle.std.proofs.Common.{rc_value};
ghost use Rattle.rpki_parts.specs.Conditions.{IsFirstFalse};
ghost use Rattle.rpki_cert.specs.Profiles.{MeetsProfile, IsFirstFault};
ghost use Rattle.rpki_cert.specs.Verification.{context, CheckUnder, IsVerified, router_checks};
ghost use Rattle.rpki_cert.specs.Validation.{IsInvalid, IsValidTrustAnchor, IsInvalidTrustAnchor, IsValidBelow, IsInvalidBelow};
ghost use Rattle.rpki_cert.specs.declared.inspect.Kind.TheVariants.{Anchor, Authority, EndEntity, Detached, Router};

use crate::cert::Cert;
use crate::inspect::Kind;
use crate::resource_cert::ResourceCert;
use crate::validation_error::ValidationError;
use rpki_der::Time;
use rpki_ext::{InspectionError, beside};
use rpki_parts::{TalInfo, Verifier};
use std::alloc::Global;
use std::rc::Rc;

impl Cert {
    // The certificate, inspected as one of the kind.
    fn inspected(self, kind: Kind, strict: bool) -> Result<Cert, InspectionError>
        ensures same { IfOk result (λ c. c ≡ self) }
        ensures profile { OnOk result (MeetsProfile kind strict self) }
        ensures fault { IfErr result (IsFirstFault kind strict self) }
    {
        let tested = self.inspect(kind, strict);
        let (cert, _done) = beside(self, tested)?;
        Ok(cert)
    }

    // Verifies an inspected certificate that an issuer issued.
    fn validate_issued_at<V: Verifier>(
        self,
        alloc: Global,
        issuer: &ResourceCert,
        kind: Kind,
        strict: bool,
        now: Time,
        verifier: &V,
    ) -> Result<ResourceCert, ValidationError>
        ensures ok { let x = context (V.verifies verifier.now) now strict in
            IfOk result (IsValidBelow x issuer.now kind self) }
        ensures fault { let x = context (V.verifies verifier.now) now strict in
            IfErr result (IsInvalidBelow x issuer.now kind self) }
    {
        let cert = self.inspected(kind, strict)?;
        Ok(cert.verify_ca_at(alloc, issuer, strict, now, verifier)?)
    }

    /// Validates the certificate as a trust anchor: inspects it ([`Cert::inspect_ta`]), then
    /// verifies it ([`Cert::verify_ta_at`]). Returns it with the resources that it lists.
    ///
    /// The certificate is used up, also if it is rejected. [`Cert::inspect_ta`] and its siblings
    /// borrow, so that several kinds can be tried first.
    ///
    /// # Errors
    ///
    /// Returns `Inspection` with the first fault of the profile; or, if there is none,
    /// `Verification` with the first check that fails, or with `Memory`.
    ///
    /// # Not checked
    ///
    /// Whether the certificate has the TAL's key (`tal` is the TAL's name only; `Tal::has_key`
    /// checks it), whether its issuer is its own subject (`rpki_path::is_self_named`), and whether
    /// it lists any resources (RFC 8630 2.3; `rpki_path::lists_numbers`).
    pub fn validate_ta_at<V: Verifier>(
        self,
        alloc: Global,
        tal: Rc<TalInfo>,
        strict: bool,
        now: Time,
        verifier: &V,
    ) -> Result<ResourceCert, ValidationError>
        ensures ok { let x = context (V.verifies verifier.now) now strict in
            IfOk result (IsValidTrustAnchor x (rc_value tal) self) }
        ensures fault { let x = context (V.verifies verifier.now) now strict in
            IfErr result (IsInvalidTrustAnchor x self) }
    {
        let cert = self.inspected(Kind::Anchor, strict)?;
        Ok(cert.verify_ta_at(alloc, tal, strict, now, verifier)?)
    }

    /// Validates the certificate as a CA below this issuer: inspects it ([`Cert::inspect_ca`]),
    /// then verifies it ([`Cert::verify_ca_at`]). Returns it with the resources that it holds.
    ///
    /// The certificate is used up, also if it is rejected. [`Cert::inspect_ca`] and its siblings
    /// borrow, so that several kinds can be tried first.
    ///
    /// # Errors
    ///
    /// Returns `Inspection` with the first fault of the profile; or, if there is none,
    /// `Verification` with the first check that fails, or with `Memory`.
    ///
    /// # Not checked
    ///
    /// Whether the certificate is revoked, whether names chain, whether the issuer is a CA and
    /// still valid, whether the subject's key has 2048 bits (`rpki_keys::is_usable`), and whether
    /// the URIs lead to the issuer's CRL and certificate (own).
    pub fn validate_ca_at<V: Verifier>(
        self,
        alloc: Global,
        issuer: &ResourceCert,
        strict: bool,
        now: Time,
        verifier: &V,
    ) -> Result<ResourceCert, ValidationError>
        ensures ok { let x = context (V.verifies verifier.now) now strict in
            IfOk result (IsValidBelow x issuer.now Authority self) }
        ensures fault { let x = context (V.verifies verifier.now) now strict in
            IfErr result (IsInvalidBelow x issuer.now Authority self) }
    {
        self.validate_issued_at(alloc, issuer, Kind::Authority, strict, now, verifier)
    }

    /// Validates the certificate as an end entity below this issuer, with the URI of the object
    /// that it signs: inspects it ([`Cert::inspect_ee`]), then verifies it
    /// ([`Cert::verify_ee_at`]). Returns it with the resources that it holds.
    ///
    /// The certificate is used up, also if it is rejected. [`Cert::inspect_ee`] and its siblings
    /// borrow, so that several kinds can be tried first.
    ///
    /// # Errors
    ///
    /// Returns `Inspection` with the first fault of the profile; or, if there is none,
    /// `Verification` with the first check that fails, or with `Memory`.
    ///
    /// # Not checked
    ///
    /// Whether the certificate is revoked, whether names chain, whether the issuer is a CA and
    /// still valid, whether the subject's key has 2048 bits (`rpki_keys::is_usable`), whether the
    /// object has the URI that the certificate names, and whether the other URIs lead to the
    /// issuer's CRL and certificate (own).
    pub fn validate_ee_at<V: Verifier>(
        self,
        alloc: Global,
        issuer: &ResourceCert,
        strict: bool,
        now: Time,
        verifier: &V,
    ) -> Result<ResourceCert, ValidationError>
        ensures ok { let x = context (V.verifies verifier.now) now strict in
            IfOk result (IsValidBelow x issuer.now EndEntity self) }
        ensures fault { let x = context (V.verifies verifier.now) now strict in
            IfErr result (IsInvalidBelow x issuer.now EndEntity self) }
    {
        self.validate_issued_at(alloc, issuer, Kind::EndEntity, strict, now, verifier)
    }

    /// Validates the certificate as an end entity below this issuer, of which no URI of an object
    /// is required: inspects it ([`Cert::inspect_detached_ee`]), then verifies it
    /// ([`Cert::verify_ee_at`]). Returns it with the resources that it holds.
    ///
    /// The certificate is used up, also if it is rejected. [`Cert::inspect_detached_ee`] and its
    /// siblings borrow, so that several kinds can be tried first.
    ///
    /// # Errors
    ///
    /// Returns `Inspection` with the first fault of the profile; or, if there is none,
    /// `Verification` with the first check that fails, or with `Memory`.
    ///
    /// # Not checked
    ///
    /// Whether the certificate is revoked, whether names chain, whether the issuer is a CA and
    /// still valid, whether the subject's key has 2048 bits (`rpki_keys::is_usable`), and whether
    /// the URIs lead to the issuer's CRL and certificate (own).
    pub fn validate_detached_ee_at<V: Verifier>(
        self,
        alloc: Global,
        issuer: &ResourceCert,
        strict: bool,
        now: Time,
        verifier: &V,
    ) -> Result<ResourceCert, ValidationError>
        ensures ok { let x = context (V.verifies verifier.now) now strict in
            IfOk result (IsValidBelow x issuer.now Detached self) }
        ensures fault { let x = context (V.verifies verifier.now) now strict in
            IfErr result (IsInvalidBelow x issuer.now Detached self) }
    {
        self.validate_issued_at(alloc, issuer, Kind::Detached, strict, now, verifier)
    }

    /// Validates the certificate as a router's below this issuer: inspects it
    /// ([`Cert::inspect_router`]), then verifies it ([`Cert::verify_router_at`]). Borrows the
    /// certificate. Takes no memory.
    ///
    /// # Errors
    ///
    /// Returns `Inspection` with the first fault of the profile; or, if there is none,
    /// `Verification` with the first check that fails.
    ///
    /// # Not checked
    ///
    /// Whether the certificate is revoked, whether names chain, whether the issuer is a CA and
    /// still valid, whether the key is a point of the curve (`rpki_keys::is_usable`), and whether
    /// the URIs lead to the issuer's CRL and certificate (own).
    pub fn validate_router_at<V: Verifier>(
        &self,
        issuer: &ResourceCert,
        strict: bool,
        now: Time,
        verifier: &V,
    ) -> Result<(), ValidationError>
        ensures profile { OnOk result (MeetsProfile Router strict self.now) }
        ensures checks { let x = context (V.verifies verifier.now) now strict in
            OnOk result (IsVerified (CheckUnder x issuer.now self.now) router_checks) }
        ensures fault { let x = context (V.verifies verifier.now) now strict in
            IfErr result (IsInvalid Router strict self.now
            (IsFirstFalse (CheckUnder x issuer.now self.now) router_checks)) }
    {
        self.inspect_router(strict)?;
        self.verify_router_at(issuer, strict, now, verifier)?;
        Ok(())
    }
}
