//! Verifies certificates, at a time and below an issuer (RFC 6487 7.2; own: revocation and name
//! chaining are checks of their own).
ghost use Rattle.std.specs.Prelude.{◌≡◌, ◌≢◌, ℕ, ◌↔◌, ◌⊎◌, IsTrue, IsOk, OnOk, IfOk, IfErr};
ghost use Rattle.rpki_blocks.specs.Sets.{Has};
ghost use Rattle.rpki_parts.specs.Conditions.{Tests};
ghost use Rattle.rpki_blocks.specs.Resources.{inherit};
ghost use Rattle.rpki_blocks.specs.IssuedSets.{IsIssued, IsListed};
ghost use Rattle.rpki_cert.specs.Verification.{IsSignedBy, ListsOnlyHeld, held_by, IsVerified, IsFirstFalseOrMemory};
ghost use Rattle.rpki_cert.specs.Verification.{context, TimeCheck, ClaimCheck, OwnCheck, HeldCheck, CheckUnder, TrustAnchorCheck};
ghost use Rattle.rpki_cert.specs.Verification.{validity_checks, claim_checks, own_checks, held_checks, basis_checks, trust_anchor_checks, router_checks};
ghost use Rattle.rpki_cert.specs.Verification.Views.{set_of};
ghost use Rattle.rpki_cert.specs.declared.verification_error.VerificationError.TheVariants.{Memory};

use crate::cert::Cert;
use crate::resolved::Resolved;
use crate::resource_cert::{ResourceCert, Sets};
use crate::verification_error::VerificationError;
use rpki_blocks::{Bound, Chain, IssueError, Overclaim, Resources};
use rpki_der::Time;
use rpki_ext::beside;
use rpki_parts::{SignatureVerificationError, Verifier};
use std::alloc::Global;

// Whether resources list only what is in the issuer's set, where they must.
fn lists_only_held<B: Bound>(listed: &Resources<B>, held: &Chain<B>, mode: Overclaim) -> bool
    ensures { IsTrue result ↔ ListsOnlyHeld mode B.greatest (Has held.now) listed.now }
{
    match mode {
        Overclaim::Trim => true,
        Overclaim::Refuse => match listed.as_blocks() {
            Some(blocks) => blocks.is_encompassed(held),
            None => true,
        },
    }
}

// Whether a set is listed, and each number of it is held.
fn lists_held_set<B: Bound>(listed: &Resources<B>, held: &Chain<B>) -> bool
    ensures held { IsTrue result → (n : ℕ) → IsListed n listed.now → Has held.now n }
    ensures listed { IsTrue result → listed.now ≢ inherit }
{
    match listed.as_blocks() {
        Some(blocks) => blocks.is_encompassed(held),
        None => false,
    }
}

// The numbers that are issued of those that are held; errs with this fault where some are
// overclaimed. A set that is listed and held isn't copied.
fn issued<B: Bound>(
    alloc: Global,
    held: &Chain<B>,
    listed: &Resources<B>,
    mode: Overclaim,
    fault: VerificationError,
) -> Result<Resolved<B>, VerificationError>
    ensures issued { IfOk result (λ r. IsIssued held.now listed.now (set_of r listed.now)) }
    ensures held { OnOk result (ListsOnlyHeld mode B.greatest (Has held.now) listed.now) }
    ensures fault { IfErr result (λ e. (e ≡ Memory)
        ⊎ ((e ≡ fault) × (ListsOnlyHeld mode B.greatest (Has held.now) listed.now → ⊥))) }
{
    if lists_held_set(listed, held) {
        return Ok(Resolved::listed(alloc));
    }
    match held.verify_issued(alloc, listed, mode) {
        Ok(set) => Ok(Resolved::owned(set)),
        Err(IssueError::Overclaimed) => Err(fault),
        Err(IssueError::Memory) => Err(VerificationError::Memory),
    }
}

impl Cert {
    // What the certificate gets of the issuer's numbers.
    pub(crate) fn issued_sets(
        &self,
        alloc: Global,
        issuer: &ResourceCert,
    ) -> Result<Sets, VerificationError>
        ensures v4 { IfOk result
            (λ s. IsIssued issuer.now.v4 self.now.fields.extensions.v4_resources
            (set_of s.v4 self.now.fields.extensions.v4_resources)) }
        ensures v6 { IfOk result
            (λ s. IsIssued issuer.now.v6 self.now.fields.extensions.v6_resources
            (set_of s.v6 self.now.fields.extensions.v6_resources)) }
        ensures as_numbers { IfOk result (λ s. IsIssued
            issuer.now.as_numbers self.now.fields.extensions.as_resources
            (set_of s.as_numbers self.now.fields.extensions.as_resources)) }
        ensures held { OnOk result
            (IsVerified (HeldCheck (held_by issuer.now) self.now) held_checks) }
        ensures fault { IfErr result
            (IsFirstFalseOrMemory (HeldCheck (held_by issuer.now) self.now) held_checks) }
    {
        let tbs = self.as_tbs();
        let mode = tbs.overclaim();
        let v4 = issued(
            alloc,
            issuer.v4_resources(),
            tbs.v4_resources(),
            mode,
            VerificationError::OverclaimV4,
        )?;
        let v6 = issued(
            alloc,
            issuer.v6_resources(),
            tbs.v6_resources(),
            mode,
            VerificationError::OverclaimV6,
        );
        let addresses = beside(v4, v6)?;
        let as_numbers = issued(
            alloc,
            issuer.as_resources(),
            tbs.as_resources(),
            mode,
            VerificationError::OverclaimAs,
        );
        let ((v4, v6), as_numbers) = beside(addresses, as_numbers)?;
        Ok(Sets { v4, v6, as_numbers })
    }

    // Whether the certificate lists its resources itself.
    fn verify_inherits_nothing(&self) -> Result<(), VerificationError>
        ensures { Tests (OwnCheck self.now) own_checks result }
    {
        let tbs = self.as_tbs();
        if tbs.v4_resources().is_inherited() {
            return Err(VerificationError::InheritedV4);
        }
        if tbs.v6_resources().is_inherited() {
            return Err(VerificationError::InheritedV6);
        }
        if tbs.as_resources().is_inherited() {
            return Err(VerificationError::InheritedAs);
        }
        Ok(())
    }

    // What is verified below an issuer, before resources are looked at.
    pub(crate) fn verify_basis<V: Verifier>(
        &self,
        issuer: &ResourceCert,
        strict: bool,
        now: Time,
        verifier: &V,
    ) -> Result<(), VerificationError>
        ensures { let x = context (V.verifies verifier.now) now strict in
            Tests (CheckUnder x issuer.now self.now) basis_checks result }
    {
        self.verify_validity(now)?;
        self.verify_issuer_claim(issuer, strict)?;
        self.verify_signature(issuer.as_cert(), strict, verifier)?;
        Ok(())
    }

    /// Verifies the certificate as a trust anchor: it is valid at this time, inherits no resources,
    /// and its own key signed it (RFC 6487 7.2, RFC 8630 2.3). Borrows the certificate. Takes no
    /// memory. The mode changes nothing.
    ///
    /// # Errors
    ///
    /// Returns the first of these errors whose condition holds:
    ///
    /// - `NotYetValid`, `Expired`: the validation time is before notBefore, or after notAfter
    /// - `InheritedV4`, `InheritedV6`, `InheritedAs`: it inherits resources
    /// - `BadSignature`: its own key didn't sign it
    ///
    /// # Not checked
    ///
    /// The profile ([`Cert::inspect_ta`]), the TAL's key, whether its issuer is its own subject,
    /// and whether it lists any resources (RFC 8630 2.3).
    pub fn verify_ta_ref_at<V: Verifier>(
        &self,
        strict: bool,
        now: Time,
        verifier: &V,
    ) -> Result<(), VerificationError>
        ensures { let x = context (V.verifies verifier.now) now strict in
            Tests (TrustAnchorCheck x self.now) trust_anchor_checks result }
    {
        self.verify_validity(now)?;
        self.verify_inherits_nothing()?;
        self.verify_signature(self, strict, verifier)?;
        Ok(())
    }

    /// Verifies the certificate as a router's below this issuer: it is valid at this time, names
    /// the issuer's key, has a URI of the issuer's certificate, is signed by the issuer's key, and
    /// doesn't overclaim AS numbers (RFC 6487 7.2, RFC 8209 3.3). Borrows the certificate. Takes no
    /// memory. The mode changes nothing.
    ///
    /// # Errors
    ///
    /// Returns the first of these errors whose condition holds:
    ///
    /// - `NotYetValid`, `Expired`: the validation time is before notBefore, or after notAfter
    /// - `MissingKeyId`, `WrongKeyId`: the Authority Key Identifier is absent, or isn't the
    ///   issuer's Subject Key Identifier
    /// - `MissingIssuerUri`: the URI of the issuer's certificate is absent
    /// - `BadSignature`: the issuer's key didn't sign the certificate
    /// - `OverclaimAs`: it lists AS numbers that the issuer doesn't hold, and its policy isn't that
    ///   of RFC 8360, which trims them
    ///
    /// # Not checked
    ///
    /// The profile ([`Cert::inspect_router`]), IP addresses (the profile has none), and what
    /// [`Cert::validate_router_at`] doesn't check.
    pub fn verify_router_at<V: Verifier>(
        &self,
        issuer: &ResourceCert,
        strict: bool,
        now: Time,
        verifier: &V,
    ) -> Result<(), VerificationError>
        ensures { let x = context (V.verifies verifier.now) now strict in
            Tests (CheckUnder x issuer.now self.now) router_checks result }
    {
        self.verify_basis(issuer, strict, now, verifier)?;
        let tbs = self.as_tbs();
        if lists_only_held(tbs.as_resources(), issuer.as_resources(), tbs.overclaim()) {
            Ok(())
        } else {
            Err(VerificationError::OverclaimAs)
        }
    }

    /// Checks that the certificate is valid at this time: both notBefore and notAfter belong to the
    /// period (RFC 5280 4.1.2.5). Takes no memory.
    ///
    /// # Errors
    ///
    /// Returns `NotYetValid` before notBefore, and `Expired` after notAfter.
    ///
    /// # Not checked
    ///
    /// The current time: `now` is the caller's.
    pub fn verify_validity(&self, now: Time) -> Result<(), VerificationError>
        ensures { Tests (TimeCheck now self.now) validity_checks result }
    {
        self.as_tbs().validity().verify_at(now)?;
        Ok(())
    }

    /// Checks that the certificate names the issuer's key as the one that signs it (RFC 6487
    /// 4.8.3), and has a URI of the issuer's certificate (RFC 6487 4.8.7). The mode changes
    /// nothing. Takes no memory.
    ///
    /// # Errors
    ///
    /// Returns `MissingKeyId`, `WrongKeyId` or `MissingIssuerUri`, the first whose condition holds.
    ///
    /// # Not checked
    ///
    /// Whether the issuer's certificate is found under that URI, whether names chain, and the
    /// signature.
    pub fn verify_issuer_claim(
        &self,
        issuer: &ResourceCert,
        _strict: bool,
    ) -> Result<(), VerificationError>
        ensures { Tests (ClaimCheck issuer.now.cert.fields self.now) claim_checks result }
    {
        let tbs = self.as_tbs();
        let Some(id) = tbs.authority_key_identifier() else {
            return Err(VerificationError::MissingKeyId);
        };
        if id != issuer.as_cert().as_tbs().subject_key_identifier() {
            return Err(VerificationError::WrongKeyId);
        }
        if tbs.ca_issuer().is_none() {
            return Err(VerificationError::MissingIssuerUri);
        }
        Ok(())
    }

    /// Checks that the issuer's key signed the certificate, by the verifier's answer on the
    /// to-be-signed part as it is kept. The mode changes nothing. Takes no memory.
    ///
    /// # Errors
    ///
    /// Returns an error if the verifier says that the key didn't sign it.
    ///
    /// # Not checked
    ///
    /// Everything else. With `rpki_keys::RsaVerifier` only RSA keys of 2048 bits with the exponent
    /// 65537 have valid signatures.
    pub fn verify_signature<V: Verifier>(
        &self,
        issuer: &Cert,
        _strict: bool,
        verifier: &V,
    ) -> Result<(), SignatureVerificationError>
        ensures { IsOk result ↔ IsSignedBy (V.verifies verifier.now) issuer.now.fields.key
            self.now.signed_data }
    {
        self.signed_data()
            .verify_signature(issuer.as_tbs().subject_public_key_info(), verifier)
    }
}
