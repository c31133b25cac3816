//! Checks certificates against the CRL of their issuer (RFC 6487 7.2, RFC 5280 6.3.3).
ghost use Rattle.std.specs.Prelude.{◌≡◌, ◌↔◌, Some, IsOk};
ghost use Rattle.rpki_parts.specs.Conditions.{Tests};
ghost use Rattle.rpki_cert.specs.Certificates.{CertFields};
ghost use Rattle.rpki_cert.specs.Verification.{context};
ghost use Rattle.rpki_crl.specs.Revocation.{ListCheck, RevocationCheck, IsUnderUri, IsUnrevoked, revocation_checks};

use crate::crl::Crl;
use crate::revocation_error::RevocationError;
use crate::store::CrlStore;
use rpki_cert::ResourceCert;
use rpki_der::{Serial, Time};
use rpki_parts::{Rsync, Verifier};

impl Crl {
    // Whether this CRL of the issuer leaves the certificate with the serial number unrevoked.
    fn check<V: Verifier>(
        &self,
        serial: Serial,
        issuer: &ResourceCert,
        strict: bool,
        now: Time,
        verifier: &V,
    ) -> Result<(), RevocationError>
        ensures { let x = context (V.verifies verifier.now) now strict in
            Tests (ListCheck x issuer.now.cert.fields serial self.now.list)
            revocation_checks result }
    {
        if self.verify_issuer_claim(issuer, strict).is_err() {
            return Err(RevocationError::WrongKeyId);
        }
        let key = issuer.as_cert().as_tbs().subject_public_key_info();
        if self.verify_signature(key, verifier).is_err() {
            return Err(RevocationError::BadSignature);
        }
        if self.as_cert_list().is_stale(now) {
            return Err(RevocationError::Stale);
        }
        if self.contains(serial) {
            return Err(RevocationError::Revoked);
        }
        Ok(())
    }
}

impl CrlStore {
    /// Checks that the certificate with this serial number below the issuer isn't revoked (RFC 6487
    /// 7.2, RFC 5280 6.3.3). The mode changes nothing. Takes no memory.
    ///
    /// # Errors
    ///
    /// Returns the first of these errors whose condition holds:
    ///
    /// - `NoCrl`: no CRL was pushed under the URI; of several the first counts
    /// - `WrongKeyId`: it doesn't name the issuer's key
    /// - `BadSignature`: the issuer's key didn't sign it
    /// - `Stale`: its nextUpdate is before the time
    /// - `Revoked`: it has the serial number
    ///
    /// # Not checked
    ///
    /// Whether the CRL's thisUpdate has come, whether its issuer is the issuer's subject (RFC 5280
    /// 6.3.3 (b) (1)), and whether it is the newest (own).
    pub fn check<V: Verifier>(
        &self,
        crl_uri: &Rsync,
        serial: Serial,
        issuer: &ResourceCert,
        strict: bool,
        now: Time,
        verifier: &V,
    ) -> Result<(), RevocationError>
        ensures checks { let x = context (V.verifies verifier.now) now strict in
            Tests (RevocationCheck x issuer.now.cert.fields serial
            (IsUnderUri self.now.pairs crl_uri.now)) revocation_checks result }
        // Ok if and only if a certificate with this number that names this URI is unrevoked.
        ensures unrevoked { let x = context (V.verifies verifier.now) now strict in
            (c : CertFields) → c.fields.serial ≡ serial
            → c.fields.extensions.crl_uri ≡ Some crl_uri.now
            → (IsOk result ↔ IsUnrevoked x self.now.pairs issuer.now.cert.fields c) }
    {
        match self.get(crl_uri) {
            Some(crl) => crl.check(serial, issuer, strict, now, verifier),
            None => Err(RevocationError::NoCrl),
        }
    }
}
