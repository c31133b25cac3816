//! The interface of a source that answers whether a certificate is revoked.
ghost use Rattle.rpki_parts.specs.Conditions.{Tests};
ghost use Rattle.rpki_cert.specs.Verification.{context};
ghost use Rattle.rpki_crl.specs.Revocation.{revocation_checks};

use rpki_cert::{Cert, ResourceCert};
use rpki_crl::{CrlStore, RevocationError};
use rpki_der::Time;
use rpki_parts::Verifier;

/// Answers whether certificates are revoked.
///
/// The relation `asks`, which an implementation states, has the checks of a certificate below its
/// issuer, each named by its error. [`CrlStore`] answers by the URI that the certificate names,
/// [`crate::revocation::GivenLists`] by the issuer's newest CRL.
/// [`crate::revocation::NobodyAsked`] accepts every certificate.
pub trait RevocationSource {
    ghost use Rattle.rpki_cert.specs.Verification.{Context};
    ghost use Rattle.rpki_path.specs.Asking.{RevocationChecks};

    /// The checks of a certificate below its issuer, in this context.
    ghost asks: { Self → Context → RevocationChecks };

    /// Checks that the certificate below the issuer isn't revoked (RFC 6487 7.2).
    ///
    /// # Errors
    ///
    /// Returns the first check that fails, in the order of [`RevocationError`]'s variants.
    fn ask<V: Verifier>(
        &self,
        cert: &Cert,
        issuer: &ResourceCert,
        strict: bool,
        now: Time,
        verifier: &V,
    ) -> Result<(), RevocationError>
        ensures { let x = context (V.verifies verifier.now) now strict in
            Tests (asks self.now x issuer.now.cert.fields cert.now) revocation_checks result };
}

/// Accepts every certificate: revoked certificates are accepted, too.
///
/// # Not checked
///
/// Whether a certificate is revoked. RFC 6487 7.2 requires it; use [`GivenLists`], a store, or a
/// source of your own.
#[derive(Clone, Copy)]
pub struct NobodyAsked;

impl RevocationSource for NobodyAsked {
    ghost use Rattle.rpki_path.specs.Asking.{nobody};

    ghost asks = { λ _ _. nobody };

    fn ask<V: Verifier>(
        &self,
        _cert: &Cert,
        _issuer: &ResourceCert,
        _strict: bool,
        _now: Time,
        _verifier: &V,
    ) -> Result<(), RevocationError> {
        Ok(())
    }
}

impl RevocationSource for CrlStore {
    ghost use Rattle.rpki_path.specs.Asking.{by_uri};

    ghost asks = { λ store x. by_uri x store.pairs };

    fn ask<V: Verifier>(
        &self,
        cert: &Cert,
        issuer: &ResourceCert,
        strict: bool,
        now: Time,
        verifier: &V,
    ) -> Result<(), RevocationError> {
        let tbs = cert.as_tbs();
        match tbs.crl_uri() {
            Some(uri) => self.check(uri, tbs.serial_number(), issuer, strict, now, verifier),
            None => Err(RevocationError::NoCrl),
        }
    }
}
