//! Verifies CRLs.
ghost use Rattle.std.specs.Prelude.{◌≡◌, ◌↔◌, IsOk, IfErr};
ghost use Rattle.rpki_cert.specs.Verification.{IsSignedBy};
ghost use Rattle.rpki_crl.specs.Revocation.{NamesIssuer};
ghost use Rattle.rpki_cert.specs.declared.verification_error.VerificationError.TheVariants.{WrongKeyId, BadSignature};

use crate::crl::Crl;
use rpki_cert::{ResourceCert, VerificationError};
use rpki_parts::{PublicKey, Verifier};

impl Crl {
    /// Checks that the CRL names the key of this issuer as the one that signs it (RFC 5280 5.2.1).
    /// The mode changes nothing. Takes no memory.
    ///
    /// # Errors
    ///
    /// Returns `WrongKeyId` only.
    ///
    /// # Not checked
    ///
    /// The issuer's name, and the signature.
    pub fn verify_issuer_claim(
        &self,
        issuer: &ResourceCert,
        _strict: bool,
    ) -> Result<(), VerificationError>
        ensures ok { IsOk result ↔ NamesIssuer issuer.now.cert.fields self.now.list }
        ensures fault { IfErr result (λ e. e ≡ WrongKeyId) }
    {
        let named = self.as_cert_list().authority_key_identifier();
        if *named == issuer.as_cert().as_tbs().subject_key_identifier() {
            Ok(())
        } else {
            Err(VerificationError::WrongKeyId)
        }
    }

    /// Checks that the key signed the CRL, by the verifier's answer about the kept bytes (RFC 5280
    /// 6.3.3). Takes no memory.
    ///
    /// # Errors
    ///
    /// Returns `BadSignature` only.
    pub fn verify_signature<V: Verifier>(
        &self,
        key: &PublicKey,
        verifier: &V,
    ) -> Result<(), VerificationError>
        ensures ok { IsOk result
            ↔ IsSignedBy (V.verifies verifier.now) key.now self.now.list.signed_data }
        ensures fault { IfErr result (λ e. e ≡ BadSignature) }
    {
        match self.signed_data().verify_signature(key, verifier) {
            Ok(()) => Ok(()),
            Err(_) => Err(VerificationError::BadSignature),
        }
    }
}
