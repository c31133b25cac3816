//! Prepared certificates are completed by their signatures.
ghost use Rattle.std.specs.Prelude.{◌≡◌, IfOk, IfErr, OnOk};
ghost use Rattle.rpki_parts.specs.SignedDatas.{signed_data};
ghost use Rattle.rpki_cert.specs.Certificates.{IsCertificate};
ghost use Rattle.rpki_cert.specs.Verification.{context};
ghost use Rattle.rpki_issuing.specs.Readiness.{signed_with, IsReady, IsSignatureOf, IsIncomplete, IsSignatureFault};
ghost use Rattle.rpki_issuing.specs.Roles.{GetsNumbers, IsValidAs};

use crate::assembling::assemble;
use crate::issuing_error::IssuingError;
use crate::prepared::Prepared;
use crate::role::Role;
use rpki_cert::Cert;
use rpki_der::Time;
use rpki_parts::Verifier;
use std::alloc::Global;

/// Completes a prepared certificate with the bytes of its signature. Returns the certificate.
///
/// If the certificate is still ready in this role at `now`, the result is `Ok` if and only if the
/// verifier accepts `signature` as one of [`Prepared::octets`] by the issuer's key. The certificate
/// is decoded again from its own bytes, and is valid in its role as [`Cert::validate_ca_at`] and
/// its siblings say.
///
/// # Errors
///
/// Returns the first error:
///
/// - `TooLong` if the certificate would be too long
/// - `Invalid` if the certificate isn't valid in its role at `now`, or the signature doesn't verify
/// - `Memory` if memory runs out
///
/// # Not checked
///
/// As [`prepare`].
pub fn complete<V: Verifier>(
    alloc: Global,
    prepared: &Prepared,
    signature: &[u8],
    role: &Role<'_>,
    strict: bool,
    now: Time,
    verifier: &V,
) -> Result<Cert, IssuingError>
    ensures same { IfOk result (λ c. c ≡ signed_with prepared.now signature.now) }
    ensures read { IfOk result (λ c. IsCertificate c (signed_data c.signed_data)) }
    ensures valid { let x = context (V.verifies verifier.now) now strict in
        IfOk result (IsValidAs x role.now) }
    ensures numbers { IfOk result (GetsNumbers role.now) }
    ensures signed { OnOk result
        (IsSignatureOf (V.verifies verifier.now) role.now prepared.now signature.now) }
    ensures fault { let x = context (V.verifies verifier.now) now strict in
        IfErr result (IsIncomplete x role.now prepared.now signature.now) }
    ensures ready { IsReady now strict role.now prepared.now
        → IfErr result (IsSignatureFault (V.verifies verifier.now)
        role.now prepared.now signature.now) }
{
    // Called for what it ensures alone.
    let _octets = prepared.octets();
    let cert = assemble(alloc, prepared.as_tbs(), signature)?;
    match role.validate(alloc, &cert, strict, now, verifier) {
        Ok(()) => Ok(cert),
        Err(error) => {
            drop(cert);
            Err(error)
        }
    }
}
