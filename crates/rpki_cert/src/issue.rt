//! CAs issue certificates.
ghost use Rattle.std.specs.Prelude.{◌≡◌, Ok, IfOk, IfErr, OnOk};
ghost use Rattle.rpki_parts.specs.SignedDatas.{signed_data};
ghost use Rattle.rpki_cert.specs.Certificates.{TbsFields, CanBeWritten, IsCertificate, IsMade, encoding};
ghost use Rattle.rpki_cert.specs.Issuing.{IsNotMade, IsNotReadAgain, IsNotIssued, IsNoReadingFault};
ghost use Rattle.rpki_cert.specs.Validation.{IsValidBelow, IsInvalidBelow};
ghost use Rattle.rpki_cert.specs.Verification.{context};
ghost use Rattle.rpki_cert.specs.declared.inspect.Kind.TheVariants.{Authority};

use crate::cert::Cert;
use crate::resource_cert::ResourceCert;
use crate::tbs::TbsCert;
use crate::validation_error::ValidationError;
use rpki_der::{Cursor, DecodeError, EncodeError, Time};
use rpki_parts::{Signer, SigningError, Verifier};
use std::alloc::Global;
use thiserror::Error;

/// Why no certificate was issued: the step that failed first.
#[derive(Debug, Drop, Error)]
pub enum IssueCaError<E> {
    /// The certificate wasn't made, or the signer didn't sign it (own).
    #[error("certificate not signed")]
    Signing(SigningError<E>),
    /// The certificate's bytes weren't written: memory ran out (own).
    #[error("certificate not captured: {0}")]
    Encode(EncodeError),
    /// The certificate's bytes couldn't be read again (RFC 6487 4).
    #[error("certificate not read again: {0}")]
    Decode(DecodeError),
    /// The certificate that was read again isn't valid below the issuer (RFC 6487 7.2).
    #[error("issued certificate not valid: {0}")]
    Validation(ValidationError),
}

impl<E> IssueCaError<E> {
    ghost use Rattle.std.specs.Prelude.{◌↔◌, ◌⊎◌, IsTrue};
    ghost use Rattle.rpki_der.specs.declared.error.DecodeError.TheVariants as reading;
    ghost use Rattle.rpki_der.specs.declared.error.EncodeError.TheVariants as writing;
    ghost use Rattle.rpki_parts.specs.declared.signature.SigningError.TheVariants as signing;
    ghost use Rattle.rpki_cert.specs.Issuing.{issue_ca_error_name};
    ghost use Rattle.rpki_cert.specs.declared.issue.IssueCaError.TheVariants.{Signing, Encode, Decode, Validation};
    ghost use Rattle.rpki_cert.specs.declared.validation_error.ValidationError.TheVariants.{Verification};
    ghost use Rattle.rpki_cert.specs.declared.verification_error.VerificationError.TheVariants as verifying;

    /// Returns the variant's name.
    pub fn name(&self) -> &'static str
        ensures { result.now ≡ issue_ca_error_name self.now }
    {
        match self {
            IssueCaError::Signing(_) => "Signing",
            IssueCaError::Encode(_) => "Encode",
            IssueCaError::Decode(_) => "Decode",
            IssueCaError::Validation(_) => "Validation",
        }
    }

    /// Returns whether memory ran out, in any step.
    pub fn is_memory(&self) -> bool
        ensures { IsTrue result ↔ self.now ≡ Signing signing.Memory
            ⊎ self.now ≡ Encode writing.Memory
            ⊎ self.now ≡ Decode reading.Memory
            ⊎ self.now ≡ Validation (Verification verifying.Memory) }
    {
        match self {
            IssueCaError::Signing(error) => error.is_memory(),
            IssueCaError::Encode(error) => error.is_memory(),
            IssueCaError::Decode(error) => error.is_memory(),
            IssueCaError::Validation(error) => error.is_memory(),
        }
    }
}

// What was made, read again from its own octets.
fn read_again<E>(alloc: Global, made: &Cert) -> Result<Cert, IssueCaError<E>>
    ensures message { IfOk result (λ c. (f : TbsFields)
        → made.now.signed_data.message ≡ encoding f → c.signed_data.message ≡ encoding f) }
    ensures read { IfOk result (λ c. IsCertificate c (signed_data c.signed_data)) }
    ensures same { IfOk result (λ c. IsMade made.now → c ≡ made.now) }
    ensures rejected { IfErr result (IsNotReadAgain made.now.signed_data) }
    ensures readable { IsMade made.now → IfErr result IsNoReadingFault }
{
    let octets = match made.to_captured(alloc) {
        Ok(octets) => octets,
        Err(error) => return Err(IssueCaError::Encode(error)),
    };
    // Called for what it ensures alone.
    let _octets = Cursor::new(&octets).rest();
    match Cert::decode(alloc, &octets) {
        Ok(cert) => Ok(cert),
        Err(error) => Err(IssueCaError::Decode(error)),
    }
}

// A certificate with these fields, made and read again.
fn make_and_read<S: Signer>(
    alloc: Global,
    tbs: TbsCert,
    signer: &S,
    key: &S::KeyId,
) -> Result<Cert, IssueCaError<S::Error>>
    ensures read { IfOk result (λ c. IsCertificate c (signed_data c.signed_data)) }
    ensures message { IfOk result (λ c. c.signed_data.message ≡ encoding tbs) }
    ensures written { OnOk result (CanBeWritten tbs) }
    ensures fields { IfOk result (λ c. c.fields ≡ tbs) }
    ensures signed { IfOk result
        (λ c. S.signs signer.now key.now tbs.algorithm (encoding tbs)
        (Ok c.signed_data.signature)) }
    ensures rejected { IfErr result
        (IsNotMade tbs (S.signs signer.now key.now tbs.algorithm (encoding tbs))) }
    ensures readable { CanBeWritten tbs → IfErr result IsNoReadingFault }
{
    match tbs.into_cert(alloc, signer, key) {
        Ok(made) => {
            // Called for what it ensures alone.
            let _signature = made.signed_data().signature().value();
            let cert = read_again(alloc, &made);
            drop(made);
            cert
        }
        Err(refusal) => Err(IssueCaError::Signing(refusal)),
    }
}

/// Issues a CA's certificate with these fields below this issuer (RFC 6487 4): makes and signs it,
/// writes it, reads it again from its bytes, and validates it ([`Cert::validate_ca_at`]). Returns
/// it with the resources that it holds, and exactly these fields.
///
/// # Errors
///
/// Returns the error of the first step that fails:
///
/// - `Signing`: a content would have 2^32 bytes or more, or the signer's error
/// - `Encode`: memory ran out
/// - `Decode`: the bytes don't begin with a certificate: there are no resources, or the IPv4
///   resources aren't whole IPv4 addresses. Otherwise only memory can run out.
/// - `Validation`: a fault of the profile, or a check of verification that fails, as a signature
///   that isn't by the issuer's key
///
/// Memory may run out in any step.
///
/// # Not checked
///
/// Whether the issuer gave the serial number to another certificate too (RFC 6487 4.2), whether the
/// certificate's issuer is the issuer's subject (`rpki_path::names_chain`), and what
/// [`Cert::validate_ca_at`] doesn't check.
pub fn issue_ca<S: Signer, V: Verifier>(
    alloc: Global,
    tbs: TbsCert,
    signer: &S,
    key: &S::KeyId,
    issuer: &ResourceCert,
    strict: bool,
    now: Time,
    verifier: &V,
) -> Result<ResourceCert, IssueCaError<S::Error>>
    ensures read { IfOk result (λ r. IsCertificate r.cert (signed_data r.cert.signed_data)) }
    ensures message { IfOk result (λ r. r.cert.signed_data.message ≡ encoding tbs) }
    ensures written { OnOk result (CanBeWritten tbs) }
    ensures fields { IfOk result (λ r. r.cert.fields ≡ tbs) }
    ensures signed { IfOk result
        (λ r. S.signs signer.now key.now tbs.algorithm (encoding tbs)
        (Ok r.cert.signed_data.signature)) }
    ensures valid { let x = context (V.verifies verifier.now) now strict in
        IfOk result (λ r. IsValidBelow x issuer.now Authority r.cert r) }
    ensures rejected { let x = context (V.verifies verifier.now) now strict in
        IfErr result (IsNotIssued tbs (S.signs signer.now key.now tbs.algorithm (encoding tbs))
        (IsInvalidBelow x issuer.now Authority)) }
    ensures readable { CanBeWritten tbs → IfErr result IsNoReadingFault }
{
    match make_and_read(alloc, tbs, signer, key) {
        Ok(cert) => match cert.validate_ca_at(alloc, issuer, strict, now, verifier) {
            Ok(issued) => Ok(issued),
            Err(error) => Err(IssueCaError::Validation(error)),
        },
        Err(refusal) => Err(refusal),
    }
}
