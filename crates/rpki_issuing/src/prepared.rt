//! Certificates that are prepared for signing.
ghost use Rattle.std.specs.Prelude.{◌≡◌, IfOk, IfErr, OnOk};
ghost use Rattle.rpki_cert.specs.Certificates.{CanBeWritten, encoding};
ghost use Rattle.rpki_issuing.specs.Readiness.{IsReady, IsUnready, unsigned_certificate as unsigned_of};

use crate::any_signature::AnySignature;
use crate::assembling::assemble;
use crate::issuing_error::IssuingError;
use crate::role::Role;
use rpki_cert::{Cert, TbsCert};
use rpki_der::Time;
use std::alloc::Global;
use std::marker::Model;

/// A certificate that only lacks its signature.
#[derive(Drop)]
pub struct Prepared {
    unsigned: Cert,
}

impl Model for Prepared {
    ghost use Rattle.std.specs.Prelude.{◌≡◌};
    ghost use Rattle.rpki_cert.specs.Certificates.{TbsFields, IsMade};
    ghost use Rattle.rpki_issuing.specs.Readiness.{unsigned_certificate as unsigned_of};

    ghost Value = { TbsFields };

    ghost view = { λ p. p.unsigned.fields };

    ghost invariant = { λ p. IsMade p.unsigned × (p.unsigned ≡ unsigned_of p.unsigned.fields) };
}

impl Prepared {
    /// Returns the fields of the to-be-signed part.
    pub fn as_tbs(&self) -> &TbsCert
        ensures { result.now ≡ self.now }
    {
        self.unsigned.as_tbs()
    }

    // The certificate, whose signature has no octets.
    pub(crate) fn as_cert(&self) -> &Cert
        ensures { result.now ≡ unsigned_of self.now }
    {
        &self.unsigned
    }

    /// Returns the bytes to sign: the TBSCertificate with these fields, with its identifier and
    /// length (RFC 5280 4.1.1.3).
    pub fn octets(&self) -> &[u8]
        ensures octets { result.now ≡ encoding self.now }
        ensures written { CanBeWritten self.now }
    {
        self.unsigned.signed_data().data()
    }
}

/// Prepares a certificate with these fields for signing. Returns it if and only if nothing but the
/// signature is missing, so that no signature is spent on a certificate that its own issuer would
/// reject.
///
/// The fields can be written, they meet the profile of the role's kind, and each check below the
/// issuer but the signature's passes (RFC 6487 7.2).
///
/// # Errors
///
/// Returns the first error:
///
/// - `Unwritable` if the fields can't be written as a certificate that decodes again
/// - `TooLong` if the certificate would be too long
/// - `Invalid` if the profile or a check below the issuer fails
/// - `Memory` if memory runs out
///
/// # Not checked
///
/// - whether the issuer is valid at `now`, and itself unrevoked
/// - whether names chain (RFC 5280 6.1.3)
/// - whether the serial number was used before, and whether a CRL has it (RFC 6487 4.2)
pub fn prepare(
    alloc: Global,
    tbs: &TbsCert,
    role: &Role<'_>,
    strict: bool,
    now: Time,
) -> Result<Prepared, IssuingError>
    ensures fields { IfOk result (λ p. p ≡ tbs.now) }
    ensures ready { OnOk result (IsReady now strict role.now tbs.now) }
    ensures fault { IfErr result (IsUnready now strict role.now tbs.now) }
{
    let unsigned = assemble(alloc, tbs, &[])?;
    match role.validate(alloc, &unsigned, strict, now, &AnySignature) {
        Ok(()) => Ok(Prepared { unsigned }),
        Err(error) => {
            drop(unsigned);
            Err(error)
        }
    }
}
