//! CRLs are prepared for signing, and completed by their signatures.
ghost use Rattle.std.specs.Prelude.{◌≡◌, false, IfOk, IfErr, OnOk};
ghost use Rattle.rpki_der.specs.Writers.{SaysLong};
ghost use Rattle.rpki_parts.specs.Conditions.{Tests};
ghost use Rattle.rpki_parts.specs.SignedDatas.{signed_data};
ghost use Rattle.rpki_cert.specs.Verification.{context};
ghost use Rattle.rpki_crl.specs.Lists.{ListFits, IsCertificateList, IsMadeList, list_content, list_encoding};
ghost use Rattle.rpki_issuing.specs.ListReadiness.{list_signed_with, list_unsigned, IssuedListCheck, issued_list_checks, IsUnwrittenList};
ghost use Rattle.rpki_issuing.specs.ListReadiness.{IsCurrentList, IsListReady, IsListFault, IsListSignature, IsListSignatureFault, LeavesOthers, RevokesItsOwn};
ghost use Rattle.rpki_issuing.specs.Readiness.{but_signature};

use crate::any_signature::AnySignature;
use crate::assembling::octets_of;
use crate::list_error::ListError;
use bytes::Bytes;
use rpki_cert::ResourceCert;
use rpki_crl::{Crl, RevocationError, RevokedCertificates, TbsCertList, laws};
use rpki_der::{EncodeError, Time};
use rpki_parts::{Signature, SignedData, Verifier};
use rpki_path::revocation::has_begun;
use std::alloc::{AllocError, Global};
use std::marker::Model;

type Fields = TbsCertList<RevokedCertificates>;

// The one encoding of the fields, with these octets as its signature.
#[tactic(auto, unfolding(rpki_crl::specs::Lists::list_format))]
fn signed_of(alloc: Global, fields: &Fields, signature: &[u8]) -> Result<SignedData, EncodeError>
    ensures ok { IfOk result (λ s. s ≡ (list_signed_with fields.now signature.now).signed_data) }
    ensures fits { OnOk result (ListFits fields.now) }
    ensures too_long { SaysLong result (list_content fields.now) }
{
    let mut message = Vec::new(alloc);
    fields.encode_ref(alloc, &mut message)?;
    let message = Bytes::from_vec(message).map_err(AllocError::from)?;
    let value = Bytes::copy_from_slice(alloc, signature)?;
    let signature = Signature::new(fields.signature(), value);
    Ok(SignedData::new(message, signature))
}

// The list with these fields and this signature, read from its own octets.
fn assemble(alloc: Global, fields: &Fields, signature: &[u8]) -> Result<Crl, ListError>
    ensures same { IfOk result (λ c. c.list ≡ list_signed_with fields.now signature.now) }
    ensures uncached { IfOk result (λ c. c.is_cached ≡ false) }
    ensures made { IfOk result (λ c. IsMadeList c.list) }
    ensures fault { IfErr result (IsUnwrittenList fields.now signature.now) }
{
    let signed = signed_of(alloc, fields, signature)?;
    let written = octets_of(alloc, &signed);
    drop(signed);
    let octets = written?;
    // Called for what they ensure alone.
    laws::written_is_read();
    laws::unambiguous();
    match Crl::decode_shared(alloc, octets) {
        Ok(crl) => Ok(crl),
        Err(error) => {
            if !error.is_memory() {
                unreachable!();
            }
            Err(ListError::Memory)
        }
    }
}

// Whether the list is one of the issuer that is current.
fn check<V: Verifier>(
    crl: &Crl,
    issuer: &ResourceCert,
    strict: bool,
    now: Time,
    verifier: &V,
) -> Result<(), RevocationError>
    ensures { let x = context (V.verifies verifier.now) now strict in
        Tests (IssuedListCheck x issuer.now.cert.fields crl.now.list) issued_list_checks result }
{
    if crl.verify_issuer_claim(issuer, strict).is_err() {
        return Err(RevocationError::WrongKeyId);
    }
    let key = issuer.as_cert().as_tbs().subject_public_key_info();
    if crl.verify_signature(key, verifier).is_err() {
        return Err(RevocationError::BadSignature);
    }
    if !has_begun(crl, now) || crl.as_cert_list().is_stale(now) {
        return Err(RevocationError::Stale);
    }
    Ok(())
}

/// A CRL that only lacks its signature.
#[derive(Drop)]
pub struct PreparedList {
    unsigned: Crl,
}

impl Model for PreparedList {
    ghost use Rattle.rpki_crl.specs.Lists.{ListFields, IsMadeList};
    ghost use Rattle.rpki_crl.specs.RevokedEntries.{Revoked};

    ghost Value = { ListFields Revoked };

    ghost view = { λ p. p.unsigned.list.fields };

    ghost invariant = { λ p. IsMadeList p.unsigned.list };
}

impl PreparedList {
    /// Returns the fields of the to-be-signed part.
    pub fn as_cert_list(&self) -> &TbsCertList<RevokedCertificates>
        ensures { result.now ≡ self.now }
    {
        self.unsigned.as_cert_list()
    }

    /// Returns the bytes to sign: the TBSCertList with these fields, with its identifier and
    /// length (RFC 5280 5.1.1.3).
    pub fn octets(&self) -> &[u8]
        ensures octets { result.now ≡ list_encoding self.now }
        ensures written { ListFits self.now }
    {
        self.unsigned.signed_data().data()
    }
}

/// Prepares a CRL with these fields for signing. Returns it if and only if nothing but the
/// signature is missing.
///
/// The fields can be written, the CRL names the issuer's key, and `now` is between thisUpdate and
/// nextUpdate (RFC 5280 5.1.2.4, 5.1.2.5).
///
/// # Errors
///
/// Returns the first error:
///
/// - `TooLong` if the CRL would be too long
/// - `Invalid` with `WrongKeyId` if the CRL doesn't name the issuer's key
/// - `Invalid` with `Stale` if `now` isn't between the two updates
/// - `Memory` if memory runs out
///
/// # Not checked
///
/// Whether the CRL number is greater than the previous CRL's ([`crate::next_list`] does), and
/// whether the issuer is valid at `now`.
pub fn prepare_list(
    alloc: Global,
    fields: &TbsCertList<RevokedCertificates>,
    issuer: &ResourceCert,
    strict: bool,
    now: Time,
) -> Result<PreparedList, ListError>
    ensures fields { IfOk result (λ p. p ≡ fields.now) }
    ensures ready { OnOk result (IsListReady now strict issuer.now.cert.fields fields.now) }
    ensures fault { IfErr result (IsListFault (but_signature now strict) issuer.now.cert.fields
        (list_unsigned fields.now)) }
{
    let unsigned = assemble(alloc, fields, &[])?;
    match check(&unsigned, issuer, strict, now, &AnySignature) {
        Ok(()) => Ok(PreparedList { unsigned }),
        Err(error) => {
            drop(unsigned);
            Err(ListError::Invalid(error))
        }
    }
}

/// Completes a prepared CRL with the bytes of its signature. Returns the CRL.
///
/// If the CRL is still ready below this issuer at `now`, the result is `Ok` if and only if the
/// verifier accepts `signature` as one of [`PreparedList::octets`] by the issuer's key. The CRL is
/// decoded again from its own bytes, and is current. Below this issuer each serial number that
/// isn't on it passes the checks of [`rpki_crl::CrlStore::check`], and each that is on it fails as
/// `Revoked`.
///
/// # Errors
///
/// Returns the first error:
///
/// - `TooLong` if the CRL would be too long
/// - `Invalid` with `WrongKeyId`, `BadSignature` or `Stale` if that check fails
/// - `Memory` if memory runs out
///
/// # Not checked
///
/// As [`prepare_list`].
pub fn complete_list<V: Verifier>(
    alloc: Global,
    prepared: &PreparedList,
    signature: &[u8],
    issuer: &ResourceCert,
    strict: bool,
    now: Time,
    verifier: &V,
) -> Result<Crl, ListError>
    ensures same { IfOk result (λ c. c.list ≡ list_signed_with prepared.now signature.now) }
    ensures read { IfOk result (λ c. IsCertificateList c.list (signed_data c.list.signed_data)) }
    ensures signed { OnOk result (IsListSignature (V.verifies verifier.now)
        issuer.now.cert.fields prepared.now signature.now) }
    ensures current { let x = context (V.verifies verifier.now) now strict in
        IfOk result (λ c. IsCurrentList x issuer.now.cert.fields c.list) }
    ensures unrevoked { let x = context (V.verifies verifier.now) now strict in
        IfOk result (λ c. LeavesOthers x issuer.now.cert.fields c.list) }
    ensures revoked { let x = context (V.verifies verifier.now) now strict in
        IfOk result (λ c. RevokesItsOwn x issuer.now.cert.fields c.list) }
    ensures fault { let x = context (V.verifies verifier.now) now strict in
        IfErr result (IsListFault x issuer.now.cert.fields
        (list_signed_with prepared.now signature.now)) }
    ensures ready { IsListReady now strict issuer.now.cert.fields prepared.now
        → IfErr result (IsListSignatureFault (V.verifies verifier.now)
        issuer.now.cert.fields prepared.now signature.now) }
{
    // Called for what it ensures alone.
    laws::written_is_read();
    let crl = assemble(alloc, prepared.as_cert_list(), signature)?;
    match check(&crl, issuer, strict, now, verifier) {
        Ok(()) => Ok(crl),
        Err(error) => {
            drop(crl);
            Err(ListError::Invalid(error))
        }
    }
}
