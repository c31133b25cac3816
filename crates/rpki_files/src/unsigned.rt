//! Bytes that are to be signed: a TBSCertificate or a TBSCertList.
ghost use Rattle.std.specs.Prelude.{◌≡◌, ◌≤◌, ◌<◌, ◌^◌, ℕ, List, None, length, IfOk, IfSome, MatchOption};
ghost use Rattle.rpki_parts.specs.SignedDatas.{signed_content, signed_data};
ghost use Rattle.rpki_files.specs.Contents.{BeginsWithEither};
ghost use Rattle.rpki_files.specs.ToBeSigned.{IsToBeSigned, IsUnsignedFile, unsigned_data};

use crate::contents::Content;
use crate::files::{Object, object_of};
use bytes::Bytes;
use rpki_der::EncodeError;
use rpki_parts::{RpkiSignatureAlgorithm, Signature, SignedData};
use std::alloc::{AllocError, Global};

// The octets with a signature by this algorithm that has none, if they aren't too long for that.
fn unsigned_octets(
    alloc: Global,
    octets: &Bytes,
    algorithm: RpkiSignatureAlgorithm,
) -> Result<Option<Bytes>, AllocError>
    ensures { let fields = unsigned_data algorithm octets.now in IfOk result (λ made.
        MatchOption made (2 ^ 32 ≤ length (signed_content fields))
        (λ whole. (whole ≡ signed_data fields) × (length (signed_content fields) < 2 ^ 32))) }
{
    let signature = Signature::new(algorithm, Bytes::new());
    let signed = SignedData::new(octets.clone()?, signature);
    let mut whole = Vec::new(alloc);
    let written = signed.encode_ref(alloc, &mut whole);
    drop(signed);
    match written {
        Ok(()) => Ok(Some(Bytes::from_vec(whole)?)),
        Err(EncodeError::TooLong) => {
            drop(whole);
            Ok(None)
        }
        Err(EncodeError::Memory) => {
            drop(whole);
            Err(AllocError)
        }
    }
}

// The object of these octets, if they begin with a certificate or a list.
fn object_of_either<'a>(
    alloc: Global,
    name: &'a str,
    octets: Bytes,
) -> Result<Option<Object<'a>>, AllocError>
    ensures object { IfOk result (λ found. MatchOption found (BeginsWithEither octets → ⊥)
        (λ object. (object.octets ≡ octets) × BeginsWithEither octets)) }
    ensures name { IfOk result (λ found. IfSome found (λ object. object.name ≡ name.now)) }
{
    let object = object_of(alloc, name, octets)?;
    match object.content() {
        Content::Certificate(..) | Content::List(..) => Ok(Some(object)),
        Content::Neither(_) => {
            drop(object);
            Ok(None)
        }
    }
}

// The object that the octets are under this algorithm.
fn unsigned_under<'a>(
    alloc: Global,
    name: &'a str,
    octets: &Bytes,
    algorithm: RpkiSignatureAlgorithm,
) -> Result<Option<Object<'a>>, AllocError>
    ensures found { IfOk result (λ found. MatchOption found (Unit {0})
        (λ object. IsUnsignedFile octets.now object.octets)) }
    ensures none { IfOk result (λ found. (found ≡ None) → (whole : List ℕ)
        → (it : IsUnsignedFile octets.now whole) → it.algorithm ≡ algorithm → ⊥) }
    ensures name { IfOk result (λ found. IfSome found (λ object. object.name ≡ name.now)) }
{
    match unsigned_octets(alloc, octets, algorithm)? {
        Some(whole) => object_of_either(alloc, name, whole),
        None => Ok(None),
    }
}

/// Returns the certificate or the CRL that bytes are with a signature of no bytes, if they are a
/// TBSCertificate or a TBSCertList (RFC 5280 4.1, 5.1).
///
/// # Errors
///
/// Returns an error only if memory runs out.
pub fn as_unsigned<'a>(
    alloc: Global,
    name: &'a str,
    octets: &Bytes,
) -> Result<Option<Object<'a>>, AllocError>
    ensures object { IfOk result (λ found. MatchOption found (IsToBeSigned octets.now → ⊥)
        (λ object. IsUnsignedFile octets.now object.octets)) }
    ensures name { IfOk result (λ found. IfSome found (λ object. object.name ≡ name.now)) }
{
    let usual = RpkiSignatureAlgorithm::default();
    match unsigned_under(alloc, name, octets, usual)? {
        Some(object) => Ok(Some(object)),
        None => unsigned_under(
            alloc,
            name,
            octets,
            RpkiSignatureAlgorithm::without_parameter(),
        ),
    }
}
