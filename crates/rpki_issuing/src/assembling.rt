//! Fields and a signature become a certificate.
ghost use Rattle.std.specs.Prelude.{◌≡◌, ◌^◌, ◌<◌, length, IfOk, IfErr, IsOk, OnOk};
ghost use Rattle.rpki_der.specs.Values.{AreOctets};
ghost use Rattle.rpki_der.specs.Writers.{SaysLong};
ghost use Rattle.rpki_parts.specs.SignedDatas.{signed_content, signed_data};
ghost use Rattle.rpki_cert.specs.Certificates.{Fits, IsCertificate, IsMade, tbs_content};
ghost use Rattle.rpki_issuing.specs.Readiness.{signed_with, IsUnassembled};

use crate::issuing_error::IssuingError;
use bytes::Bytes;
use rpki_cert::{Cert, TbsCert};
use rpki_der::{Cursor, EncodeError};
use rpki_parts::{Signature, SignedData};
use std::alloc::{AllocError, Global};

// The one encoding of the fields, with these octets as its signature.
fn signed_of(alloc: Global, tbs: &TbsCert, signature: &[u8]) -> Result<SignedData, EncodeError>
    ensures ok { IfOk result (λ s. s ≡ (signed_with tbs.now signature.now).signed_data) }
    ensures fits { OnOk result (Fits tbs.now) }
    ensures too_long { SaysLong result (tbs_content tbs.now) }
{
    let mut message = Vec::new(alloc);
    tbs.encode_ref(alloc, &mut message)?;
    let message = Bytes::from_vec(message).map_err(AllocError::from)?;
    let value = Bytes::copy_from_slice(alloc, signature)?;
    Ok(SignedData::new(message, Signature::new(tbs.signature(), value)))
}

// The octets of signed data.
pub(crate) fn octets_of(alloc: Global, signed: &SignedData) -> Result<Bytes, EncodeError>
    ensures ok { IfOk result (λ octets. octets ≡ signed_data signed.now) }
    ensures octets { IfOk result AreOctets }
    ensures value { AreOctets signed.now.signature.value }
    ensures too_long { SaysLong result (signed_content signed.now) }
    ensures fits { IsOk result → length (signed_content signed.now) < 2 ^ 32 }
{
    // Called for what it ensures alone.
    let _value = signed.signature().value();
    let mut octets = Vec::new(alloc);
    signed.encode_ref(alloc, &mut octets)?;
    let octets = Bytes::from_vec(octets).map_err(AllocError::from)?;
    // Called for what it ensures alone.
    let _octets = Cursor::new(&octets).rest();
    Ok(octets)
}

// The certificate with these fields and this signature, read from its own octets.
pub(crate) fn assemble(alloc: Global, tbs: &TbsCert, signature: &[u8]) -> Result<Cert, IssuingError>
    ensures same { IfOk result (λ c. c ≡ signed_with tbs.now signature.now) }
    ensures made { IfOk result IsMade }
    ensures read { IfOk result (λ c. IsCertificate c (signed_data c.signed_data)) }
    ensures fault { IfErr result (IsUnassembled tbs.now signature.now) }
{
    let signed = signed_of(alloc, tbs, signature)?;
    let written = octets_of(alloc, &signed);
    drop(signed);
    let octets = written?;
    match Cert::decode_shared(alloc, octets) {
        Ok(cert) => Ok(cert),
        Err(error) => Err(IssuingError::from(error)),
    }
}
