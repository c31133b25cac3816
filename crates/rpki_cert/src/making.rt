//! Certificates are made: fields go in, bytes come out.
ghost use Rattle.std.specs.Prelude.{◌≡◌, unwrap_or, ◌^◌, ◌<◌, length, Ok, IfOk, IfErr, OnOk};
ghost use Rattle.rpki_der.specs.declared.error.EncodeError.TheVariants.{Memory};
ghost use Rattle.rpki_parts.specs.KeyNames.{subject_name};
ghost use Rattle.rpki_parts.specs.SignedDatas.{signed_content};
ghost use Rattle.rpki_parts.specs.Signing.{IsRefusal};
ghost use Rattle.rpki_cert.specs.Making.{new_fields};
ghost use Rattle.rpki_cert.specs.Certificates.{Fits, tbs_content, encoding};

use crate::cert::Cert;
use crate::tbs::TbsCert;
use bytes::Bytes;
use rpki_blocks::Overclaim;
use rpki_der::{EncodeError, Serial};
use rpki_ext::{Extensions, KeyUsage, beside};
use rpki_parts::{
    Name, PublicKey, RpkiSignatureAlgorithm, SignedData, Signer, SigningError, Validity,
};
use std::alloc::{AllocError, Global};

// The subject that is given, else the name of the key.
fn subject_or_own(
    alloc: Global,
    subject: Option<Name>,
    key: &PublicKey,
) -> Result<Name, EncodeError>
    ensures ok { IfOk result (λ name. name ≡ unwrap_or subject (subject_name key.now)) }
    ensures memory { IfErr result (λ e. e ≡ Memory) }
{
    match subject {
        Some(subject) => Ok(subject),
        None => key.to_subject_name(alloc),
    }
}

impl TbsCert {
    /// Makes the fields of a certificate: these, the one signature algorithm of the RPKI, and the
    /// key's identifier (RFC 6487 4.8.2). Without a subject it is named after its key (RFC 6487
    /// 4.5).
    ///
    /// Everything optional is absent: Basic Constraints, Authority Key Identifier, Extended Key
    /// Usage, URIs and resources. The setters set them.
    ///
    /// # Errors
    ///
    /// Returns `Memory` if memory runs out, and no other error.
    ///
    /// # Not checked
    ///
    /// Whether the issuer gave the serial number to another certificate too (RFC 6487 4.2), whether
    /// notBefore is before notAfter, the forms of the names (RFC 6487 4.4, 4.5), and the key's
    /// size.
    pub fn new(
        alloc: Global,
        serial_number: Serial,
        issuer: Name,
        validity: Validity,
        subject: Option<Name>,
        subject_public_key_info: PublicKey,
        key_usage: KeyUsage,
        overclaim: Overclaim,
    ) -> Result<TbsCert, EncodeError>
        ensures ok { IfOk result (λ t. t ≡ new_fields
            serial_number issuer validity subject subject_public_key_info key_usage overclaim) }
        ensures memory { IfErr result (λ e. e ≡ Memory) }
    {
        let subject = subject_or_own(alloc, subject, &subject_public_key_info)?;
        let subject_key_identifier = subject_public_key_info.key_identifier();
        let extensions = Extensions::bare(subject_key_identifier, key_usage, overclaim);
        Ok(TbsCert {
            serial_number,
            signature: RpkiSignatureAlgorithm::default(),
            issuer,
            validity,
            subject,
            subject_public_key_info,
            extensions,
        })
    }

    // The octets that `encode_ref` writes, with the signer's signature.
    fn sign<S: Signer>(
        &self,
        alloc: Global,
        signer: &S,
        key: &S::KeyId,
    ) -> Result<SignedData, SigningError<S::Error>>
        ensures fields { OnOk result (Fits self.now) }
        ensures message { IfOk result (λ s. s.message ≡ encoding self.now) }
        ensures signed { IfOk result
            (λ s. S.signs signer.now key.now self.now.algorithm (encoding self.now)
            (Ok s.signature)) }
        ensures fits { IfOk result (λ s. length (signed_content s) < 2 ^ 32) }
        ensures rejected { IfErr result (IsRefusal (tbs_content self.now)
            (S.signs signer.now key.now self.now.algorithm (encoding self.now))) }
    {
        let mut octets = Vec::new(alloc);
        self.encode_ref(alloc, &mut octets)?;
        let octets = Bytes::from_vec(octets).map_err(AllocError::from)?;
        SignedData::sign(alloc, signer, key, self.signature(), octets)
    }

    /// Makes and signs the certificate with these fields. The signer signs exactly the bytes that
    /// [`TbsCert::encode_ref`] writes, with the key that `key` names. The fields are used up, also
    /// after an error.
    ///
    /// # Errors
    ///
    /// - `TooLong`: the content of the TBSCertificate or of the whole certificate would have 2^32
    ///   bytes or more
    /// - the signer's error, as it is
    /// - `Memory`: memory ran out
    ///
    /// # Not checked
    ///
    /// - whether the signature verifies, and whether the key is the issuer's ([`crate::issue_ca`]
    ///   checks both)
    /// - the profile of any kind ([`Cert::inspect_ca`] and its siblings check it)
    /// - whether there are resources, and whether the IPv4 resources are whole IPv4 addresses:
    ///   otherwise [`Cert::decode`] rejects the certificate
    /// - what [`TbsCert::new`] doesn't check
    pub fn into_cert<S: Signer>(
        self,
        alloc: Global,
        signer: &S,
        key: &S::KeyId,
    ) -> Result<Cert, SigningError<S::Error>>
        ensures fields { IfOk result (λ c. c.fields ≡ self) }
        ensures written { OnOk result (Fits self) }
        ensures message { IfOk result (λ c. c.signed_data.message ≡ encoding self) }
        ensures signed { IfOk result
            (λ c. S.signs signer.now key.now self.algorithm (encoding self)
            (Ok c.signed_data.signature)) }
        ensures fits { IfOk result (λ c. length (signed_content c.signed_data) < 2 ^ 32) }
        ensures rejected { IfErr result (IsRefusal (tbs_content self)
            (S.signs signer.now key.now self.algorithm (encoding self))) }
    {
        let signed = self.sign(alloc, signer, key);
        let (tbs, signed_data) = beside(self, signed)?;
        Ok(Cert::of_parts(alloc, tbs, signed_data)?)
    }
}
