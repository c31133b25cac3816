//! Certificates, read and written.
ghost use Rattle.std.specs.Prelude.{◌≡◌, ◌^◌, ◌<◌, length, IfOk, IsOk};
ghost use Rattle.rpki_der.specs.Answers.{AnswersOrMemory};
ghost use Rattle.rpki_der.specs.Place.{remaining, Keeps, AnswersOptionalOrMemory, MeansOrMemory};
ghost use Rattle.rpki_der.specs.Place.Reading.{TookOrMemory};
ghost use Rattle.rpki_der.specs.Skipping.{levels};
ghost use Rattle.rpki_der.specs.Tags.{SEQUENCE};
ghost use Rattle.rpki_der.specs.Values.{AreOctets};
ghost use Rattle.rpki_der.specs.Writers.{SaysLong, Writes};
ghost use Rattle.rpki_parts.specs.SignedDatas.{signed_content, signed_data, signed_part};
ghost use Rattle.rpki_der.specs.Encoding.{Means};
ghost use Rattle.rpki_cert.specs.Certificates.{IsCertificate, certificate_content_format, certificate_format};

use crate::tbs::TbsCert;
use bytes::Bytes;
use rpki_der::{Cursor, DecodeError, EncodeError, tag};
use rpki_ext::beside;
use rpki_parts::SignedData;
use std::alloc::{AllocError, Global};
use std::marker::Model;

/// A resource certificate: its fields, its to-be-signed part (TBSCertificate) as it was read or
/// made, and its signature (RFC 5280 4.1, RFC 6487 4).
///
/// The life of a certificate, with the calls:
///
/// - Decode: [`Cert::decode`], or [`Cert::decode_shared`], which copies no bytes.
/// - Inspect: [`Cert::inspect_ta`], [`Cert::inspect_ca`], [`Cert::inspect_ee`],
///   [`Cert::inspect_detached_ee`] and [`Cert::inspect_router`] check the profile of one kind.
///   [`crate::kind_of`] returns the kind.
/// - Verify: [`Cert::verify_ta_at`], [`Cert::verify_ca_at`], [`Cert::verify_ee_at`] and
///   [`Cert::verify_router_at`] check the validation time, the issuer's key, the signature and the
///   resources.
/// - Validate: [`Cert::validate_ta_at`], [`Cert::validate_ca_at`], [`Cert::validate_ee_at`],
///   [`Cert::validate_detached_ee_at`] and [`Cert::validate_router_at`] inspect, then verify.
/// - Hold: validation returns a [`crate::ResourceCert`], which has the resources that the
///   certificate holds, and is the issuer in the next validation. Validation of a router's
///   certificate returns none.
///
/// A CA makes certificates with [`TbsCert::into_cert`] or [`crate::issue_ca`].
///
/// # Not checked
///
/// Decoding checks no signature, no time and no profile. None of the calls above checks:
///
/// - whether the certificate is revoked (`CrlStore::check` does)
/// - whether names chain (RFC 5280 6.1.3; `rpki_path::names_chain` does)
/// - whether a trust anchor has the TAL's key (`Tal::has_key` does)
/// - whether the subject's RSA key has 2048 bits and the exponent 65537 (`rpki_keys::is_usable`
///   does; a verifier may check the keys that sign)
/// - whether the issuer gave the serial number to another certificate too (RFC 6487 4.2)
/// - the current time: the validation time is the caller's
#[derive(Drop)]
pub struct Cert {
    parts: Box<Parts>,
}

// The two parts of a certificate.
#[derive(Drop)]
struct Parts {
    tbs: TbsCert,
    signed_data: SignedData,
}

impl Model for Cert {
    ghost use Rattle.rpki_cert.specs.Certificates.{CertFields};

    ghost Value = { CertFields };

    ghost view = { λ c. record { fields = c.parts.value.tbs; signed_data = c.parts.value.signed_data } };
}

impl Cert {
    // The certificate of these parts.
    pub(crate) fn of_parts(
        alloc: Global,
        tbs: TbsCert,
        signed_data: SignedData,
    ) -> Result<Cert, AllocError>
        ensures { IfOk result (λ c. c ≡ record { fields = tbs; signed_data = signed_data }) }
    {
        let parts = Box::new(alloc, Parts { tbs, signed_data }).map_err(AllocError::from)?;
        Ok(Cert { parts })
    }

    // What stands in the SEQUENCE, by the reading function.
    #[tactic(auto, unfolding(crate::specs::Certificates::certificate_content_format))]
    fn read_content(alloc: Global, content: &mut Cursor<'_>) -> Result<Cert, DecodeError>
        ensures reads { TookOrMemory (certificate_content_format levels).read
            content.old result content.new }
        ensures keeps { Keeps result content.old content.new }
        ensures octets { AreOctets (remaining content.old) }
    {
        let mut ahead = content.fork();
        let signed_data = match SignedData::from_constructed(alloc, &mut ahead) {
            Ok(signed_data) => signed_data,
            Err(error) => return Err(error),
        };
        let tbs = match TbsCert::read(alloc, &mut content.fork()) {
            Ok(tbs) => tbs,
            Err(error) => {
                drop(signed_data);
                return Err(error);
            }
        };
        let cert = Cert::of_parts(alloc, tbs, signed_data)?;
        *content = ahead;
        Ok(cert)
    }

    // The SEQUENCE, by the reading function.
    fn read(alloc: Global, cursor: &mut Cursor<'_>) -> Result<Cert, DecodeError>
        ensures reads { TookOrMemory (certificate_format levels).read
            cursor.old result cursor.new }
        ensures keeps { Keeps result cursor.old cursor.new }
        ensures octets { AreOctets (remaining cursor.old) }
    {
        let mut ahead = cursor.fork();
        let mut content = ahead.take_sequence()?;
        let cert = Cert::read_content(alloc, &mut content)?;
        if !content.is_empty() {
            drop(cert);
            return Err(DecodeError::Trailing);
        }
        *cursor = ahead;
        Ok(cert)
    }

    /// Decodes the certificate at the start of `octets` and ignores what follows (RFC 5280 4.1, RFC
    /// 6487 4).
    ///
    /// The bytes are copied once. Each known extension may appear once, in any order, and no
    /// unknown extension may be critical. Subject Key Identifier, Key Usage, Certificate Policies
    /// and one of the two resource extensions have to be there.
    ///
    /// # Errors
    ///
    /// Returns an error if the bytes begin with no certificate; which one is unspecified. Returns
    /// `Memory` if memory runs out.
    ///
    /// # Not checked
    ///
    /// The signature, the times (also whether notBefore is before notAfter), the profile of any
    /// kind ([`Cert::inspect_ca`] and its siblings), what the bits of the key are, and whether the
    /// resource extensions are critical (own).
    pub fn decode(alloc: Global, octets: &[u8]) -> Result<Cert, DecodeError>
        ensures { MeansOrMemory (Means IsCertificate) result octets.now }
    {
        Cert::decode_shared(alloc, Bytes::copy_from_slice(alloc, octets)?)
    }

    /// Decodes the certificate at the start of shared bytes and ignores what follows (own).
    ///
    /// The certificate shares the buffer and keeps all of it alive; a copy ([`Cert::try_clone`])
    /// copies no bytes.
    ///
    /// # Errors
    ///
    /// As [`Cert::decode`].
    ///
    /// # Not checked
    ///
    /// As [`Cert::decode`].
    pub fn decode_shared(alloc: Global, octets: Bytes) -> Result<Cert, DecodeError>
        ensures { MeansOrMemory (Means IsCertificate) result octets }
    {
        let mut cursor = Cursor::new(&octets);
        Cert::take_from(alloc, &mut cursor)
    }

    /// Reads the certificate that is next, one SEQUENCE (RFC 5280 4.1).
    ///
    /// # Errors
    ///
    /// Returns an error if the remaining bytes begin with no certificate; which one is
    /// unspecified.
    ///
    /// # Not checked
    ///
    /// As [`Cert::decode`].
    pub fn take_from(alloc: Global, cursor: &mut Cursor<'_>) -> Result<Cert, DecodeError>
        ensures { AnswersOrMemory (certificate_format levels) cursor.old result cursor.new }
    {
        Cert::read(alloc, cursor)
    }

    /// Reads the certificate if a SEQUENCE is next. Returns `None` at the end and before another
    /// identifier octet.
    ///
    /// # Errors
    ///
    /// Returns an error if a SEQUENCE is next that is no certificate; which one is unspecified.
    ///
    /// # Not checked
    ///
    /// As [`Cert::decode`].
    pub fn take_opt_from(
        alloc: Global,
        cursor: &mut Cursor<'_>,
    ) -> Result<Option<Cert>, DecodeError>
        ensures answers { AnswersOptionalOrMemory SEQUENCE IsCertificate
            cursor.old result cursor.new }
        ensures keeps { Keeps result cursor.old cursor.new }
    {
        match cursor.rest() {
            [tag::SEQUENCE, ..] => Ok(Some(Cert::take_from(alloc, cursor)?)),
            _ => Ok(None),
        }
    }

    /// Reads the content of a certificate's SEQUENCE, without the SEQUENCE's identifier and length.
    ///
    /// # Errors
    ///
    /// Returns an error if the remaining bytes begin with no such content; which one is
    /// unspecified.
    ///
    /// # Not checked
    ///
    /// Whether anything follows the signature, and what [`Cert::decode`] doesn't check.
    #[tactic(auto, using(rpki_der::proofs::FormatAnswers::answers_or_memory_alone, crate::proofs::CertificateFormats::certificate_content_alone))]
    pub fn from_constructed(alloc: Global, content: &mut Cursor<'_>) -> Result<Cert, DecodeError>
        ensures { AnswersOrMemory (certificate_content_format levels)
            content.old result content.new }
    {
        Cert::read_content(alloc, content)
    }

    /// Returns the fields of the to-be-signed part.
    pub fn as_tbs(&self) -> &TbsCert
        ensures { result.now ≡ self.now.fields }
    {
        &self.parts.tbs
    }

    /// Returns the to-be-signed part, as it was read or made, and the signature.
    pub fn signed_data(&self) -> &SignedData
        ensures { result.now ≡ self.now.signed_data }
    {
        &self.parts.signed_data
    }

    /// Appends the certificate: the SEQUENCE of the to-be-signed part, as it was read or made, the
    /// algorithm and the signature. For a certificate that was read these are its own bytes.
    ///
    /// # Errors
    ///
    /// Returns `TooLong` if the content would have 2^32 bytes or more, or `Memory`. Then nothing
    /// is appended.
    pub fn encode_ref(&self, alloc: Global, out: &mut Vec<u8>) -> Result<(), EncodeError>
        ensures { Writes (signed_part self.now.signed_data) out.old.items result out.new.items }
    {
        self.parts.signed_data.encode_ref(alloc, out)
    }

    /// Writes the certificate's bytes, as [`Cert::encode_ref`] does, into a buffer of their own.
    ///
    /// # Errors
    ///
    /// As [`Cert::encode_ref`].
    pub fn to_captured(&self, alloc: Global) -> Result<Bytes, EncodeError>
        ensures ok { IfOk result (λ octets. octets ≡ signed_data self.now.signed_data) }
        ensures too_long { SaysLong result (signed_content self.now.signed_data) }
        ensures fits { IsOk result → length (signed_content self.now.signed_data) < 2 ^ 32 }
    {
        let mut octets = Vec::new(alloc);
        self.encode_ref(alloc, &mut octets)?;
        Ok(Bytes::from_vec(octets).map_err(AllocError::from)?)
    }

    /// Clones the certificate.
    pub fn try_clone(&self, alloc: Global) -> Result<Cert, AllocError>
        ensures { IfOk result (λ c. c ≡ self.now) }
    {
        let signed_data = self.parts.signed_data.try_clone(alloc)?;
        let (signed_data, tbs) = beside(signed_data, self.parts.tbs.try_clone(alloc))?;
        Ok(Cert::of_parts(alloc, tbs, signed_data)?)
    }
}
