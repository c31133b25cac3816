//! Signed data: bytes and their signature.
ghost use Rattle.std.specs.Prelude.{◌≡◌, ◌↔◌, ◌^◌, ◌<◌, ◌++◌, Ok, IfOk, IfErr, IsOk, OnErr, OnOk, length, take};
ghost use Rattle.rpki_der.specs.Writers.{SaysLong, Writes};
ghost use Rattle.rpki_der.specs.Answers.{AnswersOrMemory};
ghost use Rattle.rpki_der.specs.Place.{remaining, Keeps, MovesOn};
ghost use Rattle.rpki_der.specs.Place.Reading.{TookOrMemory, TookOrMemoryBy};
ghost use Rattle.rpki_der.specs.Reading.{both};
ghost use Rattle.rpki_der.specs.Values.{AreOctets};
ghost use Rattle.rpki_parts.specs.Algorithms.{algorithm, algorithm_format};
ghost use Rattle.rpki_parts.specs.Keys.{whole_bits_format};
ghost use Rattle.rpki_parts.specs.SignedDatas.{signed_content, signed_content_format, signed_part};
ghost use Rattle.rpki_parts.specs.Signing.{IsRefusalOnceAsked};

use crate::algorithm::RpkiSignatureAlgorithm;
use crate::key::{PublicKey, take_whole_bits};
use crate::signature::{Signature, SignatureVerificationError, Signer, SigningError, Verifier};
use bytes::Bytes;
use rpki_der::{Cursor, DecodeError, EncodeError, MAX_LEN, Piece, end_value, put_bits, tag};
use std::alloc::{AllocError, Global};
use std::marker::Model;

// The algorithm and the signature that stand next. Where it errs, the cursor may stand anywhere.
fn take_signature(alloc: Global, cursor: &mut Cursor<'_>) -> Result<Signature, DecodeError>
    ensures reads { let reading = both algorithm_format.read whole_bits_format.read in
        TookOrMemoryBy (λ s. (s.algorithm, s.value)) reading cursor.old result cursor.new }
    ensures on { OnOk result (MovesOn cursor.old cursor.new) }
{
    let algorithm = RpkiSignatureAlgorithm::x509_take_from(cursor)?;
    let value = take_whole_bits(cursor)?.capture_rest(alloc)?;
    Ok(Signature::from_piece(algorithm, value))
}

/// A to-be-signed part, kept as it was read or made, with its signature (RFC 5280 4.1, 5.1).
#[derive(Drop)]
pub struct SignedData {
    data: Piece,
    signature: Signature,
}

impl Model for SignedData {
    ghost use Rattle.rpki_parts.specs.SignedDatas.{SignedFields};

    ghost Value = { SignedFields };

    ghost view = { λ s. record { message = s.«data»; signature = s.signature } };
}

impl SignedData {
    /// Makes the signed data with these bytes and this signature.
    ///
    /// # Not checked
    ///
    /// Whether the signature is that of the bytes ([`SignedData::verify_signature`]).
    pub fn new(data: Bytes, signature: Signature) -> SignedData
        ensures { result ≡ record { message = «data»; signature = signature } }
    {
        SignedData {
            data: Piece::from(data),
            signature,
        }
    }

    // What stands in the SEQUENCE, by the reading function.
    #[tactic(auto, unfolding(crate::specs::SignedDatas::signed_content_format))]
    fn read(alloc: Global, content: &mut Cursor<'_>) -> Result<SignedData, DecodeError>
        ensures reads { TookOrMemory signed_content_format.read content.old result content.new }
        ensures keeps { Keeps result content.old content.new }
        ensures octets { AreOctets (remaining content.old) }
    {
        let mut ahead = content.fork();
        let data = ahead.capture_one(alloc)?;
        let signature = take_signature(alloc, &mut ahead)?;
        *content = ahead;
        Ok(SignedData { data, signature })
    }

    /// Reads what is inside the SEQUENCE: a value, which is kept as it is, the algorithm, and the
    /// BIT STRING of the signature (RFC 5280 4.1, 5.1).
    ///
    /// # Errors
    ///
    /// Returns an error if the bytes at the cursor don't begin with these three, or if bits of the
    /// BIT STRING are unused (own); which error is unspecified. Returns `Memory` if memory ran out.
    /// The cursor then stays where it was.
    ///
    /// # Not checked
    ///
    /// The signature ([`SignedData::verify_signature`]), and the content of the value.
    pub fn from_constructed(
        alloc: Global,
        content: &mut Cursor<'_>,
    ) -> Result<SignedData, DecodeError>
        ensures { AnswersOrMemory signed_content_format content.old result content.new }
    {
        SignedData::read(alloc, content)
    }

    /// Returns the bytes that are signed.
    pub fn data(&self) -> &[u8]
        ensures { result.now ≡ self.now.message }
    {
        self.data.as_bytes()
    }

    /// Returns the signature.
    pub fn signature(&self) -> &Signature
        ensures { result.now ≡ self.now.signature }
    {
        &self.signature
    }

    /// Checks with the verifier that the signature is that of the key and of the bytes that are
    /// kept. Takes no memory.
    ///
    /// # Errors
    ///
    /// Returns `SignatureVerificationError` if and only if the verifier rejects the signature.
    pub fn verify_signature<V: Verifier>(
        &self,
        key: &PublicKey,
        verifier: &V,
    ) -> Result<(), SignatureVerificationError>
        ensures { IsOk result ↔ V.verifies verifier.now key.now self.now.signature.algorithm
            self.now.message self.now.signature.value }
    {
        let signature = &self.signature;
        if verifier.verify(key, *signature.algorithm(), self.data(), signature.value()) {
            Ok(())
        } else {
            Err(SignatureVerificationError)
        }
    }

    // Appends what follows the octets inside the SEQUENCE, the algorithm and the signature, or a
    // part of it where it errs.
    #[tactic(auto, unfolding(crate::specs::Keys::whole_bits_format))]
    fn append_signature(&self, alloc: Global, out: &mut Vec<u8>) -> Result<(), EncodeError>
        ensures ok { OnOk result (out.new.items ≡ out.old.items
            ++ (algorithm self.now.signature.algorithm
            ++ whole_bits_format.written self.now.signature.value)) }
        ensures err { OnErr result (take (length out.old.items) out.new.items ≡ out.old.items) }
        ensures too_long { SaysLong result (algorithm self.now.signature.algorithm
            ++ whole_bits_format.written self.now.signature.value) }
    {
        self.signature.algorithm().x509_encode(alloc, out)?;
        put_bits(out, 0, self.signature.value())
    }

    // Whether the whole fits.
    #[tactic(auto, unfolding(crate::specs::SignedDatas::signed_content_format))]
    fn check_length(&self, alloc: Global) -> Result<(), EncodeError>
        ensures fits { OnOk result (length (signed_content self.now) < 2 ^ 32) }
        ensures too_long { SaysLong result (signed_content self.now) }
    {
        let mut tail = Vec::new(alloc);
        self.append_signature(alloc, &mut tail)?;
        if self.data().len() + tail.len() > MAX_LEN {
            return Err(EncodeError::TooLong);
        }
        Ok(())
    }

    /// Signs these bytes with the key that `key` names, and keeps them with the signature (own).
    ///
    /// # Errors
    ///
    /// Returns the signer's error unchanged, `TooLong` if the whole would have a content of 2^32
    /// bytes or more, or `Memory`.
    pub fn sign<S: Signer>(
        alloc: Global,
        signer: &S,
        key: &S::KeyId,
        algorithm: RpkiSignatureAlgorithm,
        octets: Bytes,
    ) -> Result<SignedData, SigningError<S::Error>>
        ensures message { IfOk result (λ s. s.message ≡ octets) }
        ensures signed { IfOk result
            (λ s. S.signs signer.now key.now algorithm octets (Ok s.signature)) }
        ensures fits { IfOk result (λ s. length (signed_content s) < 2 ^ 32) }
        ensures rejected { IfErr result
            (IsRefusalOnceAsked octets (S.signs signer.now key.now algorithm octets)) }
    {
        let signature = signer.sign(alloc, key, algorithm, &octets)?;
        let signed_data = SignedData::new(octets, signature);
        signed_data.check_length(alloc)?;
        Ok(signed_data)
    }

    // Appends what stands inside the SEQUENCE, or a part of it where it errs.
    #[tactic(auto, unfolding(crate::specs::SignedDatas::signed_content_format))]
    fn append_content(&self, alloc: Global, out: &mut Vec<u8>) -> Result<(), EncodeError>
        ensures ok { OnOk result (out.new.items ≡ out.old.items ++ signed_content self.now) }
        ensures err { OnErr result (take (length out.old.items) out.new.items ≡ out.old.items) }
        ensures too_long { SaysLong result (signed_content self.now) }
    {
        out.extend_from_slice(self.data())?;
        self.append_signature(alloc, out)
    }

    /// Appends the SEQUENCE of the bytes that are kept, the algorithm and the signature (RFC 5280
    /// 4.1, 5.1).
    ///
    /// # Errors
    ///
    /// Returns `TooLong` if the content would have 2^32 bytes or more, or `Memory`. `out` is then
    /// unchanged.
    pub fn encode_ref(&self, alloc: Global, out: &mut Vec<u8>) -> Result<(), EncodeError>
        ensures { Writes (signed_part self.now) out.old.items result out.new.items }
    {
        let start = out.len();
        let content = self.append_content(alloc, out);
        end_value(out, start, tag::SEQUENCE, content)
    }

    /// Clones the signed data.
    ///
    /// # Errors
    ///
    /// Returns an error if memory ran out.
    pub fn try_clone(&self, alloc: Global) -> Result<SignedData, AllocError>
        ensures { IfOk result (λ s. s ≡ self.now) }
    {
        let data = self.data.try_clone(alloc)?;
        let signature = self.signature.try_clone(alloc)?;
        Ok(SignedData { data, signature })
    }
}
