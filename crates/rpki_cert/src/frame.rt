//! What a certificate is built of.
ghost use Rattle.std.specs.Prelude.{◌≡◌, ◌^◌, ◌<◌, ◌++◌, ℕ, List, [], ◌∷◌, length, OnOk, IsOk, IfOk, IfErr, option_map};
ghost use Rattle.std.specs.List.{concat};
ghost use Rattle.rpki_der.specs.Tags.{CONTEXT_CONSTRUCTED, SEQUENCE};
ghost use Rattle.rpki_der.specs.Values.{enc, nested};
ghost use Rattle.rpki_der.specs.Writers.{SaysLong};
ghost use Rattle.rpki_der.specs.Place.{remaining, Rejects};
ghost use Rattle.rpki_der.specs.Place.Reading.{ReturnsOrMemoryBy};
ghost use Rattle.rpki_der.specs.Sequences.Reading.{sequence_of};
ghost use Rattle.rpki_der.specs.Skipping.Reading.{captured_at};
ghost use Rattle.rpki_der.specs.Encoding.{Means};
ghost use Rattle.rpki_cert.specs.Certificates.{CertFields, IsCertificate};
ghost use Rattle.rpki_cert.specs.Rearranging.{BeginsWith, IsRejected, tbs_content_with, content_with};
ghost use Rattle.rpki_cert.specs.Rearranging.Reading.{sequence_in, frame_at, split_last};
ghost use Rattle.rpki_cert.specs.declared.extra.Extra.{Extra};

use crate::cert::Cert;
use crate::rearrange_error::RearrangeError;
use bytes::Bytes;
use rpki_der::{Cursor, DecodeError, EncodeError, Piece, enclose, tag};
use std::alloc::{AllocError, Global};
use std::marker::Model;

/// What a certificate is built of: the values before its extensions, the extensions, each as it is,
/// and what follows its TBSCertificate (RFC 5280 4.1).
#[derive(Drop)]
pub(crate) struct Frame {
    pub(crate) before: Vec<Piece>,
    pub(crate) extensions: Vec<Piece>,
    pub(crate) behind: Piece,
}

impl Model for Frame {
    ghost use Rattle.rpki_cert.specs.Rearranging.{Parts};

    ghost Value = { Parts };

    ghost view = { λ f. record { before = f.before.items; old = f.extensions.items; behind = f.behind } };
}

// One value more.
fn push(values: &mut Vec<Piece>, value: Piece) -> Result<(), AllocError>
    ensures { OnOk result (values.new.items ≡ values.old.items ++ value ∷ []) }
{
    values.push(value)?;
    Ok(())
}

// The values that the octets are a sequence of.
fn values_in(alloc: Global, mut elements: Cursor<'_>) -> Result<Vec<Piece>, DecodeError>
    ensures { ReturnsOrMemoryBy (λ v. v.items) result (sequence_of captured_at (remaining elements.entry)) }
{
    let mut values = Vec::new(alloc);
    while !elements.is_empty() {
        let value = elements.capture_one(alloc)?;
        push(&mut values, value)?;
    }
    Ok(values)
}

// The values before the last, and the last.
fn without_last(mut values: Vec<Piece>) -> Option<(Vec<Piece>, Piece)>
    ensures { option_map (λ x. (x.0.items, x.1)) result ≡ split_last values.items }
{
    let last = values.pop()?;
    Some((values, last))
}

// The extensions that stand inside the two tags of a value.
#[tactic(auto, unfolding(crate::specs::Rearranging::Reading::sequence_in))]
fn extensions_in(alloc: Global, value: &Piece) -> Result<Vec<Piece>, DecodeError>
    ensures { ReturnsOrMemoryBy (λ v. v.items) result (sequence_in value.now) }
{
    let mut tagged = value.cursor().take_value(tag::CONTEXT_CONSTRUCTED + 3)?;
    let elements = tagged.take_sequence()?;
    values_in(alloc, elements)
}

// What the certificate at the beginning of the octets is built of, by the reading function.
#[tactic(auto, unfolding(crate::specs::Rearranging::Reading::frame_at))]
fn read(alloc: Global, octets: &Bytes) -> Result<Frame, DecodeError>
    ensures { ReturnsOrMemoryBy (λ f. (f.before, (f.old, f.behind))) result (frame_at octets.now) }
{
    let mut content = Cursor::new(octets).take_sequence()?;
    let tbs = content.take_sequence()?;
    let behind = content.capture_rest(alloc)?;
    let values = values_in(alloc, tbs)?;
    let Some((before, last)) = without_last(values) else {
        return Err(DecodeError::Truncated);
    };
    let extensions = extensions_in(alloc, &last)?;
    Ok(Frame {
        before,
        extensions,
        behind,
    })
}

// What the certificate at the beginning of the octets is built of.
fn certificate_frame(alloc: Global, octets: &Bytes) -> Result<Frame, DecodeError>
    ensures ok { IfOk result (λ frame. BeginsWith octets.now frame) }
    ensures rejected { IfErr result (λ e. Rejects e
        ((c : CertFields) → Means IsCertificate c octets.now → ⊥)) }
{
    let cert = Cert::decode_shared(alloc, octets.clone()?)?;
    drop(cert);
    read(alloc, octets)
}

/// Reads what the certificate at the start of the bytes is built of.
///
/// # Errors
///
/// Returns `NoCertificate` if the bytes start with no certificate, and `Memory`.
pub(crate) fn frame_of(alloc: Global, octets: &[u8]) -> Result<Frame, RearrangeError>
    ensures ok { IfOk result (λ frame. BeginsWith octets.now frame) }
    ensures rejected { IfErr result (λ e. (order : List ℕ) (extras : List Extra)
        → IsRejected octets.now order extras e) }
{
    let octets = Bytes::copy_from_slice(alloc, octets)?;
    Ok(certificate_frame(alloc, &octets)?)
}

// The octets of the pieces, one after the other.
#[tactic(auto, using(crate::proofs::SequencesMade::concat_more))]
fn concatenated(alloc: Global, pieces: &[Piece]) -> Result<Vec<u8>, AllocError>
    ensures { IfOk result (λ octets. octets.items ≡ concat pieces.now) }
{
    let mut octets = Vec::new(alloc);
    for piece in pieces {
        octets.extend_from_slice(piece.as_bytes())?;
    }
    Ok(octets)
}

// Appends the sequence inside the two tags of extensions.
fn put_sequence(elements: &[u8], out: &mut Vec<u8>) -> Result<(), EncodeError>
    ensures ok { OnOk result (out.new.items ≡ out.old.items
        ++ nested (CONTEXT_CONSTRUCTED 3 ∷ SEQUENCE ∷ []) elements.now) }
    ensures too_long { SaysLong result (nested (CONTEXT_CONSTRUCTED 3 ∷ SEQUENCE ∷ []) elements.now) }
{
    let start = out.len();
    out.extend_from_slice(elements)?;
    enclose(out, start, tag::SEQUENCE)?;
    enclose(out, start, tag::CONTEXT_CONSTRUCTED + 3)
}

impl Frame {
    /// Returns how many extensions there are.
    pub(crate) fn count(&self) -> usize
        ensures { result ≡ length self.now.old }
    {
        self.extensions.len()
    }

    // What stands inside the SEQUENCE of the TBSCertificate with the octets of another sequence.
    fn tbs_content(&self, alloc: Global, elements: &[u8]) -> Result<Vec<u8>, EncodeError>
        ensures ok { IfOk result (λ content. content.items ≡ tbs_content_with elements.now self.now) }
        ensures too_long { SaysLong result (tbs_content_with elements.now self.now) }
    {
        let mut content = concatenated(alloc, &self.before)?;
        put_sequence(elements, &mut content)?;
        Ok(content)
    }

    // What stands inside the SEQUENCE of the certificate with the octets of another sequence.
    fn content(&self, alloc: Global, elements: &[u8]) -> Result<Vec<u8>, EncodeError>
        ensures ok { IfOk result (λ content. content.items ≡ content_with elements.now self.now) }
        ensures too_long { SaysLong result (content_with elements.now self.now) }
    {
        let mut content = self.tbs_content(alloc, elements)?;
        enclose(&mut content, 0, tag::SEQUENCE)?;
        content.extend_from_slice(self.behind.as_bytes())?;
        Ok(content)
    }

    /// Writes the certificate with the bytes of other extensions.
    ///
    /// # Errors
    ///
    /// Returns `TooLong` if its content would have 2^32 bytes or more, and `Memory`.
    pub(crate) fn with_extensions(
        &self,
        alloc: Global,
        elements: &[u8],
    ) -> Result<Vec<u8>, EncodeError>
        ensures ok { IfOk result
            (λ answer. answer.items ≡ enc SEQUENCE (content_with elements.now self.now)) }
        ensures fits { IsOk result → length (content_with elements.now self.now) < 2 ^ 32 }
        ensures too_long { SaysLong result (content_with elements.now self.now) }
    {
        let mut answer = self.content(alloc, elements)?;
        enclose(&mut answer, 0, tag::SEQUENCE)?;
        Ok(answer)
    }
}
