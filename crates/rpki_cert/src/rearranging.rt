//! Certificates whose extensions are set in another order, with others among them.
ghost use Rattle.std.specs.Prelude.{◌≡◌, ◌≢◌, ◌⊎◌, ◌↔◌, ◌^◌, ◌<◌, ◌++◌, ℕ, List, length, IsTrue, IsOk, IfOk, IfErr, IsErrAnd};
ghost use Rattle.std.specs.List.{AllByRecursion, concat};
ghost use Rattle.rpki_der.specs.Primitives.{IsOid};
ghost use Rattle.rpki_der.specs.Tags.{SEQUENCE};
ghost use Rattle.rpki_der.specs.Values.{AreOctets, enc};
ghost use Rattle.rpki_der.specs.Writers.{SaysLong};
ghost use Rattle.rpki_cert.specs.Rearranged.{IsRearrangement};
ghost use Rattle.rpki_cert.specs.Rearranging.{IsPlan, IsRearranged, IsRejected, content_with, new_extensions};
ghost use Rattle.rpki_cert.specs.declared.rearrange_error.RearrangeError.{RearrangeError};
ghost use Rattle.rpki_cert.specs.declared.rearrange_error.RearrangeError.TheVariants.{Memory};

use crate::elements::{gathered, sequence_octets};
use crate::extra::{Extra, are_placed, are_unknown};
use crate::frame::{Frame, frame_of};
use crate::order::is_order;
use crate::rearrange_error::RearrangeError;
use rpki_der::{EncodeError, Piece};
use std::alloc::{AllocError, Global};

// Whether the order names each of so many places once, and each extension is to be added at one of
// them or behind the last.
fn is_plan(
    alloc: Global,
    order: &[usize],
    extras: &[Extra],
    count: usize,
) -> Result<bool, AllocError>
    ensures { IfOk result (λ yes. IsTrue yes ↔ IsPlan count order.now extras.now) }
{
    if !is_order(alloc, order, count)? {
        return Ok(false);
    }
    Ok(are_placed(extras, count))
}

// The octets of the new sequence.
fn make_sequence(
    alloc: Global,
    order: &[usize],
    extras: &[Extra],
    old: &[Piece],
) -> Result<Vec<u8>, EncodeError>
    requires { IsPlan (length old.now) order.now extras.now }
    ensures ok { IfOk result
        (λ elements. elements.items ≡ concat (new_extensions order.now extras.now old.now)) }
    ensures valid { IfOk result (λ elements. AllByRecursion (λ x. IsOid x.oid) extras.now) }
    ensures too_long { SaysLong result (concat (new_extensions order.now extras.now old.now)) }
{
    let places = gathered(alloc, extras, old.len())?;
    Ok(sequence_octets(alloc, order, &places, old)?)
}

// Octets are below 256. Called for what it ensures alone.
fn known(octets: &[u8])
    ensures { AreOctets octets.now }
{
    let _octets = octets;
}

// The certificate with the new sequence.
fn make(
    alloc: Global,
    frame: &Frame,
    order: &[usize],
    extras: &[Extra],
) -> Result<Vec<u8>, EncodeError>
    requires { IsPlan (length frame.now.old) order.now extras.now }
    ensures ok { let elements = concat (new_extensions order.now extras.now frame.now.old) in IfOk result
        (λ answer. answer.items ≡ enc SEQUENCE (content_with elements frame.now)) }
    ensures fits { let elements = concat (new_extensions order.now extras.now frame.now.old) in
        IsOk result → length (content_with elements frame.now) < 2 ^ 32 }
    ensures valid { IfOk result (λ answer. AllByRecursion (λ x. IsOid x.oid) extras.now) }
    ensures octets { IfOk result (λ answer. AreOctets answer.items) }
    ensures too_long { let elements = concat (new_extensions order.now extras.now frame.now.old) in
        SaysLong result (content_with elements frame.now) }
{
    let elements = make_sequence(alloc, order, extras, &frame.extensions)?;
    let answer = frame.with_extensions(alloc, &elements)?;
    known(&answer);
    Ok(answer)
}

/// Rearranges the extensions of the certificate that the bytes begin with, and adds others (own).
/// At each index is the old extension that the order names; extensions to add come just before the
/// index that they name, or after the last. Enclosing lengths are adjusted, and the signature's
/// value stays. What followed the certificate is dropped.
///
/// # Errors
///
/// Returns the first of these errors whose condition holds, or `Memory`:
///
/// - `NoCertificate`: the bytes begin with no certificate
/// - `NotAnOrder`: the order doesn't name each extension once, or an extension is to be added after
///   an index that doesn't exist
/// - `KnownExtra`: an extension to add is of a known kind
/// - `TooLong`: a content would have 2^32 bytes or more
///
/// # Not checked
///
/// Whether the signature verifies: other bytes are signed now.
pub fn rearrange(
    alloc: Global,
    octets: &[u8],
    order: &[usize],
    extras: &[Extra],
) -> Result<Vec<u8>, RearrangeError>
    ensures ok { IfOk result
        (λ answer. IsRearranged octets.now order.now extras.now answer.items) }
    ensures rearrangement { IfOk result (λ answer. (front : List ℕ) × (rest : List ℕ)
        × (octets.now ≡ front ++ rest) × IsRearrangement front answer.items) }
    ensures rejected { IfErr result (IsRejected octets.now order.now extras.now) }
    ensures no_other { (why : RearrangeError) → IsRejected octets.now order.now extras.now why
        → why ≢ Memory → IsErrAnd result (λ e. (e ≡ Memory) ⊎ (e ≡ why)) }
{
    let frame = frame_of(alloc, octets)?;
    if !is_plan(alloc, order, extras, frame.count())? {
        return Err(RearrangeError::NotAnOrder);
    }
    if !are_unknown(extras) {
        return Err(RearrangeError::KnownExtra);
    }
    match make(alloc, &frame, order, extras) {
        Ok(answer) => Ok(answer),
        Err(error) => Err(RearrangeError::from(error)),
    }
}
