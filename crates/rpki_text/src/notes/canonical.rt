//! The canonical contents of a certificate's resources (RFC 3779 2.2.3, 3.2.3).
ghost use Rattle.std.specs.Prelude.{◌≡◌, IfOk, IsOk, OnOk};
ghost use Rattle.rpki_der.specs.Place.{remaining};
ghost use Rattle.rpki_der.specs.Values.{AreOctets};
ghost use Rattle.rpki_text.specs.FaultSearch.{IsContentOf, IsExtensionOf, IsExtensionOrNone};
ghost use Rattle.rpki_text.specs.Notes.{canonical_addresses, canonical_systems};

use bytes::Bytes;
use rpki_blocks::IpResources;
use rpki_cert::TbsCert;
use rpki_der::{Cursor, EncodeError, Piece, take_extension};
use std::alloc::{AllocError, Global};

// A cursor over the content of an encoded extension, or over no octets if there is none.
fn content_of(octets: &Bytes) -> Cursor<'_>
    requires { IsExtensionOrNone octets.now }
    ensures { IsContentOf octets.now (remaining result) }
{
    let mut whole = Cursor::new(octets);
    if whole.is_empty() {
        return whole;
    }
    match take_extension(&mut whole) {
        Ok((_, _, content)) => content,
        Err(_) => unreachable!(),
    }
}

// The octets that were written, if all went well.
fn kept(written: Vec<u8>, answer: Result<(), EncodeError>) -> Result<Bytes, AllocError>
    ensures well { OnOk result (IsOk answer) }
    ensures same { IfOk result (λ octets. octets ≡ written.items) }
    ensures octets { IfOk result AreOctets }
{
    if answer.is_err() {
        drop(written);
        return Err(AllocError);
    }
    let octets = Bytes::from_vec(written).map_err(AllocError::from)?;
    // For the proof only: what is kept are octets.
    let _octets = Cursor::new(&octets).rest();
    Ok(octets)
}

// The content of an encoded extension, or no octets if there is none.
fn kept_content(alloc: Global, octets: &Bytes) -> Result<Piece, AllocError>
    requires { IsExtensionOrNone octets.now }
    ensures { IfOk result (λ content. IsContentOf octets.now content) }
{
    match content_of(octets).capture_rest(alloc) {
        Ok(content) => Ok(content),
        Err(_) => Err(AllocError),
    }
}

// The encoded extension of a certificate's IP resources, or no octets if there is none.
fn ip_extension(alloc: Global, tbs: &TbsCert) -> Result<Bytes, AllocError>
    ensures { IfOk result (IsExtensionOf (canonical_addresses tbs.now.extensions)) }
{
    let mut written = Vec::new(alloc);
    let (v4, v6) = (tbs.v4_resources(), tbs.v6_resources());
    let answer = IpResources::encode_extension(alloc, &mut written, tbs.overclaim(), v4, v6);
    kept(written, answer)
}

// The encoded extension of a certificate's AS resources, or no octets if there is none.
fn as_extension(alloc: Global, tbs: &TbsCert) -> Result<Bytes, AllocError>
    ensures { IfOk result (IsExtensionOf (canonical_systems tbs.now.extensions)) }
{
    let mut written = Vec::new(alloc);
    let answer = tbs
        .as_resources()
        .encode_extension(alloc, &mut written, tbs.overclaim());
    kept(written, answer)
}

/// Returns the canonical content of the extension with a certificate's IP resources.
///
/// # Errors
///
/// Returns an error if memory runs out, or if the extension would have 2^32 bytes or more.
pub(crate) fn addresses(alloc: Global, tbs: &TbsCert) -> Result<Piece, AllocError>
    ensures { IfOk result (λ content. content ≡ canonical_addresses tbs.now.extensions) }
{
    let extension = ip_extension(alloc, tbs)?;
    kept_content(alloc, &extension)
}

/// Returns the canonical content of the extension with a certificate's AS resources.
///
/// # Errors
///
/// Returns an error if memory runs out, or if the extension would have 2^32 bytes or more.
pub(crate) fn systems(alloc: Global, tbs: &TbsCert) -> Result<Piece, AllocError>
    ensures { IfOk result (λ content. content ≡ canonical_systems tbs.now.extensions) }
{
    let extension = as_extension(alloc, tbs)?;
    kept_content(alloc, &extension)
}
