//! Fields of a certificate as they are encoded.
ghost use Rattle.std.specs.Prelude.{◌≡◌, option_map};
ghost use Rattle.rpki_der.specs.Place.{remaining};
ghost use Rattle.rpki_text.specs.Notes.{issuer_at, subject_at, validity_at};

use crate::notes::contents::content;
use bytes::Bytes;
use rpki_der::{Cursor, tag};

/// Returns what the issuer's name has, and what follows it, in a certificate that the octets begin
/// with.
#[tactic(auto, unfolding(crate::specs::Notes::issuer_at))]
pub(crate) fn issuer_in(octets: &Bytes) -> Option<(Cursor<'_>, Cursor<'_>)>
    ensures { option_map (λ x. (remaining x.0, remaining x.1)) result ≡ issuer_at octets.now }
{
    let mut file = Cursor::new(octets);
    let mut whole = content(&mut file, tag::SEQUENCE)?;
    let mut data = content(&mut whole, tag::SEQUENCE)?;
    let _version = content(&mut data, tag::CONTEXT_CONSTRUCTED)?;
    let _serial = content(&mut data, tag::INTEGER)?;
    let _algorithm = content(&mut data, tag::SEQUENCE)?;
    let issuer = content(&mut data, tag::SEQUENCE)?;
    Some((issuer, data))
}

/// Returns what the validity has, and what follows it.
#[tactic(auto, unfolding(crate::specs::Notes::validity_at))]
pub(crate) fn validity_in(octets: &Bytes) -> Option<(Cursor<'_>, Cursor<'_>)>
    ensures { option_map (λ x. (remaining x.0, remaining x.1)) result ≡ validity_at octets.now }
{
    let (_issuer, mut data) = issuer_in(octets)?;
    let validity = content(&mut data, tag::SEQUENCE)?;
    Some((validity, data))
}

/// Returns what the subject's name has, and what follows it.
#[tactic(auto, unfolding(crate::specs::Notes::subject_at))]
pub(crate) fn subject_in(octets: &Bytes) -> Option<(Cursor<'_>, Cursor<'_>)>
    ensures { option_map (λ x. (remaining x.0, remaining x.1)) result ≡ subject_at octets.now }
{
    let (_validity, mut data) = validity_in(octets)?;
    let subject = content(&mut data, tag::SEQUENCE)?;
    Some((subject, data))
}
