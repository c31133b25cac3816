//! The forms of the times in a certificate.
ghost use Rattle.std.specs.Prelude.{◌≡◌, ◌≤◌, ◌<◌, ◌↔◌, IsSome, IsTrue, option_map};
ghost use Rattle.rpki_der.specs.Place.{remaining};
ghost use Rattle.rpki_der.specs.Tags.{GENERALIZED_TIME};
ghost use Rattle.rpki_der.specs.Values.Reading.{value_at};
ghost use Rattle.rpki_text.specs.Notes.{HaveOtherForm, IsOtherForm, IsOtherFormAt, not_after_at, validity_at};

use crate::notes::contents::content;
use crate::notes::fields::validity_in;
use bytes::Bytes;
use rpki_cert::TbsCert;
use rpki_der::{Cursor, Time, tag};

// Whether a UTCTime can encode it.
fn has_utc_time(time: Time) -> bool
    ensures { IsTrue result ↔ ((1950 ≤ time.year) × (time.year < 2050)) }
{
    let year = time.year();
    1950 <= year && year < 2050
}

fn is_generalized(octets: &Cursor<'_>) -> bool
    ensures { IsTrue result ↔ IsSome (value_at GENERALIZED_TIME (remaining octets.now)) }
{
    let mut rest = octets.fork();
    content(&mut rest, tag::GENERALIZED_TIME).is_some()
}

// Whether the first time is a GeneralizedTime though a UTCTime can encode it.
fn is_other_form(time: Time, octets: &Cursor<'_>) -> bool
    ensures { IsTrue result ↔ IsOtherForm time (remaining octets.now) }
{
    is_generalized(octets) && has_utc_time(time)
}

// The octets after the first time.
fn not_after_in<'a>(times: &Cursor<'a>) -> Option<Cursor<'a>>
    ensures { option_map remaining result ≡ not_after_at (remaining times.now) }
{
    let mut rest = times.fork();
    if content(&mut rest, tag::UTC_TIME).is_some() {
        return Some(rest);
    }
    let mut rest = times.fork();
    let _time = content(&mut rest, tag::GENERALIZED_TIME)?;
    Some(rest)
}

// Whether the second time is a GeneralizedTime though a UTCTime can encode it.
fn is_other_not_after(time: Time, times: &Cursor<'_>) -> bool
    ensures { IsTrue result ↔ IsOtherFormAt time (not_after_at (remaining times.now)) }
{
    match not_after_in(times) {
        Some(octets) => is_other_form(time, &octets),
        None => false,
    }
}

/// Returns whether a time of the certificate that the octets start with, with these fields, is a
/// GeneralizedTime though a UTCTime can encode it.
pub(crate) fn have_other_form(octets: &Bytes, tbs: &TbsCert) -> bool
    ensures { IsTrue result ↔ HaveOtherForm tbs.now.validity (validity_at octets.now) }
{
    let validity = tbs.validity();
    match validity_in(octets) {
        Some((times, _rest)) => is_other_form(validity.not_before(), &times)
            || is_other_not_after(validity.not_after(), &times),
        None => false,
    }
}
