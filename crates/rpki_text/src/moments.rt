//! Times as text and as seconds, and the text of a period at a time.
ghost use Rattle.std.specs.Prelude.{◌≡◌, ◌↔◌, ◌<◌, ◌^◌, Some, IfSome, IfNone, IsTrue, length, pos};
ghost use Rattle.rpki_der.specs.Texts.{time_text};
ghost use Rattle.rpki_der.specs.Times.{Moment, IsMoment};
ghost use Rattle.rpki_der.specs.Timestamps.{timestamp};
ghost use Rattle.rpki_text.specs.MomentTexts.{date_digits, all_digits, IsDateText, HasMarks, IsMomentText};
ghost use Rattle.rpki_text.specs.Periods.{seconds_between, duration_text, state_text};

use rpki_der::Time;
use std::fmt;

fn seconds_between(one: Time, other: Time) -> u64
    ensures { result ≡ seconds_between one other }
{
    one.timestamp().abs_diff(other.timestamp())
}

// A number of seconds, printed in at most two units.
#[derive(Clone, Copy)]
struct Duration(u64);

impl fmt::Display for Duration {
    ghost output = { λ d. Some (duration_text d.0) };

    fn fmt<W: fmt::Write>(&self, f: &mut fmt::Formatter<W>) -> fmt::Result {
        let seconds = self.0;
        if seconds >= 172_800 {
            let days = seconds / 86_400;
            return write!(f, "{days} days");
        }
        if seconds >= 3_600 {
            let hours = seconds / 3_600;
            let minutes = seconds % 3_600 / 60;
            return write!(f, "{hours} h {minutes} min");
        }
        if seconds >= 60 {
            let minutes = seconds / 60;
            return write!(f, "{minutes} min");
        }
        write!(f, "{seconds} s")
    }
}

/// A period at a time, with the words for its end before and after it. It is printed as the time
/// until its end or since it: `expires in 3 days`.
#[derive(Drop)]
pub struct Period {
    pub ends: &'static str,
    pub ended: &'static str,
    pub from: Time,
    pub until: Time,
    pub at: Time,
}

impl fmt::Display for Period {
    ghost output = { λ p. Some (state_text p.ends.now p.ended.now p.from p.until p.at) };

    fn fmt<W: fmt::Write>(&self, f: &mut fmt::Formatter<W>) -> fmt::Result {
        if self.until < self.at {
            let ended = self.ended;
            let since = Duration(seconds_between(self.at, self.until));
            return write!(f, "{ended} {since} ago");
        }
        if self.at < self.from {
            let from = self.from;
            return write!(f, "not valid before {from}");
        }
        let ends = self.ends;
        let left = Duration(seconds_between(self.until, self.at));
        write!(f, "{ends} in {left}")
    }
}

/// Returns the time so many seconds after 1970-01-01T00:00:00Z, which is what a clock gives.
pub fn from_seconds(seconds: u64) -> Option<Time>
    ensures some { IfSome result (λ t. IsMoment t × (timestamp t ≡ pos seconds)) }
    ensures none { seconds < 2 ^ 63
        → IfNone result ((t : Moment) → IsMoment t → timestamp t ≡ pos seconds → ⊥) }
{
    let seconds = i64::try_from(seconds).ok()?;
    Time::from_timestamp(seconds)
}

// The digits of `YYYY-MM-DD`, and those of midnight.
fn date_digits(text: &[u8]) -> [u8; 14]
    requires { length text.now ≡ 10 }
    ensures { result ≡ date_digits text.now }
{
    [
        text[0], text[1], text[2], text[3], text[5], text[6], text[8], text[9], b'0', b'0', b'0',
        b'0', b'0', b'0',
    ]
}

// The time of `YYYY-MM-DD`, at midnight.
#[tactic(auto, using(crate::proofs::DigitPlaces::no_date))]
fn from_date(text: &[u8]) -> Option<Time>
    ensures some { IfSome result (λ t. IsMoment t × IsDateText t text.now) }
    ensures none { IfNone result ((t : Moment) → IsMoment t → IsDateText t text.now → ⊥) }
{
    if text.len() != 10 || text[4] != b'-' || text[7] != b'-' {
        return None;
    }
    let digits = date_digits(text);
    Time::from_digits(&digits)
}

// Whether the marks between the digits of `YYYY-MM-DDThh:mm:ssZ` are in their places.
fn has_marks(text: &[u8]) -> bool
    ensures { IsTrue result ↔ HasMarks text.now }
{
    text.len() == 20
        && text[4] == b'-'
        && text[7] == b'-'
        && text[10] == b'T'
        && text[13] == b':'
        && text[16] == b':'
        && text[19] == b'Z'
}

// The digits of `YYYY-MM-DDThh:mm:ssZ`.
fn all_digits(text: &[u8]) -> [u8; 14]
    requires { length text.now ≡ 20 }
    ensures { result ≡ all_digits text.now }
{
    [
        text[0], text[1], text[2], text[3], text[5], text[6], text[8], text[9], text[11], text[12],
        text[14], text[15], text[17], text[18],
    ]
}

// The time of `YYYY-MM-DDThh:mm:ssZ`.
fn from_date_and_clock(text: &[u8]) -> Option<Time>
    ensures some { IfSome result (λ t. IsMoment t × (text.now ≡ time_text t)) }
    ensures none { IfNone result ((t : Moment) → IsMoment t → text.now ≡ time_text t → ⊥) }
{
    if !has_marks(text) {
        return None;
    }
    let digits = all_digits(text);
    Time::from_digits(&digits)
}

/// Reads a time in the form `YYYY-MM-DD`, `YYYY-MM-DDThh:mm:ssZ` or `YYYYMMDDhhmmss`.
pub fn from_text(text: &[u8]) -> Option<Time>
    ensures some { IfSome result (λ t. IsMoment t × IsMomentText t text.now) }
    ensures none { IfNone result ((t : Moment) → IsMoment t → IsMomentText t text.now → ⊥) }
{
    match text.len() {
        10 => from_date(text),
        20 => from_date_and_clock(text),
        _ => Time::from_digits(text),
    }
}
