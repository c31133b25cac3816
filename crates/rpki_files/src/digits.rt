//! The numbers of a time.
ghost use Rattle.std.specs.Prelude.{◌≡◌, ◌≤◌, ◌<◌, ◌+◌, ◌%◌, ◌/◌, ◌++◌, ℕ, List, if◌then◌else◌, nat_lt, IfNone, IfSome};
ghost use Rattle.rpki_der.specs.Encoding.{Means};
ghost use Rattle.rpki_der.specs.Place.{remaining};
ghost use Rattle.rpki_der.specs.Times.{IsGeneralizedTime, Moment, after_year, two};
ghost use Rattle.rpki_der.specs.Times.Reading.{full_year};
ghost use Rattle.rpki_files.specs.Flaws.{HasTwoDigits, HasNumbers, numbered};

use rpki_der::{Cursor, tag};

/// A year of four digits at most, and five numbers of two.
#[derive(Clone, Copy)]
pub(crate) struct TimeNumbers {
    pub year: u32,
    pub month: u32,
    pub day: u32,
    pub hour: u32,
    pub minute: u32,
    pub second: u32,
}

// The number of the two decimal digits at the front, and what follows them.
fn two_digits(text: &[u8]) -> Option<(u32, &[u8])>
    ensures some { IfSome result (λ x. (x.0 < 100) × (text.now ≡ two x.0 ++ x.1.now)) }
    ensures none { IfNone result
        ((n : ℕ) (rest : List ℕ) → n < 100 → text.now ≡ two n ++ rest → ⊥) }
{
    let [tens, ones, rest @ ..] = text else {
        return None;
    };
    if *tens < b'0' || *tens > b'9' || *ones < b'0' || *ones > b'9' {
        return None;
    }
    let number = (*tens - b'0') as u32 * 10 + (*ones - b'0') as u32;
    Some((number, rest))
}

// The numbers of MMDDhhmmssZ behind this year.
fn behind_year(year: u32, text: &[u8]) -> Option<TimeNumbers>
    ensures some { IfSome result (λ n. (n.year ≡ year) × HasTwoDigits (numbered n)
        × (text.now ≡ after_year (numbered n))) }
    ensures none { IfNone result
        ((m : Moment) → HasTwoDigits m → text.now ≡ after_year m → ⊥) }
{
    let (month, text) = two_digits(text)?;
    let (day, text) = two_digits(text)?;
    let (hour, text) = two_digits(text)?;
    let (minute, text) = two_digits(text)?;
    let (second, text) = two_digits(text)?;
    if text != b"Z".as_slice() {
        return None;
    }
    Some(TimeNumbers {
        year,
        month,
        day,
        hour,
        minute,
        second,
    })
}

// The year from 1950 to 2049 with these last two digits.
fn full_year(last: u32) -> u32
    requires { last < 100 }
    ensures { result ≡ full_year last }
{
    if last < 50 { 2000 + last } else { 1900 + last }
}

// The numbers of the content of a UTCTime, YYMMDDhhmmssZ.
fn of_utc(text: &[u8]) -> Option<TimeNumbers>
    ensures some { IfSome result (λ n. (1950 ≤ n.year) × (n.year < 2050)
        × HasTwoDigits (numbered n) × (text.now ≡ two (n.year % 100) ++ after_year (numbered n))) }
    ensures none { IfNone result ((m : Moment) → HasTwoDigits m
        → text.now ≡ two (m.year % 100) ++ after_year m → ⊥) }
{
    let (last, text) = two_digits(text)?;
    behind_year(full_year(last), text)
}

// The numbers of the content of a GeneralizedTime, YYYYMMDDhhmmssZ.
fn of_generalized(text: &[u8]) -> Option<TimeNumbers>
    ensures some { IfSome result (λ n. (n.year < 10000) × HasTwoDigits (numbered n)
        × (text.now ≡ two (n.year / 100) ++ (two (n.year % 100) ++ after_year (numbered n)))) }
    ensures none { IfNone result ((m : Moment) → m.year < 10000 → HasTwoDigits m
        → text.now ≡ two (m.year / 100) ++ (two (m.year % 100) ++ after_year m) → ⊥) }
{
    let (century, text) = two_digits(text)?;
    let (last, text) = two_digits(text)?;
    behind_year(century * 100 + last, text)
}

// The numbers of the GeneralizedTime that stands next.
fn generalized(at: &Cursor<'_>) -> Option<TimeNumbers>
    ensures some { IfSome result (λ n. (n.year < 10000) × HasTwoDigits (numbered n)
        × Means IsGeneralizedTime (numbered n) (remaining at.now)) }
    ensures none { IfNone result ((m : Moment) → m.year < 10000 → HasTwoDigits m
        → Means IsGeneralizedTime m (remaining at.now) → ⊥) }
{
    let mut ahead = at.fork();
    match ahead.take_value(tag::GENERALIZED_TIME) {
        Ok(content) => of_generalized(content.rest()),
        Err(fault) => {
            drop(fault);
            None
        }
    }
}

// The numbers of the time that stands next, whether there is such a time or not.
pub(crate) fn numbers_at(at: &Cursor<'_>) -> Option<TimeNumbers>
    ensures some { IfSome result (λ n. Means HasNumbers (numbered n) (remaining at.now)) }
    ensures none { IfNone result ((m : Moment) → Means HasNumbers m (remaining at.now) → ⊥) }
{
    let mut ahead = at.fork();
    match ahead.take_value(tag::UTC_TIME) {
        Ok(content) => of_utc(content.rest()),
        Err(fault) => {
            drop(fault);
            generalized(at)
        }
    }
}
