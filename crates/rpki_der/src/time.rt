//! Times.
ghost use Rattle.std.specs.Prelude.{◌≡◌, ◌↔◌, ◌++◌, ◌/◌, ◌%◌, ◌<◌, ◌≤◌, pos, ◌≤ℤ◌, unsigned_abs, nat_eq, OnOk, OnErr, IsSome, IfSome, IfNone, Some, IsOk, IfOk, IfErr};
ghost use Rattle.std.specs.Ordering.{nat_cmp, on, as_partial_cmp};
ghost use Rattle.std.specs.Cmp.{partial_order_from_own_ties};
ghost use Rattle.std.proofs.Common.{rules};
ghost use Rattle.std.specs.Cmp.Rules.{comparing};
ghost use Rattle.jiff_core.specs.Calendar.{IsDate};
ghost use Rattle.jiff_core.specs.Date.{IsYmd};
ghost use Rattle.jiff_core.specs.Time.{IsHms};
ghost use Rattle.jiff_core.specs.Time.{IsTime as IsClock};
ghost use Rattle.rpki_der.specs.Timestamps.{timestamp};
ghost use Rattle.rpki_der.specs.Place.{remaining, Keeps};
ghost use Rattle.rpki_der.specs.Answers.{Answers};
ghost use Rattle.rpki_der.specs.BasicFormats.{time_format};
ghost use Rattle.rpki_der.specs.Place.Reading.{Took, Returns, ReturnsBy};
ghost use Rattle.rpki_der.specs.Values.{AreOctets};
ghost use Rattle.rpki_der.specs.Times.{Moment, moment, IsMoment, IsTime, second_number, two, after_year, fourteen_digits, time};
ghost use Rattle.std.specs.Fmt.{WritesOnOk};
ghost use Rattle.rpki_der.specs.Texts.{date_text, clock_text, time_text};
ghost use Rattle.rpki_der.specs.declared.error.EncodeError.TheVariants.{Memory};
ghost use Rattle.rpki_der.specs.Times.Reading.{two_at, IsPair, full_year, after_year_of, utc_of, moment_at, generalized_of, time_at};

use crate::cursor::Cursor;
use crate::error::{DecodeError, EncodeError};
use crate::put::put_value;
use crate::tag;
use crate::text::write_two;
use jiff_core::civil::{Date, DateTime, Time as Clock};
use std::alloc::Global;
use std::cmp::Ordering;
use std::fmt;
use std::marker::Model;

// What ends the text of a time of DER.
const END: &[u8] = b"Z";

/// A time in UTC, to the second, in the years 0 to 9999 (RFC 5280 4.1.2.5).
#[derive(Clone, Copy)]
pub struct Time {
    inner: DateTime,
}

impl Model for Time {
    ghost use Rattle.rpki_der.specs.Times.{Moment};
    ghost use Rattle.rpki_der.specs.Times.Views.{moment_of, IsWhole, datetime_of, datetime_is};

    ghost Value = { Moment };

    ghost view = { λ t. moment_of t.inner };

    ghost invariant = { λ t. IsWhole t.inner };

    ghost inverse = { λ m. record { inner = datetime_of m } };

    ghost inverse_ok = { λ t h. λ i. record { inner = datetime_is t.inner h i } };
}

// A part of a date or of a time of day, as the calendar takes it.
#[inline(always)]
fn part(n: u32) -> i8
    requires { n < 100 }
    ensures { result ≡ pos n }
{
    n as i8
}

#[inline(always)]
fn year_part(year: u32) -> i16
    requires { year < 10000 }
    ensures { result ≡ pos year }
{
    year as i16
}

// The date and the time of day with these parts, where the calendar has the one and a clock the
// other.
#[inline(always)]
fn civil(
    year: i16,
    month: i8,
    day: i8,
    hour: i8,
    minute: i8,
    second: i8,
) -> Result<DateTime, jiff_core::Error>
    ensures succeeds { IsOk result
        ↔ (IsDate year month day × IsClock hour minute second (pos 0)) }
    ensures value { IfOk result (λ t.
        IsYmd year month day t.date × IsHms hour minute second (pos 0) t.time) }
{
    let date = Date::new(year, month, day)?;
    let time = Clock::new(hour, minute, second, 0)?;
    Ok(DateTime { date, time })
}

impl Time {
    /// Makes the time with these parts. Returns `None` if the year is not from 0 to 9999, if the
    /// calendar does not have the day, or if a clock does not have the time. There are no leap
    /// seconds.
    pub fn utc(year: i32, month: u32, day: u32, hour: u32, minute: u32, second: u32) -> Option<Time>
        ensures exists { IsSome result
            ↔ ((pos 0 ≤ℤ year)
            × IsMoment (moment (unsigned_abs year) month day hour minute second)) }
        ensures value { IfSome result
            (λ t. t ≡ moment (unsigned_abs year) month day hour minute second) }
    {
        if year < 0 {
            return None;
        }
        Time::at(year.unsigned_abs(), month, day, hour, minute, second)
    }

    // Makes the second with these parts, from a year that is not negative.
    #[inline(always)]
    fn at(year: u32, month: u32, day: u32, hour: u32, minute: u32, second: u32) -> Option<Time>
        ensures exists { IsSome result
            ↔ IsMoment (moment year month day hour minute second) }
        ensures value { IfSome result
            (λ t. t ≡ moment year month day hour minute second) }
    {
        if year > 9999 || month > 12 || day > 31 || hour > 23 || minute > 59 || second > 59 {
            return None;
        }
        let civil = civil(
            year_part(year),
            part(month),
            part(day),
            part(hour),
            part(minute),
            part(second),
        );
        match civil {
            Ok(inner) => Some(Time { inner }),
            Err(_) => None,
        }
    }

    /// Reads a time in the form YYYYMMDDhhmmss in decimal digits. Returns `None` if the text has
    /// another form, or if there is no such time.
    pub fn from_digits(text: &[u8]) -> Option<Time>
        ensures some { IfSome result (λ t. IsMoment t × (text.now ≡ fourteen_digits t)) }
        ensures none { IfNone result
            ((t : Moment) → IsMoment t → text.now ≡ fourteen_digits t → ⊥) }
    {
        four_digit_year(text, b"").ok()
    }

    /// Makes the time that is this many seconds after 1970-01-01T00:00:00Z, without leap seconds
    /// (POSIX.1-2017, XBD 4.16). Returns `None` if the year is not from 0 to 9999.
    pub fn from_timestamp(seconds: i64) -> Option<Time>
        ensures some { IfSome result (λ t. IsMoment t × (timestamp t ≡ seconds)) }
        ensures none { IfNone result
            ((t : Moment) → IsMoment t → timestamp t ≡ seconds → ⊥) }
    {
        let Ok(inner) = DateTime::from_nanosecond(seconds as i128 * 1_000_000_000) else {
            return None;
        };
        if inner.date.year < 0 {
            return None;
        }
        Some(Time { inner })
    }

    /// Returns how many seconds the time is after 1970-01-01T00:00:00Z, without leap seconds
    /// (POSIX.1-2017, XBD 4.16). The number is negative if the time is before that.
    pub fn timestamp(self) -> i64
        ensures { result ≡ timestamp self }
    {
        self.inner.to_second()
    }

    // The time that stands next, by the reading function.
    #[tactic(auto, unfolding(crate::specs::Times::Reading::time_at))]
    #[inline(always)]
    fn take_time(cursor: &mut Cursor<'_>) -> Result<Time, DecodeError>
        ensures reads { Took time_at cursor.old result cursor.new }
        ensures keeps { Keeps result cursor.old cursor.new }
        ensures octets { AreOctets (remaining cursor.old) }
    {
        let mut ahead = cursor.fork();
        let time = match ahead.rest() {
            [tag::UTC_TIME, ..] => utc_time(ahead.take_value(tag::UTC_TIME)?.rest())?,
            _ => generalized_time(ahead.take_value(tag::GENERALIZED_TIME)?.rest())?,
        };
        *cursor = ahead;
        Ok(time)
    }

    /// Reads the next value, which must be a UTCTime in the form YYMMDDhhmmssZ or a GeneralizedTime
    /// in the form YYYYMMDDhhmmssZ (RFC 5280 4.1.2.5).
    ///
    /// # Errors
    ///
    /// Returns an error as [`Cursor::take_value`] does. Returns `BadValue` if the content has
    /// another form, or if there is no such time.
    ///
    /// # Not checked
    ///
    /// Whether a time in the years 1950 to 2049 is a UTCTime.
    #[inline(always)]
    pub fn take_from(cursor: &mut Cursor<'_>) -> Result<Time, DecodeError>
        ensures { Answers time_format cursor.old result cursor.new }
    {
        Time::take_time(cursor)
    }

    /// Does nothing. Its contract says that a time exists: its parts are those of a calendar and a
    /// clock.
    pub fn known(&self)
        ensures { IsMoment self.now }
    {
        let _parts = self.inner;
    }

    /// Returns the year, from 0 to 9999.
    pub fn year(&self) -> u16
        ensures year { result ≡ self.now.year }
        ensures small { result < 10000 }
    {
        self.inner.date.year as u16
    }

    /// Returns the month, from 1 to 12.
    pub fn month(&self) -> u8
        ensures { result ≡ self.now.month }
    {
        self.inner.date.month
    }

    /// Returns the day of the month, from 1 to 31.
    pub fn day(&self) -> u8
        ensures { result ≡ self.now.day }
    {
        self.inner.date.day
    }

    /// Returns the hour, from 0 to 23.
    pub fn hour(&self) -> u8
        ensures { result ≡ self.now.hour }
    {
        self.inner.time.hour
    }

    /// Returns the minute, from 0 to 59.
    pub fn minute(&self) -> u8
        ensures { result ≡ self.now.minute }
    {
        self.inner.time.minute
    }

    /// Returns the second, from 0 to 59.
    pub fn second(&self) -> u8
        ensures { result ≡ self.now.second }
    {
        self.inner.time.second
    }

    // The parts in decimal digits, the year in four, and Z.
    fn text(&self) -> [u8; 15]
        ensures digits { result
            ≡ two (self.now.year / 100) ++ (two (self.now.year % 100) ++ after_year self.now) }
        ensures exists { IsMoment self.now }
    {
        let year = self.year();
        let civil = self.inner;
        let [thousands, hundreds] = digits((year / 100) as u8);
        let [tens, ones] = digits((year % 100) as u8);
        let [month_tens, month] = digits(civil.date.month);
        let [day_tens, day] = digits(civil.date.day);
        let [hour_tens, hour] = digits(civil.time.hour);
        let [minute_tens, minute] = digits(civil.time.minute);
        let [second_tens, second] = digits(civil.time.second);
        [
            thousands,
            hundreds,
            tens,
            ones,
            month_tens,
            month,
            day_tens,
            day,
            hour_tens,
            hour,
            minute_tens,
            minute,
            second_tens,
            second,
            b'Z',
        ]
    }

    fn write_date<W: fmt::Write>(&self, f: &mut fmt::Formatter<W>) -> fmt::Result
        ensures { WritesOnOk W.write_str_gives f.old result (date_text self.now) f.new }
    {
        let date = self.inner.date;
        write_year(f, self.year())?;
        write_behind(f, "-", date.month)?;
        write_behind(f, "-", date.day)
    }

    fn write_clock<W: fmt::Write>(&self, f: &mut fmt::Formatter<W>) -> fmt::Result
        ensures { WritesOnOk W.write_str_gives f.old result (clock_text self.now) f.new }
    {
        let time = self.inner.time;
        write_two(f, time.hour)?;
        write_behind(f, ":", time.minute)?;
        write_behind(f, ":", time.second)
    }

    /// Appends the time: as a UTCTime in the years 1950 to 2049, else as a GeneralizedTime (RFC
    /// 5280 4.1.2.5).
    ///
    /// # Errors
    ///
    /// Returns `Memory` if memory runs out, and no other error. After an error `out` is unchanged.
    pub fn encode_varied(&self, _alloc: Global, out: &mut Vec<u8>) -> Result<(), EncodeError>
        ensures ok { OnOk result (out.new.items ≡ out.old.items ++ time self.now) }
        ensures err { OnErr result (out.new.items ≡ out.old.items) }
        ensures memory { IfErr result (λ e. e ≡ Memory) }
        ensures exists { IsMoment self.now }
    {
        let text = self.text();
        let year = self.year();
        if year >= 1950 && year < 2050 {
            put_value(out, tag::UTC_TIME, &text[2..])
        } else {
            put_value(out, tag::GENERALIZED_TIME, &text)
        }
    }
}

// A year in four decimal digits.
fn write_year<W: fmt::Write>(f: &mut fmt::Formatter<W>, year: u16) -> fmt::Result
    requires { year < 10000 }
    ensures { WritesOnOk W.write_str_gives f.old result
        (two (year / 100) ++ two (year % 100)) f.new }
{
    write_two(f, (year / 100) as u8)?;
    write_two(f, (year % 100) as u8)
}

// A separator, and a number in two decimal digits behind it.
fn write_behind<W: fmt::Write>(f: &mut fmt::Formatter<W>, separator: &str, n: u8) -> fmt::Result
    requires { n < 100 }
    ensures { WritesOnOk W.write_str_gives f.old result (separator.now ++ two n) f.new }
{
    f.write_str(separator)?;
    write_two(f, n)
}

// A number in two decimal digits.
fn digits(n: u8) -> [u8; 2]
    requires { n < 100 }
    ensures { result ≡ two n }
{
    [b'0' + n / 10, b'0' + n % 10]
}

// The number of two decimal digits, or 100 where one of the octets is no digit.
#[tactic(auto, unfolding(crate::specs::Times::Reading::two_at))]
#[inline(always)]
fn pair(tens: u8, ones: u8) -> u32
    ensures { IsPair tens ones result }
{
    match (tens, ones) {
        (b'0'..=b'9', b'0'..=b'9') => ((tens - b'0') * 10 + (ones - b'0')) as u32,
        _ => 100,
    }
}

// The number of the two decimal digits at the front, and what follows them.
#[tactic(auto, unfolding(crate::specs::Times::Reading::two_at))]
#[inline(always)]
fn two_digits(text: &[u8]) -> Result<(u32, &[u8]), DecodeError>
    ensures reads { ReturnsBy (λ x. (x.0, x.1.now)) result (two_at text.now) }
    ensures small { IfOk result (λ x. x.0 < 100) }
{
    let [tens, ones, rest @ ..] = text else {
        return Err(DecodeError::BadValue);
    };
    let number = pair(*tens, *ones);
    if number > 99 {
        return Err(DecodeError::BadValue);
    }
    Ok((number, rest))
}

// The time of this year with this text after it, MMDDhhmmss and the end.
#[tactic(auto, unfolding(crate::specs::Times::Reading::after_year_of))]
#[inline(always)]
fn after_year(year: u32, text: &[u8], end: &[u8]) -> Result<Time, DecodeError>
    requires { year < 10000 }
    ensures { Returns result (after_year_of end.now year text.now) }
{
    let (month, text) = two_digits(text)?;
    let (day, text) = two_digits(text)?;
    let (hour, text) = two_digits(text)?;
    let (minute, text) = two_digits(text)?;
    let (second, text) = two_digits(text)?;
    if text != end {
        return Err(DecodeError::BadValue);
    }
    match Time::at(year, month, day, hour, minute, second) {
        Some(time) => Ok(time),
        None => Err(DecodeError::BadValue),
    }
}

// The year from 1950 to 2049 with these last two digits.
#[inline(always)]
fn full_year(last: u32) -> u32
    requires { last < 100 }
    ensures { result ≡ full_year last }
{
    if last < 50 { 2000 + last } else { 1900 + last }
}

// The time of a whole content YYMMDDhhmmssZ.
#[tactic(auto, unfolding(crate::specs::Times::Reading::utc_of))]
#[inline(always)]
fn utc_time(text: &[u8]) -> Result<Time, DecodeError>
    ensures { Returns result (utc_of text.now) }
{
    let [a, b, c, d, e, f, g, h, i, j, k, l, b'Z'] = text else {
        return Err(DecodeError::BadValue);
    };
    let year = pair(*a, *b);
    if year > 99 {
        return Err(DecodeError::BadValue);
    }
    let month = pair(*c, *d);
    let day = pair(*e, *f);
    let hour = pair(*g, *h);
    let minute = pair(*i, *j);
    let second = pair(*k, *l);
    match Time::at(full_year(year), month, day, hour, minute, second) {
        Some(time) => Ok(time),
        None => Err(DecodeError::BadValue),
    }
}

// The time of a whole text YYYYMMDDhhmmss and the end.
#[tactic(auto, unfolding(crate::specs::Times::Reading::moment_at))]
fn four_digit_year(text: &[u8], end: &[u8]) -> Result<Time, DecodeError>
    ensures { Returns result (moment_at end.now text.now) }
{
    let (century, text) = two_digits(text)?;
    let (year, text) = two_digits(text)?;
    after_year(century * 100 + year, text, end)
}

// The time of a whole content YYYYMMDDhhmmssZ.
fn generalized_time(text: &[u8]) -> Result<Time, DecodeError>
    ensures { Returns result (generalized_of text.now) }
{
    four_digit_year(text, END)
}

/// Prints the date and the time of day in UTC, as `2026-11-25T06:00:00Z` (ISO 8601).
impl fmt::Display for Time {
    ghost output = { λ m. Some (time_text m) };

    fn fmt<W: fmt::Write>(&self, f: &mut fmt::Formatter<W>) -> fmt::Result {
        self.write_date(f)?;
        f.write_str("T")?;
        self.write_clock(f)?;
        f.write_str("Z")
    }
}

impl PartialEq for Time {
    ghost eq = { on second_number nat_eq };

    ghost laws = { Prim.search (comparing, rules) };

    fn eq(&self, other: &Time) -> bool {
        self.inner == other.inner
    }
}

impl Eq for Time {
    ghost laws = { Prim.search (comparing, rules) };
}

impl Ord for Time {
    ghost cmp = { on second_number nat_cmp };

    ghost total = { Prim.search (comparing, rules) };

    ghost matches_partial_cmp = { Prim.search (comparing, rules) };

    ghost matches_eq = { Prim.search (comparing, rules) };

    fn cmp(&self, other: &Time) -> Ordering {
        self.inner.cmp(&other.inner)
    }
}

impl PartialOrd for Time {
    ghost partial_cmp = { as_partial_cmp (on second_number nat_cmp) };

    ghost laws = { partial_order_from_own_ties (Prim.search (comparing, rules))
        (Prim.search (comparing, rules)) };

    fn partial_cmp(&self, other: &Time) -> Option<Ordering> {
        Some(self.cmp(other))
    }
}
