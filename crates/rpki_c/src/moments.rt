//! Times for C.
ghost use Rattle.std.specs.Prelude.{◌≡◌, ◌↔◌, IsSome, IfSome};
ghost use Rattle.rpki_der.specs.Times.{IsMoment};
ghost use Rattle.rpki_c.specs.TimeParts.{moment_of_parts};

use rpki_der::Time;

/// A second of UTC, as the parts of its date and time.
#[repr(C)]
#[derive(Clone, Copy)]
pub struct RpkiTime {
    pub year: u16,
    pub month: u8,
    pub day: u8,
    pub hour: u8,
    pub minute: u8,
    pub second: u8,
    /// Unused; 0 if the library writes it.
    pub unused: u8,
}

/// The time with these parts, if the calendar has the day and a clock has the time.
pub(crate) fn moment_of(it: &RpkiTime) -> Option<Time>
    ensures exists { IsSome result ↔ IsMoment (moment_of_parts it.now) }
    ensures value { IfSome result (λ time. time ≡ moment_of_parts it.now) }
{
    Time::utc(
        i32::from(it.year),
        u32::from(it.month),
        u32::from(it.day),
        u32::from(it.hour),
        u32::from(it.minute),
        u32::from(it.second),
    )
}

/// The parts of a time.
pub(crate) fn parts_of(time: Time) -> RpkiTime
    ensures parts { time ≡ moment_of_parts result }
    ensures unused { result.unused ≡ 0 }
{
    RpkiTime {
        year: time.year(),
        month: time.month(),
        day: time.day(),
        hour: time.hour(),
        minute: time.minute(),
        second: time.second(),
        unused: 0,
    }
}
