//! The source of the validation time.
ghost use Rattle.std.specs.Prelude.{IfOk};
ghost use Rattle.rpki_command.specs.Moments.{IsMomentBy};

use anyhow::{Context, Result, anyhow};
use rpki_der::Time;
use rpki_text::moments;
use std::rt::Clock;
use std::time::{SystemTime, UNIX_EPOCH};

/// A source of time. An implementation states by the relation `tells` which times it may return.
pub trait MomentSource {
    ghost use Rattle.rpki_der.specs.Times.{Moment};

    /// The source may return this time.
    ghost tells: { Self → Moment → Type 0 };

    /// Returns the time.
    ///
    /// # Errors
    ///
    /// Returns an error if the source fails.
    fn tell(&self) -> Result<Time>
        ensures { IfOk result (tells self.now) };
}

/// Returns the system's time, if it is a day and a time of the calendar.
impl MomentSource for HostRuntime {
    ghost use Rattle.rpki_der.specs.Times.{IsMoment};

    ghost tells = { λ _ now. IsMoment now };

    fn tell(&self) -> Result<Time> {
        let now = SystemTime::now(self)?;
        let since = now.duration_since(UNIX_EPOCH).context("the clock")?;
        moments::from_seconds(since.as_secs()).ok_or(anyhow!("the clock"))
    }
}

/// Returns the given time, or reads the clock.
///
/// # Errors
///
/// Returns an error if the clock is read and fails.
pub fn moment<C: MomentSource>(clock: &C, named: Option<Time>) -> Result<Time>
    ensures { IfOk result (IsMomentBy (C.tells clock.now) named) }
{
    match named {
        Some(moment) => Ok(moment),
        None => clock.tell(),
    }
}
