//! The output on which a run reports what is wrong, and that it failed.
ghost use Rattle.std.specs.Prelude.{◌⊎◌, IsFalse, IsTrue};
ghost use Rattle.std.specs.Io.KnownBytes.{Appends};
ghost use Rattle.rpki_lines.specs.Watching.{HasFailed, device};
ghost use Rattle.rpki_command.specs.Failures.{failure_message};

use rpki_lines::Watched;
use std::io;
use std::io::Write;

/// An output on which a run reports what is wrong. It remembers whether writing failed.
#[derive(Drop)]
pub struct Speaker<W> {
    watched: Watched<W>,
}

impl<W: Write> Write for Speaker<W> {
    ghost use Rattle.rpki_lines.specs.Watching.{device};

    ghost contents = { λ speaker. W.contents (device speaker.watched) };

    fn write(&mut self, buf: &[u8]) -> io::Result<usize> {
        self.watched.write(buf)
    }

    // Nothing is kept back.
    fn flush(&mut self) -> io::Result<()> {
        Ok(())
    }
}

impl<W: Write> Speaker<W> {
    /// Wraps an output on which no writing has failed yet.
    pub fn new(output: W) -> Speaker<W>
        ensures { HasFailed result.watched → ⊥ }
    {
        Speaker {
            watched: Watched::new(output),
        }
    }

    // Writes all of the octets, and returns whether the output took them; else it has failed.
    fn put(&mut self, octets: &[u8]) -> bool
        ensures put { IsTrue result → Appends (W.contents (device self.old.watched))
            (W.contents (device self.new.watched)) octets.now }
        ensures failed { IsFalse result → HasFailed self.new.watched }
    {
        let mut rest = octets;
        while !rest.is_empty() {
            match self.watched.write(rest) {
                Ok(0) | Err(_) => return false,
                Ok(n) => (_, rest) = rest.split_at(n),
            }
        }
        true
    }

    /// Writes a line that says why a run failed, unless the output fails.
    pub fn tell_failure(&mut self, why: &str)
        ensures { let message = failure_message why.now in HasFailed self.new.watched
            ⊎ Appends (W.contents (device self.old.watched))
            (W.contents (device self.new.watched)) message }
    {
        let _told = self.put(b"rpki: ".as_slice())
            && self.put(why.as_bytes())
            && self.put(b"\n".as_slice());
    }
}
