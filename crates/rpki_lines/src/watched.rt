//! A reader or a writer that remembers whether it failed.
ghost use Rattle.std.specs.Prelude.{◌≡◌, ◌≢◌, ◌↔◌, ◌⊎◌, [], Ok, IsErr, IsTrue};
ghost use Rattle.std.specs.Io.{ReadsAtMost, WritesAtMost};
ghost use Rattle.std.specs.Io.KnownBytes.{ReadConsumes, WriteAppends};
ghost use Rattle.rpki_lines.specs.Watching.{device, HasFailed};

use std::io;
use std::io::{Read, Write};

/// A reader or a writer, and whether one of its calls failed.
///
/// Each call is passed on. It counts as failed, for good, from the first call that returned an
/// `Err`, or that wrote nothing of a slice that isn't empty.
#[derive(Drop)]
pub struct Watched<T> {
    inner: T,
    works: bool,
}

impl<T> Watched<T> {
    /// Wraps a reader or a writer, which hasn't failed yet.
    pub fn new(inner: T) -> Watched<T>
        ensures device { device result ≡ inner }
        ensures unfailed { HasFailed result → ⊥ }
    {
        Watched { inner, works: true }
    }

    /// Returns whether one of its calls failed.
    pub fn failed(&self) -> bool
        ensures { IsTrue result ↔ HasFailed self.now }
    {
        !self.works
    }
}

impl<T: Read> Watched<T> {
    /// Reads into the slice. Returns how many bytes were read; 0 for a slice that isn't empty means
    /// the end.
    ///
    /// # Errors
    ///
    /// Returns the reader's error.
    pub fn read(&mut self, buf: &mut [u8]) -> io::Result<usize>
        ensures bound { ReadsAtMost result buf.new }
        ensures bytes { ReadConsumes
            (T.remaining (device self.old)) (T.remaining (device self.new)) result buf.new }
        ensures failed { HasFailed self.new ↔ (HasFailed self.old ⊎ IsErr result) }
    {
        let result = self.inner.read(buf);
        if result.is_err() {
            self.works = false;
        }
        result
    }
}

impl<T: Write> Watched<T> {
    /// Writes bytes from the start of the slice. Returns how many were written.
    ///
    /// # Errors
    ///
    /// Returns the writer's error.
    pub fn write(&mut self, buf: &[u8]) -> io::Result<usize>
        ensures bound { WritesAtMost result buf.now }
        ensures bytes { WriteAppends
            (T.contents (device self.old)) (T.contents (device self.new)) result buf.now }
        ensures failed { HasFailed self.new
            ↔ (HasFailed self.old ⊎ (IsErr result ⊎ ((result ≡ Ok 0) × (buf.now ≢ [])))) }
    {
        let result = self.inner.write(buf);
        match result {
            Err(_) => self.works = false,
            Ok(0) if !buf.is_empty() => self.works = false,
            Ok(_) => {}
        }
        result
    }
}
