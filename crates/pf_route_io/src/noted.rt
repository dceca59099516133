//! A reader or a writer, with a note of whether one of its calls has failed.

ghost use Rattle.std.specs.Prelude.{◌≡◌, ◌||◌, false, is_err, OnOk};
ghost use Rattle.std.specs.Io.{ReadsAtMost, WritesAtMost};
ghost use Rattle.std.specs.Io.KnownBytes.{Keeps, ReadConsumes, WriteAppends, Consumes, Appends};

use std::io;
use std::io::{Read, Write};

/// A reader or a writer, with a note of whether a call has failed since it was made.
#[derive(Debug, Drop)]
pub struct Noted<D> {
    inner: D,
    failed: bool,
}

impl<D> Noted<D> {
    ghost use Rattle.pf_route_io.specs.Noted.{device, has_failed};

    /// The reader or writer, with no failure noted.
    pub fn new(inner: D) -> Self
        ensures device { device result ≡ inner }
        ensures fresh { has_failed result ≡ false }
    {
        Noted {
            inner,
            failed: false,
        }
    }

    /// Whether, since `new`, a call answered an error, or a write of some bytes took none of them.
    /// Calls that std builds on `read` and `write` note what those answer.
    pub fn failed(&self) -> bool
        ensures { result ≡ has_failed self.now }
    {
        self.failed
    }

    /// The reader or writer that it was made with.
    pub fn into_inner(self) -> D
        ensures { result ≡ device self }
    {
        let Noted { inner, failed: _ } = self;
        inner
    }
}

impl<R: Read> Read for Noted<R> {
    ghost use Rattle.pf_route_io.specs.Noted.{has_failed};

    ghost remaining = { λ s. R.remaining s.inner };

    fn read(&mut self, buf: &mut [u8]) -> io::Result<usize>
        ensures bound { ReadsAtMost result buf.new }
        ensures bytes { ReadConsumes (R.remaining self.old.inner) (R.remaining self.new.inner) result buf.new }
        ensures noted { has_failed self.new ≡ (has_failed self.old || is_err result) }
    {
        let result = self.inner.read(buf);
        if result.is_err() {
            self.failed = true;
        }
        result
    }

    fn read_exact(&mut self, buf: &mut [u8]) -> io::Result<()>
        ensures bytes { OnOk result (Consumes (R.remaining self.old.inner) (R.remaining self.new.inner) buf.new) }
        ensures noted { has_failed self.new ≡ (has_failed self.old || is_err result) }
    {
        let result = self.inner.read_exact(buf);
        if result.is_err() {
            self.failed = true;
        }
        result
    }
}

impl<W: Write> Write for Noted<W> {
    ghost use Rattle.pf_route_io.specs.Noted.{has_failed, took_nothing};

    ghost contents = { λ s. W.contents s.inner };

    fn write(&mut self, buf: &[u8]) -> io::Result<usize>
        ensures bound { WritesAtMost result buf.now }
        ensures bytes { WriteAppends (W.contents self.old.inner) (W.contents self.new.inner) result buf.now }
        ensures noted { has_failed self.new ≡ (has_failed self.old || took_nothing result buf.now) }
    {
        let result = self.inner.write(buf);
        match &result {
            Ok(count) => {
                if *count == 0 && !buf.is_empty() {
                    self.failed = true;
                }
            }
            Err(_) => self.failed = true,
        }
        result
    }

    fn flush(&mut self) -> io::Result<()>
        ensures bytes { Keeps (W.contents self.old.inner) (W.contents self.new.inner) }
        ensures noted { has_failed self.new ≡ (has_failed self.old || is_err result) }
    {
        let result = self.inner.flush();
        if result.is_err() {
            self.failed = true;
        }
        result
    }

    fn write_all(&mut self, buf: &[u8]) -> io::Result<()>
        ensures bytes { OnOk result (Appends (W.contents self.old.inner) (W.contents self.new.inner) buf.now) }
        ensures noted { has_failed self.new ≡ (has_failed self.old || is_err result) }
    {
        let result = self.inner.write_all(buf);
        if result.is_err() {
            self.failed = true;
        }
        result
    }
}
