//! What a run writes to.

ghost use Rattle.std.specs.Prelude.{◌≡◌, ℕ, ◌||◌, Bool, List, Option};
ghost use Rattle.std.specs.Io.{WritesAtMost};
ghost use Rattle.std.specs.Io.KnownBytes.{WriteAppends};
ghost use Rattle.pf_route_io.specs.Noted.{took_nothing};

use crate::noted::Noted;
use std::io;
use std::io::Write;

/// Something that can be written to, and nothing else.
pub trait Sink {
    /// The bytes that it holds, where they are known.
    ghost held: { Self → Option (List ℕ) };

    /// Whether a call has failed.
    ghost failed: { Self → Bool };

    /// Writes some of the bytes.
    fn write_some(&mut self, buf: &[u8]) -> io::Result<usize>
        ensures bound { WritesAtMost result buf.now }
        ensures bytes { WriteAppends (held self.old) (held self.new) result buf.now }
        ensures noted { failed self.new ≡ (failed self.old || took_nothing result buf.now) };
}

impl<W: Write> Sink for Noted<W> {
    ghost use Rattle.pf_route_io.specs.Noted.{device, has_failed};

    ghost held = { λ s. W.contents (device s) };

    ghost failed = { λ s. has_failed s };

    fn write_some(&mut self, buf: &[u8]) -> io::Result<usize> {
        self.write(buf)
    }
}
