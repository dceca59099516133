//! What a run reads.

ghost use Rattle.std.specs.Prelude.{◌≡◌, ℕ, ◌||◌, Bool, List, Option, is_err};
ghost use Rattle.std.specs.Io.{ReadsAtMost};
ghost use Rattle.std.specs.Io.KnownBytes.{ReadConsumes};

use crate::noted::Noted;
use std::io;
use std::io::Read;

/// Something that can be read, and nothing else.
///
/// A `Noted` has calls that fail where no device does, as `read_exact` past the end. A run through
/// this trait makes none of them.
pub trait Source {
    /// The bytes that it has left, where they are known.
    ghost left: { Self → Option (List ℕ) };

    /// Whether a call has failed.
    ghost failed: { Self → Bool };

    /// Reads some bytes, or none at the end.
    fn read_some(&mut self, buf: &mut [u8]) -> io::Result<usize>
        ensures bound { ReadsAtMost result buf.new }
        ensures bytes { ReadConsumes (left self.old) (left self.new) result buf.new }
        ensures noted { failed self.new ≡ (failed self.old || is_err result) };
}

impl<R: Read> Source for Noted<R> {
    ghost use Rattle.pf_route_io.specs.Noted.{device, has_failed};

    ghost left = { λ s. R.remaining (device s) };

    ghost failed = { λ s. has_failed s };

    fn read_some(&mut self, buf: &mut [u8]) -> io::Result<usize> {
        self.read(buf)
    }
}
