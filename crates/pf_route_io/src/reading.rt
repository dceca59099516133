//! Reading to the end.

ghost use Rattle.std.specs.Prelude.{◌≡◌, ◌≢◌, ◌⊎◌, Err, IfOk, IfErr, OnOk, OnErr, IsTrue};
ghost use Rattle.std.specs.Io.KnownBytes.{Consumes, IsAtEnd};
ghost use Rattle.pf_route_io.specs.ReadSome.{HasReadSome};

use crate::error::RouteError;
use crate::source::Source;
use std::alloc::Allocator;

const CHUNK: usize = 65536;

/// All that the source gives up to its end. After a failed read it is not read again.
pub fn read_whole<I: Source, A: Allocator + Copy>(
    alloc: A,
    input: &mut I,
) -> Result<Vec<u8, A>, RouteError>
    ensures read { IfOk result (λ text. Consumes (I.left input.old) (I.left input.new) text.items) }
    ensures end { OnOk result (IsAtEnd (I.left input.new)) }
    ensures some { OnErr result (HasReadSome (I.left input.old) (I.left input.new)) }
    ensures errors { IfErr result (λ e. (e ≡ RouteError.OutOfMemory) ⊎ ((e ≡ RouteError.ReadFailed) × IsTrue (I.failed input.new))) }
    ensures unfailed { result ≢ Err RouteError.ReadFailed → I.failed input.new ≡ I.failed input.old }
{
    let mut text = Vec::new(alloc);
    let mut chunk = [0u8; CHUNK];
    loop {
        match input.read_some(&mut chunk) {
            Ok(0) => return Ok(text),
            Ok(count) => {
                text.extend_from_slice(&chunk[..count])?;
            }
            Err(_) => return Err(RouteError::ReadFailed),
        }
    }
}
