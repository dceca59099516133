//! Writing to the end.

ghost use Rattle.std.specs.Prelude.{◌≡◌, ◌≢◌, Err, OnOk, OnErr, IfErr, IsTrue};
ghost use Rattle.std.specs.Io.KnownBytes.{Appends};
ghost use Rattle.pf_route_io.specs.Written.{AppendsBeginning};

use crate::error::RouteError;
use crate::sink::Sink;

/// Writes all of the bytes, in as many calls as the sink takes. After a failed write nothing more is
/// written.
pub fn write_whole<O: Sink>(output: &mut O, bytes: &[u8]) -> Result<(), RouteError>
    ensures ok { OnOk result (Appends (O.held output.old) (O.held output.new) bytes.now) }
    ensures beginning { OnErr result (AppendsBeginning (O.held output.old) (O.held output.new) bytes.now) }
    ensures errors { IfErr result (λ e. (e ≡ RouteError.WriteFailed) × IsTrue (O.failed output.new)) }
    ensures unfailed { OnOk result (O.failed output.new ≡ O.failed output.old) }
{
    let mut at = 0;
    while at < bytes.len() {
        match output.write_some(&bytes[at..]) {
            Ok(0) => return Err(RouteError::WriteFailed),
            Ok(count) => at += count,
            Err(_) => return Err(RouteError::WriteFailed),
        }
    }
    Ok(())
}
