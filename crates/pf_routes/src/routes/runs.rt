//! From bytes to bytes.

ghost use Rattle.std.specs.Prelude.{◌≡◌, ◌≢◌, Err, OnOk, IfErr};
ghost use Rattle.pf_route_io.specs.Noted.{device, has_failed};
ghost use Rattle.pf_routes.specs.Run.{Answered, Refused};

use crate::routes::answers::answer_to;
use crate::routes::commands::Command;
use pf_route_io::error::RouteError;
use pf_route_io::noted::Noted;
use pf_route_io::reading::read_whole;
use pf_route_io::sink::Sink;
use pf_route_io::source::Source;
use pf_route_io::writing::write_whole;
use std::alloc::Allocator;
use std::hash::{BuildHasher, BuildHasherDefault, FoldHasher};
use std::io::{Read, Write};

/// The whole of a run, over what can only be read and what can only be written to.
fn answer_whole<I: Source, O: Sink, S: BuildHasher + Drop, A: Allocator + Copy>(
    alloc: A,
    command: &Command,
    input: &mut I,
    output: &mut O,
    hash_builder: S,
) -> Result<(), RouteError>
    ensures ok { OnOk result (Answered command.now (I.left input.old) (I.left input.new) (O.held output.old) (O.held output.new)) }
    ensures err { IfErr result (λ e. Refused e command.now
        (I.left input.old) (I.left input.new) (I.failed input.new)
        (O.held output.old) (O.held output.new) (O.failed output.new)) }
    ensures reader { result ≢ Err RouteError.ReadFailed → I.failed input.new ≡ I.failed input.old }
    ensures writer { result ≢ Err RouteError.WriteFailed → O.failed output.new ≡ O.failed output.old }
{
    let text = read_whole(alloc, input)?;
    let answer = answer_to(alloc, command, text, hash_builder)?;
    write_whole(output, answer.as_slice())
}

/// Reads edges to the end of the input, and writes the answer to the command about them.
///
/// Everything is read before anything is written, and no memory is taken after the first write. A
/// failed read is told before a bad edge, that before a cost overflow, and that before a failed
/// write; out of memory may be told at any point before the first write. With every error but
/// `WriteFailed` nothing was written, with that one a beginning of an answer. Out of memory and a
/// failed read leave what stands behind the bytes that were read; with all else the input is at its end.
///
/// The first read that fails ends the run with `ReadFailed`, and the first write that fails with
/// `WriteFailed`. With any other answer `failed()` of the reader, or of the writer, is what it was.
///
/// Names are numbered by a hasher with a fixed seed. Whoever writes the text can choose names that
/// collide under it, so that the time grows with the square of their number: `run_with_hasher` is for
/// text from strangers.
pub fn run<I: Read, O: Write, A: Allocator + Copy>(
    alloc: A,
    command: &Command,
    input: &mut Noted<I>,
    output: &mut Noted<O>,
) -> Result<(), RouteError>
    ensures ok { OnOk result (Answered command.now (I.remaining (device input.old)) (I.remaining (device input.new))
        (O.contents (device output.old)) (O.contents (device output.new))) }
    ensures err { IfErr result (λ e. Refused e command.now
        (I.remaining (device input.old)) (I.remaining (device input.new)) (has_failed input.new)
        (O.contents (device output.old)) (O.contents (device output.new)) (has_failed output.new)) }
    ensures reader { result ≢ Err RouteError.ReadFailed → has_failed input.new ≡ has_failed input.old }
    ensures writer { result ≢ Err RouteError.WriteFailed → has_failed output.new ≡ has_failed output.old }
{
    let hash_builder = BuildHasherDefault::<FoldHasher>::new();
    run_with_hasher(alloc, command, input, output, hash_builder)
}

/// The same as `run`, where names are numbered by the given hasher.
///
/// The contract is the same for every hasher; the time depends on it. With a seed that nobody can
/// foresee, as that of `RandomState`, nobody can choose names that collide.
pub fn run_with_hasher<I: Read, O: Write, S: BuildHasher + Drop, A: Allocator + Copy>(
    alloc: A,
    command: &Command,
    input: &mut Noted<I>,
    output: &mut Noted<O>,
    hash_builder: S,
) -> Result<(), RouteError>
    ensures ok { OnOk result (Answered command.now (I.remaining (device input.old)) (I.remaining (device input.new))
        (O.contents (device output.old)) (O.contents (device output.new))) }
    ensures err { IfErr result (λ e. Refused e command.now
        (I.remaining (device input.old)) (I.remaining (device input.new)) (has_failed input.new)
        (O.contents (device output.old)) (O.contents (device output.new)) (has_failed output.new)) }
    ensures reader { result ≢ Err RouteError.ReadFailed → has_failed input.new ≡ has_failed input.old }
    ensures writer { result ≢ Err RouteError.WriteFailed → has_failed output.new ≡ has_failed output.old }
{
    answer_whole(alloc, command, input, output, hash_builder)
}
