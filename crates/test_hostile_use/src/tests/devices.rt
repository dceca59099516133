//! Readers and writers that fail, under each command of `routes`.

use crate::tests::texts::spelled;
use pf_routes::routes::{Command, Noted, RouteError, run};
use std::alloc::Global;
use std::io;
use std::io::{Error, ErrorKind, Read, Write};

/// When a device fails, and how.
#[derive(Clone, Copy)]
struct Failing {
    /// How many bytes it gives or takes before it fails.
    after: usize,
    /// The error that it answers, or `None` where it takes nothing in its place.
    kind: Option<ErrorKind>,
    /// Whether it fails once, and else at each call from then on.
    recovers: bool,
}

/// Gives these bytes, one a call, until it fails.
#[derive(Drop)]
struct Broken<'a> {
    left: &'a [u8],
    failing: Failing,
    has_failed: bool,
}

impl Read for Broken<'_> {
    fn read(&mut self, buf: &mut [u8]) -> io::Result<usize> {
        let recovered = self.failing.recovers && self.has_failed;
        if self.failing.after == 0 && !recovered {
            self.has_failed = true;
            if let Some(kind) = self.failing.kind {
                return Err(Error::from(kind));
            }
            return Ok(0);
        }
        self.failing.after = self.failing.after.saturating_sub(1);
        match (self.left, buf) {
            ([first, rest @ ..], [place, ..]) => {
                *place = *first;
                self.left = rest;
                Ok(1)
            }
            _ => Ok(0),
        }
    }
}

/// Takes one byte a call, until it fails. Its flush fails where its writes do.
#[derive(Drop)]
struct Narrow {
    taken: Vec<u8>,
    failing: Failing,
    has_failed: bool,
}

impl Write for Narrow {
    fn write(&mut self, buf: &[u8]) -> io::Result<usize> {
        let recovered = self.failing.recovers && self.has_failed;
        match buf {
            [first, ..] if self.taken.len() < self.failing.after || recovered => {
                self.taken.push(*first)?;
                Ok(1)
            }
            _ => {
                self.has_failed = true;
                match self.failing.kind {
                    Some(kind) => Err(Error::from(kind)),
                    None => Ok(0),
                }
            }
        }
    }

    fn flush(&mut self) -> io::Result<()> {
        match self.failing.kind {
            Some(kind) => Err(Error::from(kind)),
            None => Ok(()),
        }
    }
}

/// Seven edges between five nodes.
const SEVEN: &[u8] = b"A B 4\nA C 2\nB C 1\nB D 5\nC D 8\nC E 10\nD E 2\n";

/// A command and a text, and the answer to it, or the fault that it has.
type Row<'a> = (&'a str, &'a [u8], Result<&'a [u8], RouteError>);

/// Answers of each command, an answer of no bytes, and faults.
const ROWS: &[Row<'static>] = &[
    ("dijkstra A E", SEVEN, Ok(b"11: A B D E\n")),
    ("bfs A E", SEVEN, Ok(b"2: A C E\n")),
    ("kruskal", SEVEN, Ok(b"B C 1\nA C 2\nD E 2\nB D 5\n")),
    (
        "yen A E 3",
        SEVEN,
        Ok(b"11: A B D E\n12: A C E\n12: A C D E\n"),
    ),
    (
        "yen A E all",
        SEVEN,
        Ok(b"11: A B D E\n12: A C E\n12: A C D E\n15: A B C E\n15: A B C D E\n"),
    ),
    ("flow A E", SEVEN, Ok(b"5\nA C 2\nB C 1\nD E 2\n")),
    ("kruskal", b"", Ok(b"")),
    ("bfs A E", b"\n", Ok(b"none\n")),
    ("yen A E all", b"A E 1\nA E", Err(RouteError::BadEdge(2))),
    ("kruskal", b"A E x\n", Err(RouteError::BadEdge(1))),
    (
        "dijkstra A E",
        b"A B 18446744073709551615\nB E 1",
        Err(RouteError::CostOverflow),
    ),
];

/// What is told of a fault, or of none, and what is written.
type Outcome<'a> = (Result<(), RouteError>, &'a [u8]);

/// The outcome of a run whose devices do not fail.
fn outcome_of<'a>(answer: Result<&'a [u8], RouteError>) -> Outcome<'a> {
    match answer {
        Ok(bytes) => (Ok(()), bytes),
        Err(fault) => (Err(fault), b""),
    }
}

/// The outcome of a run over a reader that fails: the failed read, where the text has not ended before.
fn outcome_of_reading<'a>(row: &Row<'a>, failing: Failing) -> Outcome<'a> {
    if failing.after <= row.1.len() {
        (Err(RouteError::ReadFailed), b"")
    } else {
        outcome_of(row.2)
    }
}

/// Whether a run over a reader that fails ends with that failed read, reads no further and writes
/// nothing, and answers where the text ends before.
fn ends_at_failed_read(
    alloc: Global,
    command: &Command,
    row: &Row<'static>,
    failing: Failing,
) -> bool {
    let text = row.1;
    let mut input = Noted::new(Broken {
        left: text,
        failing,
        has_failed: false,
    });
    let mut output = Noted::new(Vec::new(alloc));
    let is_fresh = !input.failed();
    let result = run(alloc, command, &mut input, &mut output);
    let fails = failing.after <= text.len();
    let is_noted = input.failed() == fails && !output.failed();
    let is_rest = input.into_inner().left == &text[text.len().min(failing.after)..];
    let written = output.into_inner();
    let (told, bytes) = outcome_of_reading(row, failing);
    is_fresh && is_noted && is_rest && result == told && written.as_slice() == bytes
}

/// The outcome of a run over a writer that fails: a beginning of the answer and the failed write, where
/// the writer has no room for all of it.
fn outcome_of_writing<'a>(row: &Row<'a>, failing: Failing) -> Outcome<'a> {
    let (told, bytes) = outcome_of(row.2);
    if failing.after < bytes.len() {
        (Err(RouteError::WriteFailed), &bytes[..failing.after])
    } else {
        (told, bytes)
    }
}

/// Whether a run writes a beginning of the answer for which the writer has room, notes a failure
/// where that is not all, and writes no further.
fn ends_at_failed_write(
    alloc: Global,
    command: &Command,
    row: &Row<'static>,
    failing: Failing,
) -> bool {
    let mut input = Noted::new(row.1);
    let mut output = Noted::new(Narrow {
        taken: Vec::new(alloc),
        failing,
        has_failed: false,
    });
    let result = run(alloc, command, &mut input, &mut output);
    let is_noted = output.failed() == (result == Err(RouteError::WriteFailed));
    let taken = output.into_inner().taken;
    let (told, bytes) = outcome_of_writing(row, failing);
    !input.failed() && is_noted && result == told && taken.as_slice() == bytes
}

/// Fails at its first call alone, and counts its calls.
#[derive(Drop)]
struct Once {
    calls: usize,
}

impl Once {
    /// Counts a call, of which the first fails.
    fn call(&mut self) -> io::Result<()> {
        self.calls = self.calls.saturating_add(1);
        if self.calls == 1 {
            return Err(Error::from(ErrorKind::ConnectionReset));
        }
        Ok(())
    }
}

impl Read for Once {
    fn read(&mut self, buf: &mut [u8]) -> io::Result<usize> {
        self.call()?;
        match buf {
            [place, ..] => {
                *place = b'x';
                Ok(1)
            }
            _ => Ok(0),
        }
    }
}

impl Write for Once {
    fn write(&mut self, buf: &[u8]) -> io::Result<usize> {
        self.call()?;
        match buf {
            [_, ..] => Ok(1),
            _ => Ok(0),
        }
    }

    fn flush(&mut self) -> io::Result<()> {
        self.call()
    }
}

/// A call of a reader or a writer.
#[derive(Clone, Copy, Debug)]
enum Call {
    Read,
    ReadExact,
    Write,
    WriteAll,
    Flush,
}

impl Call {
    /// Whether the call goes through, with one byte where it reads or writes.
    fn goes_through(self, device: &mut Noted<Once>) -> bool {
        let mut byte = [b' '];
        match self {
            Call::Read => matches!(device.read(&mut byte), Ok(1)) && byte == [b'x'],
            Call::ReadExact => device.read_exact(&mut byte).is_ok() && byte == [b'x'],
            Call::Write => matches!(device.write(&byte), Ok(1)),
            Call::WriteAll => device.write_all(&byte).is_ok(),
            Call::Flush => device.flush().is_ok(),
        }
    }
}

/// Every call of a reader or a writer.
const CALLS: &[Call] = &[
    Call::Read,
    Call::ReadExact,
    Call::Write,
    Call::WriteAll,
    Call::Flush,
];

#[test]
fn a_noted_device_is_asked_again_after_a_failure(rt: HostRuntime) {
    for call in CALLS {
        let mut device = Noted::new(Once { calls: 0 });
        let was_fresh = !device.failed();
        let has_failed = !call.goes_through(&mut device) && device.failed();
        let goes_on = call.goes_through(&mut device) && call.goes_through(&mut device);
        assert!(rt;
            was_fresh && has_failed && goes_on && device.failed(),
            "{call:?}"
        );
        assert!(rt; device.into_inner().calls == 3, "{call:?}");
    }
}

/// The errors that readers answer.
const READ_KINDS: &[ErrorKind] = &[
    ErrorKind::ConnectionReset,
    ErrorKind::UnexpectedEof,
    ErrorKind::WouldBlock,
];

/// What writers answer that take no more: nothing, and errors.
const WRITE_KINDS: &[Option<ErrorKind>] = &[
    None,
    Some(ErrorKind::BrokenPipe),
    Some(ErrorKind::Interrupted),
];

/// Whether runs end as they have to, over readers and writers that fail behind so many bytes.
fn end_at_failures(
    alloc: Global,
    command: &Command,
    row: &Row<'static>,
    after: usize,
    recovers: bool,
) -> bool {
    for kind in READ_KINDS {
        let failing = Failing {
            after,
            kind: Some(*kind),
            recovers,
        };
        if !ends_at_failed_read(alloc, command, row, failing) {
            return false;
        }
    }
    for kind in WRITE_KINDS {
        let failing = Failing {
            after,
            kind: *kind,
            recovers,
        };
        if !ends_at_failed_write(alloc, command, row, failing) {
            return false;
        }
    }
    true
}

#[test]
fn a_run_ends_at_the_first_failed_read_or_write(rt: HostRuntime) {
    for row in ROWS {
        let line = row.0;
        let command = spelled(rt.alloc(), line).expect(&rt, "a command");
        for after in [0, 1, 3, 6, 8, 9, 11, 12, 20, 23, 24, 46, row.1.len(), 100] {
            assert!(rt;
                end_at_failures(rt.alloc(), &command, row, after, false)
                    && end_at_failures(rt.alloc(), &command, row, after, true),
                "{line}, failing after {after}"
            );
        }
    }
}

/// Whether a flush of a writer with this answer is noted as failed where it fails.
fn notes_flush(alloc: Global, kind: Option<ErrorKind>) -> bool {
    let failing = Failing {
        after: 0,
        kind,
        recovers: false,
    };
    let mut output = Noted::new(Narrow {
        taken: Vec::new(alloc),
        failing,
        has_failed: false,
    });
    let fails = kind.is_some();
    output.flush().is_err() == fails && output.failed() == fails
}

/// Whether `write_all` of three bytes answers and notes what a writer with room for so many does, which
/// takes no more than fits.
fn notes_write_all(alloc: Global, after: usize) -> bool {
    let failing = Failing {
        after,
        kind: Some(ErrorKind::BrokenPipe),
        recovers: false,
    };
    let mut output = Noted::new(Narrow {
        taken: Vec::new(alloc),
        failing,
        has_failed: false,
    });
    let is_told = match output.write_all(b"abc") {
        Ok(()) => after >= 3,
        Err(error) => after < 3 && error.kind() == ErrorKind::BrokenPipe,
    };
    let is_noted = output.failed() == (after < 3);
    let taken = output.into_inner().taken;
    is_told && is_noted && taken.as_slice() == &b"abc"[..after.min(3)]
}

/// Whether `read_exact` of two bytes answers and notes what a reader that fails behind so many does.
fn notes_read_exact(after: usize) -> bool {
    let failing = Failing {
        after,
        kind: Some(ErrorKind::ConnectionReset),
        recovers: false,
    };
    let mut input = Noted::new(Broken {
        left: b"abc",
        failing,
        has_failed: false,
    });
    let mut buf = [0u8; 2];
    let is_told = match input.read_exact(&mut buf) {
        Ok(()) => after >= 2 && buf == *b"ab",
        Err(error) => after < 2 && error.kind() == ErrorKind::ConnectionReset,
    };
    is_told && input.failed() == (after < 2)
}

#[test]
fn whole_reads_and_writes_are_noted(rt: HostRuntime) {
    for after in [0, 1, 2, 3, 4] {
        assert!(rt;
            notes_write_all(rt.alloc(), after) && notes_read_exact(after),
            "{after}"
        );
    }
}

#[test]
fn failed_flushes_and_short_reads_are_noted(rt: HostRuntime) {
    assert!(rt; notes_flush(rt.alloc(), None));
    assert!(rt; notes_flush(rt.alloc(), Some(ErrorKind::BrokenPipe)));
    let mut input = Noted::new(b"ab".as_slice());
    let mut buf = [0u8; 3];
    assert!(rt; input.read_exact(&mut buf).is_err() && input.failed());
}
