//! Runs of `routes` over memory.

use crate::fewest::Heap;
use pathfinding::routes::{Command, Noted, RouteError, command, run, run_with_hasher};
use std::alloc::{AllocError, Global};
use std::hash::RandomState;
use test_allocator::Refusing;

/// Seven edges between five nodes.
pub const SEVEN: &[u8] = b"A B 4\nA C 2\nB C 1\nB D 5\nC D 8\nC E 10\nD E 2\n";

/// A command of each kind about the seven edges, and what is written for it.
pub const SEVEN_ANSWERS: &[(&str, &[u8])] = &[
    ("dijkstra A E", b"11: A B D E\n"),
    ("bfs A E", b"2: A C E\n"),
    ("kruskal", b"B C 1\nA C 2\nD E 2\nB D 5\n"),
    ("yen A E 3", b"11: A B D E\n12: A C E\n12: A C D E\n"),
    (
        "yen A E all",
        b"11: A B D E\n12: A C E\n12: A C D E\n15: A B C E\n15: A B C D E\n",
    ),
    ("flow A E", b"5\nA C 2\nB C 1\nD E 2\n"),
];

/// Five edges, of which two lead from one node to one other.
const FIVE: &[u8] = b"s a 1\na t 1\na b 1\na b 3\nb t 1\n";

/// Commands, edges, and what is written for them.
const ANSWERS: &[(&str, &[u8], &[u8])] = &[
    ("dijkstra A E", SEVEN, b"11: A B D E\n"),
    ("dijkstra A A", b"", b"0: A\n"),
    ("dijkstra a c", b"", b"none\n"),
    ("dijkstra a b", b"\r\n\n a\tb 007 \r\n", b"7: a b\n"),
    ("dijkstra a b", b"a b 2\na b 1\r", b"1: a b\n"),
    ("dijkstra b a", b"a b 1", b"none\n"),
    ("bfs A E", SEVEN, b"2: A C E\n"),
    ("bfs A D", SEVEN, b"2: A B D\n"),
    ("bfs a a", b"", b"0: a\n"),
    ("bfs a a", b"a a 1", b"0: a\n"),
    ("bfs a c", b"", b"none\n"),
    ("bfs b a", b"a b 1", b"none\n"),
    (
        "bfs a c",
        b"a b 18446744073709551615\nb c 1\n",
        b"2: a b c\n",
    ),
    (
        "kruskal",
        b"a b 3\na e 1\nb c 5\nb e 4\nc d 2\nc e 6\nd e 7\n",
        b"a e 1\nc d 2\na b 3\nb c 5\n",
    ),
    ("kruskal", b"", b""),
    ("kruskal", b"a a 1\n", b""),
    ("yen s t 2", FIVE, b"2: s a t\n3: s a b t\n"),
    ("yen s t 1", FIVE, b"2: s a t\n"),
    ("yen s t 3", FIVE, b"2: s a t\n3: s a b t\n"),
    ("yen s t 0", FIVE, b"none\n"),
    ("yen s t 0002", FIVE, b"2: s a t\n3: s a b t\n"),
    (
        "yen s t 18446744073709551615",
        FIVE,
        b"2: s a t\n3: s a b t\n",
    ),
    ("yen s t all", FIVE, b"2: s a t\n3: s a b t\n"),
    ("yen t s all", FIVE, b"none\n"),
    ("yen s s all", FIVE, b"0: s\n"),
    ("yen s t 0", b"s t 1", b"none\n"),
    ("yen s t all", b"", b"none\n"),
    ("yen s t 4", b"", b"none\n"),
    // Of equal cost those of fewer names come first.
    (
        "yen s t all",
        b"s a 0\na t 2\ns b 0\nb c 0\nc t 2\ns t 2\n",
        b"2: s t\n2: s a t\n2: s b c t\n",
    ),
    // A sum that no asked path needs is not made.
    (
        "yen s t 1",
        b"s t 1\ns a 18446744073709551615\na t 1\n",
        b"1: s t\n",
    ),
    ("yen s t 0", b"s a 18446744073709551615\na t 1\n", b"none\n"),
    (
        "flow s t",
        b"s a 3\ns b 2\na b 1\na t 2\nb t 3\n",
        b"5\ns a 3\ns b 2\n",
    ),
    (
        "flow s t",
        b"s t 18446744073709551615",
        b"18446744073709551615\ns t 18446744073709551615\n",
    ),
    // The total has no bound of 64 bits.
    (
        "flow s t",
        b"s a 18446744073709551615\na t 18446744073709551615\ns t 18446744073709551615\n",
        b"36893488147419103230\ns t 18446744073709551615\ns a 18446744073709551615\n",
    ),
    ("flow s s", b"s t 1", b"0\n"),
    // The last of several edges from one name to another counts.
    ("flow s t", b"s t 3\ns t 1\n", b"1\ns t 1\n"),
    ("flow s t", b"s t 3\ns t 0\n", b"0\n"),
    ("flow s t", b"s s 5\nt t 5\ns t 1\n", b"1\ns t 1\n"),
    // Names are numbered as they first stand in the text.
    (
        "flow s t",
        b"b t 2\na t 1\ns a 1\ns b 2\n",
        b"3\ns b 2\ns a 1\n",
    ),
    ("flow t s", b"s t 1", b"0\n"),
    ("flow x y", b"s t 1", b"0\n"),
    ("flow x x", b"", b"0\n"),
    ("flow s t", b"", b"0\n"),
];

/// Commands, edges, and the fault that they have.
const FAULTS: &[(&str, &[u8], RouteError)] = &[
    ("dijkstra a c", b"a b 1\nb c x\n", RouteError::BadEdge(2)),
    (
        "dijkstra a c",
        b"a b 18446744073709551615\nb c 1\n",
        RouteError::CostOverflow,
    ),
    (
        "dijkstra a c",
        b"a b 18446744073709551615\nb c 1\nb c",
        RouteError::BadEdge(3),
    ),
    (
        "dijkstra a c",
        b"a b 18446744073709551616\n",
        RouteError::BadEdge(1),
    ),
    ("dijkstra a c", b"a b", RouteError::BadEdge(1)),
    ("dijkstra a c", b"a b 1\r\r\n", RouteError::BadEdge(1)),
    ("dijkstra a c", b"a b +1", RouteError::BadEdge(1)),
    ("dijkstra a c", b"a b 1 x", RouteError::BadEdge(1)),
    (
        "dijkstra a c",
        b"\n\na b 1\na\x7f b 1",
        RouteError::BadEdge(4),
    ),
    ("dijkstra a c", b"a b 1\n\0", RouteError::BadEdge(2)),
    // A search by edges alone reads the costs too.
    (
        "bfs a c",
        b"a c 18446744073709551616\n",
        RouteError::BadEdge(1),
    ),
    ("bfs a c", b"a b 1\nb c\n", RouteError::BadEdge(2)),
    (
        "yen s t 2",
        b"s t 1\ns a 18446744073709551615\na t 1\n",
        RouteError::CostOverflow,
    ),
    (
        "yen s t all",
        b"s t 1\ns a 18446744073709551615\na t 1\n",
        RouteError::CostOverflow,
    ),
    (
        "yen s t 1",
        b"s a 18446744073709551615\na t 1\n",
        RouteError::CostOverflow,
    ),
    ("yen s t 0", b"s t 1\ns t", RouteError::BadEdge(2)),
    ("yen s t all", b"s t -1", RouteError::BadEdge(1)),
    (
        "flow s t",
        b"s t 18446744073709551616",
        RouteError::BadEdge(1),
    ),
    ("flow s t", b"s t 1\ns t", RouteError::BadEdge(2)),
];

/// The command that words parted by spaces spell.
fn asked(alloc: Global, line: &str) -> Result<Option<Command>, AllocError> {
    let mut words = Vec::new(alloc);
    for word in line.split(' ') {
        words.push(String::from_str(alloc, word)?)?;
    }
    Ok(command(words))
}

/// The command that words parted by spaces spell, where they spell one and memory is left.
pub fn spelled(alloc: Global, line: &str) -> Option<Command> {
    asked(alloc, line).ok()?
}

/// Whether a run over memory writes this, or its fault, where it writes nothing.
pub fn ended(
    heap: Heap<'_>,
    ample: Global,
    command: &Command,
    text: &[u8],
    want: &[u8],
) -> Result<bool, RouteError> {
    let mut input = Noted::new(text);
    let mut output = Noted::new(Vec::new(ample));
    let result = run(heap, command, &mut input, &mut output);
    let failed = input.failed() || output.failed();
    let written = output.into_inner();
    match result {
        Ok(()) => Ok(!failed && written.as_slice() == want),
        Err(fault) if !failed && written.is_empty() => Err(fault),
        Err(_) => Ok(false),
    }
}

#[test]
fn answers_are_written(rt: HostRuntime) {
    let heap = Refusing::new(rt.alloc());
    for (line, text, want) in ANSWERS {
        let command = spelled(rt.alloc(), line).expect(&rt, "a command");
        let end = ended(&heap, rt.alloc(), &command, text, want);
        assert!(rt; end == Ok(true), "{line} of {text:?}");
    }
}

#[test]
fn faults_write_nothing(rt: HostRuntime) {
    let heap = Refusing::new(rt.alloc());
    for (line, text, fault) in FAULTS {
        let command = spelled(rt.alloc(), line).expect(&rt, "a command");
        let end = ended(&heap, rt.alloc(), &command, text, b"");
        assert!(rt; end == Err(*fault), "{line} of {text:?}");
    }
}

/// Words that spell no command.
const WRONG: &[&str] = &[
    "walk",
    "walk a b",
    "bfs a",
    "bfs a b c",
    "BFS a b",
    "bfs a b\u{7f}",
    "dijkstra a",
    "dijkstra a b c",
    "Dijkstra a b",
    "dijkstra a ",
    "dijkstra a\tb c",
    "dijkstra a b\u{7f}",
    "kruskal a",
    "kruskal a b",
    "Kruskal",
    "yen",
    "yen a",
    "yen a b",
    "yen a b 1 2",
    "yen a b c",
    "yen a b +1",
    "yen a b -1",
    "yen a b 1x",
    "yen a b ",
    "yen a b All",
    "yen a b all ",
    "yen a b 18446744073709551616",
    "yen a\t b 1",
    "yen a b\u{7f} 1",
    "yen a b\u{7f} all",
    "Yen a b 1",
    "flow",
    "flow s",
    "flow s t u",
    "flow s t\u{7f}",
    "Flow s t",
    "bfs a b all",
    "dijkstra a b 1",
    "",
];

/// Words that spell one.
const COMMANDS: &[&str] = &[
    "dijkstra ! ~",
    "bfs ! ~",
    "flow ! ~",
    "yen ! ~ 0",
    "yen ! ~ all",
    "yen all all all",
    "yen a b 00018446744073709551615",
];

#[test]
fn wrong_words_are_no_command(rt: HostRuntime) {
    for line in WRONG {
        assert!(rt; matches!(&asked(rt.alloc(), line), Ok(None)), "{line}");
    }
    for line in COMMANDS {
        assert!(rt; spelled(rt.alloc(), line).is_some(), "{line}");
    }
    assert!(rt; command(Vec::new(rt.alloc())).is_none());
}

/// Whether a run over the seven edges writes this, by hashes of these seeds.
fn is_written(alloc: Global, command: &Command, seeds: RandomState, want: &[u8]) -> bool {
    let mut input = Noted::new(SEVEN);
    let mut output = Noted::new(Vec::new(alloc));
    let result = run_with_hasher(alloc, command, &mut input, &mut output, seeds);
    result.is_ok() && output.into_inner().as_slice() == want
}

#[test]
fn any_seed_gives_the_same_answers(rt: HostRuntime) {
    let seeds = RandomState::new(&rt).expect(&rt, "seeds");
    for (line, want) in SEVEN_ANSWERS {
        let command = spelled(rt.alloc(), line).expect(&rt, "a command");
        assert!(rt; is_written(rt.alloc(), &command, seeds, want), "{line}");
    }
}
