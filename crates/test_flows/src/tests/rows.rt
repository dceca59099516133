//! Worked lists of changes, with both stores.

use crate::pipes::Pipes;
use pf_base::PathError;
use pf_flow::edmonds_karp::{DenseCapacity, EdmondsKarp, SparseCapacity};
use std::alloc::{Allocator, Global};

/// A pair of vertices with a number.
pub type Numbered = ((usize, usize), i64);

/// A call, and what is wanted of it.
pub enum Step<'a> {
    /// A capacity that is changed.
    Set(usize, usize, i64),
    /// A capacity that is refused, and how.
    Refuse(usize, usize, i64, PathError),
    /// `augment`: the total and the cut.
    Augment(i64, &'a [Numbered]),
    /// The flows.
    Flows(&'a [Numbered]),
    /// The total.
    Total(i64),
    /// The sum of all capacities.
    Sum(i64),
    /// The flow of a pair and what is left of its capacity.
    Pipe(usize, usize, i64, i64),
    /// What is left of the capacities from a vertex.
    Left(usize, &'a [(usize, i64)]),
    /// `omit_details`.
    BeBrief,
}

/// Whether a call answers what is wanted of it.
pub fn is_done<A: Allocator + Copy, S: EdmondsKarp<i64>>(
    alloc: A,
    pipes: &mut Pipes<S>,
    step: &Step<'_>,
) -> Result<bool, PathError> {
    match step {
        Step::Set(from, to, capacity) => pipes.set(alloc, *from, *to, *capacity)?,
        Step::Refuse(from, to, capacity, refusal) => {
            return Ok(pipes.set(alloc, *from, *to, *capacity) == Err(*refusal));
        }
        Step::Augment(total, cut) => {
            let (_, found, edges) = pipes.fill(alloc)?;
            return Ok(found == *total && edges.as_slice() == *cut);
        }
        Step::Flows(flows) => return Ok(pipes.flows(alloc)?.as_slice() == *flows),
        Step::Total(total) => return Ok(pipes.total() == *total),
        Step::Sum(sum) => return Ok(pipes.sum() == *sum),
        Step::Pipe(from, to, flow, left) => {
            return Ok(pipes.pipe(*from, *to) == Some((*flow, *left)));
        }
        Step::Left(from, left) => return Ok(pipes.left_from(alloc, *from)?.as_slice() == *left),
        Step::BeBrief => pipes.be_brief(),
    }
    Ok(true)
}

/// Vertices, source, sink, and calls.
type Case<'a> = (usize, usize, usize, &'a [Step<'a>]);

/// Source 0, a 1, b 2, sink 3: a least cut moves when a pipe is narrowed.
const NARROWED: &[Step<'static>] = &[
    Step::Set(0, 1, 3),
    Step::Set(0, 2, 2),
    Step::Set(1, 2, 1),
    Step::Set(1, 3, 2),
    Step::Set(2, 3, 3),
    Step::Augment(5, &[((0, 1), 3), ((0, 2), 2)]),
    Step::Sum(11),
    Step::Set(1, 3, 1),
    Step::Sum(10),
    Step::Augment(4, &[((0, 2), 2), ((1, 2), 1), ((1, 3), 1)]),
    Step::BeBrief,
    Step::Augment(4, &[]),
];

/// The only pipe to the sink is closed.
const CLOSED: &[Step<'static>] = &[
    Step::Set(0, 1, 3),
    Step::Set(1, 2, 3),
    Step::Augment(3, &[((0, 1), 3)]),
    Step::Set(1, 2, 0),
    Step::Total(0),
    Step::Augment(0, &[]),
    Step::Flows(&[]),
];

/// A pipe that a flow goes through is closed, and the flow finds another way.
const REROUTED: &[Step<'static>] = &[
    Step::Set(0, 1, 1),
    Step::Set(1, 2, 1),
    Step::Set(2, 4, 1),
    Step::Augment(1, &[((0, 1), 1)]),
    Step::Set(0, 2, 1),
    Step::Set(2, 3, 1),
    Step::Set(3, 4, 1),
    Step::Augment(2, &[((0, 1), 1), ((0, 2), 1)]),
    Step::Set(0, 3, 1),
    Step::Set(3, 1, 1),
    Step::Set(1, 4, 1),
    Step::Augment(3, &[((0, 1), 1), ((0, 2), 1), ((0, 3), 1)]),
    Step::Set(1, 2, 0),
    Step::Augment(3, &[((0, 1), 1), ((0, 2), 1), ((0, 3), 1)]),
    Step::Flows(&[
        ((0, 1), 1),
        ((0, 2), 1),
        ((0, 3), 1),
        ((1, 4), 1),
        ((2, 4), 1),
        ((3, 4), 1),
    ]),
    Step::Pipe(1, 2, 0, 0),
    Step::Sum(8),
];

/// Capacities both ways and round a vertex.
const BOTH_WAYS: &[Step<'static>] = &[
    Step::Set(0, 1, 5),
    Step::Set(1, 0, 3),
    Step::Set(1, 3, 4),
    Step::Set(2, 2, 7),
    Step::Augment(4, &[((1, 3), 4)]),
    Step::Sum(19),
    Step::Flows(&[((0, 1), 4), ((1, 3), 4)]),
    Step::Pipe(1, 0, -4, 7),
    Step::Left(1, &[(0, 7)]),
    Step::Set(0, 1, 2),
    Step::Total(2),
    Step::Pipe(1, 3, 2, 2),
    Step::Left(1, &[(0, 5), (3, 2)]),
];

/// Capacities that are refused leave all as it was.
const REFUSED: &[Step<'static>] = &[
    Step::Set(0, 1, i64::MAX - 27),
    Step::Refuse(1, 0, 28, PathError::CostOverflow),
    Step::Pipe(1, 0, 0, 0),
    Step::Set(1, 0, 27),
    Step::Refuse(0, 1, -1, PathError::NegativeCapacity),
    Step::Refuse(0, 2, 1, PathError::UnknownVertex),
    Step::Sum(i64::MAX),
    Step::Augment(i64::MAX - 27, &[((0, 1), i64::MAX - 27)]),
    Step::Flows(&[((0, 1), i64::MAX - 27)]),
];

/// Wide pipes, and a narrow one between them.
const WIDE: &[Step<'static>] = &[
    Step::Set(0, 1, 1000),
    Step::Set(0, 2, 1000),
    Step::Set(1, 3, 1000),
    Step::Set(2, 3, 1000),
    Step::Set(1, 2, 1),
    Step::Augment(2000, &[((0, 1), 1000), ((0, 2), 1000)]),
    Step::Pipe(1, 2, 0, 1),
];

/// Pipes between seven vertices that are put in one after the other: the first ten lead nowhere or to a
/// flow of one.
const GROWN: &[Step<'static>] = &[
    Step::Set(0, 1, 3),
    Step::Augment(0, &[]),
    Step::Set(0, 3, 3),
    Step::Augment(0, &[]),
    Step::Set(1, 2, 4),
    Step::Augment(0, &[]),
    Step::Set(2, 0, 3),
    Step::Augment(0, &[]),
    Step::Set(2, 3, 1),
    Step::Augment(0, &[]),
    Step::Set(2, 4, 2),
    Step::Augment(0, &[]),
    Step::Set(3, 4, 2),
    Step::Augment(0, &[]),
    Step::Set(3, 5, 6),
    Step::Augment(0, &[]),
    Step::Set(4, 1, 1),
    Step::Augment(0, &[]),
    Step::Set(4, 6, 1),
    Step::Augment(1, &[((4, 6), 1)]),
    Step::Set(5, 6, 9),
    Step::Augment(5, &[((0, 3), 3), ((2, 3), 1), ((4, 6), 1)]),
];

/// An upper branch over 1 and 2 and a lower one over 4 and 5, whose capacities change one at a time.
const BRANCHES: &[Step<'static>] = &[
    Step::Set(0, 1, 6),
    Step::Set(1, 2, 5),
    Step::Set(2, 3, 7),
    Step::Set(0, 4, 4),
    Step::Set(4, 5, 8),
    Step::Set(5, 3, 9),
    Step::Augment(9, &[((0, 4), 4), ((1, 2), 5)]),
    Step::Set(0, 4, 5),
    Step::Augment(10, &[((0, 4), 5), ((1, 2), 5)]),
    Step::Set(0, 4, 4),
    Step::Augment(9, &[((0, 4), 4), ((1, 2), 5)]),
    Step::Set(0, 4, 5),
    Step::Augment(10, &[((0, 4), 5), ((1, 2), 5)]),
    Step::Set(4, 5, 4),
    Step::Augment(9, &[((1, 2), 5), ((4, 5), 4)]),
    Step::Set(4, 5, 5),
    Step::Augment(10, &[((0, 4), 5), ((1, 2), 5)]),
    Step::Set(5, 3, 4),
    Step::Augment(9, &[((1, 2), 5), ((5, 3), 4)]),
    Step::Set(5, 3, 5),
    Step::Augment(10, &[((0, 4), 5), ((1, 2), 5)]),
    Step::Set(0, 4, 4),
    Step::Augment(9, &[((0, 4), 4), ((1, 2), 5)]),
    Step::Set(1, 4, 2),
    Step::Augment(10, &[((0, 1), 6), ((0, 4), 4)]),
];

/// The last pipe is narrowed below its flow.
const LOWERED: &[Step<'static>] = &[
    Step::Set(0, 1, 2),
    Step::Set(0, 2, 2),
    Step::Set(1, 3, 1),
    Step::Set(1, 4, 1),
    Step::Set(2, 3, 1),
    Step::Set(2, 4, 1),
    Step::Set(3, 5, 4),
    Step::Set(4, 3, 2),
    Step::Augment(4, &[((0, 1), 2), ((0, 2), 2)]),
    Step::Set(3, 5, 2),
    Step::Total(2),
    Step::Augment(2, &[((3, 5), 2)]),
];

/// Pipes that lead back, one of them from the sink to the source.
const BACKWARD: &[Step<'static>] = &[
    Step::Set(0, 1, 5),
    Step::Set(0, 3, 6),
    Step::Set(1, 2, 4),
    Step::Set(1, 4, 7),
    Step::Set(2, 3, 6),
    Step::Set(2, 5, 1),
    Step::Set(3, 0, 4),
    Step::Set(3, 2, 4),
    Step::Set(4, 5, 6),
    Step::Set(5, 0, 5),
    Step::Set(5, 3, 5),
    Step::Augment(6, &[((0, 1), 5), ((2, 5), 1)]),
];

/// Eight vertices, of which the least cut leaves two on the side of the sink.
const EIGHT: &[Step<'static>] = &[
    Step::Set(0, 1, 10),
    Step::Set(0, 3, 5),
    Step::Set(0, 5, 15),
    Step::Set(1, 2, 9),
    Step::Set(1, 3, 4),
    Step::Set(1, 4, 15),
    Step::Set(2, 4, 15),
    Step::Set(2, 7, 10),
    Step::Set(3, 1, 2),
    Step::Set(3, 4, 8),
    Step::Set(3, 5, 4),
    Step::Set(4, 6, 15),
    Step::Set(4, 7, 10),
    Step::Set(5, 6, 16),
    Step::Set(6, 3, 6),
    Step::Set(6, 7, 10),
    Step::Augment(29, &[((1, 2), 9), ((4, 7), 10), ((6, 7), 10)]),
];

/// Source and sink are one vertex.
const ONE_VERTEX: &[Step<'static>] = &[Step::Set(0, 0, 5), Step::Augment(0, &[]), Step::Flows(&[])];

/// Lists of calls, with vertices, source and sink.
const CASES: &[Case<'static>] = &[
    (4, 0, 3, NARROWED),
    (3, 0, 2, CLOSED),
    (5, 0, 4, REROUTED),
    (4, 0, 3, BOTH_WAYS),
    (2, 0, 1, REFUSED),
    (1, 0, 0, ONE_VERTEX),
    (4, 0, 3, WIDE),
    (7, 0, 6, GROWN),
    (6, 0, 3, BRANCHES),
    (6, 0, 5, LOWERED),
    (6, 0, 5, BACKWARD),
    (8, 0, 7, EIGHT),
    (2, 0, 1, &[Step::Augment(0, &[]), Step::Flows(&[])]),
];

/// Whether all calls of a case answer what is wanted of them.
fn is_case_done<S: EdmondsKarp<i64, Alloc = Global>>(
    alloc: Global,
    case: &Case<'_>,
) -> Result<bool, PathError> {
    let mut pipes: Pipes<S> = Pipes::new(alloc, case.0, case.1, case.2)?;
    for step in case.3 {
        if is_done(alloc, &mut pipes, step) != Ok(true) {
            return Ok(false);
        }
    }
    Ok(true)
}

#[test]
fn worked_lists_of_changes(rt: HostRuntime) {
    for (number, case) in CASES.iter().enumerate() {
        let dense = is_case_done::<DenseCapacity<i64>>(rt.alloc(), case);
        let sparse = is_case_done::<SparseCapacity<i64>>(rt.alloc(), case);
        assert!(rt; (dense, sparse) == (Ok(true), Ok(true)), "case {number}");
    }
}
