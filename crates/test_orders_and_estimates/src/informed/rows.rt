//! Rows: a search over a list of edges, and what it has to answer, with ample memory and with each
//! growth refused in turn.

use crate::informed::listed::{Call, Edge, ONE_PATH, Task, all_cost, searched};
use crate::informed::seen::{Answer, Lists};
use pf_base::PathError;
use std::alloc::{AllocError, Global};
use std::process::Abort;
use test_allocator::Refusing;

/// A search, what its paths cost, where there are any, and all cheapest paths.
type Row<'a> = (Task<'a>, Option<u8>, Lists<'a>);

/// Edges, from where to which of two goals a path is searched, what it costs, and all cheapest paths,
/// searched without estimates.
type Plain<'a> = (&'a [Edge], usize, (usize, usize), Option<u8>, Lists<'a>);

/// Ways from 0 to 3 over 1 and over 2, of which the estimate at 2 hides the cheaper one.
const HIDDEN: &[Edge] = &[(0, 1, 3), (0, 2, 1), (2, 1, 1), (1, 3, 10)];

/// Two ways round a cycle that costs nothing, 1 and 2, from 0 to 3.
const FREE_CYCLE: &[Edge] = &[
    (0, 1, 0),
    (0, 2, 0),
    (1, 2, 0),
    (1, 3, 0),
    (2, 1, 0),
    (2, 3, 0),
];

/// The rows with estimates.
static ROWS: [Row<'static>; 3] = [
    // Five nodes, of which the nearest to 0 is on a dearer way to 3.
    (
        Task {
            edges: &[
                (0, 1, 4),
                (0, 4, 2),
                (1, 4, 1),
                (1, 2, 5),
                (4, 2, 8),
                (4, 3, 10),
                (2, 3, 2),
            ],
            from: 0,
            goals: (3, 3),
            estimates: &[1, 1, 1, 0, 1],
            bounds: &[11, 7, 2, 0, 10],
        },
        Some(11),
        &[&[0, 1, 2, 3]],
    ),
    (
        Task {
            edges: HIDDEN,
            from: 0,
            goals: (3, 3),
            estimates: &[0, 0, 11, 0],
            bounds: &[12, 10, 11, 0],
        },
        Some(12),
        &[&[0, 2, 1, 3]],
    ),
    // The greatest cost that fits.
    (
        Task {
            edges: &[(0, 1, 250), (1, 2, 5)],
            from: 0,
            goals: (2, 2),
            estimates: &[0, 5, 0],
            bounds: &[255, 5, 0],
        },
        Some(255),
        &[&[0, 1, 2]],
    ),
];

/// The rows without estimates.
static PLAIN_ROWS: [Plain<'static>; 7] = [
    (
        &[
            (1, 2, 1),
            (1, 3, 1),
            (2, 4, 3),
            (2, 5, 1),
            (3, 4, 3),
            (3, 5, 1),
            (5, 6, 1),
            (6, 7, 1),
        ],
        1,
        (4, 7),
        Some(4),
        &[&[1, 2, 4], &[1, 2, 5, 6, 7], &[1, 3, 4], &[1, 3, 5, 6, 7]],
    ),
    (
        &[(0, 1, 0), (0, 2, 1), (1, 0, 0), (1, 2, 1)],
        0,
        (2, 2),
        Some(1),
        &[&[0, 1, 2], &[0, 2]],
    ),
    (
        FREE_CYCLE,
        0,
        (3, 3),
        Some(0),
        &[&[0, 1, 2, 3], &[0, 1, 3], &[0, 2, 1, 3], &[0, 2, 3]],
    ),
    (
        &[(0, 1, 1), (0, 2, 1), (1, 2, 0)],
        0,
        (1, 2),
        Some(1),
        &[&[0, 1], &[0, 2]],
    ),
    (
        &[(0, 0, 0), (0, 1, 0), (1, 0, 0)],
        0,
        (0, 0),
        Some(0),
        &[&[0]],
    ),
    (
        &[(0, 1, 5), (0, 1, 2), (0, 1, 2), (1, 2, 3)],
        0,
        (2, 2),
        Some(5),
        &[&[0, 1, 2]],
    ),
    (FREE_CYCLE, 3, (0, 0), None, &[]),
];

/// A row without estimates as one with estimates of 0.
fn row_of<'a>(plain: &Plain<'a>) -> Row<'a> {
    let (edges, from, goals, cost, paths) = *plain;
    let task = Task {
        edges,
        from,
        goals,
        estimates: &[],
        bounds: &[],
    };
    (task, cost, paths)
}

/// Whether an answer is what the row says of this call.
fn is_right(answer: Answer, call: Call, row: &Row<'_>) -> bool {
    let count = match call {
        Call::Gathered | Call::Steps => row.2.len(),
        _ => 1,
    };
    match (answer, row.1) {
        (Ok(Some(seen)), Some(cost)) => seen == (cost, count, true),
        (Ok(None), None) => true,
        _ => false,
    }
}

/// How many growths a call makes, and in how many runs with one of these refused alone it goes on, if
/// each such run answers out of memory, or what the row says where a refused step can be made again.
fn growths_of(ample: Global, call: Call, row: &Row<'_>) -> Option<(u64, u64)> {
    let mut resumed = 0u64;
    for growth in 0..1_000u64 {
        let heap = Refusing::new(ample);
        heap.refuse(growth, 1);
        let answer = searched(&heap, ample, call, &row.0, row.2)?;
        let is_right = is_right(answer, call, row);
        if heap.pending() > 0 {
            return if is_right {
                Some((growth, resumed))
            } else {
                None
            };
        }
        if matches!(call, Call::Steps) && is_right {
            resumed = resumed.saturating_add(1);
        } else if answer != Err(PathError::OutOfMemory) {
            return None;
        }
    }
    None
}

/// The number of the first call that does not refuse each growth of a row or does not answer what the
/// row says, of the calls that answer all paths too where they are asked for.
fn first_fault(ample: Global, row: &Row<'_>) -> Option<Call> {
    for call in &CALLS {
        if growths_of(ample, *call, row).is_none() {
            return Some(*call);
        }
    }
    None
}

/// Each of the calls.
static CALLS: [Call; 5] = [
    Call::Astar,
    Call::Fringe,
    Call::Idastar,
    Call::Gathered,
    Call::Steps,
];

#[test]
fn rows_with_estimates_refuse_each_growth(rt: HostRuntime) {
    for (number, row) in ROWS.iter().enumerate() {
        let fault = first_fault(rt.alloc(), row);
        assert!(rt; fault.is_none(), "row {number}: {fault:?}");
    }
}

#[test]
fn rows_without_estimates_refuse_each_growth(rt: HostRuntime) {
    for (number, plain) in PLAIN_ROWS.iter().enumerate() {
        let fault = first_fault(rt.alloc(), &row_of(plain));
        assert!(rt; fault.is_none(), "row {number}: {fault:?}");
    }
}

/// How often the calls are refused, and how often the steps of a walk.
#[test]
fn each_call_makes_growths(rt: HostRuntime) {
    let row = &ROWS[1];
    for call in &ONE_PATH {
        let made = growths_of(rt.alloc(), *call, row);
        assert!(rt; matches!(made, Some((9.., _))), "{call:?}: {made:?}");
    }
    let row = row_of(&PLAIN_ROWS[2]);
    let made = growths_of(rt.alloc(), Call::Gathered, &row);
    assert!(rt; matches!(made, Some((21.., _))), "{made:?}");
    let made = growths_of(rt.alloc(), Call::Steps, &row);
    assert!(rt; matches!(made, Some((15.., 5..))), "{made:?}");
}

/// A cost past the range on the only way to the goal is told, and a sum with an estimate past it where
/// there is no way is not.
#[test]
fn costs_past_the_range(rt: HostRuntime) {
    let heap = Refusing::new(rt.alloc());
    let dear = Task {
        edges: &[(0, 1, 250), (1, 2, 6)],
        from: 0,
        goals: (2, 2),
        estimates: &[],
        bounds: &[],
    };
    for call in &CALLS {
        let answer = searched(&heap, rt.alloc(), *call, &dear, &[]);
        assert!(rt; answer == Some(Err(PathError::CostOverflow)), "{call:?}");
    }
    let hopeless = Task {
        edges: &[(0, 1, 250), (0, 1, 1)],
        from: 0,
        goals: (2, 2),
        estimates: &[11, 10, 0],
        bounds: &[11, 10, 0],
    };
    let answer = searched(&heap, rt.alloc(), Call::Idastar, &hopeless, &[]);
    assert!(rt; answer == Some(Ok(None)));
}

/// From 0 to 30, from each number to the next one, and from one that is not 2 more than a multiple of 3
/// to the one after that, each at the cost 1.
fn rungs(ample: Global) -> Result<Vec<Edge>, AllocError> {
    let mut edges = Vec::new(ample);
    for node in 0..30usize {
        edges.push((node, node + 1, 1))?;
        if node % 3 != 2 {
            edges.push((node, node + 2, 1))?;
        }
    }
    Ok(edges)
}

#[test]
fn a_thousand_paths_are_different(rt: HostRuntime) {
    let edges = rungs(rt.alloc()).expect(&rt, "memory for the edges");
    let mut halves = [0u8; 31];
    for node in 0..31u8 {
        halves[usize::from(node)] = (30 - node) / 2;
    }
    let heap = Refusing::new(rt.alloc());
    let task = Task {
        edges: &edges,
        from: 0,
        goals: (30, 30),
        estimates: &halves,
        bounds: &halves,
    };
    let answer = searched(&heap, rt.alloc(), Call::Gathered, &task, &[]);
    assert!(rt; answer == Some(Ok(Some((20, 1024, true)))));
}

/// The moves of a knight between the 64 fields of a board, each at the cost 1.
fn knight_moves(ample: Global) -> Result<Vec<Edge>, AllocError> {
    let mut moves = Vec::new(ample);
    for from in 0..64usize {
        for to in 0..64usize {
            let steps = ((from / 8).abs_diff(to / 8), (from % 8).abs_diff(to % 8));
            if matches!(steps, (1, 2) | (2, 1)) {
                moves.push((from, to, 1))?;
            }
        }
    }
    Ok(moves)
}

/// From the field in row 1 and column 1 to that in row 4 and column 6.
#[test]
fn a_knight_needs_four_moves(rt: HostRuntime) {
    let moves = knight_moves(rt.alloc()).expect(&rt, "memory for the moves");
    let mut estimates = [0u8; 64];
    for field in 0..64u8 {
        let steps = (field / 8)
            .abs_diff(4)
            .saturating_add((field % 8).abs_diff(6));
        estimates[usize::from(field)] = steps / 3;
    }
    let heap = Refusing::new(rt.alloc());
    let task = Task {
        edges: &moves,
        from: 9,
        goals: (38, 38),
        estimates: &estimates,
        bounds: &estimates,
    };
    assert!(rt; moves.len() == 336 && all_cost(&heap, rt.alloc(), &task, Some(4)));
}
