//! Searches over graphs in tables that estimates lead: their answers, each growth refused in turn, and
//! the faults of estimates.

use pf_base::PathError;
use pf_table_estimates::{
    EstimateError, Estimates, astar, astar_bag, astar_bag_collect, fringe, idastar,
};
use pf_tables::Rows;
use std::alloc::Global;
use std::process::Abort;
use test_allocator::Refusing;

/// A row of edges, each as the node that it leads to and its cost.
type Edges = &'static [(usize, i32)];

/// From the node 0 two ways of the same cost lead to the node 3, and a dear edge; none leads on from the
/// node 4.
const ROWS: &[Edges] = &[
    &[(1, 1), (2, 2), (3, 9)],
    &[(3, 4)],
    &[(3, 3), (4, 1)],
    &[],
    &[],
];

/// What remains from each node of `ROWS` to the node 3, and a number at the node 4.
const REMAINING: &[i32] = &[5, 4, 3, 0, 9];

/// Estimates of the nodes of `ROWS`, and the first fault where the node 3 is the goal.
const FAULTS: &[(&[i32], EstimateError)] = &[
    (&[5, 4, 3, 0], EstimateError::WrongNumberOfEstimates),
    (
        &[6, -1, 3, 1, 9],
        EstimateError::NegativeEstimate { node: 1 },
    ),
    (&[6, 4, 3, 1, -1], EstimateError::EstimateAtGoal { node: 3 }),
    (
        &[6, 4, 4, 0, 9],
        EstimateError::EstimateAboveEdge { node: 0, place: 0 },
    ),
    (
        &[5, 4, 4, 0, 9],
        EstimateError::EstimateAboveEdge { node: 2, place: 0 },
    ),
    (
        &[5, 4, 3, 0, 1],
        EstimateError::EstimateAboveEdge { node: 2, place: 1 },
    ),
];

/// Two nodes, each with an edge to the other, of which one costs as much as the type holds.
const DEAR: &[Edges] = &[&[(1, 2_147_483_647)], &[(0, 1)]];

/// A graph in a table of rows.
type Table = Rows<'static, Edges, i32>;

/// The heap that refuses growths.
type Heap<'h> = &'h Refusing<Global>;

/// A call that estimates lead.
#[derive(Clone, Copy, Debug)]
enum Call {
    /// `astar`.
    Astar,
    /// `fringe`.
    Fringe,
    /// `idastar`.
    Idastar,
    /// `astar_bag`, of which the number of paths is taken.
    Bag,
    /// `astar_bag_collect`.
    Gathered,
}

/// Each call.
const CALLS: &[Call] = &[
    Call::Astar,
    Call::Fringe,
    Call::Idastar,
    Call::Bag,
    Call::Gathered,
];

/// Whether the answer is one of the two cheapest ways in `ROWS`.
fn is_cheapest(
    answer: Result<Option<(Vec<usize, Heap<'_>>, i32)>, PathError>,
) -> Result<bool, PathError> {
    let answer = answer?;
    Ok(
        matches!(&answer, Some((path, 5)) if path.as_slice() == [0, 1, 3].as_slice() || path.as_slice() == [0, 2, 3].as_slice()),
    )
}

/// Whether both cheapest ways in `ROWS` are given, one after the other.
fn are_both(
    heap: Heap<'_>,
    estimates: &Estimates<'_, i32, Table, usize>,
) -> Result<bool, PathError> {
    let Some((mut paths, cost)) = astar_bag(heap, estimates, 0)? else {
        return Ok(false);
    };
    let mut count = 0u64;
    for path in &mut paths {
        if path?.len() == 3 {
            count = count.saturating_add(1);
        }
    }
    Ok(cost == 5 && count == 2)
}

/// Whether both cheapest ways in `ROWS` are gathered.
fn are_gathered(
    answer: Result<Option<(Vec<Vec<usize, Heap<'_>>, Heap<'_>>, i32)>, PathError>,
) -> Result<bool, PathError> {
    let answer = answer?;
    Ok(matches!(&answer, Some((paths, 5)) if paths.len() == 2))
}

/// Whether a call over `ROWS` answers the only right answer.
fn is_right(
    heap: Heap<'_>,
    estimates: &Estimates<'_, i32, Table, usize>,
    call: Call,
) -> Result<bool, PathError> {
    match call {
        Call::Astar => is_cheapest(astar(heap, estimates, 0)),
        Call::Fringe => is_cheapest(fringe(heap, estimates, 0)),
        Call::Idastar => is_cheapest(idastar(heap, estimates, 0)),
        Call::Bag => are_both(heap, estimates),
        Call::Gathered => are_gathered(astar_bag_collect(heap, estimates, 0)),
    }
}

/// Runs a call with growth 0, 1, 2, .. refused alone, until a run meets no refusal, and answers how
/// many growths that run made. Each run before it has to answer that it was out of memory.
fn refuse_each_growth(
    rt: &impl Abort,
    ample: Global,
    estimates: &Estimates<'_, i32, Table, usize>,
    call: Call,
) -> u64 {
    for growth in 0..1_000u64 {
        let heap = Refusing::new(ample);
        heap.refuse(growth, 1);
        let answer = is_right(&heap, estimates, call);
        if heap.pending() > 0 {
            assert!(rt; matches!(answer, Ok(true)), "{call:?} with no refusal");
            return growth;
        }
        assert!(rt;
            matches!(answer, Err(PathError::OutOfMemory)),
            "{call:?}, growth {growth}"
        );
    }
    panic!(rt; "every run of {call:?} met a refusal")
}

#[test]
fn calls_over_tables_refuse_each_growth(rt: HostRuntime) {
    let graph: Table = Rows::new(ROWS).expect(&rt, "a graph");
    let estimates = Estimates::new(&graph, 3, REMAINING).expect(&rt, "estimates");
    for call in CALLS {
        let growths = refuse_each_growth(&rt, rt.alloc(), &estimates, *call);
        assert!(rt; growths >= 6, "{call:?} makes {growths} growths");
    }
}

/// The fault of estimates of the nodes of a table, where there is one.
fn fault_of(graph: &Table, goal: usize, estimates: &[i32]) -> Option<EstimateError> {
    Estimates::new(graph, goal, estimates).err()
}

#[test]
fn the_first_fault_is_named(rt: HostRuntime) {
    let graph: Table = Rows::new(ROWS).expect(&rt, "a graph");
    for (number, (estimates, fault)) in FAULTS.iter().enumerate() {
        let found = fault_of(&graph, 3, estimates);
        assert!(rt; found == Some(*fault), "case {number}: {found:?}");
    }
    // A sum that does not fit is above every estimate.
    let graph: Table = Rows::new(DEAR).expect(&rt, "a graph");
    let found = fault_of(&graph, 2, &[2_147_483_647, 2_147_483_647]);
    assert!(rt; found.is_none(), "{found:?}");
}
