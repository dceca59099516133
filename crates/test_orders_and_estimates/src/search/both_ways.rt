//! Searches from both ends over tables that are laid out from lists of edges, with ample memory and
//! with each growth refused in turn.

use pf_adjacency::{AdjacencyError, AdjacencyList, BothWays};
use pf_base::PathError;
use pf_table_both_ends::{bfs_bidirectional, dijkstra_bidirectional};
use std::alloc::Global;
use std::process::Abort;
use test_allocator::Refusing;

/// An edge: from, to, cost.
type Edge = (usize, usize, u32);

/// An allocator that may refuse.
type Heap<'a> = &'a Refusing<Global>;

/// Edges, two nodes, a cheapest path from the one to the other with its cost, and how many nodes a path
/// with fewest edges has. No nodes where there is no path.
type Case<'a> = (&'a [Edge], usize, usize, &'a [usize], u32, usize);

/// Edges of which one cannot stand, and what they are refused as.
type Fault<'a> = (&'a [(usize, usize, i32)], AdjacencyError);

const NODES: usize = 8;

/// Two ways from 0 to 1, of which the one over 4 has fewer edges, and the other costs less.
const TWO_WAYS: &[Edge] = &[(0, 4, 5), (0, 2, 3), (4, 1, 5), (2, 3, 3), (3, 1, 3)];

/// A way from 0 to 1 that costs nothing, with cycles that cost nothing either.
const FREE: &[Edge] = &[
    (0, 2, 0),
    (2, 0, 0),
    (2, 3, 0),
    (3, 5, 0),
    (5, 2, 0),
    (3, 1, 0),
    (1, 5, 0),
    (0, 0, 0),
];

static CASES: [Case<'static>; 9] = [
    (TWO_WAYS, 0, 1, &[0, 2, 3, 1], 9, 3),
    (TWO_WAYS, 0, 0, &[0], 0, 1),
    (TWO_WAYS, 1, 0, &[], 0, 0),
    (FREE, 0, 1, &[0, 2, 3, 1], 0, 4),
    // Of parallel edges the cheapest counts.
    (
        &[(0, 2, 9), (0, 2, 2), (2, 1, 1), (2, 1, 4)],
        0,
        1,
        &[0, 2, 1],
        3,
        3,
    ),
    // A number that is no node has no edges.
    (TWO_WAYS, 9, 9, &[9], 0, 1),
    (TWO_WAYS, 9, 0, &[], 0, 0),
    (
        &[(0, 2, u32::MAX - 1), (2, 1, 1)],
        0,
        1,
        &[0, 2, 1],
        u32::MAX,
        3,
    ),
    // A sum that does not fit on the way back is no refusal.
    (
        &[(0, 1, 3), (7, 1, u32::MAX), (6, 7, 1)],
        0,
        1,
        &[0, 1],
        3,
        2,
    ),
];

static FAULTS: [Fault<'static>; 4] = [
    (
        &[(0, 1, 2), (8, 9, -1)],
        AdjacencyError::SourceOutside { edge: 1 },
    ),
    (&[(0, 8, -1)], AdjacencyError::TargetOutside { edge: 0 }),
    (
        &[(0, 1, -1), (9, 0, 0)],
        AdjacencyError::NegativeCost { edge: 0 },
    ),
    (
        &[(7, 7, 0), (7, 7, -3)],
        AdjacencyError::NegativeCost { edge: 1 },
    ),
];

/// Whether this path is answered at this cost, or none, where it has no nodes.
fn is_path(answer: &Option<(Vec<usize, Heap<'_>>, u32)>, path: &[usize], cost: u32) -> bool {
    match answer {
        Some((nodes, price)) => nodes.as_slice() == path && *price == cost,
        None => path.is_empty(),
    }
}

/// How many nodes a path has, 0 where there is none.
fn node_count(answer: &Option<Vec<usize, Heap<'_>>>) -> usize {
    match answer {
        Some(nodes) => nodes.len(),
        None => 0,
    }
}

/// The table of these edges.
fn laid_out<'a>(heap: Heap<'a>, edges: &[Edge]) -> Result<AdjacencyList<u32, Heap<'a>>, PathError> {
    match AdjacencyList::new(heap, NODES, edges) {
        Ok(graph) => Ok(graph),
        Err(AdjacencyError::OutOfMemory) => Err(PathError::OutOfMemory),
        Err(_) => Err(PathError::UnknownVertex),
    }
}

/// Whether both searches answer as they have to.
fn is_answered(heap: Heap<'_>, case: &Case<'_>) -> Result<bool, PathError> {
    let (edges, from, to, path, cost, fewest) = *case;
    let graph = laid_out(heap, edges)?;
    let both = BothWays::new(heap, &graph)?;
    let cheapest = dijkstra_bidirectional(heap, &both, from, to)?;
    let short = bfs_bidirectional(heap, &both, from, to)?;
    Ok(is_path(&cheapest, path, cost) && node_count(&short) == fewest)
}

/// Whether a case is answered as it has to be, and out of memory where one growth alone is refused.
fn refuses_each_growth(ample: Global, case: &Case<'_>) -> bool {
    for growth in 0..1_000u64 {
        let heap = Refusing::new(ample);
        heap.refuse(growth, 1);
        let answer = is_answered(&heap, case);
        if heap.pending() > 0 {
            return growth > 8 && answer == Ok(true);
        }
        if answer != Err(PathError::OutOfMemory) {
            return false;
        }
    }
    false
}

/// Whether edges are refused as this.
fn is_refused_as(ample: Global, fault: &Fault<'_>) -> bool {
    match AdjacencyList::new(ample, NODES, fault.0) {
        Ok(_) => false,
        Err(error) => error == fault.1,
    }
}

/// Whether edges without costs make a table, from 0 over 1 to 2.
fn makes_pairs(ample: Global) -> Result<bool, PathError> {
    let Ok(graph) = AdjacencyList::new(ample, 3, &[(0usize, 1usize), (1, 2)]) else {
        return Ok(false);
    };
    let both = BothWays::new(ample, &graph)?;
    let path = bfs_bidirectional(ample, &both, 0, 2)?;
    match path {
        Some(nodes) => Ok(nodes.as_slice() == [0, 1, 2].as_slice()),
        None => Ok(false),
    }
}

#[test]
fn tables_refuse_each_growth(rt: HostRuntime) {
    for (number, case) in CASES.iter().enumerate() {
        assert!(rt; refuses_each_growth(rt.alloc(), case), "case {number}");
    }
}

#[test]
fn edges_are_tested(rt: HostRuntime) {
    for (number, fault) in FAULTS.iter().enumerate() {
        assert!(rt; is_refused_as(rt.alloc(), fault), "fault {number}");
    }
    assert!(rt; makes_pairs(rt.alloc()) == Ok(true));
}
