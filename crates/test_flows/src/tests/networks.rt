//! Stores that are made of numbered edges, and networks of vertices with names, with each growth
//! refused in turn.

use pf_base::PathError;
use pf_flow::edmonds_karp::{DenseCapacity, Edge, EdmondsKarp, SparseCapacity};
use pf_flow_networks::FlowNetwork;
use std::alloc::{Allocator, Global};
use std::process::Abort;
use test_allocator::Refusing;

/// Edges between vertices, or flows, or a cut.
type Edges<'a, N> = &'a [Edge<N, i64>];

/// A source, a sink, edges between four vertices, and the total and the cut that are wanted.
type Row<'a> = (
    usize,
    usize,
    Edges<'a, usize>,
    Result<(i64, Edges<'a, usize>), PathError>,
);

const ROWS: &[Row<'static>] = &[
    // from 0 over 1 and 2 to 3
    (
        0,
        3,
        &[
            ((0, 1), 3),
            ((0, 2), 2),
            ((1, 2), 1),
            ((1, 3), 2),
            ((2, 3), 3),
        ],
        Ok((5, &[((0, 1), 3), ((0, 2), 2)])),
    ),
    // the last capacity of a pair counts, and so does its share of the sum
    (
        0,
        3,
        &[((0, 3), i64::MAX), ((0, 3), 1), ((3, 0), 2)],
        Ok((1, &[((0, 3), 1)])),
    ),
    // source and sink are one vertex
    (0, 0, &[((0, 1), 7)], Ok((0, &[]))),
    // a source or a sink that is no vertex, before an edge that is refused
    (4, 3, &[((0, 1), -1)], Err(PathError::UnknownVertex)),
    (0, 4, &[((0, 1), -1)], Err(PathError::UnknownVertex)),
    // an end that is no vertex, before its capacity
    (0, 3, &[((4, 0), -1)], Err(PathError::UnknownVertex)),
    (0, 3, &[((0, 4), -1)], Err(PathError::UnknownVertex)),
    // the first edge that gives cause
    (
        0,
        3,
        &[((0, 1), 1), ((1, 3), -1), ((0, 4), 1)],
        Err(PathError::NegativeCapacity),
    ),
    (
        0,
        3,
        &[((0, 1), i64::MAX), ((1, 0), 1), ((1, 0), -1)],
        Err(PathError::CostOverflow),
    ),
];

/// Places, of which one is listed twice.
const PLACES: &[char] = &['s', 'a', 's', 'b', 't'];

/// A change of a capacity, how it ends, and then the flows, the total and the cut.
type Change<'a> = (
    Edge<char, i64>,
    Result<(), PathError>,
    Edges<'a, char>,
    i64,
    Edges<'a, char>,
);

const CHANGES: &[Change<'static>] = &[
    ((('s', 'a'), 4), Ok(()), &[], 0, &[]),
    (
        (('a', 't'), 3),
        Ok(()),
        &[(('s', 'a'), 3), (('a', 't'), 3)],
        3,
        &[(('a', 't'), 3)],
    ),
    // by another way too
    (
        (('a', 'b'), 1),
        Ok(()),
        &[(('s', 'a'), 3), (('a', 't'), 3)],
        3,
        &[(('a', 't'), 3)],
    ),
    (
        (('b', 't'), 2),
        Ok(()),
        &[
            (('s', 'a'), 4),
            (('a', 'b'), 1),
            (('a', 't'), 3),
            (('b', 't'), 1),
        ],
        4,
        &[(('s', 'a'), 4)],
    ),
    // below the flow
    (
        (('a', 't'), 0),
        Ok(()),
        &[(('s', 'a'), 1), (('a', 'b'), 1), (('b', 't'), 1)],
        1,
        &[(('a', 'b'), 1)],
    ),
    // what is refused changes nothing
    (
        (('s', 'x'), -1),
        Err(PathError::UnknownVertex),
        &[(('s', 'a'), 1), (('a', 'b'), 1), (('b', 't'), 1)],
        1,
        &[(('a', 'b'), 1)],
    ),
    (
        (('x', 's'), -1),
        Err(PathError::UnknownVertex),
        &[(('s', 'a'), 1), (('a', 'b'), 1), (('b', 't'), 1)],
        1,
        &[(('a', 'b'), 1)],
    ),
    (
        (('s', 'a'), -1),
        Err(PathError::NegativeCapacity),
        &[(('s', 'a'), 1), (('a', 'b'), 1), (('b', 't'), 1)],
        1,
        &[(('a', 'b'), 1)],
    ),
    (
        (('t', 's'), i64::MAX),
        Err(PathError::CostOverflow),
        &[(('s', 'a'), 1), (('a', 'b'), 1), (('b', 't'), 1)],
        1,
        &[(('a', 'b'), 1)],
    ),
];

/// Whether a store of the edges of a row has the total and the cut that are wanted.
fn is_made<A: Allocator + Copy, S: EdmondsKarp<i64, Alloc = A>>(
    alloc: A,
    row: &Row<'_>,
) -> Result<bool, PathError> {
    let mut store = S::from_edges(alloc, 4, row.0, row.1, row.2)?;
    let (_, total, cut) = store.augment(alloc)?;
    Ok(match row.3 {
        Ok((amount, leaving)) => total == amount && cut.as_slice() == leaving,
        Err(_) => false,
    })
}

/// Whether a row ends as it should.
fn is_as_wanted(answer: Result<bool, PathError>, row: &Row<'_>) -> bool {
    match (answer, row.3) {
        (Ok(same), Ok(_)) => same,
        (Err(refusal), Err(cause)) => refusal == cause,
        _ => false,
    }
}

/// Whether a change of a network ends as it should, with the flows, total and cut that are wanted.
fn is_changed<A: Allocator + Copy>(
    alloc: A,
    network: &mut FlowNetwork<char, i64, SparseCapacity<i64, A>>,
    change: &Change<'_>,
) -> Result<bool, PathError> {
    let ((from, to), capacity) = &change.0;
    let set = network.set_capacity(alloc, from, to, *capacity);
    if set != change.1 {
        return set.map(|()| false);
    }
    let (flows, total, cut) = network.augment(alloc)?;
    let listed = network.flows(alloc)?;
    Ok(
        flows.as_slice() == change.2
            && listed.as_slice() == change.2
            && total == change.3
            && network.total() == change.3
            && cut.as_slice() == change.4,
    )
}

/// Whether all changes of a network end as they should.
fn are_changed<A: Allocator + Copy>(alloc: A) -> Result<bool, PathError> {
    let mut network = FlowNetwork::new(alloc, PLACES, &'s', &'t')?;
    for change in CHANGES {
        if !is_changed(alloc, &mut network, change)? {
            return Ok(false);
        }
    }
    Ok(
        network.capacity_sum() == 7
            && network.flow(&'b', &'a') == Ok(-1)
            && network.residual_capacity(&'s', &'a') == Ok(3)
            && network.flow(&'x', &'a') == Err(PathError::UnknownVertex)
            && network.residual_capacity(&'a', &'x') == Err(PathError::UnknownVertex)
            && network.names() == ['s', 'a', 'b', 't'].as_slice(),
    )
}

/// Which calls are made with refused growths.
#[derive(Clone, Copy, Debug)]
enum Calls {
    Dense,
    Sparse,
    Named,
}

/// Makes the calls.
fn run<A: Allocator + Copy>(alloc: A, calls: Calls) -> Result<bool, PathError> {
    match calls {
        Calls::Dense => is_made::<A, DenseCapacity<i64, A>>(alloc, &ROWS[0]),
        Calls::Sparse => is_made::<A, SparseCapacity<i64, A>>(alloc, &ROWS[0]),
        Calls::Named => are_changed(alloc),
    }
}

/// How many growths the calls make, where each run with one of them refused answers that it was out of
/// memory.
fn refuse_each_growth(rt: &impl Abort, ample: Global, calls: Calls) -> u64 {
    for growth in 0..1_000u64 {
        let heap = Refusing::new(ample);
        heap.refuse(growth, 1);
        let answer = run(&heap, calls);
        if heap.pending() > 0 {
            assert!(rt; answer == Ok(true), "{calls:?} with no refusal");
            return growth;
        }
        assert!(rt;
            answer == Err(PathError::OutOfMemory),
            "{calls:?}, growth {growth}"
        );
    }
    panic!(rt; "every run of {calls:?} met a refusal")
}

#[test]
fn edges_and_names_make_networks(rt: HostRuntime) {
    let alloc = rt.alloc();
    for (number, row) in ROWS.iter().enumerate() {
        let dense = is_made::<Global, DenseCapacity<i64>>(alloc, row);
        let sparse = is_made::<Global, SparseCapacity<i64>>(alloc, row);
        assert!(rt;
            is_as_wanted(dense, row) && is_as_wanted(sparse, row),
            "row {number}"
        );
    }
    for calls in &[Calls::Dense, Calls::Sparse, Calls::Named] {
        let growths = refuse_each_growth(&rt, alloc, *calls);
        assert!(rt; growths >= 4, "{calls:?} makes {growths} growths");
    }
}
