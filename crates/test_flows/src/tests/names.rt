//! Networks whose vertices have names, with both stores.

use pf_base::PathError;
use pf_flow::edmonds_karp::{DenseCapacity, EKFlows, Edge, edmonds_karp, edmonds_karp_sparse};
use std::alloc::Global;
use std::cell::Cell;

/// Edges between vertices, or flows, or a cut.
type Edges<'a> = &'a [Edge<u32, i64>];

/// Flows, total and cut, or a refusal.
type Wanted<'a> = Result<(Edges<'a>, i64, Edges<'a>), PathError>;

/// Source, sink, edges, how many of these are asked for, and what is wanted for them.
type Row<'a> = (u32, u32, Edges<'a>, usize, Wanted<'a>);

/// The vertices, of which one is listed twice.
const PLACES: &[u32] = &[40, 10, 40, 30, 20];

const ROWS: &[Row<'static>] = &[
    // from 10 over 40 and 30 to 20
    (
        10,
        20,
        &[
            ((10, 40), 3),
            ((10, 30), 2),
            ((40, 30), 1),
            ((40, 20), 2),
            ((30, 20), 3),
        ],
        5,
        Ok((
            &[
                ((40, 30), 1),
                ((40, 20), 2),
                ((10, 40), 3),
                ((10, 30), 2),
                ((30, 20), 3),
            ],
            5,
            &[((10, 40), 3), ((10, 30), 2)],
        )),
    ),
    // the last capacity of a pair counts
    (
        10,
        20,
        &[((10, 20), 7), ((10, 20), 4)],
        2,
        Ok((&[((10, 20), 4)], 4, &[((10, 20), 4)])),
    ),
    // so does its share of the sum
    (
        10,
        20,
        &[((10, 20), i64::MAX), ((10, 20), 1), ((20, 10), 2)],
        3,
        Ok((&[((10, 20), 1)], 1, &[((10, 20), 1)])),
    ),
    // source and sink are one vertex
    (10, 10, &[((10, 20), 7)], 1, Ok((&[], 0, &[]))),
    // a source that is not listed, before an edge that is refused
    (50, 20, &[((10, 20), -1)], 0, Err(PathError::UnknownVertex)),
    // a sink that is not listed
    (10, 50, &[((10, 20), -1)], 0, Err(PathError::UnknownVertex)),
    // the end of an edge that is not listed, before its capacity
    (10, 20, &[((10, 50), -1)], 1, Err(PathError::UnknownVertex)),
    // edges behind one that is refused are not asked for
    (
        10,
        20,
        &[((10, 40), 3), ((40, 50), 1), ((40, 20), 2)],
        2,
        Err(PathError::UnknownVertex),
    ),
    (
        10,
        20,
        &[((10, 20), 1), ((20, 10), -1), ((50, 10), 1)],
        2,
        Err(PathError::NegativeCapacity),
    ),
    (
        10,
        20,
        &[((10, 20), i64::MAX), ((20, 10), 1), ((20, 10), -1)],
        2,
        Err(PathError::CostOverflow),
    ),
];

/// Eight vertices, of which the last stands in no edge.
const EIGHT: &[u32] = &[1, 2, 3, 4, 5, 6, 7, 8];

const ROW_OF_EIGHT: Row<'static> = (
    1,
    7,
    &[
        ((1, 2), 3),
        ((1, 4), 3),
        ((2, 3), 4),
        ((3, 1), 3),
        ((3, 4), 1),
        ((3, 5), 2),
        ((4, 5), 2),
        ((4, 6), 6),
        ((5, 2), 1),
        ((5, 7), 1),
        ((6, 7), 9),
    ],
    11,
    Ok((
        &[
            ((1, 2), 2),
            ((1, 4), 3),
            ((2, 3), 2),
            ((3, 4), 1),
            ((3, 5), 1),
            ((4, 6), 4),
            ((5, 7), 1),
            ((6, 7), 4),
        ],
        5,
        &[((1, 4), 3), ((3, 4), 1), ((5, 7), 1)],
    )),
);

/// Whether this is the answer that is wanted.
fn is_wanted(answer: Result<EKFlows<u32, i64>, PathError>, wanted: Wanted<'_>) -> bool {
    match (answer, wanted) {
        (Ok((flows, total, cut)), Ok((carried, amount, leaving))) => {
            flows.as_slice() == carried && total == amount && cut.as_slice() == leaving
        }
        (Err(refusal), Err(cause)) => refusal == cause,
        _ => false,
    }
}

/// Whether both stores answer what is wanted, and ask for as many edges as they should.
fn is_as_wanted(alloc: Global, places: &[u32], row: &Row<'_>) -> bool {
    let (source, sink, edges, asked, wanted) = row;
    let count = Cell::new(0usize);
    let counted = |edge: &Edge<u32, i64>| {
        count.set(count.get().wrapping_add(1));
        *edge
    };
    let dense = edmonds_karp::<_, _, _, DenseCapacity<i64>>(
        alloc,
        places,
        source,
        sink,
        edges.iter().map(counted),
    );
    let sparse = edmonds_karp_sparse(alloc, places, source, sink, edges.iter().map(counted));
    is_wanted(dense, *wanted) && is_wanted(sparse, *wanted) && count.get() == asked.wrapping_mul(2)
}

#[test]
fn worked_rows_of_names(rt: HostRuntime) {
    for (number, row) in ROWS.iter().enumerate() {
        assert!(rt; is_as_wanted(rt.alloc(), PLACES, row), "row {number}");
    }
    assert!(rt; is_as_wanted(rt.alloc(), EIGHT, &ROW_OF_EIGHT));
}
