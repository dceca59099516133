//! The callers over tables in which each node has a row, at numbers.

ghost use Rattle.std.specs.Prelude.{◌<◌, All, length, IsTrue};

use crate::preorder::{comes_in_rows, first_in_pairs};
use crate::reach::{Given, given_in_rows};
use crate::rows::{cheapest_in_rows, fewest_in_rows, leads_to_rows};
use crate::tests::answers::{is_cheapest, is_path};
use pf_base::PathError;
use pf_node_refs::NodeRefs;
use std::alloc::{AllocError, Global};

/// A table of these rows.
fn table_of<E: Copy>(alloc: Global, rows: &[&[E]]) -> Result<Vec<Vec<E>>, AllocError> {
    let mut table = Vec::new(alloc);
    for row in rows {
        table.push(row.to_vec(alloc)?)?;
    }
    Ok(table)
}

/// Whether each node of a table is one of its rows.
fn leads_inside(rows: &[Vec<usize>]) -> bool
    ensures { IsTrue result → All (λ row. All (λ n. n < length rows.now) row.items) rows.now }
{
    rows.iter().all(|row| row.iter().all(|n| *n < rows.len()))
}

/// The edges from three nodes.
const ROWS: &[&[(usize, u32)]] = &[&[(2, 9), (1, 3)], &[(2, 4), (0, 0)], &[(2, 0), (2, 1)]];

/// The cheapest paths to the node 2, and their costs.
const CHEAPEST: &[(&[usize], u32)] = &[(&[0, 1, 2], 7), (&[1, 2], 4)];

/// Whether this is a cheapest path to the node 2, at this cost.
fn is_way(alloc: Global, table: &[Vec<(usize, u32)>], path: &[usize], cost: u32) -> bool {
    let from = path.first().copied().unwrap_or(0);
    if from >= table.len() || !leads_to_rows(table) {
        return false;
    }
    is_cheapest(cheapest_in_rows(alloc, table, from, 2), Some((path, cost)))
}

#[test]
fn cheapest_paths(rt: HostRuntime) {
    let table = table_of(rt.alloc(), ROWS).expect(&rt, "memory");
    for (path, cost) in CHEAPEST {
        assert!(rt; is_way(rt.alloc(), &table, path, *cost), "{path:?}");
    }
}

/// The nodes after five nodes.
const NEXT: &[&[usize]] = &[&[1, 2], &[2, 3], &[3, 4], &[4, 4], &[4, 4]];

#[test]
fn fewest_edges(rt: HostRuntime) {
    let table = table_of(rt.alloc(), NEXT).expect(&rt, "memory");
    let starts = NodeRefs::from_one(rt.alloc(), &0usize).expect(&rt, "memory");
    assert!(rt; table.len() > 4 && leads_inside(&table));
    assert!(rt;
        is_path(
            fewest_in_rows(rt.alloc(), &table, &starts, 4),
            Some(&[0, 2, 4])
        )
    );
    assert!(rt; is_path(fewest_in_rows(rt.alloc(), &table, &starts, 5), None));
}

/// Each node up to 10 is followed by those that are greater by 2 and by 5, up to 10.
const BY_TWO_AND_FIVE: &[&[usize]] = &[
    &[2, 5],
    &[3, 6],
    &[4, 7],
    &[5, 8],
    &[6, 9],
    &[7, 10],
    &[8],
    &[9],
    &[10],
    &[],
    &[],
];

/// Each node up to 10 is followed by those that are greater by 1 and by 5, up to 10.
const BY_ONE_AND_FIVE: &[&[usize]] = &[
    &[1, 5],
    &[2, 6],
    &[3, 7],
    &[4, 8],
    &[5, 9],
    &[6, 10],
    &[7],
    &[8],
    &[9],
    &[10],
    &[],
];

/// Each number leads to its double and its triple, up to 14.
const DOUBLES_AND_TRIPLES: &[&[usize]] = &[
    &[0, 0],
    &[2, 3],
    &[4, 6],
    &[6, 9],
    &[8, 12],
    &[10],
    &[12],
    &[14],
    &[],
    &[],
    &[],
    &[],
    &[],
    &[],
    &[],
];

/// Whether these nodes come in the first `limit` steps of a walk in preorder from the first of them.
fn comes_in_preorder(alloc: Global, table: &[Vec<usize>], limit: usize, nodes: &[usize]) -> bool {
    let from = nodes.first().copied().unwrap_or(0);
    if from >= table.len() || !leads_inside(table) {
        return false;
    }
    comes_in_rows(alloc, table, from, limit, nodes) == Ok(true)
}

/// The nodes after each node, how many steps are taken from the first of some nodes, and these nodes,
/// which come in turn.
const PREORDERS: &[(&[&[usize]], usize, &[usize])] = &[
    (BY_TWO_AND_FIVE, 20, &[0, 2, 4, 6, 8, 10, 9, 7, 5]),
    (BY_TWO_AND_FIVE, 1, &[0]),
    (BY_ONE_AND_FIVE, 20, &[0, 1, 2, 3, 4, 5, 6, 7, 8, 9, 10]),
    (DOUBLES_AND_TRIPLES, 20, &[1, 2, 4, 8, 12, 6, 3, 9]),
];

/// The same in a table of these rows.
fn is_preorder(alloc: Global, rows: &[&[usize]], limit: usize, nodes: &[usize]) -> bool {
    match &table_of(alloc, rows) {
        Ok(table) => comes_in_preorder(alloc, table, limit, nodes),
        Err(_) => false,
    }
}

#[test]
fn preorders(rt: HostRuntime) {
    for (rows, limit, nodes) in PREORDERS {
        assert!(rt; is_preorder(rt.alloc(), rows, *limit, nodes), "{nodes:?}");
    }
}

/// Adds rows to a table in which each number but the last one, 200, leads to the next one, 200 times.
fn add_repeated_edges(alloc: Global, table: &mut Vec<Vec<usize>>) -> Result<(), AllocError> {
    for node in 1..201usize {
        table.push(vec![in alloc; node; 200]?)?;
    }
    table.push(Vec::new(alloc))?;
    Ok(())
}

#[test]
fn a_preorder_of_repeated_edges(rt: HostRuntime) {
    let mut table = Vec::new(rt.alloc());
    add_repeated_edges(rt.alloc(), &mut table).expect(&rt, "memory");
    let nodes: Vec<usize> = (0..201usize).collect(rt.alloc()).expect(&rt, "memory");
    assert!(rt; comes_in_preorder(rt.alloc(), &table, 300, &nodes));
}

/// From a number to its square and to the next one, up to 17.
const SQUARES: &[(u8, u8)] = &[
    (1, 1),
    (1, 2),
    (2, 4),
    (2, 3),
    (3, 9),
    (3, 4),
    (4, 16),
    (4, 5),
    (16, 17),
];

/// The same, the next number first.
const NEXT_OR_SQUARE: &[(u8, u8)] = &[
    (1, 2),
    (1, 1),
    (2, 3),
    (2, 4),
    (3, 4),
    (3, 9),
    (4, 5),
    (4, 16),
    (5, 6),
    (6, 7),
    (7, 8),
    (8, 9),
    (9, 10),
    (10, 11),
    (11, 12),
    (12, 13),
    (13, 14),
    (14, 15),
    (15, 16),
    (16, 17),
];

/// Edges, where a path begins and ends, and the first one in preorder.
const FIRST_PATHS: &[(&[(u8, u8)], u8, u8, Option<&[u8]>)] = &[
    (SQUARES, 1, 17, Some(&[1, 2, 4, 16, 17])),
    (SQUARES, 4, 2, None),
    (
        NEXT_OR_SQUARE,
        1,
        17,
        Some(&[1, 2, 3, 4, 5, 6, 7, 8, 9, 10, 11, 12, 13, 14, 15, 16, 17]),
    ),
];

#[test]
fn first_paths_in_preorder(rt: HostRuntime) {
    for (edges, from, to, want) in FIRST_PATHS {
        let first = first_in_pairs(rt.alloc(), edges, *from, *to);
        assert!(rt; is_path(first, *want), "from {from} to {to}");
    }
}

/// Whether this comes in the first `limit` steps of a walk by rising cost from the node 0.
fn comes_by_cost(
    alloc: Global,
    table: &[Vec<(usize, u32)>],
    limit: usize,
    want: Result<&[Given], PathError>,
) -> bool {
    if table.len() == 0 || !leads_to_rows(table) {
        return false;
    }
    match &given_in_rows(alloc, table, 0, limit) {
        Ok(given) => want == Ok(given.as_slice()),
        Err(refusal) => want == Err(*refusal),
    }
}

/// A table in which a step does not fit where its node comes third.
const DEAR: &[&[(usize, u32)]] = &[&[(1, 1), (2, u32::MAX - 9)], &[], &[(3, 10)], &[]];

/// The edges from each node, how many steps are taken, and what comes in them.
type Steps = (
    &'static [&'static [(usize, u32)]],
    usize,
    Result<&'static [Given], PathError>,
);

const STEPS: &[Steps] = &[
    (
        &[&[(1, 2), (2, 5)], &[(2, 2)], &[]],
        9,
        Ok(&[(0, None, 0), (1, Some(0), 2), (2, Some(1), 4)]),
    ),
    (DEAR, 2, Ok(&[(0, None, 0), (1, Some(0), 1)])),
    (DEAR, 3, Err(PathError::CostOverflow)),
];

/// A table in which each number up to 100 leads to the next one at cost 1, and to its double at its own
/// cost.
fn numbers(alloc: Global) -> Result<Vec<Vec<(usize, u32)>>, AllocError> {
    let mut table = Vec::new(alloc);
    for cost in 0..100u32 {
        let number = cost as usize;
        table.push(vec![in alloc; (number + 1, 1)]?)?;
        if let (true, Some(row)) = (number <= 50, table.last_mut()) {
            row.push((number * 2, cost))?;
        }
    }
    table.push(Vec::new(alloc))?;
    Ok(table)
}

/// Whether a walk by rising cost gives the numbers in their order, each at its own cost.
fn come_in_order(alloc: Global, table: &[Vec<(usize, u32)>]) -> bool {
    if table.len() == 0 || !leads_to_rows(table) {
        return false;
    }
    let Ok(given) = &given_in_rows(alloc, table, 0, 200) else {
        return false;
    };
    for (number, item) in given.iter().enumerate() {
        if item.0 != number || item.2 as usize != number {
            return false;
        }
    }
    given.len() == table.len()
}

#[test]
fn numbers_cost_themselves(rt: HostRuntime) {
    let table = numbers(rt.alloc()).expect(&rt, "memory");
    assert!(rt; table.len() == 101 && come_in_order(rt.alloc(), &table));
}

/// Whether the steps of a row come in a table of its edges.
fn are_steps(alloc: Global, steps: &Steps) -> bool {
    let (rows, limit, want) = *steps;
    match &table_of(alloc, rows) {
        Ok(table) => comes_by_cost(alloc, table, limit, want),
        Err(_) => false,
    }
}

#[test]
fn nodes_by_rising_cost(rt: HostRuntime) {
    for (number, steps) in STEPS.iter().enumerate() {
        assert!(rt; are_steps(rt.alloc(), steps), "row {number}");
    }
}
