//! Rows: a search over a list of edges, and what it has to answer, with ample memory and with each
//! growth refused in turn.

use crate::search::lists::{Edge, Found, Heap, Mapped, Search, cheapest, mapped};
use crate::search::parents::halved_to;
use pf_base::PathError;
use pf_search::directed::dijkstra::Parents;
use std::alloc::{AllocError, Global};
use std::cell::Cell;
use std::process::Abort;
use test_allocator::Refusing;

/// A node, its parent, and what a path to it costs.
type Entry = (usize, usize, u32);

/// A search, and what it has to answer.
#[derive(Clone, Copy)]
enum Call<'a> {
    /// The map from a node, or up to a stopping node: its entries, and where the search stopped.
    Map(usize, Option<usize>, &'a [Entry], Option<usize>),
    /// A cheapest path from a node to a node, searched from both ends and from one: its nodes, none
    /// where there is no path, and its cost.
    Path(usize, usize, &'a [usize], u32),
    /// The path to a number in the map of halves.
    Halves(usize, &'a [usize]),
}

/// Edges, and a search over them.
type Row<'a> = (&'a [Edge], Call<'a>);

/// Edges from each node to 4 to its double and the number behind that.
const DOUBLES: &[Edge] = &[
    (1, 2, 10),
    (1, 3, 10),
    (2, 4, 10),
    (2, 5, 10),
    (3, 6, 10),
    (3, 7, 10),
    (4, 8, 10),
    (4, 9, 10),
];

/// The map of those.
const DOUBLED: &[Entry] = &[
    (2, 1, 10),
    (3, 1, 10),
    (4, 2, 20),
    (5, 2, 20),
    (6, 3, 20),
    (7, 3, 20),
    (8, 4, 30),
    (9, 4, 30),
];

/// Edges of no cost in a ring, from 0 to 1 and on.
const RING: &[Edge] = &[(0, 1, 0), (1, 2, 0), (1, 0, 0), (2, 1, 0)];

/// A path to 2 that is found first and is no cheapest one.
const DETOUR: &[Edge] = &[(0, 1, 1), (0, 2, 9), (1, 2, 5), (1, 3, 1)];

/// The map of that, where the search does not stop at its start.
const DETOURS: &[Entry] = &[(1, 0, 1), (2, 1, 6), (3, 1, 2)];

/// Two ways from 0 to 1, of which the one over 4 has fewer edges, and the other costs less.
const TWO_WAYS: &[Edge] = &[(0, 4, 5), (0, 2, 3), (4, 1, 5), (2, 3, 3), (3, 1, 3)];

/// A way from 0 to 1 that costs nothing, with cycles that cost nothing either.
const FREE: &[Edge] = &[
    (0, 2, 0),
    (2, 0, 0),
    (2, 3, 0),
    (3, 5, 0),
    (5, 2, 0),
    (3, 1, 0),
    (1, 5, 0),
    (0, 0, 0),
];

/// Parallel edges, of which the cheapest counts.
const PARALLEL: &[Edge] = &[(0, 2, 9), (0, 2, 2), (2, 1, 1), (2, 1, 4)];

/// A step behind node 1 whose cost does not fit.
const DEAR: &[Edge] = &[(0, 1, u32::MAX), (1, 2, 1)];

/// The worked rows.
static ROWS: [Row<'static>; 25] = [
    (DOUBLES, Call::Map(1, None, DOUBLED, None)),
    (RING, Call::Map(0, None, &[(1, 0, 0), (2, 1, 0)], None)),
    (DETOUR, Call::Map(0, None, DETOURS, None)),
    (DETOUR, Call::Map(3, None, &[], None)),
    (
        &[(0, 1, 1), (0, 2, 5), (1, 2, 3)],
        Call::Map(0, Some(1), &[(1, 0, 1), (2, 0, 5)], Some(1)),
    ),
    (DETOUR, Call::Map(0, Some(3), DETOURS, Some(3))),
    (DETOUR, Call::Map(0, Some(0), &[], Some(0))),
    (DETOUR, Call::Map(0, Some(2), DETOURS, Some(2))),
    (DETOUR, Call::Map(0, Some(4), DETOURS, None)),
    // A search that stops before a step that does not fit is not refused.
    (DEAR, Call::Map(0, Some(1), &[(1, 0, u32::MAX)], Some(1))),
    (&[], Call::Halves(18, &[1, 2, 4, 9, 18])),
    (&[], Call::Halves(101, &[101])),
    (&[], Call::Halves(1, &[1])),
    (&[], Call::Halves(100, &[1, 3, 6, 12, 25, 50, 100])),
    (TWO_WAYS, Call::Path(0, 1, &[0, 2, 3, 1], 9)),
    // An end that is the start is a path alone.
    (TWO_WAYS, Call::Path(0, 0, &[0], 0)),
    (FREE, Call::Path(0, 0, &[0], 0)),
    (FREE, Call::Path(0, 1, &[0, 2, 3, 1], 0)),
    (FREE, Call::Path(1, 0, &[1, 5, 2, 0], 0)),
    (PARALLEL, Call::Path(0, 1, &[0, 2, 1], 3)),
    // There is no path to an end out of reach.
    (TWO_WAYS, Call::Path(1, 0, &[], 0)),
    (TWO_WAYS, Call::Path(0, 6, &[], 0)),
    (TWO_WAYS, Call::Path(6, 0, &[], 0)),
    // A sum that does not fit on the way back is no refusal.
    (
        &[(0, 1, 3), (7, 1, u32::MAX), (6, 7, 1)],
        Call::Path(0, 1, &[0, 1], 3),
    ),
    (
        &[(0, 2, u32::MAX - 1), (2, 1, 1)],
        Call::Path(0, 1, &[0, 2, 1], u32::MAX),
    ),
];

/// Rows with a sum that does not fit.
static DEAR_ROWS: [Row<'static>; 3] = [
    (DEAR, Call::Map(0, None, &[], None)),
    (DEAR, Call::Map(0, Some(2), &[], None)),
    (DEAR, Call::Path(0, 2, &[], 0)),
];

/// Whether a map has these entries and no others.
fn has_entries(parents: &Parents<usize, u32, Heap<'_>>, entries: &[Entry]) -> bool {
    for (node, parent, cost) in entries {
        if parents.get(node).copied() != Some((*parent, *cost)) {
            return false;
        }
    }
    parents.len() == entries.len()
}

/// Whether this map is answered, of a search that stopped there.
fn is_map(
    answer: Mapped<'_>,
    entries: &[Entry],
    stopped: Option<usize>,
) -> Result<bool, PathError> {
    match answer {
        Ok((parents, node)) => Ok(node == stopped && has_entries(&parents, entries)),
        Err(refusal) => Err(refusal),
    }
}

/// Whether this path is answered at this cost, or none, where it has no nodes.
fn is_path(answer: Found<'_>, path: &[usize], cost: u32) -> Result<bool, PathError> {
    match answer {
        Ok(Some((nodes, price))) => Ok(nodes.as_slice() == path && price == cost),
        Ok(None) => Ok(path.is_empty()),
        Err(refusal) => Err(refusal),
    }
}

/// Whether these nodes are answered.
fn are_nodes(
    answer: Result<Vec<usize, Heap<'_>>, PathError>,
    path: &[usize],
) -> Result<bool, PathError> {
    match answer {
        Ok(nodes) => Ok(nodes.as_slice() == path),
        Err(refusal) => Err(refusal),
    }
}

/// Whether a row is answered as it has to be.
fn is_answered(heap: Heap<'_>, ample: Global, row: &Row<'_>) -> Result<bool, PathError> {
    let (edges, call) = *row;
    match call {
        Call::Map(from, stop, entries, stopped) => {
            is_map(mapped(heap, edges, from, stop), entries, stopped)
        }
        Call::Path(from, to, path, cost) => {
            let asked = Cell::new(0);
            let found = cheapest(heap, Search::BothEnds, edges, from, to, &asked);
            is_path(found, path, cost)
        }
        Call::Halves(number, path) => are_nodes(halved_to(heap, ample, number), path),
    }
}

/// How many growths the call of a row makes, if it answers out of memory where one of these alone is
/// refused, and what it has to where none is.
fn growths_of(ample: Global, row: &Row<'_>) -> Option<u64> {
    for growth in 0..1_000u64 {
        let heap = Refusing::new(ample);
        heap.refuse(growth, 1);
        let answer = is_answered(&heap, ample, row);
        if heap.pending() > 0 {
            return if answer == Ok(true) {
                Some(growth)
            } else {
                None
            };
        }
        if answer != Err(PathError::OutOfMemory) {
            return None;
        }
    }
    None
}

#[test]
fn calls_refuse_each_growth(rt: HostRuntime) {
    let mut growths = 0u64;
    for (number, row) in ROWS.iter().enumerate() {
        let made = growths_of(rt.alloc(), row);
        assert!(rt; made.is_some(), "row {number}");
        growths = growths.saturating_add(made.unwrap_or(0));
    }
    assert!(rt; growths > 150, "the rows make {growths} growths");
}

#[test]
fn costs_that_do_not_fit(rt: HostRuntime) {
    let heap = Refusing::new(rt.alloc());
    for (number, row) in DEAR_ROWS.iter().enumerate() {
        let answer = is_answered(&heap, rt.alloc(), row);
        assert!(rt; answer == Err(PathError::CostOverflow), "row {number}");
    }
}

/// The edges of a board of so many rows and columns, each step to a neighbour and back at one cost
/// from 1 to 9, drawn at random.
fn board(ample: Global, side: usize) -> Result<Vec<Edge>, AllocError> {
    let mut edges = Vec::new(ample);
    let mut draw = 1u32;
    for row in 0..side {
        for column in 0..side {
            let cell = row.wrapping_mul(side).wrapping_add(column);
            for (is_there, next) in [
                (column.wrapping_add(1) < side, cell.wrapping_add(1)),
                (row.wrapping_add(1) < side, cell.wrapping_add(side)),
            ] {
                if is_there {
                    draw = draw.wrapping_mul(1_664_525).wrapping_add(1_013_904_223);
                    let cost = (draw >> 16) % 9 + 1;
                    edges.push((cell, next, cost))?;
                    edges.push((next, cell, cost))?;
                }
            }
        }
    }
    Ok(edges)
}

/// The rows and columns of the board, and the number of the cell in its centre.
const SIDE: usize = 40;

const CENTRE: usize = 820;

/// What the answered path costs.
fn cost_of(found: Found<'_>) -> Option<u32> {
    match found {
        Ok(Some((_, cost))) => Some(cost),
        _ => None,
    }
}

/// What a path from a corner of the board to its centre costs, and how often the functions are asked.
fn asked_on(ample: Global, board: &[Edge], search: Search) -> (Option<u32>, u64) {
    let heap = Refusing::new(ample);
    let asked = Cell::new(0);
    let cost = cost_of(cheapest(&heap, search, board, 0, CENTRE, &asked));
    (cost, asked.get())
}

#[test]
fn a_search_from_both_ends_asks_for_fewer_nodes(rt: HostRuntime) {
    let board = board(rt.alloc(), SIDE).expect(&rt, "memory for the edges");
    let (cost, calls) = asked_on(rt.alloc(), &board, Search::BothEnds);
    let (cost_from_one, calls_from_one) = asked_on(rt.alloc(), &board, Search::OneEnd);
    assert!(rt; cost.is_some() && cost == cost_from_one);
    assert!(rt;
        calls.saturating_mul(10) <= calls_from_one.saturating_mul(8),
        "{calls} of {calls_from_one}"
    );
}
