//! The makers of graphs in tables, and the searches over them, at concrete types.

use crate::ring::{Ring, first_target, way_round, way_to_marked};
use crate::tests::answers::{is_cheapest, is_path};
use pf_base::PathError;
use pf_boards::{Board, Steps};
use pf_edge_lists::EdgeList;
use pf_table_breadth::bfs;
use pf_tables::{CompactRows, Rows, dijkstra};
use std::alloc::Global;

/// The edges from five nodes.
pub const ROWS: &[&[(usize, u32)]] = &[
    &[(1, 4), (2, 2)],
    &[(2, 1), (3, 5)],
    &[(3, 8), (4, 10)],
    &[(4, 2)],
    &[],
];

/// Two nodes, the cheapest path from one to the other with its cost, and the path with fewest edges.
type Paths = (
    usize,
    usize,
    Option<(&'static [usize], u32)>,
    Option<&'static [usize]>,
);

const PATHS: &[Paths] = &[
    (0, 4, Some((&[0, 1, 3, 4], 11)), Some(&[0, 2, 4])),
    (4, 0, None, None),
    // A number that is no node is a path to itself alone.
    (5, 5, Some((&[5], 0)), Some(&[5])),
    (5, 0, None, None),
    (0, 5, None, None),
];

/// Whether both searches over the rows answer the paths between two nodes.
fn are_found(alloc: Global, graph: &Rows<'_, &[(usize, u32)], u32>, paths: &Paths) -> bool {
    let (from, to, cheapest, fewest) = *paths;
    is_cheapest(dijkstra(alloc, graph, from, to), cheapest)
        && is_path(bfs(alloc, graph, from, to), fewest)
}

/// Of the five nodes the last two are marked.
const MARKS: &[bool] = &[false, false, false, true, true];

/// Whether each path is found over the rows.
fn are_all_found(alloc: Global, graph: &Rows<'_, &[(usize, u32)], u32>) -> bool {
    for paths in PATHS {
        if !are_found(alloc, graph, paths) {
            return false;
        }
    }
    let marked = dijkstra(alloc, graph, 0, MARKS);
    is_cheapest(marked, Some((&[0, 1, 3], 9))) && first_target(graph) == Some(1)
}

/// The same over the table `ROWS`.
fn are_found_over_rows(alloc: Global) -> bool {
    match &Rows::new(ROWS) {
        Ok(graph) => are_all_found(alloc, graph),
        Err(_) => false,
    }
}

#[test]
fn searches_over_rows(rt: HostRuntime) {
    assert!(rt; are_found_over_rows(rt.alloc()));
}

/// Where the edges of each of the five nodes begin, and where the last ones end.
const OFFSETS: &[usize] = &[0, 2, 4, 6, 7, 7];

/// The edges from the five nodes.
const EDGES: &[(usize, u32)] = &[(1, 4), (2, 2), (2, 1), (3, 5), (3, 8), (4, 10), (4, 2)];

/// Where they lead.
const TARGETS: &[usize] = &[1, 2, 2, 3, 3, 4, 4];

/// Whether a cheapest path is found over the edges.
fn is_edge_path(alloc: Global) -> bool {
    match &CompactRows::new(OFFSETS, EDGES) {
        Ok(graph) => is_cheapest(dijkstra(alloc, graph, 0, 4), Some((&[0, 1, 3, 4], 11))),
        Err(_) => false,
    }
}

/// Of the five nodes the last one is marked.
const LAST_MARKED: &[bool] = &[false, false, false, false, true];

/// Whether a path with fewest edges is found over the targets.
fn is_target_path(alloc: Global) -> bool {
    match &CompactRows::new(OFFSETS, TARGETS) {
        Ok(graph) => is_path(
            way_to_marked(alloc, graph, 0, LAST_MARKED),
            Some(&[0, 2, 4]),
        ),
        Err(_) => false,
    }
}

#[test]
fn searches_over_compact_rows(rt: HostRuntime) {
    assert!(rt; is_edge_path(rt.alloc()) && is_target_path(rt.alloc()));
}

/// What it costs to enter each of nine cells, or `None` where none can.
const CELLS: &[Option<u32>] = &[
    Some(1),
    None,
    Some(1),
    Some(9),
    Some(1),
    Some(1),
    Some(1),
    Some(1),
    Some(1),
];

/// The node at a row and a column, where the board has both.
fn node_at(board: &Board<'_, u32>, row: usize, column: usize) -> Option<usize> {
    if row >= board.rows() || column >= board.columns() {
        return None;
    }
    Some(board.number_of(row, column))
}

/// Whether a board with four steps is right about its cells, and a cheapest way on it.
fn is_way_by_four(alloc: Global) -> bool {
    match &Board::new(3, 3, CELLS, Steps::Four) {
        Ok(board) => {
            node_at(board, 0, 2) == Some(2)
                && node_at(board, 3, 0).is_none()
                && board.position_of(5) == Some((1, 2))
                && board.position_of(9).is_none()
                && is_cheapest(dijkstra(alloc, board, 0, 2), Some((&[0, 3, 4, 5, 2], 12)))
        }
        Err(_) => false,
    }
}

/// Whether a way with fewest steps is found on a board with eight steps.
fn is_way_by_eight(alloc: Global) -> bool {
    match &Board::new(3, 3, CELLS, Steps::Eight) {
        Ok(board) => is_path(bfs(alloc, board, 0, 2), Some(&[0, 4, 2])),
        Err(_) => false,
    }
}

#[test]
fn searches_over_boards_and_rings(rt: HostRuntime) {
    assert!(rt; is_way_by_four(rt.alloc()) && is_way_by_eight(rt.alloc()));
    let way = way_round(rt.alloc(), &Ring { nodes: 5 }, 3, 1);
    assert!(rt; is_cheapest(way, Some((&[3, 4, 0, 1], 3))));
}

/// Rows and edges whose costs together are above 255.
const DEAR_ROWS: &[&[(usize, u8)]] = &[&[(1, 200)], &[(2, 100)], &[]];

const DEAR_EDGES: &[(char, char, u8)] = &[('a', 'b', 200), ('b', 'c', 100)];

/// Whether a cheapest path over the rows costs 200, and one whose cost does not fit is refused.
fn is_refused(alloc: Global, graph: &Rows<'_, &[(usize, u8)], u8>) -> bool {
    is_cheapest(dijkstra(alloc, graph, 0, 1), Some((&[0, 1], 200)))
        && matches!(dijkstra(alloc, graph, 0, 2), Err(PathError::CostOverflow))
}

/// The same over the edges.
fn is_refused_by_name(alloc: Global, list: &EdgeList<'_, char, u8>) -> bool {
    matches!(list.dijkstra(alloc, &'a', &'b'), Ok(Some((_, 200))))
        && matches!(
            list.dijkstra(alloc, &'a', &'c'),
            Err(PathError::CostOverflow)
        )
}

/// Whether both are so over the rows and the edges that are dear.
fn are_refused(alloc: Global) -> bool {
    match (&Rows::new(DEAR_ROWS), &EdgeList::new(alloc, DEAR_EDGES)) {
        (Ok(graph), Ok(list)) => is_refused(alloc, graph) && is_refused_by_name(alloc, list),
        _ => false,
    }
}

#[test]
fn sums_that_do_not_fit(rt: HostRuntime) {
    assert!(rt; are_refused(rt.alloc()));
}
