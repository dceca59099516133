//! Searches over boards that the estimate of a board leads: what the estimate answers, and that the costs
//! are those of `dijkstra`.

use pf_base::PathError;
use pf_boards::{Board, Steps};
use pf_table_estimates::{
    BoardEstimates, EstimatedGraph, astar, astar_bag, astar_bag_collect, fringe, idastar,
};
use pf_tables::dijkstra;
use std::alloc::Global;

/// A board: its rows, its columns, its cells and its steps.
type Sketch = (usize, usize, &'static [Option<u8>], Steps);

/// Cells some of which are blocked.
const ROUGH: &[Option<u8>] = &[
    Some(4),
    Some(3),
    None,
    Some(4),
    Some(2),
    None,
    Some(2),
    Some(2),
    Some(5),
    Some(2),
    Some(2),
    Some(9),
];

/// Cells some of which cost nothing.
const FREE: &[Option<u8>] = &[Some(0), Some(0), Some(1), None, Some(1), Some(0)];

/// Cells of which the costs of three are above what the type holds.
const DEAR: &[Option<u8>] = &[Some(100), Some(100), Some(100), Some(100)];

/// Many cells of one cost.
const EVEN: &[Option<u8>] = &[Some(3); 100];

const BOARDS: &[Sketch] = &[
    (3, 4, ROUGH, Steps::Four),
    (3, 4, ROUGH, Steps::Eight),
    (4, 3, ROUGH, Steps::Four),
    (2, 3, FREE, Steps::Four),
    (3, 2, FREE, Steps::Eight),
    (1, 4, DEAR, Steps::Four),
    (2, 2, DEAR, Steps::Eight),
    (2, 2, &[None, None, None, None], Steps::Eight),
    (0, 0, &[], Steps::Four),
];

/// A board, a node, a goal, and the estimate of the cost that remains from one to the other.
const ESTIMATES: &[(Sketch, usize, usize, u8)] = &[
    ((3, 4, ROUGH, Steps::Four), 0, 11, 10),
    ((3, 4, ROUGH, Steps::Eight), 0, 11, 6),
    ((3, 4, ROUGH, Steps::Eight), 8, 2, 4),
    ((3, 4, ROUGH, Steps::Four), 5, 5, 0),
    ((2, 3, FREE, Steps::Four), 0, 5, 0),
    ((10, 10, EVEN, Steps::Four), 0, 99, 54),
    ((10, 10, EVEN, Steps::Eight), 90, 9, 27),
    ((5, 20, EVEN, Steps::Eight), 0, 99, 57),
    // Of 85 steps the cost fits, of 86 it does not.
    ((1, 100, EVEN, Steps::Four), 99, 14, 255),
    ((1, 100, EVEN, Steps::Four), 98, 14, 252),
    ((1, 100, EVEN, Steps::Four), 99, 0, 255),
    // A number that is no node, and a goal that is none.
    ((3, 4, ROUGH, Steps::Four), 12, 0, 0),
    ((3, 4, ROUGH, Steps::Four), 0, 12, 0),
];

/// The cost of a path, where there is one; a cost that does not fit is `Err`.
fn cost_of<P>(answer: Result<Option<(P, u8)>, PathError>) -> Result<Option<u8>, PathError>
where
    P: Drop,
{
    Ok(answer?.map(|found| found.1))
}

/// Whether the cost of a search that an estimate leads is the least one. Where there is no way to the
/// goal, such a search may tell that a cost does not fit.
fn is_least(cost: Result<Option<u8>, PathError>, least: Result<Option<u8>, PathError>) -> bool {
    match (cost, least) {
        (Ok(cost), Ok(least)) => cost == least,
        (Err(PathError::CostOverflow), Ok(None) | Err(PathError::CostOverflow)) => true,
        _ => false,
    }
}

/// Whether the searches that the estimate of a board leads answer the cost that `dijkstra` does.
fn costs_agree(alloc: Global, board: &Board<'_, u8>, from: usize, goal: usize) -> bool {
    let estimates = BoardEstimates::new(board, goal);
    let costs = [
        cost_of(astar(alloc, &estimates, from)),
        cost_of(fringe(alloc, &estimates, from)),
        cost_of(idastar(alloc, &estimates, from)),
        cost_of(astar_bag(alloc, &estimates, from)),
        cost_of(astar_bag_collect(alloc, &estimates, from)),
    ];
    costs.into_iter().all(|cost| is_least(cost, cost_of(dijkstra(alloc, board, from, goal))))
}

/// Whether they agree between any two numbers up to the number of nodes.
fn all_costs_agree(alloc: Global, board: &Board<'_, u8>) -> bool {
    let nodes = board.cells().len();
    for from in 0..=nodes {
        for goal in 0..=nodes {
            if !costs_agree(alloc, board, from, goal) {
                return false;
            }
        }
    }
    true
}

/// Whether they agree on a board.
fn agree_on(alloc: Global, sketch: &Sketch) -> bool {
    let (rows, columns, cells, steps) = *sketch;
    match &Board::new(rows, columns, cells, steps) {
        Ok(board) => board.steps() == steps && all_costs_agree(alloc, board),
        Err(_) => false,
    }
}

#[test]
fn costs_on_boards_are_least(rt: HostRuntime) {
    for (number, sketch) in BOARDS.iter().enumerate() {
        assert!(rt; agree_on(rt.alloc(), sketch), "board {number}");
    }
}

/// The estimate of the cost that remains from a node of a board to a goal.
fn estimate_on(sketch: &Sketch, node: usize, goal: usize) -> Option<u8> {
    let (rows, columns, cells, steps) = *sketch;
    match &Board::new(rows, columns, cells, steps) {
        Ok(board) => Some(BoardEstimates::new(board, goal).estimate(node)),
        Err(_) => None,
    }
}

#[test]
fn estimates_on_boards(rt: HostRuntime) {
    for (number, (sketch, node, goal, estimate)) in ESTIMATES.iter().enumerate() {
        let found = estimate_on(sketch, *node, *goal);
        assert!(rt; found == Some(*estimate), "case {number}: {found:?}");
    }
}
