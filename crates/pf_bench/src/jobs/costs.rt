//! Searches on a board whose steps have costs, from its first cell to its last.

ghost use Rattle.std.specs.Prelude.{◌<◌};

use crate::checks::{cost_of, map_costs_of, walk_costs_of};
use crate::error::BenchError;
use crate::inputs::{Board, Cell, HIGHEST, START, distance};
use crate::repeats::{Outcome, Repeats};
use pf_base::PathError;
use pf_both_ends::dijkstra_bidirectional;
use pf_informed::directed::astar::{AstarSolution, astar, astar_bag};
use pf_informed::directed::fringe::fringe;
use pf_search::directed::dijkstra::{dijkstra, dijkstra_all, dijkstra_reach};
use std::alloc::Global;

/// How many cheapest paths are looked at.
const PATHS: usize = 1000;

/// A search on a board whose steps have costs.
pub enum CostsJob {
    Dijkstra,
    DijkstraAll,
    DijkstraReach,
    DijkstraBidirectional,
    Astar,
    Fringe,
    AstarBag,
}

impl CostsJob {
    /// Runs it on the input of this size.
    pub fn run(&self, alloc: Global, size: usize, repeats: &Repeats) -> Outcome
        requires { 0 < size }
    {
        let highest = match self {
            CostsJob::AstarBag => 1,
            _ => HIGHEST,
        };
        let board = Board::random(alloc, size, highest)?;
        repeats.check(|is_last| self.call(alloc, &board, is_last))
    }

    /// Makes the call on a board. In that from both ends each step leads back too, at the same cost.
    fn call(&self, alloc: Global, board: &Board, is_last: bool) -> Outcome {
        let goal = board.last_cell();
        let next = |cell: &Cell| board.entries_from(*cell);
        let crossings = |cell: &Cell| board.crossings_from(*cell);
        let estimate = |cell: &Cell| distance(*cell, goal);
        let is_goal = |cell: &Cell| *cell == goal;
        match self {
            CostsJob::Dijkstra => cost_of(dijkstra(alloc, &START, next, is_goal), is_last),
            CostsJob::DijkstraAll => map_costs_of(dijkstra_all(alloc, &START, next), is_last),
            CostsJob::DijkstraReach => {
                let walk = dijkstra_reach(alloc, &START, next)?;
                walk_costs_of(walk)
            }
            CostsJob::DijkstraBidirectional => cost_of(
                dijkstra_bidirectional(alloc, &START, &goal, crossings, crossings),
                is_last,
            ),
            CostsJob::Astar => cost_of(astar(alloc, &START, next, estimate, is_goal), is_last),
            CostsJob::Fringe => cost_of(fringe(alloc, &START, next, estimate, is_goal), is_last),
            CostsJob::AstarBag => first_nodes(astar_bag(alloc, &START, next, estimate, is_goal)),
        }
    }
}

/// How many nodes stand on the first paths of those that `astar_bag` lists.
fn first_nodes(found: Result<Option<(AstarSolution<Cell>, u32)>, PathError>) -> Outcome {
    match found {
        Ok(Some((mut paths, _))) => nodes_on(&mut paths),
        Ok(None) => Ok(None),
        Err(fault) => Err(BenchError::Path(fault)),
    }
}

/// How many nodes stand on the first of some paths.
fn nodes_on(paths: &mut AstarSolution<Cell>) -> Outcome {
    let mut nodes = 0u64;
    for _path in 0..PATHS {
        let Some(path) = paths.next() else {
            break;
        };
        nodes = nodes.saturating_add(path?.len() as u64);
    }
    Ok(Some(nodes))
}
