//! Searches on a board whose steps have no costs, from its first cell to its last.

ghost use Rattle.std.specs.Prelude.{◌<◌};

use crate::checks::{edges_of, nodes_of};
use crate::inputs::{Board, Cell, HIGHEST, START};
use crate::repeats::{Outcome, Repeats};
use pf_both_ends::bfs_bidirectional;
use pf_node_refs::NodeRefs;
use pf_search::directed::bfs::{bfs, bfs_reach};
use pf_search::directed::dfs::dfs_reach;
use pf_search::directed::iddfs::iddfs;
use std::alloc::Global;

/// A search on a board whose steps have no costs.
pub enum StepsJob {
    Bfs,
    BfsReach,
    BfsBidirectional,
    DfsReach,
    Iddfs,
}

impl StepsJob {
    /// Runs it on the input of this size.
    pub fn run(&self, alloc: Global, size: usize, repeats: &Repeats) -> Outcome
        requires { 0 < size }
    {
        let board = Board::random(alloc, size, HIGHEST)?;
        repeats.check(|is_last| self.call(alloc, &board, is_last))
    }

    /// Makes the call on a board, from the first cell to the last. Each step leads back too.
    fn call(&self, alloc: Global, board: &Board, is_last: bool) -> Outcome {
        let start = START;
        let goal = board.last_cell();
        let next = |cell: &Cell| board.cells_from(*cell);
        let is_goal = |cell: &Cell| *cell == goal;
        match self {
            StepsJob::Bfs => {
                let starts = NodeRefs::from_one(alloc, &start)?;
                edges_of(bfs(alloc, &starts, next, is_goal), is_last)
            }
            StepsJob::BfsReach => {
                let breadth = bfs_reach(alloc, start, next)?;
                nodes_of(breadth)
            }
            StepsJob::BfsBidirectional => {
                let starts = NodeRefs::from_one(alloc, &start)?;
                let ends = NodeRefs::from_one(alloc, &goal)?;
                edges_of(
                    bfs_bidirectional(alloc, &starts, &ends, next, next),
                    is_last,
                )
            }
            StepsJob::DfsReach => {
                let depth = dfs_reach(alloc, start, next)?;
                nodes_of(depth)
            }
            StepsJob::Iddfs => edges_of(iddfs(alloc, start, next, is_goal), is_last),
        }
    }
}
