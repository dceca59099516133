//! Searches over boards as tables, which answer the same questions as those over functions.

ghost use Rattle.std.specs.Prelude.{◌<◌};

use crate::checks::{cost_of, edges_of, nodes_of, walk_costs_of};
use crate::inputs::{Board, HIGHEST};
use crate::repeats::{Outcome, Repeats};
use pf_boards::Steps;
use pf_table_breadth::bfs;
use pf_table_estimates::{BoardEstimates, astar};
use pf_table_searches::{bfs_reach, dfs_reach, dijkstra_reach};
use pf_tables::{Graph, dijkstra};
use std::alloc::Global;

/// A search over a board as a table.
pub enum TablesJob {
    Astar,
    Bfs,
    BfsReach,
    DfsReach,
    Dijkstra,
    DijkstraReach,
}

impl TablesJob {
    /// Runs it on the input of this size, from the first cell to the last.
    pub fn run(&self, alloc: Global, size: usize, repeats: &Repeats) -> Outcome
        requires { 0 < size }
    {
        let cells = Board::random(alloc, size, HIGHEST)?.into_cells(alloc)?;
        let graph = pf_boards::Board::new(size, size, &cells, Steps::Four)?;
        let last = graph.number_of(size - 1, size - 1);
        repeats.check(|is_last| match self {
            TablesJob::Astar => {
                let estimates = BoardEstimates::new(&graph, last);
                cost_of(astar(alloc, &estimates, 0), is_last)
            }
            TablesJob::Bfs => edges_of(bfs(alloc, &graph, 0, last), is_last),
            TablesJob::Dijkstra => cost_of(dijkstra(alloc, &graph, 0, last), is_last),
            _ => self.walk(alloc, &graph),
        })
    }

    /// Goes along a walk to its end.
    fn walk<G: Graph<u32>>(&self, alloc: Global, graph: &G) -> Outcome {
        match self {
            TablesJob::BfsReach => nodes_of(bfs_reach(alloc, graph, 0)?),
            TablesJob::DfsReach => nodes_of(dfs_reach(alloc, graph, 0)?),
            _ => walk_costs_of(dijkstra_reach(alloc, graph, 0)?),
        }
    }
}
