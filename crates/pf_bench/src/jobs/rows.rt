//! Searches on rows of edges, from the first node to the last.

ghost use Rattle.std.specs.Prelude.{◌<◌};

use crate::checks::{cost_of, edges_of, map_costs_of, walk_costs_of};
use crate::error::BenchError;
use crate::inputs::Rows;
use crate::repeats::{Outcome, Repeats};
use pf_base::PathError;
use pf_node_refs::NodeRefs;
use pf_search::directed::bfs::bfs_loop;
use pf_search::directed::dfs::dfs;
use pf_search::directed::dijkstra::{dijkstra, dijkstra_all, dijkstra_reach};
use pf_yen::directed::yen::yen;
use std::alloc::Global;

/// How many paths `yen` is asked for.
pub const PATHS: usize = 10;

/// A search on rows of edges.
pub enum RowsJob {
    BfsLoop,
    Dfs,
    Dijkstra,
    DijkstraAll,
    DijkstraReach,
    Yen,
}

impl RowsJob {
    /// Runs it on the input of this size.
    pub fn run(&self, alloc: Global, size: usize, repeats: &Repeats) -> Outcome
        requires { 0 < size }
    {
        let rows = Rows::random(alloc, size, true)?;
        repeats.check(|is_last| self.call(alloc, &rows, is_last))
    }

    /// Makes the call on rows.
    fn call(&self, alloc: Global, rows: &Rows, is_last: bool) -> Outcome {
        let start = 0;
        let goal = rows.last_node();
        let next = |node: &usize| rows.ends_from(*node);
        let edges = |node: &usize| rows.edges_from(*node).iter().copied();
        let is_goal = |node: &usize| *node == goal;
        match self {
            RowsJob::BfsLoop => {
                let starts = NodeRefs::from_one(alloc, &start)?;
                edges_of(bfs_loop(alloc, &starts, next), is_last)
            }
            RowsJob::Dfs => ends_at(dfs(alloc, start, next, is_goal), goal, is_last),
            RowsJob::Dijkstra => cost_of(dijkstra(alloc, &start, edges, is_goal), is_last),
            RowsJob::DijkstraAll => map_costs_of(dijkstra_all(alloc, &start, edges), is_last),
            RowsJob::DijkstraReach => {
                let walk = dijkstra_reach(alloc, &start, edges)?;
                walk_costs_of(walk)
            }
            RowsJob::Yen => costs_of(yen(alloc, &start, edges, is_goal, PATHS), is_last),
        }
    }
}

/// 1 for a path from 0 to this node.
pub fn ends_at(
    found: Result<Option<Vec<usize>>, PathError>,
    last: usize,
    is_last: bool,
) -> Outcome {
    match &found {
        Ok(Some(path)) if is_last && path.first() == Some(&0) && path.last() == Some(&last) => {
            Ok(Some(1))
        }
        Ok(_) => Ok(None),
        Err(fault) => Err(BenchError::Path(*fault)),
    }
}

/// What paths cost in all.
pub fn costs_of(found: Result<Vec<(Vec<usize>, u32)>, PathError>, is_last: bool) -> Outcome {
    match &found {
        Ok(paths) if is_last => {
            let mut sum = 0u64;
            for path in paths {
                sum = sum.saturating_add(u64::from(path.1));
            }
            Ok(Some(sum))
        }
        Ok(_) => Ok(None),
        Err(fault) => Err(BenchError::Path(*fault)),
    }
}
