//! Searches and orders over rows of edges as tables, which answer the same questions as those over
//! functions.

ghost use Rattle.std.specs.Prelude.{◌<◌};

use crate::checks::{cost_of, count_of, edges_of, map_costs_of, walk_costs_of};
use crate::inputs::Rows;
use crate::jobs::orders::{depth_sum, order_of};
use crate::jobs::rows::{PATHS, costs_of, ends_at};
use crate::repeats::{Outcome, Repeats};
use pf_node_refs::NodeRefs;
use pf_table_orders::{
    strongly_connected_components, topological_sort, topological_sort_into_groups,
};
use pf_table_paths::yen;
use pf_table_searches::{bfs_loop, dfs, dijkstra_all, dijkstra_reach};
use pf_tables::{CompactRows, Graph, dijkstra};
use std::alloc::Global;

/// A search or an order over rows in compact form.
pub enum CompactJob {
    BfsLoop,
    Dfs,
    Dijkstra,
    DijkstraAll,
    DijkstraReach,
    Groups,
    Scc,
    TopologicalSort,
    Yen,
}

impl CompactJob {
    /// Runs it on the input of this size, from the first node to the last, or over all nodes.
    pub fn run(&self, alloc: Global, size: usize, repeats: &Repeats) -> Outcome
        requires { 0 < size }
    {
        let has_cycles = !matches!(self, CompactJob::Groups | CompactJob::TopologicalSort);
        let rows = Rows::random(alloc, size, has_cycles)?;
        let graph = CompactRows::new(rows.offsets(), rows.edges())?;
        let nodes: Vec<usize> = (0..size).collect(alloc)?;
        repeats.check(|is_last| match self {
            CompactJob::Groups | CompactJob::Scc | CompactJob::TopologicalSort => {
                self.order(alloc, &graph, &nodes, is_last)
            }
            _ => self.search(alloc, &graph, size - 1, is_last),
        })
    }

    /// Puts all nodes in order.
    fn order<G: Graph<u32>>(
        &self,
        alloc: Global,
        graph: &G,
        nodes: &[usize],
        is_last: bool,
    ) -> Outcome {
        match self {
            CompactJob::Groups => {
                depth_sum(topological_sort_into_groups(alloc, graph, nodes), is_last)
            }
            CompactJob::Scc => count_of(
                strongly_connected_components(alloc, graph, nodes),
                is_last,
            ),
            _ => order_of(topological_sort(alloc, graph, nodes), is_last),
        }
    }

    /// Searches from the first node to the last.
    fn search<G: Graph<u32>>(
        &self,
        alloc: Global,
        graph: &G,
        last: usize,
        is_last: bool,
    ) -> Outcome {
        match self {
            CompactJob::BfsLoop => {
                let starts = NodeRefs::from_one(alloc, &0)?;
                edges_of(bfs_loop(alloc, graph, &starts), is_last)
            }
            CompactJob::Dfs => ends_at(dfs(alloc, graph, 0, last), last, is_last),
            CompactJob::DijkstraAll => map_costs_of(dijkstra_all(alloc, graph, 0), is_last),
            CompactJob::DijkstraReach => walk_costs_of(dijkstra_reach(alloc, graph, 0)?),
            CompactJob::Yen => costs_of(yen(alloc, graph, 0, last, PATHS), is_last),
            _ => cost_of(dijkstra(alloc, graph, 0, last), is_last),
        }
    }
}
