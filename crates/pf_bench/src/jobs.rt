//! The jobs by name.

ghost use Rattle.std.specs.Prelude.{◌<◌};

mod compact;
mod costs;
mod grid;
mod network;
mod orders;
mod puzzle;
mod rows;
mod steps;
mod table;
mod tables;

use crate::jobs::compact::CompactJob;
use crate::jobs::costs::CostsJob;
use crate::jobs::grid::{GridFloodJob, GridJob};
use crate::jobs::network::{CycleJob, EdgesJob, FlowJob, repeat_components};
use crate::jobs::orders::OrderJob;
use crate::jobs::puzzle::PuzzleJob;
use crate::jobs::rows::RowsJob;
use crate::jobs::steps::StepsJob;
use crate::jobs::table::{AssignmentJob, TableJob};
use crate::jobs::tables::TablesJob;
use crate::repeats::{Outcome, Repeats};
use std::alloc::Global;

/// A call of the library on an input.
pub enum Job {
    Steps(StepsJob),
    Costs(CostsJob),
    Rows(RowsJob),
    Orders(OrderJob),
    Tables(TablesJob),
    Compact(CompactJob),
    Assignment(AssignmentJob),
    Table(TableJob),
    Grid(GridJob),
    GridFlood(GridFloodJob),
    Edges(EdgesJob),
    Components,
    Flow(FlowJob),
    Cycle(CycleJob),
    Puzzle(PuzzleJob),
}

/// The jobs, each under the name of its call and that of its input.
const JOBS: &[(&str, Job)] = &[
    ("bfs-board", Job::Steps(StepsJob::Bfs)),
    ("bfs_reach-board", Job::Steps(StepsJob::BfsReach)),
    (
        "bfs_bidirectional-board",
        Job::Steps(StepsJob::BfsBidirectional),
    ),
    ("dfs_reach-board", Job::Steps(StepsJob::DfsReach)),
    ("iddfs-board", Job::Steps(StepsJob::Iddfs)),
    ("dijkstra-board", Job::Costs(CostsJob::Dijkstra)),
    ("dijkstra_all-board", Job::Costs(CostsJob::DijkstraAll)),
    ("dijkstra_reach-board", Job::Costs(CostsJob::DijkstraReach)),
    (
        "dijkstra_bidirectional-board",
        Job::Costs(CostsJob::DijkstraBidirectional),
    ),
    ("astar-board", Job::Costs(CostsJob::Astar)),
    ("fringe-board", Job::Costs(CostsJob::Fringe)),
    ("astar_bag-board", Job::Costs(CostsJob::AstarBag)),
    ("bfs_loop-rows", Job::Rows(RowsJob::BfsLoop)),
    ("dfs-rows", Job::Rows(RowsJob::Dfs)),
    ("dijkstra-rows", Job::Rows(RowsJob::Dijkstra)),
    ("dijkstra_all-rows", Job::Rows(RowsJob::DijkstraAll)),
    ("dijkstra_reach-rows", Job::Rows(RowsJob::DijkstraReach)),
    ("yen-rows", Job::Rows(RowsJob::Yen)),
    ("scc-rows", Job::Orders(OrderJob::Scc)),
    (
        "topological_sort-dag",
        Job::Orders(OrderJob::TopologicalSort),
    ),
    ("groups-dag", Job::Orders(OrderJob::Groups)),
    ("astar-board-table", Job::Tables(TablesJob::Astar)),
    ("bfs-board-table", Job::Tables(TablesJob::Bfs)),
    ("bfs_reach-board-table", Job::Tables(TablesJob::BfsReach)),
    ("dfs_reach-board-table", Job::Tables(TablesJob::DfsReach)),
    ("dijkstra-board-table", Job::Tables(TablesJob::Dijkstra)),
    (
        "dijkstra_reach-board-table",
        Job::Tables(TablesJob::DijkstraReach),
    ),
    ("bfs_loop-rows-table", Job::Compact(CompactJob::BfsLoop)),
    ("dfs-rows-table", Job::Compact(CompactJob::Dfs)),
    ("dijkstra-rows-table", Job::Compact(CompactJob::Dijkstra)),
    (
        "dijkstra_all-rows-table",
        Job::Compact(CompactJob::DijkstraAll),
    ),
    (
        "dijkstra_reach-rows-table",
        Job::Compact(CompactJob::DijkstraReach),
    ),
    ("yen-rows-table", Job::Compact(CompactJob::Yen)),
    ("scc-rows-table", Job::Compact(CompactJob::Scc)),
    (
        "topological_sort-dag-table",
        Job::Compact(CompactJob::TopologicalSort),
    ),
    ("groups-dag-table", Job::Compact(CompactJob::Groups)),
    (
        "kuhn_munkres-table",
        Job::Assignment(AssignmentJob::Greatest),
    ),
    (
        "kuhn_munkres_min-table",
        Job::Assignment(AssignmentJob::Least),
    ),
    ("matrix_rotate-table", Job::Table(TableJob::Rotate)),
    ("matrix_transpose-table", Job::Table(TableJob::Transpose)),
    ("matrix_bfs-table", Job::Table(TableJob::Bfs)),
    ("matrix_dfs-table", Job::Table(TableJob::Dfs)),
    ("grid_fill-grid", Job::Grid(GridJob::Fill)),
    ("grid_invert-grid", Job::Grid(GridJob::Invert)),
    ("grid_iter-grid", Job::Grid(GridJob::Iter)),
    ("grid_edges-grid", Job::Grid(GridJob::Edges)),
    ("grid_bfs-grid", Job::GridFlood(GridFloodJob::Bfs)),
    ("grid_dfs-grid", Job::GridFlood(GridFloodJob::Dfs)),
    (
        "kruskal_indices-edges",
        Job::Edges(EdgesJob::KruskalIndices),
    ),
    ("kruskal-edges", Job::Edges(EdgesJob::Kruskal)),
    ("prim-edges", Job::Edges(EdgesJob::Prim)),
    ("components-groups", Job::Components),
    ("flow_dense-network", Job::Flow(FlowJob::Dense)),
    ("flow_sparse-layers", Job::Flow(FlowJob::Sparse)),
    ("brent-step", Job::Cycle(CycleJob::Brent)),
    ("floyd-step", Job::Cycle(CycleJob::Floyd)),
    ("astar-puzzle", Job::Puzzle(PuzzleJob::Astar)),
    ("idastar-puzzle", Job::Puzzle(PuzzleJob::Idastar)),
];

impl Job {
    /// The job of this name.
    pub fn named(name: &str) -> Option<&'static Job> {
        for job in JOBS {
            if job.0 == name {
                return Some(&job.1);
            }
        }
        None
    }

    /// Makes the input of this size, makes the call so often, and works out the check of the last one.
    pub fn run(&self, alloc: Global, size: usize, repeats: &Repeats) -> Outcome
        requires { 0 < size }
    {
        match self {
            Job::Steps(job) => job.run(alloc, size, repeats),
            Job::Costs(job) => job.run(alloc, size, repeats),
            Job::Rows(job) => job.run(alloc, size, repeats),
            Job::Orders(job) => job.run(alloc, size, repeats),
            Job::Tables(job) => job.run(alloc, size, repeats),
            Job::Compact(job) => job.run(alloc, size, repeats),
            Job::Assignment(job) => job.run(alloc, size, repeats),
            Job::Table(job) => job.run(alloc, size, repeats),
            Job::Grid(job) => job.run(alloc, size, repeats),
            Job::GridFlood(job) => job.run(alloc, size, repeats),
            Job::Edges(job) => job.run(alloc, size, repeats),
            Job::Components => repeat_components(alloc, size, repeats),
            Job::Flow(job) => job.run(alloc, size, repeats),
            Job::Cycle(job) => job.run(size as u64, repeats),
            Job::Puzzle(job) => job.run(alloc, size, repeats),
        }
    }
}
