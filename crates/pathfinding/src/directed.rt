//! Searches and other algorithms on directed graphs.

pub mod bfs;
pub mod dijkstra;
pub mod laws;

pub use pf_cycles::directed::cycle_detection;
pub use pf_flow::edmonds_karp;
pub use pf_informed::directed::{astar, fringe, idastar};
pub use pf_orders::directed::{strongly_connected_components, topological_sort};
pub use pf_search::directed::{dfs, iddfs};
pub use pf_yen::directed::yen;
