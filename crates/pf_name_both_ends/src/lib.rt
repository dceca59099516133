//! Searches from both ends over graphs of edges between names, by name. A call asks no proof of its
//! caller.
#![tactic(auto)]

mod cheapest;
mod fewest_edges;

pub use crate::cheapest::dijkstra_bidirectional;
pub use crate::fewest_edges::bfs_bidirectional;
