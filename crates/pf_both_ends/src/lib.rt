//! Searches from both ends, on graphs that functions answer or that discoveries find.
#![tactic(auto)]

mod bfs;
mod dijkstra;
pub mod discovered;

pub use crate::bfs::bfs_bidirectional;
pub use crate::dijkstra::dijkstra_bidirectional;
