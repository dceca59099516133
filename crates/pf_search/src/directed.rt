//! Directed graphs.

pub mod bfs;
mod bfs_reach;
mod build_path;
pub mod dfs;
mod dfs_reach;
pub mod dijkstra;
mod dijkstra_all;
mod dijkstra_reach;
pub mod iddfs;
