//! Searches of graphs of edges between names, by name. A call asks no proof of its caller.
#![tactic(auto)]

mod depth;
mod loops;
mod parents;

pub use crate::depth::{dfs, iddfs};
pub use crate::loops::bfs_loop;
pub use crate::parents::{NameParents, dijkstra_all, dijkstra_partial};
