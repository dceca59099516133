//! Lazy walks over graphs of edges between names, by name. A call asks no proof of its caller.
#![tactic(auto)]

mod breadth;
mod cheapest;
mod named_node;
mod preorder;

pub use crate::breadth::{BfsReachable, bfs_reach};
pub use crate::cheapest::{DijkstraReachable, dijkstra_reach};
pub use crate::preorder::{DfsReachable, dfs_reach};
