//! Searches over graphs in tables by the calls for graphs that functions answer. A call asks no proof
//! of its caller.
#![tactic(auto)]

mod deepening;
mod depth;
mod loops;
mod parents;
mod preorder;
mod walks;

pub use crate::deepening::iddfs;
pub use crate::depth::dfs;
pub use crate::loops::bfs_loop;
pub use crate::parents::{dijkstra_all, dijkstra_partial};
pub use crate::preorder::{DfsReachable, dfs_reach};
pub use crate::walks::{BfsReachable, DijkstraReachable, bfs_reach, dijkstra_reach};
