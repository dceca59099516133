//! Paths with fewest edges (breadth-first search).

pub use pf_both_ends::bfs_bidirectional;
pub use pf_search::directed::bfs::{BfsReachable, bfs, bfs_loop, bfs_reach};
