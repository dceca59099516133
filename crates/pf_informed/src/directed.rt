//! Directed graphs.

pub mod astar;
pub mod astar_bag;
pub mod fringe;
pub mod idastar;
