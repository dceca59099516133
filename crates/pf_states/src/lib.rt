//! Searches over states: a graph of one's own over any copied node type, told place by place.
//!
//! A caller writes what the places of a state lead to as a list, and proves nothing.
#![tactic(auto)]

mod cheapest;
mod depth;
mod fewest;
mod walks;

pub use crate::cheapest::{dijkstra, dijkstra_all, dijkstra_partial};
pub use crate::depth::{dfs, iddfs};
pub use crate::fewest::{bfs, bfs_loop};
pub use crate::walks::{bfs_reach, dfs_reach, dijkstra_reach};
pub use pf_state_spaces::{Exact, Neighbours, StateGoal, StateSpace};
