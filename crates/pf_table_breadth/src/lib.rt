//! Paths with fewest edges in graphs in tables. A search asks no proof of its caller.
#![tactic(auto)]

mod explored;
mod fewest;
mod numbering;

pub use crate::fewest::bfs;
