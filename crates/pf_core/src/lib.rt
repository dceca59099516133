//! Searches over numbers: what searches over tables and searches over functions share.
//!
//! The algorithms are generic over `NumberedGraph`. No crate exports this layer.
#![tactic(auto)]

pub mod bfs;
pub mod clones;
pub mod depth;
pub mod dijkstra;
pub mod labels;
pub mod numbered;
pub mod queue;
pub mod row;
pub mod search;
pub mod slot;
pub mod sums;
