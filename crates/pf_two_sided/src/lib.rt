//! Two searches that meet: the trait of a graph that is searched from both of its sides, whole levels
//! of either side in turn up to the first meeting, and nodes that functions list, numbered on each
//! side as they are found.
//!
//! The layer below `pf_both_ends`. No crate exports this layer.
#![tactic(auto)]

mod bfs_level;
pub mod bidirectional;
pub mod sides;
pub mod two_sided;
