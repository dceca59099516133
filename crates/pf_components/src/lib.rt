//! Components of groups that share vertices.
#![tactic(auto)]

mod around;
pub mod connected_components;
mod disjoint_sets;
mod node_sets;
