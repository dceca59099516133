//! Graphs in tables as functions: what leads from a number, asked one by one, and whether it is a goal.
//!
//! The crates of searches over tables hand these to the calls for graphs that functions answer.
#![tactic(auto)]

pub mod discovery;
pub mod edges;
pub mod goal_test;
pub mod neighbours;
pub mod table_nodes;
