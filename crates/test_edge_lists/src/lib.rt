//! Graphs that are given as lists of edges, for tests: functions that list the edges of a list that
//! leave a node or enter it.
//!
//! A test hands a search a closure such as `|n| edges_from(edges, *n)`. What a contract says of such
//! a list is in `specs/`, and what its proof cites in `proofs/`.
#![tactic(auto)]

pub mod costs;
pub mod nodes;

pub use crate::costs::{EdgesFrom, EdgesTo, edges_from, edges_to};
pub use crate::nodes::{Edge, NodesAfter, NodesBefore, nodes_after, nodes_before};
