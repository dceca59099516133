//! Graphs that own their edges: laid out from a list of edges between numbers, and a table with its
//! edges in both directions. A search over one asks no proof of its caller.
#![tactic(auto)]

mod adjacency_list;
mod both_ways;
mod checks;
mod error;
mod layout;
mod numbered_edge;

pub use crate::adjacency_list::AdjacencyList;
pub use crate::both_ways::BothWays;
pub use crate::error::AdjacencyError;
pub use crate::numbered_edge::NumberedEdge;
