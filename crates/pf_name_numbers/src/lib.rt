//! The numbers that a search over an edge list goes over, where names are handed in beside those of
//! the list, and the names that are read back for them.
#![tactic(auto)]

pub mod listed;
pub mod names;
pub mod numbers;
pub mod paths;
