//! Graphs of edges between names, which they number, and searches over them by name. A search asks
//! no proof of its caller.
#![tactic(auto)]

mod cheapest_names;
mod edge_list;
mod error;
mod fewest_names;
mod names;

pub use crate::edge_list::EdgeList;
pub use crate::error::EdgeListError;
