//! Orders and strong components of graphs in tables by the calls for graphs that functions answer. A
//! call asks no proof of its caller.
#![tactic(auto)]

mod components;
mod orders;

pub use crate::components::{strongly_connected_component, strongly_connected_components};
pub use crate::orders::{topological_sort, topological_sort_into_groups};
