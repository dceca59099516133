//! Strong components and topological orders of graphs over states. A call asks no proof of its caller.
#![tactic(auto)]

mod components;
mod orders;

pub use crate::components::{strongly_connected_component, strongly_connected_components};
pub use crate::orders::{topological_sort, topological_sort_into_groups};
pub use pf_state_spaces::{Exact, StateSpace};
