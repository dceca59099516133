//! Directed graphs.

pub mod strongly_connected_components;
pub mod topological_sort;
