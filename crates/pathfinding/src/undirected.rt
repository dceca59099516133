//! Algorithms on undirected graphs.

pub use pf_components::connected_components;
pub use pf_graph::undirected::{kruskal, laws, prim};
