//! Paths in graphs: the public paths of the Rust crate `pathfinding`, and the program `routes` as a library.
#![tactic(auto)]

pub mod directed;
pub mod functions;
pub mod graphs;
pub mod grid;
mod macros;
pub mod matrix;
pub mod names;
pub mod prelude;
pub mod states;
pub mod undirected;
pub mod utils;

pub use pf_assignment::kuhn_munkres;
pub use pf_base::{cost, error};
pub use pf_node_refs::{NodeRefs, noderefs};
pub use pf_routes::routes;
