//! Strong components and orders of graphs that functions answer.
#![tactic(auto)]

mod component_search;
pub mod directed;
pub mod discovered;
pub mod laws;
mod nodes;
mod ordering;
mod rounds;
mod rows;
