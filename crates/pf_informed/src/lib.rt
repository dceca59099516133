//! Searches on graphs that functions answer, led by an estimate of the cost that remains.
#![tactic(auto)]

mod branch;
mod cheapest_labels;
pub mod directed;
pub mod discovered;
mod estimates;
mod fringe_lists;
pub mod functions;
mod labels;
pub mod laws;
mod predecessors;
mod queue;
mod search;
mod tight;
mod turns;
mod ways;

pub use functions::EstimateFunction;
