//! Graphs in tables with goals and an estimate of the cost that remains from each node to a goal, for
//! searches that an estimate leads.
#![tactic(auto)]

mod board_estimates;
mod checks;
pub mod error;
mod estimated_graph;
pub mod estimates;
mod products;

pub use crate::board_estimates::BoardEstimates;
pub use crate::error::EstimateError;
pub use crate::estimated_graph::EstimatedGraph;
pub use crate::estimates::Estimates;
