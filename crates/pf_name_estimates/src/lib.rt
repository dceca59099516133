//! Searches of graphs of edges between names, by name, that an estimate of the cost that remains leads.
//! A call asks no proof of its caller.
#![tactic(auto)]

mod paths;
mod searches;
mod solutions;
mod steps;

pub use crate::paths::astar_bag_collect;
pub use crate::searches::{astar, fringe, idastar};
pub use crate::solutions::{AstarSolution, astar_bag};
pub use pf_estimated_names::{NameEstimateError, NameEstimates};
