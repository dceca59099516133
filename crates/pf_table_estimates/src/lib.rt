//! Searches over graphs in tables that an estimate of the cost that remains leads. A call asks no proof
//! of its caller.
#![tactic(auto)]

mod guide;
mod paths;
mod searches;

pub use crate::paths::{AstarSolution, astar_bag, astar_bag_collect};
pub use crate::searches::{astar, fringe, idastar};
pub use pf_estimated_graphs::{BoardEstimates, EstimateError, EstimatedGraph, Estimates};
