//! Searches over states that an estimate of the cost that remains leads.
#![tactic(auto)]

mod estimate;
mod paths;
mod searches;

pub use crate::estimate::StateEstimate;
pub use crate::paths::{astar_bag, astar_bag_collect};
pub use crate::searches::{astar, fringe, idastar};
pub use pf_state_spaces::{Exact, StateGoal, StateSpace};
