//! The k cheapest paths over states. A call asks no proof of its caller.
#![tactic(auto)]

mod goal_test;
mod ranked;
mod ranked_walks;

pub use crate::ranked::yen;
pub use crate::ranked_walks::{YenPaths, yen_paths};
pub use pf_state_spaces::{Exact, StateGoal, StateSpace};
