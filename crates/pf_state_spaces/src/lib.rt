//! Graphs over states of one's own, told place by place, and as functions that list what leads from a state.
#![tactic(auto)]

pub mod moves;
pub mod neighbours;
pub mod space;

pub use crate::neighbours::Neighbours;
pub use crate::space::{Exact, StateGoal, StateSpace};
