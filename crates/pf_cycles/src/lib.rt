//! Cycles of a step on values.
#![tactic(auto)]

pub mod directed;
