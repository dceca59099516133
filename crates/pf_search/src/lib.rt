//! Searches on graphs that functions answer.
#![tactic(auto)]

pub mod directed;
pub mod discovered;
pub mod laws;
