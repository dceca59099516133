//! The cheapest paths of a graph that functions answer, one after the other.
#![tactic(auto)]

mod adjacency;
mod backward;
mod banned;
mod candidate;
mod candidates;
mod classes;
pub mod directed;
mod explore;
mod filtered;
mod given;
pub mod laws;
mod led;
mod named;
mod reduced;
mod remaining;
mod rows;
mod standing;
