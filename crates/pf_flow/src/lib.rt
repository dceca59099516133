//! Greatest flows and least cuts under capacities that change.
#![tactic(auto)]

mod augmenting;
mod by_names;
mod changes;
mod cuts;
mod dense_capacity;
pub mod edmonds_karp;
pub mod laws;
mod levels;
mod listings;
mod makers;
mod phases;
mod sparse_capacity;
mod tables;
mod taking_back;
