//! The k cheapest paths in graphs of edges between names, and all of them by rising cost, by name. A
//! call asks no proof of its caller.
#![tactic(auto)]

mod ranked;
mod ranked_walks;
mod steps;

pub use crate::ranked::yen;
pub use crate::ranked_walks::{YenPaths, yen_paths};
