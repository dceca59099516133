//! The k cheapest paths in graphs in tables by the calls for graphs that functions answer. A call asks
//! no proof of its caller.
#![tactic(auto)]

mod ranked;
mod ranked_walks;
mod walk;

pub use crate::ranked::yen;
pub use crate::ranked_walks::{YenPaths, yen_paths};
