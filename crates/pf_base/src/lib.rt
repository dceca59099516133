//! What the crates of the library share: costs, refusals, and what contracts say of functions.
#![tactic(auto)]

pub mod cost;
pub mod error;
pub mod filled;
pub mod functions;
pub mod shift;
pub mod tally;

pub use crate::cost::{Cost, SignedCost};
pub use crate::error::PathError;
pub use crate::functions::{EdgeFunction, NodeTest, SuccessorFunction};
pub use crate::tally::Tally;
