//! Boards of cells as graphs in tables.
#![tactic(auto)]

mod board;
mod steps;

pub use crate::board::Board;
pub use crate::steps::Steps;
