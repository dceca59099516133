//! Grids: sets of positions (x, y) below a width and a height.
#![tactic(auto)]

mod coordinate;
mod error;
mod grid;
mod words;

pub use crate::coordinate::Coordinate;
pub use crate::error::GridError;
pub use crate::grid::{EdgesIterator, Grid, GridIntoIterator, GridIterator};
