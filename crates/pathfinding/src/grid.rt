//! Grids: sets of positions (x, y) below a width and a height.

pub use pf_grid::{Coordinate, EdgesIterator, Grid, GridError, GridIntoIterator, GridIterator};
