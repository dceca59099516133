//! A square grid.

use crate::draw::Draws;
use crate::error::BenchError;
use pf_grid::Grid;
use std::alloc::Global;

/// A grid without diagonals, of whose positions two in three are vertices.
pub fn grid(alloc: Global, size: usize) -> Result<Grid, BenchError> {
    if size.checked_mul(size).is_none() {
        return Err(BenchError::TooLarge);
    }
    let mut draws = Draws::new();
    let mut grid = Grid::new(alloc, size, size)?;
    for y in 0..size {
        for x in 0..size {
            if draws.below(3) != 0 {
                let _ = grid.add_vertex((x, y))?;
            }
        }
    }
    Ok(grid)
}
