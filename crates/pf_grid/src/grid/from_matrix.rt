//! Grids of matrices of truth values.

ghost use Rattle.std.specs.Prelude.{◌≡◌, IfOk, IfErr};
ghost use Rattle.pf_grid.specs.Vertices.{of_table};
ghost use Rattle.pf_grid.specs.declared.error.GridError.TheVariants.{OutOfMemory};

use crate::error::GridError;
use crate::grid::Grid;
use pf_matrix::Matrix;
use std::alloc::Allocator;

impl<A: Allocator> Grid<A> {
    /// The grid with a column for each column of the matrix and a row for each of its rows. The vertices
    /// are the positions at which the matrix has `true`: row r and column c of the matrix become the
    /// position (c, r). Steps are not diagonal.
    ///
    /// # Errors
    ///
    /// `OutOfMemory` where a request for memory was refused.
    pub fn from_matrix<B: Allocator>(alloc: A, matrix: &Matrix<bool, B>) -> Result<Self, GridError>
        ensures made { IfOk result (λ g. g ≡ of_table matrix.now) }
        ensures refused { IfErr result (λ e. e ≡ OutOfMemory) }
    {
        let (width, height) = (matrix.columns(), matrix.rows());
        let mut grid = Grid::new(alloc, width, height)?;
        for y in 0..height {
            for x in 0..width {
                grid.put((x, y), matrix[(y, x)]);
            }
        }
        Ok(grid)
    }
}
