//! How grids are made.

ghost use Rattle.std.specs.Prelude.{◌≡◌, ◌*◌, ◌<◌, ◌^◌, false, IfOk, IfErr};
ghost use Rattle.pf_grid.specs.GridPositions.{IsGrid, grid_of};
ghost use Rattle.pf_grid.specs.declared.error.GridError.TheVariants.{OutOfMemory};

use crate::error::GridError;
use crate::grid::Grid;
use crate::words::row_words;
use std::alloc::Allocator;

impl<A: Allocator> Grid<A> {
    /// A grid of these sizes without vertices, in which steps are not diagonal.
    ///
    /// # Errors
    ///
    /// `OutOfMemory` where a request for memory was refused.
    pub fn new(alloc: A, width: usize, height: usize) -> Result<Self, GridError>
        requires { width * height < 2 ^ 64 }
        ensures made { IfOk result (λ g. g ≡ grid_of width height false (λ x y. false)) }
        ensures refused { IfErr result (λ e. e ≡ OutOfMemory) }
    {
        let words = Vec::from_elem(alloc, 0, row_words(width) * height)?;
        Ok(Grid {
            width,
            height,
            diagonal: false,
            inverted: false,
            len: 0,
            words,
        })
    }
}
