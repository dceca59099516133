//! Other sizes.

ghost use Rattle.std.specs.Prelude.{◌≡◌, ◌*◌, ◌<◌, ◌^◌, ◌&&◌, not, nat_lt, IfOk, IfErr, OnOk, OnErr};
ghost use Rattle.std.specs.List.{list_any};
ghost use Rattle.pf_grid.specs.GridPositions.{has, grid_of};
ghost use Rattle.pf_grid.specs.Vertices.{vertices_of};
ghost use Rattle.pf_grid.specs.declared.error.GridError.TheVariants.{OutOfMemory};

use crate::error::GridError;
use crate::grid::Grid;
use std::alloc::Allocator;

impl<A: Allocator + Copy> Grid<A> {
    /// Gives the grid these sizes. The vertices that stay inside are kept, and none are added. It answers
    /// whether a vertex was lost. A refused call leaves the grid as it was.
    ///
    /// # Errors
    ///
    /// `OutOfMemory` where a request for memory was refused.
    pub fn resize(&mut self, width: usize, height: usize) -> Result<bool, GridError>
        requires { width * height < 2 ^ 64 }
        ensures resized { OnOk result (self.new ≡ grid_of width height self.old.diagonal (has self.old)) }
        ensures lost { IfOk result (λ lost. lost ≡ list_any (λ p. not (nat_lt p.0 width && nat_lt p.1 height)) (vertices_of self.old)) }
        ensures refused { IfErr result (λ e. e ≡ OutOfMemory) }
        ensures unchanged { OnErr result (self.new ≡ self.old) }
    {
        let mut resized = Grid::new(*self.words.allocator(), width, height)?;
        let mut lost = false;
        for vertex in self.iter() {
            if resized.is_inside(vertex) {
                resized.put(vertex, true);
            } else {
                lost = true;
            }
        }
        resized.diagonal = self.diagonal;
        *self = resized;
        Ok(lost)
    }
}
