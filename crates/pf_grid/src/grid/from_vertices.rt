//! Grids of positions that are given.

ghost use Rattle.std.specs.Prelude.{◌≡◌, ◌⊎◌, ◌*◌, ◌<◌, ◌≤◌, ◌^◌, IsErrOf, IfOk, IfErr, MatchOption};
ghost use Rattle.std.specs.Iterator.{IsFiniteIterable};
ghost use Rattle.pf_grid.specs.Vertices.{width_of, height_of, smallest, IsTooLarge, OfGiven};
ghost use Rattle.pf_grid.specs.declared.error.GridError.TheVariants.{OutOfMemory, TooLarge};

use crate::error::GridError;
use crate::grid::Grid;
use pf_matrix::giving::Giving;
use std::alloc::Allocator;

impl<A: Allocator + Copy> Grid<A> {
    /// The smallest grid that reaches all of the positions given, which are its vertices: an array or a
    /// vector of positions, `slice.iter().copied()`, or any other iterable of them that ends. Steps are
    /// not diagonal.
    ///
    /// # Errors
    ///
    /// `TooLarge` where a coordinate plus 1, or the width times the height, does not fit `usize`, and
    /// `OutOfMemory` where a request for memory was refused.
    pub fn from_vertices<I: IntoIterator<Item = (usize, usize)>>(
        alloc: A,
        vertices: I,
    ) -> Result<Self, GridError>
        requires ends { IsFiniteIterable I.into_iter_gives I.IntoIter.can_next I.IntoIter.remaining vertices }
        ensures made { IfOk result (λ g. OfGiven ⟦<I as Giving<(usize, usize)>>⟧.gives_all vertices (λ ps. g ≡ smallest ps)) }
        ensures too_large { IsErrOf result TooLarge → OfGiven ⟦<I as Giving<(usize, usize)>>⟧.gives_all vertices IsTooLarge }
        ensures refused { IfErr result (λ e. (e ≡ OutOfMemory) ⊎ (e ≡ TooLarge)) }
    {
        let mut given = Vec::new(alloc);
        for vertex in vertices {
            given.push(vertex)?;
        }
        Self::from_positions(alloc, given.as_slice())
    }
}

impl<A: Allocator> Grid<A> {
    /// The smallest grid that reaches all of these positions.
    pub(crate) fn from_positions(alloc: A, positions: &[(usize, usize)]) -> Result<Self, GridError>
        ensures made { IfOk result (λ g. g ≡ smallest positions.now) }
        ensures too_large { IsErrOf result TooLarge → IsTooLarge positions.now }
        ensures refused { IfErr result (λ e. (e ≡ OutOfMemory) ⊎ (e ≡ TooLarge)) }
    {
        let Some((width, height)) = sizes_of(positions) else {
            return Err(GridError::TooLarge);
        };
        let mut grid = Grid::new(alloc, width, height)?;
        for position in positions {
            grid.put(*position, true);
        }
        Ok(grid)
    }
}

/// The sizes of the smallest grid that reaches all of these positions, if its positions fit.
fn sizes_of(positions: &[(usize, usize)]) -> Option<(usize, usize)>
    ensures { MatchOption result
        (IsTooLarge positions.now)
        (λ s. (s.0 ≡ width_of positions.now) × (s.1 ≡ height_of positions.now) × (s.0 * s.1 < 2 ^ 64)) }
{
    let (mut width, mut height) = (0_usize, 0_usize);
    for position in positions {
        if position.0 == usize::MAX || position.1 == usize::MAX {
            return None;
        }
        width = width.max(position.0 + 1);
        height = height.max(position.1 + 1);
    }
    width.checked_mul(height)?;
    Some((width, height))
}
