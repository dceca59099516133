//! The callers of pf_grid's CALLING.md: they know grids by their contracts alone.

ghost use Rattle.std.specs.Prelude.{◌≡◌, ◌+◌, ◌*◌, ◌<◌, ◌^◌, ℕ, Bool, List, IfOk, true, false, slice_index_or};
ghost use Rattle.pf_grid.specs.VertexFloods.{IsFlood};
ghost use Rattle.pf_grid.specs.GridPositions.{grid_of, filled, has};
ghost use Rattle.pf_matrix.specs.Floods.{answer_at};

use pf_grid::{Grid, GridError};
use std::alloc::Allocator;
use std::collections::BTreeSet;

/// A grid of which each position is a vertex.
pub fn full_grid<A: Allocator>(alloc: A, width: usize, height: usize) -> Result<Grid<A>, GridError>
    requires { width * height < 2 ^ 64 }
    ensures { IfOk result (λ g. g ≡ filled (grid_of width height false (λ x y. false))) }
{
    let mut grid = Grid::new(alloc, width, height)?;
    grid.fill();
    Ok(grid)
}

/// The vertices that are reached from the vertex `start` by steps to neighbours that are vertices of
/// `other` too.
pub fn reached_in_both<A: Allocator + Copy>(
    grid: &Grid<A>,
    other: &Grid<A>,
    start: (usize, usize),
) -> Result<BTreeSet<(usize, usize), A>, GridError>
    requires { has grid.now start.0 start.1 ≡ true }
    ensures { IfOk result (λ reached. (answers : List Bool)
        × IsFlood grid.now (answer_at grid.now.width grid.now.height answers) start reached
        × ((x y : ℕ) → x < grid.now.width → y < grid.now.height → slice_index_or answers (x * grid.now.height + y) false ≡ has other.now x y)) }
{
    grid.bfs_reachable(
        start,
        |position: (usize, usize)| -> bool
            ensures { result ≡ has other.entry.now position.0 position.1 }
        { other.has_vertex(position) },
    )
}
