//! Callers over a board of heights, which stand row by row in one slice.

ghost use Rattle.std.specs.Prelude.{◌≡◌, ◌⊎◌, ◌*◌, ◌==◌, ◌&&◌, ◌∷◌, [], length, pos, IfOk, IfErr};
ghost use Rattle.pf_base.specs.Edges.{CostOverflows, IsCheapestOrNone};
ghost use Rattle.pf_base.specs.Successors.{IsFewestEdgesOrNone};
ghost use Rattle.test_searches.specs.Grid.{cells_from, entered, entered_cell, same_cell, steps_from};

use num_traits::Number;
use pf_base::PathError;
use pf_node_refs::NodeRefs;
use pf_search::directed::bfs::bfs;
use pf_search::directed::dijkstra::dijkstra;
use pf_utils::move_in_direction;
use std::alloc::Global;

/// The cell that a step leads to, with its height, where it is on the board and at most as high as
/// `bound`.
fn enter(
    heights: &[u8],
    dimensions: (usize, usize),
    bound: u8,
    from: (usize, usize),
    direction: (isize, isize),
) -> Option<((usize, usize), u32)>
    requires { length heights.now ≡ dimensions.0 * dimensions.1 }
    ensures { result ≡ entered heights.now dimensions bound from direction }
{
    let to = move_in_direction(from, direction, dimensions)?;
    let height = heights[to.0 * dimensions.1 + to.1];
    if height <= bound {
        Some((to, u32::from(height)))
    } else {
        None
    }
}

/// The cell that such a step leads to.
fn enter_cell(
    heights: &[u8],
    dimensions: (usize, usize),
    bound: u8,
    from: (usize, usize),
    direction: (isize, isize),
) -> Option<(usize, usize)>
    requires { length heights.now ≡ dimensions.0 * dimensions.1 }
    ensures { result ≡ entered_cell heights.now dimensions bound from direction }
{
    enter(heights, dimensions, bound, from, direction).map(|step| step.0)
}

/// A cheapest way over a board from one cell to another by steps to the right, down, to the left
/// and up, with its cost, or `None` exactly where there is no way. A step is taken only to a cell
/// that is at most as high as `bound`, and costs its height.
pub fn cheapest_on_board(
    alloc: Global,
    heights: &[u8],
    dimensions: (usize, usize),
    bound: u8,
    from: (usize, usize),
    to: (usize, usize),
) -> Result<Option<(Vec<(usize, usize)>, u32)>, PathError>
    requires { length heights.now ≡ dimensions.0 * dimensions.1 }
    ensures best { IfOk result (IsCheapestOrNone same_cell (steps_from heights.now dimensions bound) (from ∷ []) (λ cell. same_cell cell to) (λ c. pos c)) }
    ensures overflow { result ≡ Err PathError.CostOverflow
        → CostOverflows same_cell (steps_from heights.now dimensions bound) (from ∷ []) (λ cell. same_cell cell to) ⟦<u32 as Number>⟧.fits }
    ensures errors { IfErr result (λ e. (e ≡ PathError.OutOfMemory) ⊎ (e ≡ PathError.CostOverflow)) }
{
    let directions: [(isize, isize); 4] = [(0, 1), (1, 0), (0, -1), (-1, 0)];
    dijkstra(
        alloc,
        &from,
        |cell| {
            let from = *cell;
            directions.into_iter().filter_map(move |direction| enter(
                heights, dimensions, bound, from, direction,
            ))
        },
        |cell| *cell == to,
    )
}

/// A way with fewest steps over a board from one of the starts to a cell, or `None` exactly where
/// there is none. The steps are those of [`cheapest_on_board`].
pub fn fewest_on_board(
    alloc: Global,
    heights: &[u8],
    dimensions: (usize, usize),
    bound: u8,
    starts: &NodeRefs<'_, (usize, usize)>,
    to: (usize, usize),
) -> Result<Option<Vec<(usize, usize)>>, PathError>
    requires { length heights.now ≡ dimensions.0 * dimensions.1 }
    ensures best { IfOk result (IsFewestEdgesOrNone same_cell (cells_from heights.now dimensions bound) starts.now (λ cell. same_cell cell to)) }
    ensures errors { IfErr result (λ e. e ≡ PathError.OutOfMemory) }
{
    let directions: [(isize, isize); 4] = [(0, 1), (1, 0), (0, -1), (-1, 0)];
    bfs(
        alloc,
        starts,
        |cell| {
            let from = *cell;
            directions.into_iter().filter_map(move |direction| enter_cell(
                heights, dimensions, bound, from, direction,
            ))
        },
        |cell| *cell == to,
    )
}
