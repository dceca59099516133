//! The inputs of the jobs. Each begins with fresh draws, and makes them in the order in which it has
//! the numbers.

ghost use Rattle.std.specs.Prelude.{◌≡◌, IfOk, length};

mod board;
mod edges;
mod grid;
mod groups;
mod network;
mod puzzle;
mod rows;
mod steps;
mod table;

use crate::error::BenchError;
pub use crate::inputs::board::{Board, Cell, HIGHEST, START, distance};
pub use crate::inputs::edges::{WeightedEdge, edges, edges_from_first};
pub use crate::inputs::grid::grid;
pub use crate::inputs::groups::groups;
pub use crate::inputs::network::Network;
pub use crate::inputs::puzzle::{Tiles, estimate, moves_from, puzzle, solved};
pub use crate::inputs::rows::Rows;
pub use crate::inputs::table::table;
use std::alloc::Global;

/// So many values, drawn one after another.
fn drawn<T: Drop, F: FnMut() -> T>(
    alloc: Global,
    count: usize,
    mut draw: F,
) -> Result<Vec<T>, BenchError>
where
    requires { F.IsAlwaysCallable draw }
    ensures { IfOk result (λ values. length values.items ≡ count) }
{
    let mut values = Vec::with_capacity(alloc, count)?;
    for place in 0..count {
        values.push(draw())?;
    }
    Ok(values)
}
