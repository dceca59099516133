//! A caller of a lazy walk by rising cost.

ghost use Rattle.std.specs.Prelude.{◌<◌, All, IfOk, length};

use pf_base::PathError;
use pf_search::directed::dijkstra::{DijkstraReachableItem, dijkstra_reach};
use std::alloc::Global;

/// A node, its parent and its cost.
pub type Given = (usize, Option<usize>, u32);

/// What a walk gives in its first `limit` steps.
fn gathered<W>(
    alloc: Global,
    walk: Result<W, PathError>,
    limit: usize,
) -> Result<Vec<Given>, PathError>
where
    W: Iterator<Item = Result<DijkstraReachableItem<usize, u32>, PathError>>,
    requires { IfOk walk (λ w. W.can_next w) }
{
    let mut given = Vec::new(alloc);
    for item in walk?.take(limit) {
        let item = item?;
        given.push((item.node, item.parent, item.total_cost))?;
    }
    Ok(given)
}

/// What comes in the first `limit` steps of a walk, in a table in which each row lists the edges from
/// its node.
pub fn given_in_rows(
    alloc: Global,
    rows: &[Vec<(usize, u32)>],
    from: usize,
    limit: usize,
) -> Result<Vec<Given>, PathError>
    requires inside { from < length rows.now }
    requires in_range { All (λ row. All (λ e. e.0 < length rows.now) row.items) rows.now }
{
    let walk = dijkstra_reach(alloc, &from, |n| rows[*n].iter().copied());
    gathered(alloc, walk, limit)
}
