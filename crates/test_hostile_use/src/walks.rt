//! What walks give, one step at a time.

ghost use Rattle.std.specs.Prelude.{IfOk};

use pf_base::PathError;
use pf_search::directed::dijkstra::DijkstraReachableItem;
use std::alloc::Global;

/// How many steps of a walk are gone at most.
const LIMIT: usize = 2_000_000;

/// The first item that a walk gives.
pub fn first_of<T, W>(walk: Result<W, PathError>) -> Result<Option<T>, PathError>
where
    W: Iterator<Item = Result<T, PathError>>,
    requires { IfOk walk (λ w. W.can_next w) }
{
    let mut walk = walk?;
    walk.next().transpose()
}

/// All items that a walk gives.
pub fn all_of<T, W>(alloc: Global, walk: Result<W, PathError>) -> Result<Vec<T>, PathError>
where
    T: Copy,
    W: Iterator<Item = Result<T, PathError>>,
    requires { IfOk walk (λ w. W.can_next w) }
{
    walk?.take(LIMIT).try_collect(alloc)
}

/// The nodes that a walk by rising cost gives up to the goal, which are a path where each node has one
/// step alone, and the goal's cost; `None` where the walk does not give the goal.
pub fn up_to<N, C, W>(
    alloc: Global,
    walk: Result<W, PathError>,
    goal: &N,
) -> Result<Option<(Vec<N>, C)>, PathError>
where
    N: Eq + Copy,
    C: Copy,
    W: Iterator<Item = Result<DijkstraReachableItem<N, C>, PathError>>,
    requires { IfOk walk (λ w. W.can_next w) }
{
    let mut path = Vec::new(alloc);
    for item in walk?.take(LIMIT) {
        let item = item?;
        path.push(item.node)?;
        if item.node == *goal {
            return Ok(Some((path, item.total_cost)));
        }
    }
    Ok(None)
}
