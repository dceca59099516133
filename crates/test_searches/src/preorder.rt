//! Callers of searches and walks in preorder.

ghost use Rattle.std.specs.Prelude.{◌<◌, All, IfOk, length};

use pf_base::PathError;
use pf_search::directed::dfs::{dfs, dfs_reach};
use std::alloc::Global;
use test_edge_lists::nodes_after;

/// The first path in preorder from the start to the goal, in a graph that is given as a list of edges
/// (from, to).
pub fn first_in_pairs(
    alloc: Global,
    edges: &[(u8, u8)],
    start: u8,
    goal: u8,
) -> Result<Option<Vec<u8>>, PathError> {
    dfs(alloc, start, |n| nodes_after(edges, *n), |n| *n == goal)
}

/// Whether a walk gives these nodes in its first `limit` steps, and no others.
fn gives<W>(walk: Result<W, PathError>, limit: usize, nodes: &[usize]) -> Result<bool, PathError>
where
    W: Iterator<Item = Result<usize, PathError>>,
    requires { IfOk walk (λ w. W.can_next w) }
{
    let mut wanted = nodes.iter();
    for node in walk?.take(limit) {
        if wanted.next() != Some(&node?) {
            return Ok(false);
        }
    }
    Ok(wanted.next().is_none())
}

/// Whether these nodes come in the first `limit` steps of a walk in preorder, in a table in which each row
/// lists the nodes after its node.
pub fn comes_in_rows(
    alloc: Global,
    rows: &[Vec<usize>],
    from: usize,
    limit: usize,
    nodes: &[usize],
) -> Result<bool, PathError>
    requires inside { from < length rows.now }
    requires in_range { All (λ row. All (λ n. n < length rows.now) row.items) rows.now }
{
    let walk = dfs_reach(alloc, from, |n: &usize| rows[*n].iter().copied());
    gives(walk, limit, nodes)
}
