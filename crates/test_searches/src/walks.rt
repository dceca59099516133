//! Callers of a lazy walk.

ghost use Rattle.std.specs.Prelude.{◌≡◌, ◌<◌, ◌∷◌, [], ◌+◌, ◌%◌, ◌^◌, All, IfOk, length};

use pf_base::PathError;
use pf_search::directed::bfs::bfs_reach;
use std::alloc::Global;

/// How many of the nodes in reach of `from` come in the first `limit` steps of a walk, in a table in
/// which each row lists the nodes after its node.
pub fn count_in_rows(
    alloc: Global,
    rows: &[Vec<usize>],
    from: usize,
    limit: usize,
) -> Result<usize, PathError>
    requires inside { from < length rows.now }
    requires in_range { All (λ row. All (λ n. n < length rows.now) row.items) rows.now }
{
    let mut count = 0;
    let walk = bfs_reach(alloc, from, |n: &usize| rows[*n].iter().copied())?;
    for node in walk.take(limit) {
        let _node = node?;
        if count < limit {
            count += 1;
        }
    }
    Ok(count)
}

/// The node that a walk gives in step `steps`, and 0 where there is no step.
fn last_of<W>(walk: Result<W, PathError>, steps: usize) -> Result<u64, PathError>
where
    W: Iterator<Item = Result<u64, PathError>>,
    requires { IfOk walk (λ w. W.can_next w) }
{
    let mut last = 0;
    for node in walk?.take(steps) {
        last = node?;
    }
    Ok(last)
}

/// The node that comes in step `steps` of a walk on the endless graph in which one node follows each,
/// and the start where there is no step.
pub fn walked(alloc: Global, steps: usize) -> Result<u64, PathError> {
    let mut calls = 0u64;
    let walk = bfs_reach(
        alloc,
        0u64,
        move |n: &u64| -> [u64; 1]
            ensures { result ≡ ((n.now + 1) % 2 ^ 64) ∷ [] }
        {
            calls = calls.wrapping_add(1);
            [n.wrapping_add(1)]
        },
    );
    last_of(walk, steps)
}
