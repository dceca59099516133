//! Callers over tables in which each node has a row.

ghost use Rattle.std.specs.Prelude.{◌≡◌, ◌⊎◌, ◌<◌, ◌↔◌, ◌==◌, ◌∷◌, [], All, length, nat_eq, pos, IsTrue, IfOk, IfErr};
ghost use Rattle.pf_base.specs.Edges.{CostOverflows, IsCheapestOrNone};
ghost use Rattle.pf_base.specs.Successors.{IsFewestEdgesOrNone};
ghost use Rattle.test_searches.specs.Rows.{edges_of, nodes_after};

use num_traits::Number;
use pf_base::PathError;
use pf_node_refs::NodeRefs;
use pf_search::directed::bfs::bfs;
use pf_search::directed::dijkstra::dijkstra;
use std::alloc::Global;

/// Whether each edge of a row leads below `bound`.
fn leads_below(row: &[(usize, u32)], bound: usize) -> bool
    ensures { IsTrue result ↔ All (λ e. e.0 < bound) row.now }
{
    row.iter().all(|e| e.0 < bound)
}

/// Whether each edge of a table leads to one of its rows.
pub fn leads_to_rows(rows: &[Vec<(usize, u32)>]) -> bool
    ensures { IsTrue result ↔ All (λ row. All (λ e. e.0 < length rows.now) row.items) rows.now }
{
    rows.iter().all(|row| leads_below(row, rows.len()))
}

/// A cheapest path in a table, with its cost, or `None` exactly where no walk leads from `from` to
/// `to`. The nodes are the places of the rows, and each row lists the edges from its node.
pub fn cheapest_in_rows(
    alloc: Global,
    rows: &[Vec<(usize, u32)>],
    from: usize,
    to: usize,
) -> Result<Option<(Vec<usize>, u32)>, PathError>
    requires inside { from < length rows.now }
    requires in_range { All (λ row. All (λ e. e.0 < length rows.now) row.items) rows.now }
    ensures best { IfOk result (IsCheapestOrNone nat_eq (edges_of rows.now) (from ∷ []) (λ n. n == to) (λ c. pos c)) }
    ensures overflow { result ≡ Err PathError.CostOverflow
        → CostOverflows nat_eq (edges_of rows.now) (from ∷ []) (λ n. n == to) ⟦<u32 as Number>⟧.fits }
    ensures errors { IfErr result (λ e. (e ≡ PathError.OutOfMemory) ⊎ (e ≡ PathError.CostOverflow)) }
{
    dijkstra(alloc, &from, |n| rows[*n].iter().copied(), |n| *n == to)
}

/// A path with fewest edges in a table, from one of the starts to `to`, or `None` exactly where no
/// walk leads from a start to `to`. Each row lists the nodes after its node.
pub fn fewest_in_rows(
    alloc: Global,
    rows: &[Vec<usize>],
    starts: &NodeRefs<'_, usize>,
    to: usize,
) -> Result<Option<Vec<usize>>, PathError>
    requires inside { All (λ n. n < length rows.now) starts.now }
    requires in_range { All (λ row. All (λ n. n < length rows.now) row.items) rows.now }
    ensures best { IfOk result (IsFewestEdgesOrNone nat_eq (nodes_after rows.now) starts.now (λ n. n == to)) }
    ensures errors { IfErr result (λ e. e ≡ PathError.OutOfMemory) }
{
    bfs(alloc, starts, |n| rows[*n].iter().copied(), |n| *n == to)
}
