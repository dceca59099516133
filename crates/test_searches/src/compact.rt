//! Callers over adjacency rows in a compact form: the edges of all nodes in one list, and where the
//! edges of each node begin.

ghost use Rattle.std.specs.Prelude.{◌≡◌, ◌⊎◌, ◌<◌, ◌≤◌, ◌+◌, ◌==◌, ◌∷◌, [], All, length, nat_eq, pos, slice_index, IsTrue, IfOk, IfErr};
ghost use Rattle.std.specs.List.Sorted.{IsNonDecreasing};
ghost use Rattle.pf_base.specs.Edges.{CostOverflows, IsCheapestOrNone};
ghost use Rattle.pf_base.specs.Successors.{IsFewestEdgesOrNone};
ghost use Rattle.test_searches.specs.Compact.{IsCompact, IsNode, edges_in, nodes_in, row_of};

use num_traits::Number;
use pf_base::PathError;
use pf_node_refs::NodeRefs;
use pf_search::directed::bfs::bfs;
use pf_search::directed::dijkstra::dijkstra;
use std::alloc::Global;

/// Whether no offset is above the next one, nor above `end`.
fn rise_to(offsets: &[usize], end: usize) -> bool
    ensures rising { IsTrue result → IsNonDecreasing offsets.now }
    ensures within { IsTrue result → All (λ o. o ≤ end) offsets.now }
{
    let mut last = 0;
    for offset in offsets {
        if *offset < last || *offset > end {
            return false;
        }
        last = *offset;
    }
    true
}

/// Whether offsets and targets are a graph in compact form.
pub fn is_compact<E>(offsets: &[usize], targets: &[E]) -> bool
    ensures { IsTrue result → IsCompact offsets.now targets.now }
{
    rise_to(offsets, targets.len())
}

/// The row of a node: what stands between its offset and the next one.
fn row<'t, E>(offsets: &[usize], targets: &'t [E], node: usize) -> &'t [E]
    requires node { IsNode offsets.now node }
    requires rising { slice_index offsets.now node ≤ slice_index offsets.now (node + 1) }
    requires within { slice_index offsets.now (node + 1) ≤ length targets.now }
    ensures { result.now ≡ row_of offsets.now targets.now node }
{
    &targets[offsets[node]..offsets[node + 1]]
}

/// A cheapest path in a graph in compact form, with its cost, or `None` exactly where no walk leads
/// from `from` to `to`. The edges from the node n are `targets[offsets[n]..offsets[n + 1]]`.
pub fn cheapest_in_compact(
    alloc: Global,
    offsets: &[usize],
    targets: &[(usize, u32)],
    from: usize,
    to: usize,
) -> Result<Option<(Vec<usize>, u32)>, PathError>
    requires inside { IsNode offsets.now from }
    requires compact { IsCompact offsets.now targets.now }
    requires in_range { All (λ e. IsNode offsets.now e.0) targets.now }
    ensures best { IfOk result (IsCheapestOrNone nat_eq (edges_in offsets.now targets.now) (from ∷ []) (λ n. n == to) (λ c. pos c)) }
    ensures overflow { result ≡ Err PathError.CostOverflow
        → CostOverflows nat_eq (edges_in offsets.now targets.now) (from ∷ []) (λ n. n == to) ⟦<u32 as Number>⟧.fits }
    ensures errors { IfErr result (λ e. (e ≡ PathError.OutOfMemory) ⊎ (e ≡ PathError.CostOverflow)) }
{
    dijkstra(
        alloc,
        &from,
        |n| row(offsets, targets, *n).iter().copied(),
        |n| *n == to,
    )
}

/// A path with fewest edges in a graph in compact form, from one of the starts to `to`, or `None`
/// exactly where no walk leads from a start to `to`. The nodes after the node n are
/// `targets[offsets[n]..offsets[n + 1]]`.
pub fn fewest_in_compact(
    alloc: Global,
    offsets: &[usize],
    targets: &[usize],
    starts: &NodeRefs<'_, usize>,
    to: usize,
) -> Result<Option<Vec<usize>>, PathError>
    requires inside { All (IsNode offsets.now) starts.now }
    requires compact { IsCompact offsets.now targets.now }
    requires in_range { All (IsNode offsets.now) targets.now }
    ensures best { IfOk result (IsFewestEdgesOrNone nat_eq (nodes_in offsets.now targets.now) starts.now (λ n. n == to)) }
    ensures errors { IfErr result (λ e. e ≡ PathError.OutOfMemory) }
{
    bfs(
        alloc,
        starts,
        |n| row(offsets, targets, *n).iter().copied(),
        |n| *n == to,
    )
}
