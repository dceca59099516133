//! Minimum spanning forests, by rising weight (Kruskal 1956).

ghost use Rattle.std.specs.Prelude.{◌≡◌, ◌⊎◌, List, IfOk, IfErr, nat_eq, map};
ghost use Rattle.std.specs.List.{AllZip};
ghost use Rattle.std.specs.List.Sorted.{IsSorted};
ghost use Rattle.pf_base.specs.Answers.{IsLawfulClone};
ghost use Rattle.pf_base.specs.declared.error.PathError.TheVariants.{OutOfMemory, UnknownVertex, CostOverflow};
ghost use Rattle.pf_graph.specs.Spanning.{IsForest, IsLeastUnderEveryBound, AreChosenFrom, AreBelow, IsLeastForest, weight_sum};
ghost use Rattle.pf_graph.specs.EdgesByReference.{shown};
ghost use Rattle.pf_graph.specs.Internal.NumberedEdges.{IsWritten};

use crate::undirected::exact_sum::exact_sum;
use crate::undirected::numbered::number_edges;
use crate::undirected::spanning::{are_below, least_forest, spanning_forest};
pub use crate::undirected::spanning_edges::{Kruskal, KruskalIndices};
use crate::undirected::weighed::Weighed;
use pf_base::{Cost, PathError};
use std::alloc::Allocator;
use std::hash::Hash;

/// A minimum spanning forest of edges between the nodes 0, 1, .., `number_of_nodes` - 1 (Kruskal
/// 1956).
///
/// An edge is its two ends and its weight; edges may be parallel, and both ends may be one node.
/// The iterator gives edges as they are written, with clones of their weights, by rising weight.
/// They hold no cycle, and under every weight bound they join the nodes that all edges within that
/// bound join. Which of several edges of equal weight is chosen is open. Weights need an order alone;
/// where they are costs, the law `least_total_weight` gives that no forest of the edges that joins
/// the same nodes has a lower total weight.
///
/// It is refused with `UnknownVertex` exactly where a node of some edge is not below
/// `number_of_nodes`, which is tested first, and else only with `OutOfMemory`. All memory is taken
/// here: the iterator takes none.
pub fn kruskal_indices<C, A>(
    alloc: A,
    number_of_nodes: usize,
    edges: &[(usize, usize, C)],
) -> Result<KruskalIndices<C, A>, PathError>
where
    C: Clone + Ord,
    A: Allocator + Copy,
    requires clones { IsLawfulClone C.eq C.is_clone }
    ensures forest { IfOk result (IsForest nat_eq) }
    ensures least { IfOk result (IsLeastUnderEveryBound nat_eq C.cmp edges.now) }
    ensures as_written { IfOk result (AreChosenFrom C.is_clone edges.now) }
    ensures sorted { IfOk result (IsSorted (λ e f. C.cmp e.2 f.2)) }
    ensures known { IfOk result (λ _. AreBelow number_of_nodes edges.now) }
    ensures refused { IfErr result (λ e. (e ≡ UnknownVertex × ¬ (AreBelow number_of_nodes edges.now)) ⊎ (e ≡ OutOfMemory × AreBelow number_of_nodes edges.now)) }
{
    if !are_below(number_of_nodes, edges) {
        return Err(PathError::UnknownVertex);
    }
    let chosen = least_forest(alloc, number_of_nodes, edges)?;
    Ok(KruskalIndices {
        left: chosen.into_iter(),
    })
}

/// Numbered edges as they are written, with the weights that they are weighed by.
fn as_written<'a, N, C, A>(
    alloc: A,
    chosen: Vec<(usize, usize, Weighed<'a, N, C, C>), A>,
) -> Result<Vec<(&'a N, &'a N, C), A>, PathError>
where
    C: Drop,
    A: Allocator,
    ensures written { IfOk result (λ edges. AllZip IsWritten chosen.entry.items (map shown edges.items)) }
    ensures refused { IfErr result (λ e. e ≡ OutOfMemory) }
{
    let mut edges = Vec::with_capacity(alloc, chosen.len())?;
    for numbered in chosen {
        let Weighed { edge, weight } = numbered.2;
        edges.push((&edge.0, &edge.1, weight))?;
    }
    Ok(edges)
}

/// A minimum spanning forest of edges (Kruskal 1956).
///
/// An edge is its two ends and its weight; edges may be parallel, and both ends may be one node.
/// Equal nodes are one node. The iterator gives edges as they are written, as references to their
/// ends with clones of their weights, by rising weight. They hold no cycle, and under every weight
/// bound they join the nodes that all edges within that bound join. Which of several edges of equal
/// weight is chosen is open. Weights need an order alone; where they are costs, the law
/// `least_total_weight` gives that no forest of the edges that joins the same nodes has a lower total
/// weight.
///
/// The weight of every edge is cloned once, and edges are sorted by these clones. The only error is
/// `OutOfMemory`. All memory is taken here: the iterator takes none.
pub fn kruskal<'a, N, C, A>(
    alloc: A,
    edges: &'a [(N, N, C)],
) -> Result<Kruskal<'a, N, C, A>, PathError>
where
    N: Eq + Hash,
    C: Clone + Ord,
    A: Allocator + Copy,
    requires clones { IsLawfulClone C.eq C.is_clone }
    ensures forest { IfOk result (IsForest N.eq) }
    ensures least { IfOk result (IsLeastUnderEveryBound N.eq C.cmp edges.now) }
    ensures as_written { IfOk result (AreChosenFrom C.is_clone edges.now) }
    ensures sorted { IfOk result (IsSorted (λ e f. C.cmp e.2 f.2)) }
    ensures refused { IfErr result (λ e. e ≡ OutOfMemory) }
{
    let numbered = number_edges(alloc, edges, &|weight| weight.clone())?;
    let chosen = spanning_forest(alloc, numbered.count, numbered.edges)?;
    let written = as_written(alloc, chosen)?;
    Ok(Kruskal {
        left: written.into_iter(),
    })
}

/// What numbered edges are weighed by.
fn weights_of<N, C, A>(
    alloc: A,
    chosen: &[(usize, usize, Weighed<'_, N, C, C>)],
) -> Result<Vec<C, A>, PathError>
where
    C: Copy,
    A: Allocator,
    ensures weights { IfOk result (λ weights. weights.items ≡ map (λ e. e.2.weight) chosen.now) }
    ensures refused { IfErr result (λ e. e ≡ OutOfMemory) }
{
    let mut weights = Vec::with_capacity(alloc, chosen.len())?;
    for numbered in chosen {
        weights.push(numbered.2.weight)?;
    }
    Ok(weights)
}

/// The sum of the weights of the edges that `kruskal` chooses.
///
/// It is refused with `CostOverflow` exactly where that whole sum does not fit, never because a sum
/// on the way would not, and else only with `OutOfMemory`. No edges give zero. By the law
/// `least_total_weight` no forest of the edges that joins the same nodes weighs less, so the sum does
/// not depend on which of several edges of equal weight are chosen.
pub fn spanning_weight<N, C, A>(alloc: A, edges: &[(N, N, C)]) -> Result<C, PathError>
where
    N: Eq + Hash,
    C: Cost,
    A: Allocator + Copy,
    ensures total { IfOk result (λ total. (forest : List (N × N × C)) × IsLeastForest N.eq C.cmp edges.now forest × (C.value total ≡ weight_sum C.value forest)) }
    ensures overflow { result ≡ Err CostOverflow → (forest : List (N × N × C)) × IsLeastForest N.eq C.cmp edges.now forest × ¬ (C.fits (weight_sum C.value forest)) }
    ensures refused { IfErr result (λ e. (e ≡ OutOfMemory) ⊎ (e ≡ CostOverflow)) }
{
    let numbered = number_edges(alloc, edges, &|weight| Ok(*weight))?;
    let chosen = spanning_forest(alloc, numbered.count, numbered.edges)?;
    let weights = weights_of(alloc, &chosen)?;
    match exact_sum(&weights) {
        Some(total) => Ok(total),
        None => Err(PathError::CostOverflow),
    }
}
