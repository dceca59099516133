//! A caller over a list of edges, at any node type and any cost type.

ghost use Rattle.std.specs.Prelude.{◌≡◌, ◌⊎◌, ◌≤ℤ◌, ◌∷◌, [], All, pos, IfOk, IfErr};
ghost use Rattle.test_edge_lists.specs.Lists.{edges_from};
ghost use Rattle.pf_base.specs.Answers.{IsLawfulClone};
ghost use Rattle.pf_base.specs.Edges.{CostOverflows, IsCheapestOrNone};

use pf_base::{Cost, PathError};
use pf_search::directed::dijkstra::dijkstra;
use std::alloc::Allocator;
use std::hash::Hash;
use test_edge_lists::edges_from;

/// A cheapest path in a graph that is given as a list of edges (from, to, cost), with its cost, or
/// `None` exactly where no walk leads from `from` to `to`.
pub fn cheapest_in_list<N, C, A>(
    alloc: A,
    edges: &[(N, N, C)],
    from: N,
    to: N,
) -> Result<Option<(Vec<N, A>, C)>, PathError>
where
    N: Eq + Hash + Copy,
    C: Cost,
    A: Allocator + Copy,
    requires clones { IsLawfulClone N.eq N.is_clone }
    requires from_zero { All (λ e. pos 0 ≤ℤ C.value e.2) edges.now }
    ensures best { IfOk result (IsCheapestOrNone N.eq (edges_from N.eq edges.now C.value) (from ∷ []) (λ n. N.eq n to) C.value) }
    ensures overflow { result ≡ Err PathError.CostOverflow
        → CostOverflows N.eq (edges_from N.eq edges.now C.value) (from ∷ []) (λ n. N.eq n to) C.fits }
    ensures errors { IfErr result (λ e. (e ≡ PathError.OutOfMemory) ⊎ (e ≡ PathError.CostOverflow)) }
{
    dijkstra(alloc, &from, |n| edges_from(edges, *n), |n| *n == to)
}
