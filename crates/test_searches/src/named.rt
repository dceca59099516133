//! Callers of searches by name.

ghost use Rattle.std.specs.Prelude.{◌≡◌, ◌⊎◌, ◌∷◌, [], pos, IfOk, IfErr, MatchOption};
ghost use Rattle.pf_base.specs.Edges.{IsSuccessor, IsCheapestGoalPath};
ghost use Rattle.pf_base.specs.NodeRefs.{nodes_of};
ghost use Rattle.pf_base.specs.Walks.{HasNoGoalWalk};
ghost use Rattle.pf_edge_lists.specs.EdgeLists.{edges_from};

use pf_base::PathError;
use pf_edge_lists::EdgeList;
use std::alloc::Allocator;
use std::hash::Hash;

/// The cheapest way by road from one place to another, with its cost, or `None` exactly where no
/// walk along the roads leads there.
pub fn cheapest_way<'r, 'p, N, A>(
    alloc: A,
    roads: &EdgeList<'r, N, u32, A>,
    from: &'p N,
    to: &N,
) -> Result<Option<(Vec<&'p N, A>, u32)>, PathError>
where
    'r: 'p,
    N: Eq + Hash,
    A: Allocator + Copy,
    ensures best { IfOk result (λ answer. MatchOption answer
        (HasNoGoalWalk N.eq (IsSuccessor N.eq (edges_from N.eq (λ cost. pos cost) roads.now)) (from.now ∷ []) (λ x. N.eq x to.now))
        (λ found. IsCheapestGoalPath N.eq (edges_from N.eq (λ cost. pos cost) roads.now) (from.now ∷ []) (λ x. N.eq x to.now) (nodes_of found.0.items) (pos found.1))) }
    ensures errors { IfErr result (λ e. (e ≡ PathError.OutOfMemory) ⊎ (e ≡ PathError.CostOverflow)) }
{
    roads.dijkstra(alloc, from, to)
}
