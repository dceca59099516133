//! Cheapest paths between names, searched from both ends.

ghost use Rattle.std.specs.Prelude.{◌≡◌, ◌⊎◌, [], ◌∷◌, Err, IfOk, IfErr, MatchOption};
ghost use Rattle.pf_base.specs.Edges.{CostOverflows, IsCheapestGoalPath, IsSuccessor};
ghost use Rattle.pf_base.specs.NodeRefs.{nodes_of};
ghost use Rattle.pf_base.specs.Walks.{HasNoGoalWalk};
ghost use Rattle.pf_edge_lists.specs.EdgeLists.{edges_from};

use pf_adjacency::BothWays;
use pf_base::{Cost, PathError};
use pf_edge_lists::EdgeList;
use pf_name_numbers::numbers::{goal_of, number_or_next};
use pf_name_numbers::paths::named_found;
use std::alloc::Allocator;
use std::hash::Hash;

/// A cheapest path from the name `from` to the name `to`, with its cost, or `None` exactly where no
/// walk along the edges leads from `from` to `to`.
///
/// The path lends its names, and contains no name twice; where `from` equals `to` it is one name, at no
/// cost. Which of several cheapest paths is answered is open. Where several edges lead from one name to
/// another, a step costs what the cheapest of them costs. A name that stands in no edge is a node without
/// edges.
///
/// # Errors
///
/// - `CostOverflow`: only where a cheapest path to some name and one step more, by the cheapest of the
///   parallel edges, cost more than `C` can hold, and `to` is no cheaper than that name.
/// - `OutOfMemory`: a request for memory was refused.
///
/// The algorithm is that of `dijkstra_bidirectional` over the numbers of the names: `from` and `to` are
/// looked up, and no name is hashed or compared after that, save that `from` is compared with `to` where
/// the list has no such name as `to`.
pub fn dijkstra_bidirectional<'p, 'e, N, C, A, B, D>(
    alloc: B,
    graph: &BothWays<'_, C, EdgeList<'e, N, C, A>, D>,
    from: &'p N,
    to: &N,
) -> Result<Option<(Vec<&'p N, B>, C)>, PathError>
where
    'e: 'p,
    N: Eq + Hash,
    C: Cost,
    A: Allocator,
    B: Allocator + Copy,
    D: Allocator,
    ensures best { IfOk result (λ answer. MatchOption answer
        (HasNoGoalWalk N.eq (IsSuccessor N.eq (edges_from N.eq C.value graph.now.forth)) (from.now ∷ []) (λ x. N.eq x to.now))
        (λ found. IsCheapestGoalPath N.eq (edges_from N.eq C.value graph.now.forth) (from.now ∷ []) (λ x. N.eq x to.now) (nodes_of found.0.items) (C.value found.1))) }
    ensures overflow { result ≡ Err PathError.CostOverflow → CostOverflows N.eq (edges_from N.eq C.value graph.now.forth) (from.now ∷ []) (λ x. N.eq x to.now) C.fits }
    ensures errors { IfErr result (λ e. (e ≡ PathError.OutOfMemory) ⊎ (e ≡ PathError.CostOverflow)) }
{
    let list = graph.forth();
    let start = number_or_next(list, from);
    let Some(goal) = goal_of(list, from, to).number else {
        return Ok(None);
    };
    let found = pf_table_both_ends::dijkstra_bidirectional(alloc, graph, start, goal)?;
    named_found(alloc, list, from, found)
}
