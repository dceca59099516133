//! Paths with fewest edges between names, searched from both ends.

ghost use Rattle.std.specs.Prelude.{◌≡◌, [], ◌∷◌, IfOk, IfErr, MatchOption};
ghost use Rattle.pf_base.specs.NodeRefs.{nodes_of};
ghost use Rattle.pf_base.specs.Successors.{HasSuccessor, IsFewestEdgesGoalPath};
ghost use Rattle.pf_base.specs.Walks.{HasNoGoalWalk};
ghost use Rattle.pf_edge_lists.specs.EdgeLists.{targets_from};

use pf_adjacency::BothWays;
use pf_base::{Cost, PathError};
use pf_edge_lists::EdgeList;
use pf_name_numbers::numbers::{goal_of, number_or_next};
use pf_name_numbers::paths::named_path;
use std::alloc::Allocator;
use std::hash::Hash;

/// A path with fewest edges from the name `from` to the name `to`, or `None` exactly where no walk along
/// the edges leads from `from` to `to`. What the edges cost plays no part.
///
/// The path lends its names, and contains no name twice; where `from` equals `to` it is one name. Which
/// of several such paths is answered is open. A name that stands in no edge is a node without edges.
///
/// # Errors
///
/// `OutOfMemory`: a request for memory was refused.
///
/// The algorithm is that of `bfs_bidirectional` over the numbers of the names: `from` and `to` are looked
/// up, and no name is hashed or compared after that, save that `from` is compared with `to` where the
/// list has no such name as `to`.
pub fn bfs_bidirectional<'p, 'e, N, C, A, B, D>(
    alloc: B,
    graph: &BothWays<'_, C, EdgeList<'e, N, C, A>, D>,
    from: &'p N,
    to: &N,
) -> Result<Option<Vec<&'p N, B>>, PathError>
where
    'e: 'p,
    N: Eq + Hash,
    C: Cost,
    A: Allocator,
    B: Allocator + Copy,
    D: Allocator,
    ensures best { IfOk result (λ answer. MatchOption answer
        (HasNoGoalWalk N.eq (HasSuccessor N.eq (targets_from N.eq graph.now.forth)) (from.now ∷ []) (λ x. N.eq x to.now))
        (λ path. IsFewestEdgesGoalPath N.eq (targets_from N.eq graph.now.forth) (from.now ∷ []) (λ x. N.eq x to.now) (nodes_of path.items))) }
    ensures errors { IfErr result (λ e. e ≡ PathError.OutOfMemory) }
{
    let list = graph.forth();
    let start = number_or_next(list, from);
    let Some(goal) = goal_of(list, from, to).number else {
        return Ok(None);
    };
    let path = pf_table_both_ends::bfs_bidirectional(alloc, graph, start, goal)?;
    named_path(alloc, list, from, path)
}
