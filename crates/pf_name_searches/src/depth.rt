//! Paths found depth first.

ghost use Rattle.std.specs.Prelude.{◌≡◌, [], ◌∷◌, IfOk, IfErr, MatchOption};
ghost use Rattle.pf_base.specs.NodeRefs.{nodes_of};
ghost use Rattle.pf_base.specs.Successors.{HasSuccessor, IsFewestEdgesGoalPath};
ghost use Rattle.pf_base.specs.Walks.{HasNoGoalWalk, IsGoalPath};
ghost use Rattle.pf_edge_lists.specs.EdgeLists.{targets_from};
ghost use Rattle.pf_search.specs.Preorder.{IsFirstTreePath};

use pf_base::{Cost, PathError};
use pf_edge_lists::EdgeList;
use pf_name_numbers::numbers::{goal_of, number_or_next};
use pf_name_numbers::paths::named_path;
use std::alloc::Allocator;
use std::hash::Hash;

/// The tree path of a depth-first search from the name `from` to the name `to`, or `None` exactly where
/// no walk along the edges leads from `from` to `to`. What the edges cost plays no part.
///
/// The edges from a name are followed in the order of the list. The path lends its names, and contains no
/// name twice; it need not have fewest edges. A name that stands in no edge is a node without edges.
///
/// # Errors
///
/// `OutOfMemory`: a request for memory was refused.
///
/// The algorithm is that of `dfs` over the numbers of the names: `from` and `to` are looked up, and no
/// name is hashed or compared after that, save that `from` is compared with `to` where the list has no
/// such name as `to`.
pub fn dfs<'p, 'e, N, C, A, B>(
    alloc: B,
    list: &EdgeList<'e, N, C, A>,
    from: &'p N,
    to: &N,
) -> Result<Option<Vec<&'p N, B>>, PathError>
where
    'e: 'p,
    N: Eq + Hash,
    C: Cost,
    A: Allocator,
    B: Allocator + Copy,
    ensures first { IfOk result (λ answer. MatchOption answer
        (HasNoGoalWalk N.eq (HasSuccessor N.eq (targets_from N.eq list.now)) (from.now ∷ []) (λ x. N.eq x to.now))
        (λ path. IsGoalPath N.eq (HasSuccessor N.eq (targets_from N.eq list.now)) (from.now ∷ []) (λ x. N.eq x to.now) (nodes_of path.items)
        × IsFirstTreePath N.eq (targets_from N.eq list.now) from.now (λ x. N.eq x to.now) (nodes_of path.items))) }
    ensures errors { IfErr result (λ e. e ≡ PathError.OutOfMemory) }
{
    let start = number_or_next(list, from);
    let goal = goal_of(list, from, to);
    let path = pf_table_searches::dfs(alloc, list, start, goal)?;
    named_path(alloc, list, from, path)
}

/// A path with fewest edges from the name `from` to the name `to`, or `None` exactly where no walk along
/// the edges leads from `from` to `to`, in little memory and by a time of the order of the number of
/// paths. What the edges cost plays no part.
///
/// The path lends its names, and contains no name twice; which of several such paths is answered is open.
/// A name that stands in no edge is a node without edges.
///
/// # Errors
///
/// `OutOfMemory`: a request for memory was refused.
///
/// The algorithm is that of `iddfs` over the numbers of the names: `from` and `to` are looked up, and no
/// name is hashed or compared after that, save that `from` is compared with `to` where the list has no
/// such name as `to`. Memory is taken for a mark for each name and an entry for each name of the path,
/// and the depth of calls in the machine does not grow with the path.
pub fn iddfs<'p, 'e, N, C, A, B>(
    alloc: B,
    list: &EdgeList<'e, N, C, A>,
    from: &'p N,
    to: &N,
) -> Result<Option<Vec<&'p N, B>>, PathError>
where
    'e: 'p,
    N: Eq + Hash,
    C: Cost,
    A: Allocator,
    B: Allocator + Copy,
    ensures best { IfOk result (λ answer. MatchOption answer
        (HasNoGoalWalk N.eq (HasSuccessor N.eq (targets_from N.eq list.now)) (from.now ∷ []) (λ x. N.eq x to.now))
        (λ path. IsFewestEdgesGoalPath N.eq (targets_from N.eq list.now) (from.now ∷ []) (λ x. N.eq x to.now) (nodes_of path.items))) }
    ensures errors { IfErr result (λ e. e ≡ PathError.OutOfMemory) }
{
    let start = number_or_next(list, from);
    let goal = goal_of(list, from, to);
    let path = pf_table_searches::iddfs(alloc, list, start, goal)?;
    named_path(alloc, list, from, path)
}
