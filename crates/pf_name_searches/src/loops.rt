//! Loops with fewest edges.

ghost use Rattle.std.specs.Prelude.{◌≡◌, [], ◌∷◌, IfOk, IfErr, MatchOption};
ghost use Rattle.pf_base.specs.Loops.{HasNoLoop, IsBestLoop};
ghost use Rattle.pf_base.specs.NodeRefs.{nodes_of};
ghost use Rattle.pf_edge_lists.specs.EdgeLists.{targets_from};

use pf_base::{Cost, PathError};
use pf_edge_lists::EdgeList;
use pf_name_numbers::numbers::number_or_next;
use pf_name_numbers::paths::named_path;
use pf_node_refs::NodeRefs;
use std::alloc::Allocator;
use std::hash::Hash;

/// A walk of at least one step, with fewest edges, from the name `from` back to it, or `None` exactly
/// where there is no such walk. What the edges cost plays no part.
///
/// No name stands twice, save that `from` is the first and the last. Which of several such loops is
/// answered is open. The loop lends its names.
///
/// # Errors
///
/// `OutOfMemory`: a request for memory was refused.
///
/// The algorithm is that of `bfs_loop` over the numbers of the names: `from` is looked up, and no name is
/// hashed or compared after that.
pub fn bfs_loop<'p, 'e, N, C, A, B>(
    alloc: B,
    list: &EdgeList<'e, N, C, A>,
    from: &'p N,
) -> Result<Option<Vec<&'p N, B>>, PathError>
where
    'e: 'p,
    N: Eq + Hash,
    C: Cost,
    A: Allocator,
    B: Allocator + Copy,
    ensures best { IfOk result (λ answer. MatchOption answer
        (HasNoLoop N.eq (targets_from N.eq list.now) (from.now ∷ []))
        (λ path. IsBestLoop N.eq (targets_from N.eq list.now) (from.now ∷ []) (nodes_of path.items))) }
    ensures errors { IfErr result (λ e. e ≡ PathError.OutOfMemory) }
{
    let start = number_or_next(list, from);
    let starts = NodeRefs::from_one(alloc, &start)?;
    let path = pf_table_searches::bfs_loop(alloc, list, &starts)?;
    named_path(alloc, list, from, path)
}
