//! Paths with fewest edges between names.

ghost use Rattle.std.specs.Prelude.{◌≡◌, [], ◌∷◌, IfOk, IfErr, MatchOption};
ghost use Rattle.pf_base.specs.Walks.{HasNoGoalWalk};
ghost use Rattle.pf_base.specs.Successors.{HasSuccessor, IsFewestEdgesGoalPath};
ghost use Rattle.pf_base.specs.NodeRefs.{nodes_of};
ghost use Rattle.pf_edge_lists.specs.EdgeLists.{targets_from};

use crate::edge_list::EdgeList;
use pf_base::filled::alone;
use pf_base::{Cost, PathError};
use pf_table_breadth::bfs;
use std::alloc::Allocator;
use std::hash::Hash;

impl<'e, N: Eq + Hash, C: Cost, A: Allocator> EdgeList<'e, N, C, A> {
    /// A path with fewest edges from the name `from` to the name `to`, or `None` exactly where no
    /// walk along the edges of the list leads from `from` to `to`. What the edges cost plays no part.
    ///
    /// The path lends its names, and contains no name twice; which of several such paths is answered
    /// is open. A name that stands in no edge is a node without edges: a walk leads from it to names
    /// that are equal to it, and nowhere else.
    ///
    /// # Errors
    ///
    /// `OutOfMemory`: a request for memory was refused.
    ///
    /// The algorithm is that of the function `bfs`, over the numbers of the names: `from` and `to` are
    /// looked up, and no name is hashed or compared after that. Where the list has no such name as
    /// `from`, it is compared with `to`.
    pub fn bfs<'p, B>(
        &self,
        alloc: B,
        from: &'p N,
        to: &N,
    ) -> Result<Option<Vec<&'p N, B>>, PathError>
    where
        'e: 'p,
        B: Allocator + Copy,
        ensures best { IfOk result (λ answer. MatchOption answer
            (HasNoGoalWalk N.eq (HasSuccessor N.eq (targets_from N.eq self.now)) (from.now ∷ []) (λ x. N.eq x to.now))
            (λ path. IsFewestEdgesGoalPath N.eq (targets_from N.eq self.now) (from.now ∷ []) (λ x. N.eq x to.now) (nodes_of path.items))) }
        ensures errors { IfErr result (λ e. e ≡ PathError.OutOfMemory) }
    {
        let Some(start) = self.number_of(from) else {
            if *from != *to {
                return Ok(None);
            }
            let path = alone(alloc, from)?;
            return Ok(Some(path));
        };
        let Some(goal) = self.number_of(to) else {
            return Ok(None);
        };
        match bfs(alloc, self, start, goal)? {
            None => Ok(None),
            Some(numbers) => {
                let path = self.names_along(alloc, &numbers)?;
                Ok(Some(path))
            }
        }
    }
}
