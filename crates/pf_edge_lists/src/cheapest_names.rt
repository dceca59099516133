//! Cheapest paths between names.

ghost use Rattle.std.specs.Prelude.{◌≡◌, ◌⊎◌, [], ◌∷◌, Err, IfOk, IfErr, MatchOption};
ghost use Rattle.pf_base.specs.Walks.{HasNoGoalWalk};
ghost use Rattle.pf_base.specs.Edges.{IsSuccessor, IsCheapestGoalPath, CostOverflows};
ghost use Rattle.pf_base.specs.NodeRefs.{nodes_of};
ghost use Rattle.pf_edge_lists.specs.EdgeLists.{edges_from};

use crate::edge_list::EdgeList;
use pf_base::filled::alone;
use pf_base::{Cost, PathError};
use pf_tables::dijkstra;
use std::alloc::Allocator;
use std::hash::Hash;

impl<'e, N: Eq + Hash, C: Cost, A: Allocator> EdgeList<'e, N, C, A> {
    /// A cheapest path from the name `from` to the name `to`, with its cost, or `None` exactly where
    /// no walk along the edges of the list leads from `from` to `to`.
    ///
    /// The path lends its names, and contains no name twice; which of several cheapest paths is
    /// answered is open. Where several edges lead from one name to another, a step costs what the
    /// cheapest of them costs. A name that stands in no edge is a node without edges: a walk leads
    /// from it to names that are equal to it, and nowhere else.
    ///
    /// # Errors
    ///
    /// - `CostOverflow`: only where a cheapest path to some name and one step more, by the cheapest of
    ///   the parallel edges, cost more than `C` can hold, and `to` is no cheaper than that name.
    /// - `OutOfMemory`: a request for memory was refused.
    ///
    /// The algorithm is that of the function `dijkstra`, over the numbers of the names: `from` and `to`
    /// are looked up, and no name is hashed or compared after that. Where the list has no such name as
    /// `from`, it is compared with `to`.
    pub fn dijkstra<'p, B>(
        &self,
        alloc: B,
        from: &'p N,
        to: &N,
    ) -> Result<Option<(Vec<&'p N, B>, C)>, PathError>
    where
        'e: 'p,
        B: Allocator + Copy,
        ensures best { IfOk result (λ answer. MatchOption answer
            (HasNoGoalWalk N.eq (IsSuccessor N.eq (edges_from N.eq C.value self.now)) (from.now ∷ []) (λ x. N.eq x to.now))
            (λ found. IsCheapestGoalPath N.eq (edges_from N.eq C.value self.now) (from.now ∷ []) (λ x. N.eq x to.now) (nodes_of found.0.items) (C.value found.1))) }
        ensures overflow { result ≡ Err PathError.CostOverflow → CostOverflows N.eq (edges_from N.eq C.value self.now) (from.now ∷ []) (λ x. N.eq x to.now) C.fits }
        ensures errors { IfErr result (λ e. (e ≡ PathError.OutOfMemory) ⊎ (e ≡ PathError.CostOverflow)) }
    {
        let Some(start) = self.number_of(from) else {
            if *from != *to {
                return Ok(None);
            }
            let path = alone(alloc, from)?;
            return Ok(Some((path, C::zero())));
        };
        let Some(goal) = self.number_of(to) else {
            return Ok(None);
        };
        match dijkstra(alloc, self, start, goal)? {
            None => Ok(None),
            Some((numbers, cost)) => {
                let path = self.names_along(alloc, &numbers)?;
                Ok(Some((path, cost)))
            }
        }
    }
}
