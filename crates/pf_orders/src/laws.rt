//! Laws of the definitions of orders, for proofs about programs that use them.
//!
//! A call adds its law to what the caller's proof knows. It does nothing when it runs.

ghost use Rattle.std.specs.Prelude.{ℕ, List, Vec};
ghost use Rattle.pf_base.specs.Walks.{HasNode};
ghost use Rattle.pf_orders.specs.GroupDepths.{AreClosed, HasDepth, AreDepthGroups};
ghost use Rattle.pf_orders.specs.JoinedGroups.{AreJoined};
ghost use Rattle.pf_orders.specs.TopologicalOrders.{IsTopologicalOrder};

use std::alloc::Allocator;
use std::marker::PhantomData;

/// Where each of some nodes has a depth and their successors are among them, the groups by depth,
/// joined in order and each arranged anyhow, are a topological order of the nodes.
///
/// So the groups that `topological_sort_into_groups` answers where there is no cycle can be worked
/// through one after another, each in any order.
pub fn groups_joined_are_an_order<N: Eq, A: Allocator>(_of: PhantomData<(N, A)>)
    ensures { (next : N → List N) (nodes : List N) (groups : List (Vec N A)) (order : List N)
        → AreClosed N.eq next nodes → AreDepthGroups N.eq next nodes groups
        → ((x : N) → HasNode N.eq nodes x → (k : ℕ) × HasDepth N.eq next nodes x k)
        → AreJoined groups order → IsTopologicalOrder N.eq next (HasNode N.eq nodes) order }
{}
