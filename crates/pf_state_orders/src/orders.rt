//! Orders in which every move leads forward.

ghost use Rattle.std.specs.Prelude.{◌≡◌, ◌⊎◌, [], ℕ, Err, IfOk, IfErr};
ghost use Rattle.pf_base.specs.Successors.{HasSuccessor};
ghost use Rattle.pf_base.specs.Walks.{HasNode, IsReachable};
ghost use Rattle.pf_orders.specs.GroupDepths.{AreClosed, HasDepth, AreDepthGroups, HaveNoDepth};
ghost use Rattle.pf_orders.specs.TopologicalOrders.{IsTopologicalOrder, IsOnCycle};
ghost use Rattle.pf_state_spaces.specs.StateSpaces.{successors_by};

use pf_base::{Cost, PathError};
use pf_state_spaces::moves::successors_of;
use pf_state_spaces::{Exact, StateSpace};
use std::alloc::Allocator;
use std::hash::Hash;

/// All states in reach of the `roots`, each once, in an order in which every move leads forward; or, in
/// the inner `Err`, a state in reach of the roots that lies on a cycle. What the moves cost plays no
/// part.
///
/// A move from a state to itself is a cycle. Which of several orders is answered is open.
///
/// # Errors
///
/// `OutOfMemory`: a request for memory was refused.
///
/// The algorithm is depth-first search (R. Tarjan, "Edge-disjoint spanning trees and depth-first
/// search", 1976).
pub fn topological_sort<N, C, S, A>(
    alloc: A,
    space: &S,
    roots: &[N],
) -> Result<Result<Vec<N, A>, N>, PathError>
where
    N: Exact + Hash + Drop,
    C: Cost,
    S: StateSpace<N, C>,
    A: Allocator + Copy,
    ensures order { IfOk result (λ answer. IfOk answer (λ order. IsTopologicalOrder N.eq (successors_by (S.moves space.now)) (IsReachable N.eq (HasSuccessor N.eq (successors_by (S.moves space.now))) roots.now) order.items)) }
    ensures cycle { IfOk result (λ answer. IfErr answer (λ node. IsReachable N.eq (HasSuccessor N.eq (successors_by (S.moves space.now))) roots.now node × IsOnCycle N.eq (successors_by (S.moves space.now)) node)) }
    ensures errors { IfErr result (λ e. e ≡ PathError.OutOfMemory) }
{
    pf_orders::directed::topological_sort::topological_sort(
        alloc,
        roots,
        |n: &N| successors_of(space, n),
    )
}

/// The states in groups: group k has exactly those whose longest incoming walk from one of the `states`
/// has k moves, each once, and no group is empty. Where some have no longest incoming walk, since a
/// cycle leads to them, the inner `Err` has the groups of the others, and these states, each once.
///
/// A move from a state to itself is a cycle. What the moves cost plays no part. The order of the states
/// in a group is open.
///
/// # Errors
///
/// - `UnknownVertex`: exactly where a move leads from one of `states` to none of them; this is tested
///   before anything else.
/// - `OutOfMemory`: a request for memory was refused.
///
/// The algorithm takes away states without predecessors, a round at a time (A. B. Kahn, "Topological
/// sorting of large networks", 1962).
pub fn topological_sort_into_groups<N, C, S, A>(
    alloc: A,
    space: &S,
    states: &[N],
) -> Result<Result<Vec<Vec<N, A>, A>, (Vec<Vec<N, A>, A>, Vec<N, A>)>, PathError>
where
    N: Exact + Hash + Drop,
    C: Cost,
    S: StateSpace<N, C>,
    A: Allocator + Copy,
    ensures groups { IfOk result (λ answer. IfOk answer (λ groups. AreDepthGroups N.eq (successors_by (S.moves space.now)) states.now groups.items
        × ((x : N) → HasNode N.eq states.now x → (k : ℕ) × HasDepth N.eq (successors_by (S.moves space.now)) states.now x k))) }
    ensures cycle { IfOk result (λ answer. IfErr answer (λ both. AreDepthGroups N.eq (successors_by (S.moves space.now)) states.now both.0.items
        × HaveNoDepth N.eq (successors_by (S.moves space.now)) states.now both.1.items × ¬ (both.1.items ≡ []))) }
    ensures closed { IfOk result (λ answer. AreClosed N.eq (successors_by (S.moves space.now)) states.now) }
    ensures unknown { result ≡ Err PathError.UnknownVertex
        → (x : N) × (y : N) × HasNode N.eq states.now x × HasSuccessor N.eq (successors_by (S.moves space.now)) x y × ¬ (HasNode N.eq states.now y) }
    ensures errors { IfErr result (λ e. (e ≡ PathError.OutOfMemory) ⊎ (e ≡ PathError.UnknownVertex)) }
{
    pf_orders::directed::topological_sort::topological_sort_into_groups(
        alloc,
        states,
        |n: &N| successors_of(space, n),
    )
}
