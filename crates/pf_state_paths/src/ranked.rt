//! The k cheapest paths.

ghost use Rattle.std.specs.Prelude.{◌≡◌, ◌⊎◌, ◌≤◌, [], ◌∷◌, Err, IfOk, IfErr};
ghost use Rattle.pf_base.specs.Edges.{CostOverflows};
ghost use Rattle.pf_state_spaces.specs.StateSpaces.{edges_by};
ghost use Rattle.pf_yen.specs.CleanPaths.{PathOverflows};
ghost use Rattle.pf_yen.specs.KCheapest.{IsKCheapest, paths_in};

use pf_base::{Cost, PathError};
use pf_state_spaces::moves::moves_of;
use pf_state_spaces::{Exact, StateGoal, StateSpace};
use std::alloc::Allocator;
use std::hash::Hash;

/// The `k` cheapest clean paths from the state `start` to goals, or all where there are fewer, each
/// once, with its cost: by rising cost, and of equal cost by rising number of states. No clean path that
/// is not answered costs less than one that is.
///
/// A clean path contains no state twice, and only its last state is a goal. Where `start` is a goal, it
/// is the only one; where `k` is 0, none is answered. Which of several paths of one cost are answered is
/// open, and so is the order of those of one cost and one number of states.
///
/// # Errors
///
/// - `CostOverflow`: only where `k` is above 0 and a path from `start`, in which no state stands twice
///   and none is a goal, and one move more, by the cheapest of the moves to one state, cost more than
///   `C` can hold; where `k` is 1, also only where a cheapest path to some state and one move more cost
///   more than `C` can hold and no goal is cheaper than that state.
/// - `OutOfMemory`: a request for memory was refused.
///
/// The algorithm is Yen's (J. Y. Yen, "Finding the k shortest loopless paths in a network", 1971), with
/// Lawler's division (E. L. Lawler, 1972).
pub fn yen<N, C, S, T, A>(
    alloc: A,
    space: &S,
    start: &N,
    goal: &T,
    k: usize,
) -> Result<Vec<(Vec<N, A>, C), A>, PathError>
where
    N: Exact + Hash + Drop,
    C: Cost,
    S: StateSpace<N, C>,
    T: StateGoal<N>,
    A: Allocator + Copy,
    ensures cheapest { IfOk result (λ paths. IsKCheapest N.eq (edges_by (S.moves space.now) C.value) start.now (T.passes goal.now) C.value k (paths_in paths.items)) }
    ensures overflow { result ≡ Err PathError.CostOverflow → PathOverflows N.eq (edges_by (S.moves space.now) C.value) start.now (T.passes goal.now) C.fits }
    ensures first_overflow { result ≡ Err PathError.CostOverflow → k ≡ 1 → CostOverflows N.eq (edges_by (S.moves space.now) C.value) (start.now ∷ []) (T.passes goal.now) C.fits }
    ensures some_asked { result ≡ Err PathError.CostOverflow → 1 ≤ k }
    ensures errors { IfErr result (λ e. (e ≡ PathError.OutOfMemory) ⊎ (e ≡ PathError.CostOverflow)) }
{
    pf_yen::directed::yen::yen(
        alloc,
        start,
        |n: &N| moves_of(space, n),
        |n: &N| goal.is_goal(n),
        k,
    )
}
