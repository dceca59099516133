//! All cheapest paths, led by an estimate.

ghost use Rattle.std.specs.Prelude.{◌≡◌, ◌⊎◌, [], ◌∷◌, false, ⊤, Err, IfOk, IfErr, MatchOption};
ghost use Rattle.pf_informed.specs.CheapestPaths.{AreCheapestCleanPathsOrNone, lists_in};
ghost use Rattle.pf_informed.specs.Estimates.{MayOverflow};
ghost use Rattle.pf_state_spaces.specs.StateSpaces.{edges_by};

use crate::estimate::StateEstimate;
use pf_base::{Cost, PathError};
use pf_informed::directed::astar_bag::AstarSolution;
use pf_state_spaces::moves::moves_of;
use pf_state_spaces::{Exact, StateGoal, StateSpace};
use std::alloc::Allocator;
use std::hash::Hash;

/// All cheapest paths from the state `start` to goals, with their cost, or `None` exactly where no moves
/// lead from it to a goal. They are given one at a time, each once.
///
/// No state before the last of a path is a goal. In which order the paths come is open.
///
/// # Errors
///
/// - `CostOverflow`: only where the cost of some path from `start`, in which no state stands twice, and
///   the estimate of its last state do not fit `C` together, and no moves to a goal have a cost that fits.
/// - `OutOfMemory`: a request for memory was refused.
///
/// The algorithm is A* (P. E. Hart, N. J. Nilsson, B. Raphael, "A formal basis for the heuristic
/// determination of minimum cost paths", 1968), followed by a walk back along all steps that keep the
/// least costs.
pub fn astar_bag<N, C, S, E, T, A>(
    alloc: A,
    space: &S,
    start: &N,
    estimate: &E,
    goal: &T,
) -> Result<Option<(AstarSolution<N, A>, C)>, PathError>
where
    N: Exact + Hash + Drop,
    C: Cost,
    S: StateSpace<N, C>,
    E: StateEstimate<N, C, S, T>,
    T: StateGoal<N>,
    A: Allocator + Copy,
    ensures all { IfOk result (AreCheapestCleanPathsOrNone N.eq (edges_by (S.moves space.now) C.value) (start.now ∷ []) (T.passes goal.now) (λ paths. paths.left) C.value) }
    ensures ready { IfOk result (λ answer. MatchOption answer ⊤ (λ found. found.0.refused ≡ false)) }
    ensures overflow { result ≡ Err PathError.CostOverflow → MayOverflow N.eq (edges_by (S.moves space.now) C.value) (start.now ∷ []) (T.passes goal.now) (λ state. C.value (E.estimated estimate.now space.now goal.now state)) C.fits }
    ensures errors { IfErr result (λ e. (e ≡ PathError.OutOfMemory) ⊎ (e ≡ PathError.CostOverflow)) }
{
    pf_informed::directed::astar_bag::astar_bag(
        alloc,
        start,
        |n: &N| moves_of(space, n),
        |n: &N| -> C
            ensures { result ≡ E.estimated estimate.entry.now space.entry.now goal.entry.now n.now }
        { estimate.estimate(space, goal, n) },
        |n: &N| goal.is_goal(n),
    )
}

/// All cheapest paths of `astar_bag`, gathered.
///
/// # Errors
///
/// Those of `astar_bag`.
pub fn astar_bag_collect<N, C, S, E, T, A>(
    alloc: A,
    space: &S,
    start: &N,
    estimate: &E,
    goal: &T,
) -> Result<Option<(Vec<Vec<N, A>, A>, C)>, PathError>
where
    N: Exact + Hash + Drop,
    C: Cost,
    S: StateSpace<N, C>,
    E: StateEstimate<N, C, S, T>,
    T: StateGoal<N>,
    A: Allocator + Copy,
    ensures all { IfOk result (AreCheapestCleanPathsOrNone N.eq (edges_by (S.moves space.now) C.value) (start.now ∷ []) (T.passes goal.now) (λ paths. lists_in paths.items) C.value) }
    ensures overflow { result ≡ Err PathError.CostOverflow → MayOverflow N.eq (edges_by (S.moves space.now) C.value) (start.now ∷ []) (T.passes goal.now) (λ state. C.value (E.estimated estimate.now space.now goal.now state)) C.fits }
    ensures errors { IfErr result (λ e. (e ≡ PathError.OutOfMemory) ⊎ (e ≡ PathError.CostOverflow)) }
{
    pf_informed::directed::astar_bag::astar_bag_collect(
        alloc,
        start,
        |n: &N| moves_of(space, n),
        |n: &N| -> C
            ensures { result ≡ E.estimated estimate.entry.now space.entry.now goal.entry.now n.now }
        { estimate.estimate(space, goal, n) },
        |n: &N| goal.is_goal(n),
    )
}
