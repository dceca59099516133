//! A cheapest path, led by an estimate.

ghost use Rattle.std.specs.Prelude.{◌≡◌, ◌⊎◌, [], ◌∷◌, Err, IfOk, IfErr};
ghost use Rattle.pf_base.specs.Edges.{IsCheapestOrNone};
ghost use Rattle.pf_informed.specs.Estimates.{MayOverflow};
ghost use Rattle.pf_state_spaces.specs.StateSpaces.{edges_by};

use crate::estimate::StateEstimate;
use pf_base::{Cost, PathError};
use pf_state_spaces::moves::moves_of;
use pf_state_spaces::{Exact, StateGoal, StateSpace};
use std::alloc::Allocator;
use std::hash::Hash;

/// A cheapest path from the state `start` to a goal, with its cost, or `None` exactly where no moves lead
/// from it to a goal.
///
/// The path begins with `start` and contains no state twice, also where moves cost nothing. Which of
/// several such paths is answered is open. The moves of a state are asked for once at most, and its
/// estimate too.
///
/// # Errors
///
/// - `CostOverflow`: only where the cost of some path from `start`, in which no state stands twice, and
///   the estimate of its last state do not fit `C` together, and no moves to a goal have a cost that fits.
/// - `OutOfMemory`: a request for memory was refused.
///
/// The algorithm is A* (P. E. Hart, N. J. Nilsson, B. Raphael, "A formal basis for the heuristic
/// determination of minimum cost paths", 1968), with the queue of `astar` over functions.
pub fn astar<N, C, S, E, T, A>(
    alloc: A,
    space: &S,
    start: &N,
    estimate: &E,
    goal: &T,
) -> Result<Option<(Vec<N, A>, C)>, PathError>
where
    N: Exact + Hash + Drop,
    C: Cost,
    S: StateSpace<N, C>,
    E: StateEstimate<N, C, S, T>,
    T: StateGoal<N>,
    A: Allocator + Copy,
    ensures best { IfOk result (IsCheapestOrNone N.eq (edges_by (S.moves space.now) C.value) (start.now ∷ []) (T.passes goal.now) C.value) }
    ensures overflow { result ≡ Err PathError.CostOverflow → MayOverflow N.eq (edges_by (S.moves space.now) C.value) (start.now ∷ []) (T.passes goal.now) (λ state. C.value (E.estimated estimate.now space.now goal.now state)) C.fits }
    ensures errors { IfErr result (λ e. (e ≡ PathError.OutOfMemory) ⊎ (e ≡ PathError.CostOverflow)) }
{
    pf_informed::directed::astar::astar(
        alloc,
        start,
        |n: &N| moves_of(space, n),
        |n: &N| -> C
            ensures { result ≡ E.estimated estimate.entry.now space.entry.now goal.entry.now n.now }
        { estimate.estimate(space, goal, n) },
        |n: &N| goal.is_goal(n),
    )
}

/// A cheapest path from the state `start` to a goal, with its cost, or `None` exactly where no moves lead
/// from it to a goal, as `astar`.
///
/// # Errors
///
/// - `CostOverflow`: only where the cost of some path from `start`, in which no state stands twice, and
///   the estimate of its last state do not fit `C` together, and no moves to a goal have a cost that fits.
/// - `OutOfMemory`: a request for memory was refused.
///
/// The algorithm is fringe search (Y. Björnsson, M. Enzenberger, R. C. Holte, J. Schaeffer, "Fringe
/// search: beating A* at pathfinding on game maps", 2005).
pub fn fringe<N, C, S, E, T, A>(
    alloc: A,
    space: &S,
    start: &N,
    estimate: &E,
    goal: &T,
) -> Result<Option<(Vec<N, A>, C)>, PathError>
where
    N: Exact + Hash + Drop,
    C: Cost,
    S: StateSpace<N, C>,
    E: StateEstimate<N, C, S, T>,
    T: StateGoal<N>,
    A: Allocator + Copy,
    ensures best { IfOk result (IsCheapestOrNone N.eq (edges_by (S.moves space.now) C.value) (start.now ∷ []) (T.passes goal.now) C.value) }
    ensures overflow { result ≡ Err PathError.CostOverflow → MayOverflow N.eq (edges_by (S.moves space.now) C.value) (start.now ∷ []) (T.passes goal.now) (λ state. C.value (E.estimated estimate.now space.now goal.now state)) C.fits }
    ensures errors { IfErr result (λ e. (e ≡ PathError.OutOfMemory) ⊎ (e ≡ PathError.CostOverflow)) }
{
    pf_informed::directed::fringe::fringe(
        alloc,
        start,
        |n: &N| moves_of(space, n),
        |n: &N| -> C
            ensures { result ≡ E.estimated estimate.entry.now space.entry.now goal.entry.now n.now }
        { estimate.estimate(space, goal, n) },
        |n: &N| goal.is_goal(n),
    )
}

/// A cheapest path from the state `start` to a goal, with its cost, or `None` exactly where no moves lead
/// from it to a goal, as `astar`.
///
/// # Errors
///
/// - `CostOverflow`: only where the cost of some path from `start`, in which no state stands twice, and
///   the estimate of its last state do not fit `C` together, and no moves to a goal have a cost that fits.
/// - `OutOfMemory`: a request for memory was refused.
///
/// The algorithm is IDA* (R. E. Korf, "Depth-first iterative-deepening: an optimal admissible tree
/// search", 1985). Its time is of the order of the number of paths whose sums the limits admit, and a
/// state is asked for again for each of these that comes to it. Memory is taken for the states on one
/// path and those that a move from them leads to.
pub fn idastar<N, C, S, E, T, A>(
    alloc: A,
    space: &S,
    start: &N,
    estimate: &E,
    goal: &T,
) -> Result<Option<(Vec<N, A>, C)>, PathError>
where
    N: Exact + Hash + Drop,
    C: Cost,
    S: StateSpace<N, C>,
    E: StateEstimate<N, C, S, T>,
    T: StateGoal<N>,
    A: Allocator + Copy,
    ensures best { IfOk result (IsCheapestOrNone N.eq (edges_by (S.moves space.now) C.value) (start.now ∷ []) (T.passes goal.now) C.value) }
    ensures overflow { result ≡ Err PathError.CostOverflow → MayOverflow N.eq (edges_by (S.moves space.now) C.value) (start.now ∷ []) (T.passes goal.now) (λ state. C.value (E.estimated estimate.now space.now goal.now state)) C.fits }
    ensures errors { IfErr result (λ e. (e ≡ PathError.OutOfMemory) ⊎ (e ≡ PathError.CostOverflow)) }
{
    pf_informed::directed::idastar::idastar(
        alloc,
        start,
        |n: &N| moves_of(space, n),
        |n: &N| -> C
            ensures { result ≡ E.estimated estimate.entry.now space.entry.now goal.entry.now n.now }
        { estimate.estimate(space, goal, n) },
        |n: &N| goal.is_goal(n),
    )
}
