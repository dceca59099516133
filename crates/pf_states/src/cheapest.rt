//! Cheapest paths.

ghost use Rattle.std.specs.HashMap.{get};
ghost use Rattle.std.specs.Prelude.{◌≡◌, ◌⊎◌, [], ◌∷◌, false, Err, IfOk, IfErr};
ghost use Rattle.pf_base.specs.Edges.{CostOverflows, IsCheapestOrNone};
ghost use Rattle.pf_search.specs.Parents.{IsCheapestMap, IsPartialMap};
ghost use Rattle.pf_state_spaces.specs.StateSpaces.{edges_by};

use pf_base::{Cost, PathError};
use pf_search::directed::dijkstra::Parents;
use pf_state_spaces::moves::moves_of;
use pf_state_spaces::{Exact, StateGoal, StateSpace};
use std::alloc::Allocator;
use std::hash::Hash;

/// A cheapest path from the state `start` to a goal, with its cost, or `None` exactly where no moves lead
/// from it to a goal.
///
/// The path begins with `start` and contains no state twice, also where moves cost nothing. Which of
/// several such paths is answered is open. The moves of a state are asked for once at most.
///
/// # Errors
///
/// - `CostOverflow`: only where a cheapest path to some state and one move more, by the cheapest of the
///   moves to one state, cost more than `C` can hold, and no goal is cheaper than that state.
/// - `OutOfMemory`: a request for memory was refused.
///
/// The algorithm is Dijkstra's (E. W. Dijkstra, "A note on two problems in connexion with graphs",
/// 1959), with a queue that is sorted only as far as it is read.
pub fn dijkstra<N, C, S, T, A>(
    alloc: A,
    space: &S,
    start: &N,
    goal: &T,
) -> Result<Option<(Vec<N, A>, C)>, PathError>
where
    N: Exact + Hash + Drop,
    C: Cost,
    S: StateSpace<N, C>,
    T: StateGoal<N>,
    A: Allocator + Copy,
    ensures best { IfOk result (IsCheapestOrNone N.eq (edges_by (S.moves space.now) C.value) (start.now ∷ []) (T.passes goal.now) C.value) }
    ensures overflow { result ≡ Err PathError.CostOverflow → CostOverflows N.eq (edges_by (S.moves space.now) C.value) (start.now ∷ []) (T.passes goal.now) C.fits }
    ensures errors { IfErr result (λ e. (e ≡ PathError.OutOfMemory) ⊎ (e ≡ PathError.CostOverflow)) }
{
    pf_search::directed::dijkstra::dijkstra(
        alloc,
        start,
        |n: &N| moves_of(space, n),
        |n: &N| goal.is_goal(n),
    )
}

/// The parents and the cheapest costs of all states in reach of `start`, save that one: exactly these
/// have an entry, with the cost of a cheapest path and a state before it on such a path.
///
/// Who follows parents from an entry meets no state twice and ends at `start`. Which of several parents
/// is named is open.
///
/// # Errors
///
/// - `CostOverflow`: only where a cheapest path to some state and one move more, by the cheapest of the
///   moves to one state, cost more than `C` can hold.
/// - `OutOfMemory`: a request for memory was refused.
///
/// The algorithm is that of `dijkstra`.
pub fn dijkstra_all<N, C, S, A>(
    alloc: A,
    space: &S,
    start: &N,
) -> Result<Parents<N, C, A>, PathError>
where
    N: Exact + Hash + Drop,
    C: Cost,
    S: StateSpace<N, C>,
    A: Allocator + Copy,
    ensures cheapest { IfOk result (λ parents. IsCheapestMap N.eq (edges_by (S.moves space.now) C.value) start.now C.value (get N.eq parents)) }
    ensures overflow { result ≡ Err PathError.CostOverflow → CostOverflows N.eq (edges_by (S.moves space.now) C.value) (start.now ∷ []) (λ _. false) C.fits }
    ensures errors { IfErr result (λ e. (e ≡ PathError.OutOfMemory) ⊎ (e ≡ PathError.CostOverflow)) }
{
    pf_search::directed::dijkstra::dijkstra_all(alloc, start, |n: &N| moves_of(space, n))
}

/// The parents and costs of the states that a search by rising cost has found where it comes to the
/// first goal, and that goal, or `None` where no goal is in reach.
///
/// Exactly the states to which a move leads from a state before the goal have an entry, save `start`. It
/// names the least cost that a state before the goal, at its cheapest cost, and one move give, and such a
/// state as the parent. An entry that costs no more than the goal is that of a cheapest path; one that
/// costs more need not be.
///
/// # Errors
///
/// - `CostOverflow`: only where a cheapest path to some state and one move more, by the cheapest of the
///   moves to one state, cost more than `C` can hold, and no goal is cheaper than that state.
/// - `OutOfMemory`: a request for memory was refused.
///
/// The algorithm is that of `dijkstra`.
pub fn dijkstra_partial<N, C, S, T, A>(
    alloc: A,
    space: &S,
    start: &N,
    goal: &T,
) -> Result<(Parents<N, C, A>, Option<N>), PathError>
where
    N: Exact + Hash + Drop,
    C: Cost,
    S: StateSpace<N, C>,
    T: StateGoal<N>,
    A: Allocator + Copy,
    ensures partial { IfOk result (λ found. IsPartialMap N.eq (edges_by (S.moves space.now) C.value) start.now C.value (get N.eq found.0) (T.passes goal.now) found.1) }
    ensures overflow { result ≡ Err PathError.CostOverflow → CostOverflows N.eq (edges_by (S.moves space.now) C.value) (start.now ∷ []) (T.passes goal.now) C.fits }
    ensures errors { IfErr result (λ e. (e ≡ PathError.OutOfMemory) ⊎ (e ≡ PathError.CostOverflow)) }
{
    pf_search::directed::dijkstra::dijkstra_partial(
        alloc,
        start,
        |n: &N| moves_of(space, n),
        |n: &N| goal.is_goal(n),
    )
}
