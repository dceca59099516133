//! Paths with fewest moves.

ghost use Rattle.std.specs.Prelude.{◌≡◌, [], ◌∷◌, IfOk, IfErr};
ghost use Rattle.pf_base.specs.Loops.{IsBestLoopOrNone};
ghost use Rattle.pf_base.specs.Successors.{IsFewestEdgesOrNone};
ghost use Rattle.pf_state_spaces.specs.StateSpaces.{successors_by};

use pf_base::{Cost, PathError};
use pf_node_refs::NodeRefs;
use pf_state_spaces::moves::successors_of;
use pf_state_spaces::{Exact, StateGoal, StateSpace};
use std::alloc::Allocator;
use std::hash::Hash;

/// A path with fewest moves from the state `start` to a goal, or `None` exactly where no moves lead from
/// it to a goal. What the moves cost plays no part.
///
/// The path begins with `start` and contains no state twice. Which of several such paths is answered is
/// open. The moves of a state are asked for once, by rising number of moves from the start.
///
/// # Errors
///
/// `OutOfMemory`: a request for memory was refused.
///
/// The algorithm is breadth-first search (E. F. Moore, "The shortest path through a maze", 1959).
pub fn bfs<N, C, S, T, A>(
    alloc: A,
    space: &S,
    start: &N,
    goal: &T,
) -> Result<Option<Vec<N, A>>, PathError>
where
    N: Exact + Hash + Drop,
    C: Cost,
    S: StateSpace<N, C>,
    T: StateGoal<N>,
    A: Allocator + Copy,
    ensures best { IfOk result (IsFewestEdgesOrNone N.eq (successors_by (S.moves space.now)) (start.now ∷ []) (T.passes goal.now)) }
    ensures errors { IfErr result (λ e. e ≡ PathError.OutOfMemory) }
{
    let starts = NodeRefs::from_one(alloc, start)?;
    pf_search::directed::bfs::bfs(
        alloc,
        &starts,
        |n: &N| successors_of(space, n),
        |n: &N| goal.is_goal(n),
    )
}

/// A walk of at least one move, with fewest moves, from the state `start` back to it, or `None` exactly
/// where there is no such walk. What the moves cost plays no part.
///
/// No state stands twice, save that the first and the last are the same. Which of several such loops is
/// answered is open.
///
/// # Errors
///
/// `OutOfMemory`: a request for memory was refused.
///
/// The algorithm is that of `bfs`.
pub fn bfs_loop<N, C, S, A>(alloc: A, space: &S, start: &N) -> Result<Option<Vec<N, A>>, PathError>
where
    N: Exact + Hash + Drop,
    C: Cost,
    S: StateSpace<N, C>,
    A: Allocator + Copy,
    ensures best { IfOk result (IsBestLoopOrNone N.eq (successors_by (S.moves space.now)) (start.now ∷ [])) }
    ensures errors { IfErr result (λ e. e ≡ PathError.OutOfMemory) }
{
    let starts = NodeRefs::from_one(alloc, start)?;
    pf_search::directed::bfs::bfs_loop(alloc, &starts, |n: &N| successors_of(space, n))
}
