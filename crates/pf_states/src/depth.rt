//! Paths found depth first.

ghost use Rattle.std.specs.Prelude.{◌≡◌, [], ◌∷◌, IfOk, IfErr};
ghost use Rattle.pf_base.specs.Successors.{IsFewestEdgesOrNone};
ghost use Rattle.pf_search.specs.Preorder.{IsFirstTreePathOrNone};
ghost use Rattle.pf_state_spaces.specs.StateSpaces.{successors_by};

use pf_base::{Cost, PathError};
use pf_state_spaces::moves::successors_of;
use pf_state_spaces::{Exact, StateGoal, StateSpace};
use std::alloc::Allocator;
use std::hash::Hash;

/// The tree path of a depth-first search from the state `start` to the first goal in preorder, or `None`
/// exactly where no moves lead from it to a goal. What the moves cost plays no part.
///
/// The path contains no state twice; it need not have fewest moves. The moves of a state are taken in
/// the order of their places.
///
/// # Errors
///
/// `OutOfMemory`: a request for memory was refused.
///
/// The algorithm is depth-first search (R. Tarjan, "Depth-first search and linear graph algorithms",
/// 1972).
pub fn dfs<N, C, S, T, A>(
    alloc: A,
    space: &S,
    start: &N,
    goal: &T,
) -> Result<Option<Vec<N, A>>, PathError>
where
    N: Exact + Hash + Drop,
    C: Cost,
    S: StateSpace<N, C>,
    T: StateGoal<N>,
    A: Allocator + Copy,
    ensures first { IfOk result (IsFirstTreePathOrNone N.eq (successors_by (S.moves space.now)) start.now (T.passes goal.now)) }
    ensures errors { IfErr result (λ e. e ≡ PathError.OutOfMemory) }
{
    pf_search::directed::dfs::dfs(
        alloc,
        *start,
        |n: &N| successors_of(space, n),
        |n: &N| goal.is_goal(n),
    )
}

/// A path with fewest moves from the state `start` to a goal, or `None` exactly where no moves lead from
/// it to a goal, in little memory and by a time of the order of the number of paths.
///
/// The path contains no state twice, and which of several such paths is answered is open. No state is
/// hashed.
///
/// # Errors
///
/// `OutOfMemory`: a request for memory was refused.
///
/// The algorithm is depth-first iterative deepening (R. E. Korf, "Depth-first iterative-deepening: an
/// optimal admissible tree search", 1985). The depth of calls in the machine is the number of moves of
/// the path.
pub fn iddfs<N, C, S, T, A>(
    alloc: A,
    space: &S,
    start: &N,
    goal: &T,
) -> Result<Option<Vec<N, A>>, PathError>
where
    N: Exact + Drop,
    C: Cost,
    S: StateSpace<N, C>,
    T: StateGoal<N>,
    A: Allocator + Copy,
    ensures best { IfOk result (IsFewestEdgesOrNone N.eq (successors_by (S.moves space.now)) (start.now ∷ []) (T.passes goal.now)) }
    ensures errors { IfErr result (λ e. e ≡ PathError.OutOfMemory) }
{
    pf_search::directed::iddfs::iddfs(
        alloc,
        *start,
        |n: &N| successors_of(space, n),
        |n: &N| goal.is_goal(n),
    )
}
