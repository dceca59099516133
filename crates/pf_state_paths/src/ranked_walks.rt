//! The clean paths by rising cost, one at a time.

ghost use Rattle.std.specs.Prelude.{◌≡◌, false, [], IfOk, IfErr};
ghost use Rattle.std.specs.Iterator.{at_most};
ghost use Rattle.pf_state_paths.specs.RankedStateWalks.{IsPathWalkOverStates, PathStepOverStates};
ghost use Rattle.pf_yen.specs.Walk.{IsBarred, most_items};

use crate::goal_test::GoalTest;
use pf_base::{Cost, PathError};
use pf_state_spaces::{Exact, Neighbours, StateGoal, StateSpace};
use pf_yen::directed::yen;
use std::alloc::{Allocator, Global};
use std::hash::Hash;
use std::marker::Model;

/// The clean paths by rising cost, each as a `Result`: made by `yen_paths`. A step that was refused
/// with `CostOverflow` is refused with it again after each `resume`.
#[derive(Drop)]
pub struct YenPaths<'a, N, C, S, T, A = Global>
where
    N: Exact + Hash + Drop,
    C: Cost,
    S: StateSpace<N, C>,
    T: StateGoal<N>,
    A: Allocator,
{
    space: &'a S,
    start: N,
    goal: &'a T,
    walk: yen::YenPaths<N, C, Neighbours<'a, N, C, S>, GoalTest<'a, N, T>, A>,
}

impl<'a, N, C, S, T, A> Model for YenPaths<'a, N, C, S, T, A>
where
    N: Exact + Hash + Drop,
    C: Cost,
    S: StateSpace<N, C>,
    T: StateGoal<N>,
    A: Allocator,
{
    ghost use Rattle.pf_state_paths.specs.RankedStateWalks.{StatePathWalk, IsPathWalkOverStates};

    ghost Value = { StatePathWalk N C S T };

    ghost view = { λ s. record { space = s.space.now; start = s.start; goal = s.goal.now; walk = s.walk } };

    ghost invariant = { λ s. IsPathWalkOverStates N.eq C.value S.moves T.passes C.fits (record { space = s.space.now; start = s.start; goal = s.goal.now; walk = s.walk }) };
}

impl<'a, N, C, S, T, A> Iterator for YenPaths<'a, N, C, S, T, A>
where
    N: Exact + Hash + Drop,
    C: Cost,
    S: StateSpace<N, C>,
    T: StateGoal<N>,
    A: Allocator + Copy,
{
    type Item = Result<(Vec<N, A>, C), PathError>;

    ghost next_gives = { PathStepOverStates N.eq C.value S.moves T.passes C.fits };

    ghost remaining = { λ s. at_most (most_items s.walk) };

    fn next(&mut self) -> Option<Result<(Vec<N, A>, C), PathError>> {
        self.walk.next()
    }
}

impl<'a, N, C, S, T, A> YenPaths<'a, N, C, S, T, A>
where
    N: Exact + Hash + Drop,
    C: Cost,
    S: StateSpace<N, C>,
    T: StateGoal<N>,
    A: Allocator + Copy,
{
    /// Lets the next call of `next` try again the step that was refused. Where no step was refused
    /// since the last call of `resume`, this changes nothing. A step that was refused with
    /// `CostOverflow` is refused with it again.
    pub fn resume(&mut self)
        ensures lowered { self.new ≡ record self.old { walk = record self.old.walk { refused = false } } }
        ensures graph { IsPathWalkOverStates N.eq C.value S.moves T.passes C.fits self.new }
    {
        self.walk.resume();
    }
}

/// The clean paths from the state `start` to goals, lazily, by rising cost: paths that contain no state
/// twice and of which only the last state is a goal, each once, with its cost. After any number of
/// paths, no clean path that was not given costs less than one that was. Where no step was refused,
/// `None` comes only when all were given, and for good: no path and no refusal comes after it.
///
/// In which order paths of one cost come is open. Where `start` is a goal, it is the only path. A `for`
/// over the paths ends, and they can be resumed behind it. What is in reach of `start` is gone through
/// in the first calls of `next`, until one of them is not refused.
///
/// # Errors
///
/// This call answers `OutOfMemory` where a request for memory was refused. A step is
///
/// - `Err(CostOverflow)` only where a path from `start`, in which no state stands twice and none is a
///   goal, and one move more, by the cheapest of the moves to one state, cost more than `C` can hold;
///   before the first path was given, also only where a cheapest path to some state and one move more
///   cost more than `C` can hold and no goal is cheaper than that state; after a path was given, also
///   only where that path with its move begins with some of the first states of the path that was given
///   last and goes on to a state to which no given path goes on from them, and no clean path that does
///   so costs less than that path without its move;
/// - `Err(OutOfMemory)` where a request for memory was refused.
///
/// A refused step loses no path; the walk then answers `None` until `resume` is called, and tries the
/// same step again. A step that was refused with `CostOverflow` is refused with it again after each
/// `resume`.
///
/// The algorithm is Yen's (J. Y. Yen, "Finding the k shortest loopless paths in a network", 1971), with
/// the classes of E. L. Lawler, "A procedure for computing the k best solutions", 1972.
pub fn yen_paths<'a, N, C, S, T, A>(
    alloc: A,
    space: &'a S,
    start: &N,
    goal: &'a T,
) -> Result<YenPaths<'a, N, C, S, T, A>, PathError>
where
    N: Exact + Hash + Drop,
    C: Cost,
    S: StateSpace<N, C>,
    T: StateGoal<N>,
    A: Allocator + Copy,
    ensures begins { IfOk result (λ s. (s.space ≡ space.now) × (s.start ≡ start.now) × (s.goal ≡ goal.now) × (s.walk.given ≡ []) × (s.walk.refused ≡ false) × ¬ (IsBarred s.walk) × (s.walk.successors ≡ space.now) × (s.walk.success ≡ goal.now)) }
    ensures graph { IfOk result (IsPathWalkOverStates N.eq C.value S.moves T.passes C.fits) }
    ensures refused { IfErr result (λ e. e ≡ PathError.OutOfMemory) }
{
    let walk = yen::YenPaths::new(alloc, start, Neighbours::new(space), GoalTest::new(goal))?;
    Ok(YenPaths {
        space,
        start: *start,
        goal,
        walk,
    })
}
