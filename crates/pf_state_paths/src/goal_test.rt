//! What a search over states looks for as a function that tests states.

ghost use Rattle.std.proofs.Common.{refl, subst};
ghost use Rattle.std.specs.Prelude.{◌≡◌};
ghost use Rattle.pf_state_paths.specs.RankedStateWalks.{GoalPasses};

use pf_base::NodeTest;
use pf_state_spaces::{Exact, StateGoal};
use std::marker::{Model, PhantomData};

/// A goal that is asked whether a state is one. A contract sees the goal.
#[derive(Drop)]
pub struct GoalTest<'a, N: Exact, T: StateGoal<N>> {
    goal: &'a T,
    state: PhantomData<N>,
}

impl<'a, N: Exact, T: StateGoal<N>> Model for GoalTest<'a, N, T> {
    ghost Value = { T };

    ghost view = { λ s. s.goal.now };
}

impl<'a, N: Exact, T: StateGoal<N>> GoalTest<'a, N, T> {
    /// The test for this goal.
    pub fn new(goal: &'a T) -> Self
        ensures { result ≡ goal.now }
    {
        GoalTest {
            goal,
            state: PhantomData,
        }
    }
}

impl<'a, N: Exact, T: StateGoal<N>> NodeTest<N> for GoalTest<'a, N, T> {
    ghost answers = { GoalPasses T.passes };

    fn passes(&mut self, node: &N) -> bool {
        self.goal.is_goal(node)
    }

    ghost alike_law = { λ f region test a x y w e. subst (λ z. test x ≡ test z) (N.exact_law x y e) refl };
}
