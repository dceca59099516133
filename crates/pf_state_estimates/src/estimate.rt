//! Estimates of the cost that remains from a state to a goal.

ghost use Rattle.std.specs.Prelude.{◌≡◌, ◌≤ℤ◌, ◌+ℤ◌, ℕ, ℤ, pos, true, Some, slice_get};

use pf_base::Cost;
use pf_state_spaces::{StateGoal, StateSpace};

/// An estimate of the cost that remains from a state of the space `S` to a goal of `T`.
pub trait StateEstimate<N, C: Cost, S: StateSpace<N, C>, T: StateGoal<N>> {
    // The estimate of each state.
    ghost estimated: { Self → S → T → N → C };

    /// At most what remains from the state to a goal.
    fn estimate(&self, space: &S, goal: &T, state: &N) -> C
        ensures { result ≡ estimated self.now space.now goal.now state.now };

    // No estimate is less than 0.
    ghost from_zero_law: { (led : Self) (space : S) (goal : T) (state : N) → pos 0 ≤ℤ C.value (estimated led space goal state) };

    // A goal is estimated at 0.
    ghost at_goal_law: { (led : Self) (space : S) (goal : T) (state : N) → T.passes goal state ≡ true → C.value (estimated led space goal state) ≡ pos 0 };

    // The estimate of a state is at most what a move costs and the estimate of the state that it leads to.
    ghost falls_law: { (led : Self) (space : S) (goal : T) (state next : N) (cost : C) (place : ℕ) → slice_get (S.moves space state) place ≡ Some (Some (next, cost))
        → C.value (estimated led space goal state) ≤ℤ (C.value cost +ℤ C.value (estimated led space goal next)) };
}
