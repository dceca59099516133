//! Graphs over states, and which states a search looks for.

ghost use Rattle.std.specs.Prelude.{◌≡◌, ◌≤ℤ◌, ◌<◌, ℕ, ℤ, pos, List, Bool, true, Option, Some, length, slice_get};

use pf_base::Cost;

/// States whose `==` is identity, and whose clones are the state itself: a struct with derived traits is
/// such a type.
pub trait Exact: Copy + Eq {
    // Equal states are one.
    ghost exact_law: { (x y : Self) → Self.eq x y ≡ true → x ≡ y };

    // A clone is its original.
    ghost clone_law: { (x y : Self) → Self.is_clone x y → x ≡ y };
}

/// A graph over states of the type `N`. Each state has places, and a move may stand at a place: the state
/// that it leads to, and what it costs.
pub trait StateSpace<N, C: Cost> {
    // What stands at each place of a state.
    ghost moves: { Self → N → List (Option (N × C)) };

    /// How many places a state has.
    fn places(&self, state: &N) -> usize
        ensures { result ≡ length (moves self.now state.now) };

    /// The move at a place of a state, if there is one: the state that it leads to, and its cost.
    fn move_at(&self, state: &N, place: usize) -> Option<(N, C)>
        requires { place < length (moves self.now state.now) }
        ensures { slice_get (moves self.now state.now) place ≡ Some result };

    // No move costs less than 0.
    ghost costs_law: { (space : Self) (state next : N) (cost : C) (place : ℕ) → slice_get (moves space state) place ≡ Some (Some (next, cost)) → pos 0 ≤ℤ C.value cost };
}

/// What a search over states looks for.
pub trait StateGoal<N> {
    // Whether a state is a goal.
    ghost passes: { Self → N → Bool };

    /// Is the state a goal?
    fn is_goal(&self, state: &N) -> bool
        ensures { result ≡ passes self.now state.now };
}

/// The one goal is this state.
impl<N: Eq> StateGoal<N> for N {
    ghost passes = { λ goal state. N.eq state goal };

    fn is_goal(&self, state: &N) -> bool {
        state == self
    }
}
