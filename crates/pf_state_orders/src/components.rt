//! Strong components.

ghost use Rattle.std.specs.Prelude.{◌≡◌, IfOk, IfErr};
ghost use Rattle.pf_orders.specs.StrongComponents.{AreStrongComponents, IsStrongComponentOf, lists_of};
ghost use Rattle.pf_state_spaces.specs.StateSpaces.{successors_by};

use pf_base::{Cost, PathError};
use pf_state_spaces::moves::successors_of;
use pf_state_spaces::{Exact, StateSpace};
use std::alloc::Allocator;
use std::hash::Hash;

/// The strong components of all states in reach of the given ones: each state in reach once, in the
/// component of those that it reaches and that reach it, and each component behind every other that it
/// reaches. What the moves cost plays no part.
///
/// The given states may repeat. The order of the states in a component is open.
///
/// # Errors
///
/// `OutOfMemory`: a request for memory was refused.
///
/// The algorithm is the path-based one (H. N. Gabow, "Path-based depth-first search for strong and
/// biconnected components", 2000).
pub fn strongly_connected_components<N, C, S, A>(
    alloc: A,
    space: &S,
    states: &[N],
) -> Result<Vec<Vec<N, A>, A>, PathError>
where
    N: Exact + Hash + Drop,
    C: Cost,
    S: StateSpace<N, C>,
    A: Allocator + Copy,
    ensures components { IfOk result (λ components. AreStrongComponents N.eq (successors_by (S.moves space.now)) states.now (lists_of components.items)) }
    ensures errors { IfErr result (λ e. e ≡ PathError.OutOfMemory) }
{
    pf_orders::directed::strongly_connected_components::strongly_connected_components(
        alloc,
        states,
        |n: &N| successors_of(space, n),
    )
}

/// The strong component of a state: all states that it reaches and that reach it, each once, in open
/// order. What the moves cost plays no part.
///
/// # Errors
///
/// `OutOfMemory`: a request for memory was refused.
///
/// All states in reach are searched, as by `strongly_connected_components`.
pub fn strongly_connected_component<N, C, S, A>(
    alloc: A,
    space: &S,
    state: &N,
) -> Result<Vec<N, A>, PathError>
where
    N: Exact + Hash + Drop,
    C: Cost,
    S: StateSpace<N, C>,
    A: Allocator + Copy,
    ensures component { IfOk result (λ component. IsStrongComponentOf N.eq (successors_by (S.moves space.now)) state.now component.items) }
    ensures errors { IfErr result (λ e. e ≡ PathError.OutOfMemory) }
{
    pf_orders::directed::strongly_connected_components::strongly_connected_component(
        alloc,
        state,
        |n: &N| successors_of(space, n),
    )
}
