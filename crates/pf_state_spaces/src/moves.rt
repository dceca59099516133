//! The moves of a state, one by one.

ghost use Rattle.std.specs.Prelude.{◌≡◌};
ghost use Rattle.std.specs.Iterator.{YieldsFirst, item_count};
ghost use Rattle.pf_state_spaces.specs.StateSpaces.{moves_in, successors_by};

use crate::space::StateSpace;
use pf_base::Cost;
use std::marker::{Model, PhantomData};

/// The moves that are left of a state, in order. A contract sees their list.
#[derive(Drop)]
pub struct Moves<'a, N: Copy, C: Cost, S: StateSpace<N, C>> {
    space: &'a S,
    state: N,
    next: usize,
    end: usize,
    cost: PhantomData<C>,
}

impl<'a, N: Copy, C: Cost, S: StateSpace<N, C>> Model for Moves<'a, N, C, S> {
    ghost use Rattle.std.specs.Prelude.{◌≡◌, ◌≤◌, List, drop, length};
    ghost use Rattle.pf_state_spaces.specs.StateSpaces.{moves_in};

    ghost Value = { List (N × C) };

    ghost view = { λ s. moves_in (drop s.next (S.moves s.space.now s.state)) };

    ghost invariant = { λ s. (s.next ≤ s.end) × (s.end ≡ length (S.moves s.space.now s.state)) };
}

/// The moves of a state.
pub fn moves_of<'a, N: Copy, C: Cost, S: StateSpace<N, C>>(
    space: &'a S,
    state: &N,
) -> Moves<'a, N, C, S>
    ensures { result ≡ moves_in (S.moves space.now state.now) }
{
    Moves {
        space,
        state: *state,
        next: 0,
        end: space.places(state),
        cost: PhantomData,
    }
}

impl<'a, N: Copy, C: Cost, S: StateSpace<N, C>> Iterator for Moves<'a, N, C, S> {
    type Item = (N, C);

    ghost next_gives = { YieldsFirst (λ moves. moves) };

    ghost remaining = { item_count (λ moves. moves) };

    fn next(&mut self) -> Option<(N, C)> {
        while self.next < self.end {
            let found = self.space.move_at(&self.state, self.next);
            self.next += 1;
            if found.is_some() {
                return found;
            }
        }
        None
    }
}

/// The states that the moves that are left of a state lead to, in order. A contract sees their list.
#[derive(Drop)]
pub struct Successors<'a, N: Copy, C: Cost, S: StateSpace<N, C>> {
    moves: Moves<'a, N, C, S>,
}

impl<'a, N: Copy, C: Cost, S: StateSpace<N, C>> Model for Successors<'a, N, C, S> {
    ghost use Rattle.std.specs.Prelude.{List, map};

    ghost Value = { List N };

    ghost view = { λ s. map (λ (move : N × C). move.0) s.moves };
}

/// The states that the moves of a state lead to.
pub fn successors_of<'a, N: Copy, C: Cost, S: StateSpace<N, C>>(
    space: &'a S,
    state: &N,
) -> Successors<'a, N, C, S>
    ensures { result ≡ successors_by (S.moves space.now) state.now }
{
    Successors {
        moves: moves_of(space, state),
    }
}

impl<'a, N: Copy, C: Cost, S: StateSpace<N, C>> Iterator for Successors<'a, N, C, S> {
    type Item = N;

    ghost next_gives = { YieldsFirst (λ states. states) };

    ghost remaining = { item_count (λ states. states) };

    fn next(&mut self) -> Option<N> {
        let found = self.moves.next()?;
        Some(found.0)
    }
}
