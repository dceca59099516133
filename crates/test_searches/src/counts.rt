//! A graph over states: counts to which one is added, which are doubled, and which begin anew.

ghost use Prim.{search};
ghost use Rattle.std.proofs.Common.{rules};
ghost use Rattle.std.specs.Prelude.{◌==◌};
ghost use Rattle.test_searches.specs.Counts.{moves_from};

#[cfg(test)]
use pathfinding::states::{Exact, StateSpace};

/// How far a count has come.
#[derive(Clone, Copy, Debug, PartialEq, Eq, Hash, Drop)]
pub struct Count {
    pub number: u8,
}

#[cfg(test)]
impl Exact for Count {
    ghost exact_law = { λ x y e. search rules };

    ghost clone_law = { λ x y e. search rules };
}

/// The moves of counts up to 9: up to 8 one more at 2, from 9 on 1 at 1; and up to 4 twice as many at 5.
#[cfg(test)]
#[derive(Drop)]
pub struct Counting;

#[cfg(test)]
impl StateSpace<Count, u32> for Counting {
    ghost moves = { λ _ state. moves_from state };

    fn places(&self, _state: &Count) -> usize {
        2
    }

    fn move_at(&self, state: &Count, place: usize) -> Option<(Count, u32)> {
        let number = state.number;
        match place {
            0 if number < 9 => Some((Count { number: number + 1 }, 2)),
            0 => Some((Count { number: 1 }, 1)),
            _ if number < 5 => Some((Count { number: number * 2 }, 5)),
            _ => None,
        }
    }

    ghost costs_law = { λ space state next cost place e. search rules };
}
