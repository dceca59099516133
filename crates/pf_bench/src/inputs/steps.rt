//! The steps that lead on from a state, one by one.

ghost use Rattle.std.specs.Prelude.{◌≡◌, Option};
ghost use Rattle.std.specs.Iterator.{YieldsFirst, item_count};
ghost use Rattle.std.specs.List.{filter_map};

use std::marker::Model;

/// A state from which a step may lead on in each of some directions.
pub trait Moves: Copy {
    type Direction;

    type Step: Copy;

    ghost step: { Self → Self.Direction → Option Self.Step };

    /// The step in a direction, where there is one.
    fn step(&self, direction: &Self::Direction) -> Option<Self::Step>
        ensures { result ≡ step self.now direction.now };
}

/// The steps from a state in the directions that are left. A contract sees the list of these steps.
#[derive(Drop)]
pub struct Steps<'a, M: Moves> {
    from: M,
    rest: &'a [M::Direction],
}

impl<'a, M: Moves> Model for Steps<'a, M> {
    ghost use Rattle.std.specs.Prelude.{List};
    ghost use Rattle.std.specs.List.{filter_map};

    ghost Value = { List M.Step };

    ghost view = { λ s. filter_map (M.step s.from) s.rest.now };
}

impl<'a, M: Moves> Steps<'a, M> {
    /// The steps from a state in these directions, in their order.
    pub fn new(from: M, directions: &'a [M::Direction]) -> Steps<'a, M>
        ensures { result ≡ filter_map (M.step from) directions.now }
    {
        Steps {
            from,
            rest: directions,
        }
    }
}

impl<'a, M: Moves> Iterator for Steps<'a, M> {
    type Item = M::Step;

    ghost next_gives = { YieldsFirst (λ steps. steps) };

    ghost remaining = { item_count (λ steps. steps) };

    fn next(&mut self) -> Option<M::Step> {
        while let Some((direction, rest)) = self.rest.split_first() {
            self.rest = rest;
            let step = self.from.step(direction);
            if step.is_some() {
                return step;
            }
        }
        None
    }
}
