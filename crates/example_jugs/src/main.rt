//! Two jugs, of three and of five litres: the fewest moves to four litres.
#![tactic(auto)]

ghost use Prim.{search};
ghost use Rattle.std.proofs.Common.{rules};
ghost use Rattle.std.specs.Prelude.{◌==◌, ◌+◌, ◌-◌, min, [], ◌∷◌, Some};

use pf_states::{Exact, StateGoal, StateSpace, bfs};

/// The litres in each jug.
#[derive(Clone, Copy, PartialEq, Eq, Hash, Drop)]
struct Jugs {
    three: u8,
    five: u8,
}

impl Exact for Jugs {
    ghost exact_law = { λ x y e. search rules };

    ghost clone_law = { λ x y e. search rules };
}

/// The puzzle: to fill a jug, to empty one, or to pour one into the other. Each move costs 1.
#[derive(Drop)]
struct Puzzle;

impl StateSpace<Jugs, u32> for Puzzle {
    ghost moves = { λ _ s.
        let to_five = min s.three (5 - s.five) in
        let to_three = min s.five (3 - s.three) in
        Some (record s { three = 3 }, 1) ∷ Some (record s { five = 5 }, 1)
        ∷ Some (record s { three = 0 }, 1) ∷ Some (record s { five = 0 }, 1)
        ∷ Some (record { three = s.three - to_five; five = s.five + to_five }, 1)
        ∷ Some (record { three = s.three + to_three; five = s.five - to_three }, 1) ∷ [] };

    fn places(&self, _state: &Jugs) -> usize {
        6
    }

    fn move_at(&self, state: &Jugs, place: usize) -> Option<(Jugs, u32)> {
        let Jugs { three, five } = *state;
        let to_five = three.min(5u8.saturating_sub(five));
        let to_three = five.min(3u8.saturating_sub(three));
        let (three, five) = match place {
            0 => (3, five),
            1 => (three, 5),
            2 => (0, five),
            3 => (three, 0),
            4 => (three - to_five, five + to_five),
            _ => (three + to_three, five - to_three),
        };
        Some((Jugs { three, five }, 1))
    }

    ghost costs_law = { λ puzzle state next cost place e. search rules };
}

/// The goal: so many litres in the jug of five.
#[derive(Drop)]
struct Litres(u8);

impl StateGoal<Jugs> for Litres {
    ghost passes = { λ litres state. state.five == litres.0 };

    fn is_goal(&self, state: &Jugs) -> bool {
        state.five == self.0
    }
}

fn main(rt: HostRuntime) -> Result<(), anyhow::Error> {
    let alloc = rt.alloc();
    let empty = Jugs { three: 0, five: 0 };
    match bfs(alloc, &Puzzle, &empty, &Litres(4))? {
        Some(path) => {
            for state in &path {
                println!(rt; "{} of 3, {} of 5", state.three, state.five)?;
            }
        }
        None => rt.println("no way")?,
    }
    Ok(())
}
