//! The puzzle: its states, what one move leads to, which states are goals, and how far they are at least.

ghost use Prim.{search};
ghost use Rattle.std.proofs.Common.{rules};
ghost use Rattle.std.specs.Prelude.{◌≡◌, ◌≤◌};
ghost use Rattle.example_discs.specs.Moves.{after, all_on, is_clear, large_to, middle_to, misplaced, moves_from, off, small_to, where_allowed};
ghost use Rattle.example_discs.specs.Falls.{falls, none_off};

use pf_state_estimates::StateEstimate;
use pf_states::{Exact, StateGoal, StateSpace};

/// The peg on which each disc is, 0 to 2.
#[derive(Clone, Copy, PartialEq, Eq, Hash, Drop)]
pub struct Tower {
    pub small: u8,
    pub middle: u8,
    pub large: u8,
}

impl Exact for Tower {
    ghost exact_law = { λ x y e. search rules };

    ghost clone_law = { λ x y e. search rules };
}

/// The puzzle. No disc lies on a smaller one, and each move costs 1.
#[derive(Drop)]
pub struct Discs;

/// The peg behind a peg, round in turn.
fn after(peg: u8) -> u8
    ensures { result ≡ after peg }
{
    if peg < 2 { peg + 1 } else { 0 }
}

/// Is a smaller disc on neither of two pegs?
fn is_clear(smaller: u8, from: u8, to: u8) -> bool
    ensures { result ≡ is_clear smaller from to }
{
    smaller != from && smaller != to
}

/// The move to a tower, where it is allowed.
fn where_allowed(is_allowed: bool, tower: Tower) -> Option<(Tower, u32)>
    ensures { result ≡ where_allowed is_allowed tower }
{
    if is_allowed { Some((tower, 1)) } else { None }
}

/// The move of the small disc to a peg.
fn small_to(tower: &Tower, to: u8) -> Option<(Tower, u32)>
    ensures { result ≡ small_to tower.now to }
{
    Some((
        Tower {
            small: to,
            ..*tower
        },
        1,
    ))
}

/// The move of the middle disc to a peg, where the small one is on another.
fn middle_to(tower: &Tower, to: u8) -> Option<(Tower, u32)>
    ensures { result ≡ middle_to tower.now to }
{
    where_allowed(
        is_clear(tower.small, tower.middle, to),
        Tower {
            middle: to,
            ..*tower
        },
    )
}

/// The move of the large disc to a peg, where the smaller ones are on another.
fn large_to(tower: &Tower, to: u8) -> Option<(Tower, u32)>
    ensures { result ≡ large_to tower.now to }
{
    if is_clear(tower.small, tower.large, to) {
        where_allowed(
            is_clear(tower.middle, tower.large, to),
            Tower {
                large: to,
                ..*tower
            },
        )
    } else {
        None
    }
}

impl StateSpace<Tower, u32> for Discs {
    ghost moves = { λ _ tower. moves_from tower };

    fn places(&self, _tower: &Tower) -> usize {
        6
    }

    fn move_at(&self, tower: &Tower, place: usize) -> Option<(Tower, u32)> {
        match place {
            0 => small_to(tower, after(tower.small)),
            1 => small_to(tower, after(after(tower.small))),
            2 => middle_to(tower, after(tower.middle)),
            3 => middle_to(tower, after(after(tower.middle))),
            4 => large_to(tower, after(tower.large)),
            _ => large_to(tower, after(after(tower.large))),
        }
    }

    ghost costs_law = { λ space tower next cost place e. search rules };
}

/// The goal: all discs on one peg.
#[derive(Drop)]
pub struct Peg(pub u8);

impl StateGoal<Tower> for Peg {
    ghost passes = { λ peg tower. all_on peg.0 tower };

    fn is_goal(&self, tower: &Tower) -> bool {
        tower.small == self.0 && tower.middle == self.0 && tower.large == self.0
    }
}

/// The estimate: how many discs are off the goal. Each takes a move at least.
#[derive(Drop)]
pub struct Misplaced;

/// 1 for a disc that is off a peg, else 0.
fn off(goal: u8, peg: u8) -> u32
    ensures is { result ≡ off goal peg }
    ensures small { result ≤ 1 }
{
    if peg == goal { 0 } else { 1 }
}

impl StateEstimate<Tower, u32, Discs, Peg> for Misplaced {
    ghost estimated = { λ _ _ peg tower. misplaced peg.0 tower };

    fn estimate(&self, _space: &Discs, goal: &Peg, tower: &Tower) -> u32 {
        off(goal.0, tower.small) + off(goal.0, tower.middle) + off(goal.0, tower.large)
    }

    ghost from_zero_law = { λ led space peg tower. search rules };

    ghost at_goal_law = { λ led space peg tower e. none_off peg.0 tower e };

    ghost falls_law = { λ led space peg tower next cost place e. falls peg.0 tower next cost place e };
}
