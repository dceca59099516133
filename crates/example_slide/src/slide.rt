//! The puzzle: its states, what one move leads to, and how far the goal is at least.

ghost use Prim.{search};
ghost use Rattle.std.proofs.Common.{ap, rules};
ghost use Rattle.std.specs.Prelude.{◌≡◌, ◌<◌, ◌≤◌, pos};
ghost use Rattle.example_slide.specs.Misplaced.{falls, misplaced, none_off, off};
ghost use Rattle.example_slide.specs.Moves.{from_above, from_below, from_left, from_right, moves_from, slid};

use pf_state_estimates::StateEstimate;
use pf_states::{Exact, StateSpace};

/// The tiles in the cells, row by row, with 0 in the gap, and the cell of the gap.
#[derive(Clone, Copy, PartialEq, Eq, Hash, Drop)]
pub struct Tiles {
    pub cells: [u8; 9],
    pub gap: usize,
}

impl Exact for Tiles {
    ghost exact_law = { λ x y e. search rules };

    ghost clone_law = { λ x y e. search rules };
}

/// The puzzle. Each move costs 1.
#[derive(Drop)]
pub struct Slide;

/// The tile at this cell moves into the gap.
fn slid(tiles: &Tiles, cell: usize) -> Option<(Tiles, u32)>
    requires gap { tiles.now.gap < 9 }
    requires cell { cell < 9 }
    ensures { result ≡ slid tiles.now cell }
{
    let mut cells = tiles.cells;
    cells[tiles.gap] = cells[cell];
    cells[cell] = 0;
    Some((Tiles { cells, gap: cell }, 1))
}

/// The tile above the gap moves into it, where there is one.
fn from_above(tiles: &Tiles) -> Option<(Tiles, u32)>
    ensures { result ≡ from_above tiles.now }
{
    let gap = tiles.gap;
    if 2 < gap && gap < 9 {
        slid(tiles, gap - 3)
    } else {
        None
    }
}

/// The tile on the right of the gap moves into it, where there is one.
fn from_right(tiles: &Tiles) -> Option<(Tiles, u32)>
    ensures { result ≡ from_right tiles.now }
{
    let gap = tiles.gap;
    if gap % 3 < 2 && gap < 9 {
        slid(tiles, gap + 1)
    } else {
        None
    }
}

/// The tile below the gap moves into it, where there is one.
fn from_below(tiles: &Tiles) -> Option<(Tiles, u32)>
    ensures { result ≡ from_below tiles.now }
{
    let gap = tiles.gap;
    if gap < 6 { slid(tiles, gap + 3) } else { None }
}

/// The tile on the left of the gap moves into it, where there is one.
fn from_left(tiles: &Tiles) -> Option<(Tiles, u32)>
    ensures { result ≡ from_left tiles.now }
{
    let gap = tiles.gap;
    if 0 < gap % 3 && gap < 9 {
        slid(tiles, gap - 1)
    } else {
        None
    }
}

impl StateSpace<Tiles, u32> for Slide {
    ghost moves = { λ _ tiles. moves_from tiles };

    fn places(&self, _tiles: &Tiles) -> usize {
        4
    }

    fn move_at(&self, tiles: &Tiles, place: usize) -> Option<(Tiles, u32)> {
        match place {
            0 => from_above(tiles),
            1 => from_right(tiles),
            2 => from_below(tiles),
            _ => from_left(tiles),
        }
    }

    ghost costs_law = { λ space tiles next cost place e. search rules };
}

/// The estimate: how many tiles are out of place. Each takes a move at least.
#[derive(Drop)]
pub struct Misplaced;

/// 1 for a cell that is not the gap and has another tile than in the goal, else 0.
fn off(goal: &Tiles, tiles: &Tiles, cell: usize) -> u32
    requires { cell < 9 }
    ensures is { result ≡ off goal.now tiles.now cell }
    ensures small { result ≤ 1 }
{
    if cell == tiles.gap || tiles.cells[cell] == goal.cells[cell] {
        0
    } else {
        1
    }
}

impl StateEstimate<Tiles, u32, Slide, Tiles> for Misplaced {
    ghost estimated = { λ _ _ goal tiles. misplaced goal 9 tiles };

    fn estimate(&self, _space: &Slide, goal: &Tiles, tiles: &Tiles) -> u32 {
        let upper = off(goal, tiles, 0) + off(goal, tiles, 1) + off(goal, tiles, 2);
        let middle = upper + off(goal, tiles, 3) + off(goal, tiles, 4) + off(goal, tiles, 5);
        middle + off(goal, tiles, 6) + off(goal, tiles, 7) + off(goal, tiles, 8)
    }

    ghost from_zero_law = { λ led space goal tiles. search rules };

    ghost at_goal_law = { λ led space goal tiles e. ap pos (none_off goal 9 tiles (search rules)) };

    ghost falls_law = { λ led space goal tiles next cost place e. falls goal tiles next cost place e };
}
