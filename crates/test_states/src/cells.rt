//! Cells of a board of three rows and three columns, with steps down and to the right.

ghost use Prim.{search};
ghost use Rattle.std.proofs.Common.{rules};
ghost use Rattle.std.specs.Prelude.{◌==◌, ◌&&◌};
ghost use Rattle.test_states.specs.Steps.{distance, none_left, distance_falls, steps_from};

#[cfg(test)]
use pf_state_estimates::StateEstimate;
#[cfg(test)]
use pf_state_spaces::{Exact, StateGoal, StateSpace};

/// A cell, by its row and its column.
#[derive(Clone, Copy, Debug, PartialEq, Eq, Hash, Drop)]
pub struct Cell {
    pub row: u8,
    pub column: u8,
}

#[cfg(test)]
impl Exact for Cell {
    ghost exact_law = { λ x y e. search rules };

    ghost clone_law = { λ x y e. search rules };
}

/// The board. A step costs 1.
#[cfg(test)]
#[derive(Drop)]
pub struct Board;

#[cfg(test)]
impl StateSpace<Cell, u32> for Board {
    ghost moves = { λ _ cell. steps_from cell };

    fn places(&self, _cell: &Cell) -> usize {
        2
    }

    fn move_at(&self, cell: &Cell, place: usize) -> Option<(Cell, u32)> {
        let Cell { row, column } = *cell;
        match place {
            0 if row < 2 => Some((
                Cell {
                    row: row + 1,
                    column,
                },
                1,
            )),
            0 => None,
            _ if column < 2 => Some((
                Cell {
                    row,
                    column: column + 1,
                },
                1,
            )),
            _ => None,
        }
    }

    ghost costs_law = { λ board cell next cost place e. search rules };
}

/// The goal: a cell.
#[cfg(test)]
#[derive(Drop)]
pub struct Target {
    pub row: u8,
    pub column: u8,
}

#[cfg(test)]
impl StateGoal<Cell> for Target {
    ghost passes = { λ target cell. cell.row == target.row && cell.column == target.column };

    fn is_goal(&self, cell: &Cell) -> bool {
        cell.row == self.row && cell.column == self.column
    }
}

/// The estimate: the steps down and to the right that are left.
#[cfg(test)]
#[derive(Drop)]
pub struct StepsLeft;

#[cfg(test)]
impl StateEstimate<Cell, u32, Board, Target> for StepsLeft {
    ghost estimated = { λ _ _ target cell. distance target.row target.column cell };

    fn estimate(&self, _board: &Board, target: &Target, cell: &Cell) -> u32 {
        let down = target.row.saturating_sub(cell.row);
        let right = target.column.saturating_sub(cell.column);
        u32::from(down) + u32::from(right)
    }

    ghost from_zero_law = { λ led board target cell. search rules };

    ghost at_goal_law = { λ led board target cell e. none_left target.row target.column cell e };

    ghost falls_law = { λ led board target cell next cost place e. distance_falls target.row target.column cell next cost place e };
}
