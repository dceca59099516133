//! Graphs as boards of cells.

ghost use Rattle.std.specs.Prelude.{◌≡◌, ◌<◌, ◌<ℤ◌, ◌*◌, ◌+◌, ◌/◌, ◌%◌, ◌^◌, ℕ, pos, Some, length, IfOk, IfErr, IfSome, MatchOption, get_or, slice_get};
ghost use Rattle.std.specs.Option.{SomeIff, option_map};
ghost use Rattle.pf_base.specs.Moves.{target_of};
ghost use Rattle.pf_boards.specs.Boards.{Cells, IsBoard, IsBoardFault, IsFromZeroTo, directions_of, eight, node_at, position_at, step_from, steps_from};

use crate::steps::Steps;
use pf_base::Cost;
use pf_base::cost::arithmetic::is_negative;
use pf_tables::{Graph, TableError};
use pf_utils::move_in_direction;
use std::marker::Model;

/// What a step adds to the row and to the column, for each place of a node.
const DIRECTIONS: [(isize, isize); 8] = [
    (-1, 0),
    (0, 1),
    (1, 0),
    (0, -1),
    (-1, 1),
    (1, 1),
    (1, -1),
    (-1, -1),
];

/// A board of cells that are lent, by rows, the first row first.
///
/// A cell that is `None` is blocked; one that is `Some(c)` is open, and to enter it costs c. The
/// node at a row and a column is `row * columns + column`. It has a place for each direction of
/// its steps, in their order, with nothing where the step leaves the board, enters a blocked cell
/// or starts in one. A contract sees the sizes, the cells and the directions.
#[derive(Drop)]
pub struct Board<'a, C: Cost> {
    rows: usize,
    columns: usize,
    cells: &'a [Option<C>],
    steps: Steps,
}

impl<'a, C: Cost> Model for Board<'a, C> {
    ghost use Rattle.pf_boards.specs.Boards.{Cells, IsBoard, cells_code, directions_of};

    ghost Value = { Cells C };

    ghost coded = { cells_code C.code };

    ghost view = { λ s. record { rows = s.rows; columns = s.columns; cells = s.cells.now; directions = directions_of s.steps } };

    ghost invariant = { λ s. IsBoard C.value (record { rows = s.rows; columns = s.columns; cells = s.cells.now; directions = directions_of s.steps }) };
}

/// The first cell that costs less than 0.
fn negative_cell<C: Cost>(cells: &[Option<C>]) -> Option<usize>
    ensures { MatchOption result
        (IsFromZeroTo C.value cells.now (length cells.now))
        (λ number. ((cost : C) × (slice_get cells.now number ≡ Some (Some cost)) × (C.value cost <ℤ pos 0)) × IsFromZeroTo C.value cells.now number) }
{
    for (number, cell) in cells.iter().enumerate() {
        if let Some(cost) = cell
            && is_negative(*cost)
        {
            return Some(number);
        }
    }
    None
}

/// The cell that the step at a place leads to, where it stays on the board. A step up or down is told
/// without a row and a column, which take a division.
fn neighbour(rows: usize, columns: usize, node: usize, place: usize) -> Option<usize>
    requires small { rows * columns < 2 ^ 64 }
    requires inside { node < rows * columns }
    requires place { place < 8 }
    ensures { result ≡ option_map (λ (target : ℕ × ℕ). target.0 * columns + target.1) (target_of (node / columns, node % columns) (get_or eight place (pos 0, pos 0)) (rows, columns)) }
{
    match place {
        0 => node.checked_sub(columns),
        1 => {
            if node % columns + 1 < columns {
                Some(node + 1)
            } else {
                None
            }
        }
        2 => {
            if columns < rows * columns - node {
                Some(node + columns)
            } else {
                None
            }
        }
        3 => {
            if node % columns > 0 {
                Some(node - 1)
            } else {
                None
            }
        }
        _ => {
            let position = (node / columns, node % columns);
            let target = move_in_direction(position, DIRECTIONS[place], (rows, columns))?;
            Some(target.0 * columns + target.1)
        }
    }
}

/// Where the step at a place leads from an open cell, and what it costs.
fn step<C: Cost>(
    rows: usize,
    columns: usize,
    cells: &[Option<C>],
    node: usize,
    place: usize,
) -> Option<(usize, C)>
    requires sized { length cells.now ≡ rows * columns }
    requires inside { node < length cells.now }
    requires place { place < 8 }
    ensures { result ≡ step_from (record { rows = rows; columns = columns; cells = cells.now; directions = eight }) node (get_or eight place (pos 0, pos 0)) }
{
    let _open = cells[node]?;
    let number = neighbour(rows, columns, node, place)?;
    let cost = cells[number]?;
    Some((number, cost))
}

impl<'a, C: Cost> Board<'a, C> {
    /// The board of these cells.
    ///
    /// Refused are a number of cells that is not `rows * columns`, as `WrongNumberOfCells`, and
    /// else a cell that costs less than 0, as `NegativeCell` with the first such cell.
    pub fn new(
        rows: usize,
        columns: usize,
        cells: &'a [Option<C>],
        steps: Steps,
    ) -> Result<Self, TableError>
        ensures graph { IfOk result (λ board. board ≡ record { rows = rows; columns = columns; cells = cells.now; directions = directions_of steps }) }
        ensures sound { IfOk result (IsBoard C.value) }
        ensures fault { IfErr result (IsBoardFault C.value rows columns cells.now) }
    {
        if rows.checked_mul(columns) != Some(cells.len()) {
            return Err(TableError::WrongNumberOfCells);
        }
        if let Some(cell) = negative_cell(cells) {
            return Err(TableError::NegativeCell { cell });
        }
        Ok(Board {
            rows,
            columns,
            cells,
            steps,
        })
    }

    /// The number of rows.
    pub fn rows(&self) -> usize
        ensures { result ≡ self.now.rows }
    {
        self.rows
    }

    /// The number of columns.
    pub fn columns(&self) -> usize
        ensures { result ≡ self.now.columns }
    {
        self.columns
    }

    /// The steps that lead from a cell.
    pub fn steps(&self) -> Steps
        ensures { directions_of result ≡ self.now.directions }
    {
        self.steps
    }

    /// The cells, by rows, each with the cost of entering it, or `None` where it is blocked. There is one
    /// for each row and column, and none costs less than 0.
    pub fn cells(&self) -> &[Option<C>]
        ensures cells { result.now ≡ self.now.cells }
        ensures sound { IsBoard C.value self.now }
    {
        self.cells
    }

    /// The node at a row and a column.
    pub fn number_of(&self, row: usize, column: usize) -> usize
        requires row { row < self.now.rows }
        requires column { column < self.now.columns }
        ensures number { result ≡ node_at self.now (row, column) }
        ensures inside { result < length self.now.cells }
    {
        row * self.columns + column
    }

    /// The row and the column of a node, or `None` exactly where the board has no such node.
    pub fn position_of(&self, node: usize) -> Option<(usize, usize)>
        ensures position { SomeIff result (node < length self.now.cells) (position_at self.now node) }
        ensures node { IfSome result (λ position. node_at self.now position ≡ node) }
        ensures row { IfSome result (λ position. position.0 < self.now.rows) }
        ensures column { IfSome result (λ position. position.1 < self.now.columns) }
    {
        if node >= self.cells.len() {
            return None;
        }
        Some((node / self.columns, node % self.columns))
    }
}

impl<'a, C: Cost> Graph<C> for Board<'a, C> {
    ghost size = { λ board. length board.cells };

    ghost places = { steps_from };

    fn len(&self) -> usize {
        self.cells.len()
    }

    fn places(&self, _node: usize) -> usize {
        match self.steps {
            Steps::Four => 4,
            Steps::Eight => 8,
        }
    }

    fn edge(&self, node: usize, place: usize) -> Option<(usize, C)> {
        step(self.rows, self.columns, self.cells, node, place)
    }

    fn known(&self) {
        let _cells = &self.cells;
    }
}
