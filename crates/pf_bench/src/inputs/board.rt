//! A square board of heights.

ghost use Rattle.std.specs.Prelude.{◌≡◌, ◌<◌, ◌*◌, ◌^◌, length, All, IfSome};
ghost use Rattle.pf_bench.specs.Steps.{moved_to, steps_between};

use crate::draw::Draws;
use crate::error::BenchError;
use crate::inputs::steps::{Moves, Steps};
use std::alloc::Global;

/// Row and column.
pub type Cell = (usize, usize);

/// The first cell of the first row.
pub const START: Cell = (0, 0);

/// Steps down and to the right.
type Direction = (isize, isize);

/// Right, down, left, up.
const DIRECTIONS: [Direction; 4] = [(0, 1), (1, 0), (0, -1), (-1, 0)];

/// A square of heights, row by row. A step costs the height of the cell that it enters.
#[derive(Drop)]
pub struct Board {
    size: usize,
    heights: Vec<u8>,
    ghost from_one: { 0 < size },
    ghost square: { length heights.items ≡ size * size },
    ghost raised: { All (λ h. 0 < h) heights.items },
}

/// The height of the highest cells of a board, where nothing else is said.
pub const HIGHEST: u8 = 9;

/// How many steps lead from one cell to another at least, as far as the number fits.
pub fn distance(from: Cell, to: Cell) -> u32
    ensures { result ≡ steps_between from to }
{
    let steps = from.0.abs_diff(to.0).saturating_add(from.1.abs_diff(to.1));
    u32::try_from(steps).unwrap_or(u32::MAX)
}

/// The coordinate that a step leads to, where it is below `size`. A step off the board at 0 wraps, and
/// is not below it.
fn moved(from: usize, step: isize, size: usize) -> Option<usize>
    ensures found { result ≡ moved_to from step size }
    ensures below { IfSome result (λ to. to < size) }
{
    let to = from.wrapping_add_signed(step);
    if to < size { Some(to) } else { None }
}

impl Board {
    ghost use Rattle.std.specs.List.{filter_map};
    ghost use Rattle.pf_bench.specs.Steps.{cells_from, crossed, entered, entered_cell, four_directions, height_of};

    /// A board with heights from 1 to `highest`.
    pub fn random(alloc: Global, size: usize, highest: u8) -> Result<Board, BenchError>
        requires from_one { 0 < size }
        requires raised { 0 < highest }
    {
        let Some(cells) = size.checked_mul(size) else {
            return Err(BenchError::TooLarge);
        };
        let mut draws = Draws::new();
        let mut heights = Vec::with_capacity(alloc, cells)?;
        for cell in 0..cells {
            heights.push(1 + draws.below(usize::from(highest)) as u8)?;
        }
        Ok(Board { size, heights })
    }

    /// The cells row by row, each with what entering it costs.
    pub fn into_cells(self, alloc: Global) -> Result<Vec<Option<u32>>, BenchError> {
        let mut cells = Vec::with_capacity(alloc, self.heights.len())?;
        for height in &self.heights {
            cells.push(Some(u32::from(*height)))?;
        }
        Ok(cells)
    }

    /// The last cell of the last row.
    pub fn last_cell(&self) -> Cell
        ensures inside { (result.0 < self.now.size) × (result.1 < self.now.size) }
        ensures fits { self.now.size < 2 ^ 64 }
    {
        (self.size - 1, self.size - 1)
    }

    /// The cell that a step leads to, where it is on the board.
    fn enter_cell(&self, from: Cell, direction: Direction) -> Option<Cell>
        ensures found { result ≡ entered_cell self.now.size from direction }
        ensures inside { IfSome result (λ to. (to.0 < self.now.size) × (to.1 < self.now.size)) }
    {
        let row = moved(from.0, direction.0, self.size)?;
        let column = moved(from.1, direction.1, self.size)?;
        Some((row, column))
    }

    /// The height of a cell, and 0 off the board.
    fn height(&self, cell: Cell) -> u32
        ensures found { result ≡ height_of self.now.heights.items self.now.size cell }
        ensures low { result < 256 }
    {
        let place = cell.0.wrapping_mul(self.size).wrapping_add(cell.1);
        match self.heights.get(place) {
            Some(height) => u32::from(*height),
            None => 0,
        }
    }

    /// The cells that the steps from a cell lead to.
    pub fn cells_from(&self, cell: Cell) -> Steps<'_, Plain<'_>>
        ensures { result ≡ cells_from self.now.size cell }
    {
        Steps::new(
            Plain {
                board: self,
                from: cell,
            },
            &DIRECTIONS,
        )
    }

    /// The same cells, each with its height.
    pub fn entries_from(&self, cell: Cell) -> Steps<'_, Entering<'_>>
        ensures { result ≡ filter_map (entered self.now.heights.items self.now.size cell) four_directions }
    {
        Steps::new(
            Entering {
                board: self,
                from: cell,
            },
            &DIRECTIONS,
        )
    }

    /// The same cells, each with the sum of the heights of both cells.
    pub fn crossings_from(&self, cell: Cell) -> Steps<'_, Crossing<'_>>
        ensures { result ≡ filter_map (crossed self.now.heights.items self.now.size cell) four_directions }
    {
        Steps::new(
            Crossing {
                board: self,
                from: cell,
            },
            &DIRECTIONS,
        )
    }
}

/// A cell whose steps cost nothing.
#[derive(Clone, Copy)]
pub struct Plain<'a> {
    board: &'a Board,
    from: Cell,
}

impl<'a> Moves for Plain<'a> {
    ghost use Rattle.pf_bench.specs.Steps.{entered_cell};

    type Direction = Direction;

    type Step = Cell;

    ghost step = { λ s direction. entered_cell s.board.now.size s.from direction };

    fn step(&self, direction: &Direction) -> Option<Cell> {
        self.board.enter_cell(self.from, *direction)
    }
}

/// A cell whose steps cost the height of the cell that they enter.
#[derive(Clone, Copy)]
pub struct Entering<'a> {
    board: &'a Board,
    from: Cell,
}

impl<'a> Moves for Entering<'a> {
    ghost use Rattle.pf_bench.specs.Steps.{entered};

    type Direction = Direction;

    type Step = (Cell, u32);

    ghost step = { λ s direction. entered s.board.now.heights.items s.board.now.size s.from direction };

    fn step(&self, direction: &Direction) -> Option<(Cell, u32)> {
        let to = self.board.enter_cell(self.from, *direction)?;
        Some((
            to,
            u32::from(self.board.heights[to.0 * self.board.size + to.1]),
        ))
    }
}

/// A cell whose steps cost its own height and that of the cell that they enter.
#[derive(Clone, Copy)]
pub struct Crossing<'a> {
    board: &'a Board,
    from: Cell,
}

impl<'a> Moves for Crossing<'a> {
    ghost use Rattle.pf_bench.specs.Steps.{crossed};

    type Direction = Direction;

    type Step = (Cell, u32);

    ghost step = { λ s direction. crossed s.board.now.heights.items s.board.now.size s.from direction };

    fn step(&self, direction: &Direction) -> Option<(Cell, u32)> {
        let to = self.board.enter_cell(self.from, *direction)?;
        Some((to, self.board.height(self.from) + self.board.height(to)))
    }
}
