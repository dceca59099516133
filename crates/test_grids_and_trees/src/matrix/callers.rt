//! Callers that know matrices by their contracts alone.

ghost use Rattle.std.specs.Prelude.{◌≡◌, ◌+◌, ◌*◌, ◌/◌, ◌<◌, ℕ, Bool, true, false, List, map, All, IfOk, nat_eq, slice_index_or};
ghost use Rattle.pf_matrix.specs.Arrange.{CanTurn, IsCopied, IsRotatedCw, itself};
ghost use Rattle.pf_matrix.specs.Floods.{IsFlood, answer_at};
ghost use Rattle.pf_matrix.specs.Tables.{HasPosition, value_at};

use pf_matrix::{Matrix, MatrixFormatError, laws};
use std::alloc::Allocator;
use std::collections::BTreeSet;
use std::marker::PhantomData;

/// The numbers of a board that is turned to the right once. The copy has the very numbers, since a
/// clone of a number is the number.
pub fn turned_board<A: Allocator + Copy>(
    board: &Matrix<u8, A>,
) -> Result<Matrix<u8, A>, MatrixFormatError>
    requires { CanTurn board.now }
    ensures { IfOk result (λ turned. IsRotatedCw itself board.now turned 1) }
{
    board.rotated_cw(1)
}

/// A copy of a board that is made position by position.
pub fn copied_board<A: Allocator + Copy>(
    alloc: A,
    board: &Matrix<u8, A>,
) -> Result<Matrix<u8, A>, MatrixFormatError>
    ensures { IfOk result (IsCopied itself board.now) }
{
    let copy = Matrix::from_fn(
        alloc,
        board.rows(),
        board.columns(),
        |position: (usize, usize)| board[position],
    )?;
    Ok(copy)
}

/// 100 divided by each number of a board, on which no number is 0.
pub fn hundred_divided<A: Allocator + Copy>(
    board: Matrix<u8, A>,
) -> Result<Matrix<u8, A>, MatrixFormatError>
    requires { All (λ x. 0 < x) board.values }
    ensures rows { IfOk result (λ divided. divided.rows ≡ board.rows) }
    ensures columns { IfOk result (λ divided. divided.columns ≡ board.columns) }
    ensures values { IfOk result (λ divided. divided.values ≡ map (λ x. 100 / x) board.values) }
{
    board.map(|value: u8| 100 / value)
}

/// Whether a board of texts equals what two copies with left and right exchanged make of it, as it
/// does: a clone of a text has the same text.
pub fn equals_flipped_twice<A: Allocator + Copy>(
    board: &Matrix<String<A>, A>,
) -> Result<bool, MatrixFormatError>
    ensures { IfOk result (λ equal. equal ≡ true) }
{
    laws::equal_copies(PhantomData::<String<A>>);
    let _rows = board.rows();
    let flipped = board.flipped_lr()?;
    let back = flipped.flipped_lr()?;
    Ok(*board == back)
}

/// The positions that are reached from `start` over numbers that are 0.
pub fn flooded_cells<A: Allocator + Copy>(
    board: &Matrix<u8, A>,
    start: (usize, usize),
) -> Result<BTreeSet<(usize, usize), A>, MatrixFormatError>
    ensures { IfOk result (λ reached. (answers : List Bool)
        × IsFlood board.now.rows board.now.columns false (answer_at board.now.rows board.now.columns answers) start reached
        × ((r c : ℕ) → r < board.now.rows → c < board.now.columns → (number : ℕ) × (number ≡ value_at board.now r c number) × (slice_index_or answers (r * board.now.columns + c) false ≡ nat_eq number 0))) }
{
    board.bfs_reachable(
        start,
        false,
        |position: (usize, usize)| -> bool
            requires { HasPosition board.now position.0 position.1 }
            ensures { (number : ℕ) × (number ≡ value_at board.entry.now position.0 position.1 number) × (result ≡ nat_eq number 0) }
        { board[position] == 0 },
    )
}
