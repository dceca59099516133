//! Each growth refused in turn: a call answers out of memory and leaves what it was lent as it was,
//! until no request is refused and it answers as it does with ample memory.

ghost use Rattle.pf_matrix.specs.Arrange.{CanTurn};

use super::words::{WordCall, answers_in_words};
use super::{FOUR, Heap, Numbers, SIX, Shape, matrix_of, shows};
use pf_matrix::{Matrix, MatrixFormatError, from_slices, matrix};
use std::alloc::Global;
use test_allocator::Refusing;

/// A call that takes memory, and what it is to answer.
pub(super) enum Call<'a> {
    /// A matrix is made.
    Make(Maker<'a>, Shape<'a>),
    /// None is made, for this reason.
    MakeNone(Maker<'a>, MatrixFormatError),
    /// `SIX` is copied.
    Copy(Copied, Shape<'a>),
    /// `SIX` is changed.
    Change(Change<'a>, Shape<'a>),
    /// `from_fn`, and `map` of what it makes.
    Functions,
    /// A walk by the columns of `SIX`.
    Columns,
    /// A walk by the columns of a matrix without rows.
    EmptyColumns,
    /// A flood of `SIX`.
    Flood,
    /// Floods of `FOUR` from a position outside.
    FloodFromOutside,
    /// A matrix is copied or changed whose values take memory.
    Words(WordCall),
}

/// Where a range starts and where it ends.
type Bounds = (usize, usize);

/// A call that makes a matrix.
pub(super) enum Maker<'a> {
    /// `matrix!` of no rows.
    Nothing,
    /// `new`, of 2 rows and 3 columns of sevens.
    Sevens,
    /// `new_square`, of 2 rows of sevens.
    SquareOfSevens,
    /// `from_slices` of [1, 2] and [3, 4].
    Slices,
    /// `matrix!` of [1, 2] and [3, 4].
    Lists,
    /// `matrix!` of 1, 2 and 3, 4.
    Values,
    /// `from_rows` of [1, 2] and [3, 4].
    Rows,
    /// `matrix!` of [1, 2] and [3].
    UnevenLists,
    /// `matrix!` of a row without values.
    EmptyList,
    /// `matrix!` of a row without values and [1].
    EmptyFirstList,
    /// `from_rows` of two rows of 40 sevens, which takes memory twice.
    LongRows,
    /// `from_rows` of vectors of these values.
    Vectors(&'a [&'a [u8]]),
    /// `slice`, of these rows and columns of a matrix of 4 rows and 4 columns.
    Slice(Bounds, Bounds),
}

/// A call that copies a matrix.
pub(super) enum Copied {
    Clone,
    /// Rows 0 and 1, and column 1.
    Slice,
    FlippedLr,
    FlippedUd,
    Transposed,
    RotatedCw(usize),
    RotatedCcw(usize),
}

/// A call that changes a matrix.
pub(super) enum Change<'a> {
    Fill(u8),
    Extend(&'a [u8]),
    Transpose,
    /// `set_slice` at this position, by 2 rows of 2 nines.
    SetSlice((usize, usize)),
}

/// Vectors of these values.
fn vectors_of<'h>(
    heap: Heap<'h>,
    rows: &[&[u8]],
) -> Result<Vec<Vec<u8, Heap<'h>>, Heap<'h>>, MatrixFormatError> {
    let mut vectors = Vec::new(heap);
    for row in rows {
        vectors.push(row.to_vec(heap)?)?;
    }
    Ok(vectors)
}

/// The matrix that a call makes.
fn made<'h>(heap: Heap<'h>, maker: &Maker<'_>) -> Result<Numbers<'h>, MatrixFormatError> {
    match maker {
        Maker::Nothing => matrix![in heap],
        Maker::Sevens => Matrix::new(heap, 2, 3, 7),
        Maker::SquareOfSevens => Matrix::new_square(heap, 2, 7),
        Maker::Slices => from_slices(heap, &[&[1, 2], &[3, 4]]),
        Maker::Lists => matrix![in heap; [1, 2], [3, 4],],
        Maker::Values => matrix![in heap; 1, 2,; 3, 4;],
        Maker::Rows => Matrix::from_rows(heap, [[1, 2], [3, 4]]),
        Maker::UnevenLists => matrix![in heap; [1, 2], [3]],
        Maker::EmptyList => matrix![in heap; []],
        Maker::EmptyFirstList => matrix![in heap; [], [1]],
        Maker::LongRows => Matrix::from_rows(heap, [[7; 40]; 2]),
        Maker::Vectors(rows) => Matrix::from_rows(heap, vectors_of(heap, rows)?),
        Maker::Slice(rows, columns) => {
            Matrix::new_square(heap, 4, 7)?.slice(rows.0..rows.1, columns.0..columns.1)
        }
    }
}

/// The copy that a call makes.
fn copy_of<'h>(matrix: &Numbers<'h>, copied: &Copied) -> Result<Numbers<'h>, MatrixFormatError>
    requires { CanTurn matrix.now }
{
    match copied {
        Copied::Clone => Ok(matrix.clone()?),
        Copied::Slice => matrix.slice(0..2, 1..2),
        Copied::FlippedLr => matrix.flipped_lr(),
        Copied::FlippedUd => matrix.flipped_ud(),
        Copied::Transposed => matrix.transposed(),
        Copied::RotatedCw(times) => matrix.rotated_cw(*times),
        Copied::RotatedCcw(times) => matrix.rotated_ccw(*times),
    }
}

/// Makes a change.
fn make_change<'h>(
    heap: Heap<'h>,
    matrix: &mut Numbers<'h>,
    change: &Change<'_>,
) -> Result<(), MatrixFormatError>
    requires { CanTurn matrix.old }
{
    match change {
        Change::Fill(value) => matrix.fill(*value),
        Change::Extend(row) => matrix.extend(row),
        Change::Transpose => matrix.transpose(),
        Change::SetSlice(position) => {
            matrix.set_slice(*position, &Matrix::new_square(heap, 2, 9)?);
            Ok(())
        }
    }
}

/// Whether a matrix was made that has this shape.
fn is_made(
    made: Result<Numbers<'_>, MatrixFormatError>,
    shape: Shape<'_>,
) -> Result<bool, MatrixFormatError> {
    let matrix = made?;
    Ok(shows(&matrix, shape))
}

/// Whether no matrix was made, for this reason.
fn is_refused(
    made: Result<Numbers<'_>, MatrixFormatError>,
    reason: MatrixFormatError,
) -> Result<bool, MatrixFormatError> {
    match made {
        Ok(_) => Ok(false),
        Err(MatrixFormatError::OutOfMemory) => Err(MatrixFormatError::OutOfMemory),
        Err(error) => Ok(error == reason),
    }
}

/// Whether a copy of `SIX` has this shape.
fn is_copied(heap: Heap<'_>, copied: &Copied, shape: Shape<'_>) -> Result<bool, MatrixFormatError> {
    let six = matrix_of(heap, SIX)?;
    is_made(copy_of(&six, copied), shape)
}

/// Whether a change gives `SIX` this shape. A refused one has to leave it as it was.
fn is_changed(
    heap: Heap<'_>,
    change: &Change<'_>,
    shape: Shape<'_>,
) -> Result<bool, MatrixFormatError> {
    let mut six = matrix_of(heap, SIX)?;
    match make_change(heap, &mut six, change) {
        Ok(()) => Ok(shows(&six, shape)),
        Err(error) if shows(&six, SIX) => Err(error),
        Err(_) => Ok(false),
    }
}

/// Whether `from_fn` and `map` make what their functions give, which they call once a position.
fn are_made_by_functions(heap: Heap<'_>) -> Result<bool, MatrixFormatError> {
    let mut calls = 0u8;
    let rows = Matrix::from_fn(heap, 2, 3, |position: (usize, usize)| {
        calls = calls.wrapping_add(1);
        position.0
    })?;
    let mut mapped_calls = 0u8;
    let mapped = rows.map(|row: usize| {
        mapped_calls = mapped_calls.wrapping_add(1);
        if row == 0 { 7u8 } else { 8 }
    })?;
    Ok(calls == 6 && mapped_calls == 6 && shows(&mapped, (2, 3, &[7, 7, 7, 8, 8, 8])))
}

/// Whether a column has these values.
fn is_column(
    column: Option<Result<Vec<&u8, Heap<'_>>, MatrixFormatError>>,
    values: &[u8],
) -> Result<bool, MatrixFormatError> {
    match column {
        Some(Ok(column)) => Ok(column.iter().copied().eq(values)),
        Some(Err(error)) => Err(error),
        None => Ok(false),
    }
}

/// Whether a walk gives the three columns of `SIX` from both ends. A refused column is answered in
/// its place, and the others are given.
fn gives_columns(six: &Numbers<'_>) -> Result<bool, MatrixFormatError> {
    let mut columns = six.column_iter();
    let first = is_column(columns.next(), &[1, 4]);
    let last = is_column(columns.next_back(), &[3, 6]);
    let middle = is_column(columns.next(), &[2, 5]);
    let is_whole = columns.next().is_none() && columns.next_back().is_none();
    match (first, last, middle) {
        (Ok(true), Ok(true), answer) | (Ok(true), answer, Ok(true)) | (answer, Ok(true), Ok(true))
            if is_whole => { answer }
        _ => Ok(false),
    }
}

/// Whether the columns of a matrix without rows have no values.
fn gives_empty_columns(none: &Numbers<'_>) -> Result<bool, MatrixFormatError> {
    let mut columns = none.column_iter();
    let is_first_empty = is_column(columns.next(), &[])?;
    Ok(is_first_empty && is_column(columns.next_back(), &[])?)
}

/// A test that each position passes.
fn is_any(_position: (usize, usize)) -> bool {
    true
}

/// Whether a flood reaches the whole matrix.
fn reaches_all(six: &Numbers<'_>) -> Result<bool, MatrixFormatError> {
    let reached = six.bfs_reachable((0, 0), true, is_any)?;
    Ok(reached.len() == 6)
}

/// Whether floods from a position outside reach nothing else.
fn reaches_nothing(four: &Numbers<'_>) -> Result<bool, MatrixFormatError> {
    let breadth = four.bfs_reachable((9, 9), true, is_any)?;
    let depth = four.dfs_reachable((9, 9), true, is_any)?;
    Ok(
        breadth.len() == 1
            && depth.len() == 1
            && breadth.contains(&(9, 9))
            && depth.contains(&(9, 9)),
    )
}

/// Whether a call answers the only right answer.
fn is_right(heap: Heap<'_>, call: &Call<'_>) -> Result<bool, MatrixFormatError> {
    match call {
        Call::Make(maker, shape) => is_made(made(heap, maker), *shape),
        Call::MakeNone(maker, reason) => is_refused(made(heap, maker), *reason),
        Call::Copy(copied, shape) => is_copied(heap, copied, *shape),
        Call::Change(change, shape) => is_changed(heap, change, *shape),
        Call::Functions => are_made_by_functions(heap),
        Call::Columns => gives_columns(&matrix_of(heap, SIX)?),
        Call::EmptyColumns => gives_empty_columns(&Matrix::new_empty(heap, usize::MAX)),
        Call::Flood => reaches_all(&matrix_of(heap, SIX)?),
        Call::FloodFromOutside => reaches_nothing(&matrix_of(heap, FOUR)?),
        Call::Words(call) => answers_in_words(heap, call),
    }
}

/// How many growths a call makes with ample memory, where each run with one of them refused answers
/// out of memory.
fn growths_of(alloc: Global, call: &Call<'_>) -> Option<u64> {
    for growth in 0..100u64 {
        let heap = Refusing::new(alloc);
        heap.refuse(growth, 1);
        let answer = is_right(&heap, call);
        if heap.pending() > 0 {
            return if answer == Ok(true) {
                Some(growth)
            } else {
                None
            };
        }
        if answer != Err(MatrixFormatError::OutOfMemory) {
            return None;
        }
    }
    None
}

/// Calls, and how many growths they make at the least. That of `SIX` is one of them.
const CALLS: &[(Call<'static>, u64)] = &[
    (Call::Make(Maker::Nothing, (0, 0, &[])), 0),
    (Call::Make(Maker::Sevens, (2, 3, &[7; 6])), 1),
    (Call::Make(Maker::SquareOfSevens, (2, 2, &[7; 4])), 1),
    (Call::Make(Maker::Slices, FOUR), 1),
    (Call::Make(Maker::Lists, FOUR), 1),
    (Call::Make(Maker::Values, FOUR), 1),
    (Call::Make(Maker::Rows, FOUR), 1),
    (Call::Make(Maker::LongRows, (2, 40, &[7; 80])), 2),
    (Call::Make(Maker::Vectors(&[&[1, 2], &[3, 4]]), FOUR), 4),
    (Call::Make(Maker::Vectors(&[]), (0, 0, &[])), 0),
    (
        Call::MakeNone(
            Maker::Vectors(&[&[1, 2], &[3]]),
            MatrixFormatError::WrongLength,
        ),
        4,
    ),
    (
        Call::MakeNone(Maker::Vectors(&[&[], &[1]]), MatrixFormatError::WrongLength),
        3,
    ),
    (
        Call::MakeNone(Maker::Vectors(&[&[], &[]]), MatrixFormatError::EmptyRow),
        1,
    ),
    (
        Call::MakeNone(Maker::UnevenLists, MatrixFormatError::WrongLength),
        1,
    ),
    (
        Call::MakeNone(Maker::EmptyList, MatrixFormatError::EmptyRow),
        0,
    ),
    (
        Call::MakeNone(Maker::EmptyFirstList, MatrixFormatError::EmptyRow),
        0,
    ),
    (Call::Make(Maker::Slice((0, 0), (0, 2)), (0, 2, &[])), 1),
    (
        Call::MakeNone(Maker::Slice((1, 3), (2, 2)), MatrixFormatError::EmptyRow),
        1,
    ),
    (
        Call::MakeNone(Maker::Slice((3, 1), (0, 2)), MatrixFormatError::WrongIndex),
        1,
    ),
    (
        Call::MakeNone(Maker::Slice((0, 2), (3, 5)), MatrixFormatError::WrongIndex),
        1,
    ),
    (Call::Functions, 2),
    (Call::Copy(Copied::Clone, SIX), 2),
    (Call::Copy(Copied::Slice, (2, 1, &[2, 5])), 2),
    (
        Call::Copy(Copied::FlippedLr, (2, 3, &[3, 2, 1, 6, 5, 4])),
        2,
    ),
    (
        Call::Copy(Copied::FlippedUd, (2, 3, &[4, 5, 6, 1, 2, 3])),
        2,
    ),
    (
        Call::Copy(Copied::Transposed, (3, 2, &[1, 4, 2, 5, 3, 6])),
        2,
    ),
    (
        Call::Copy(Copied::RotatedCw(1), (3, 2, &[4, 1, 5, 2, 6, 3])),
        2,
    ),
    (
        Call::Copy(Copied::RotatedCw(usize::MAX), (3, 2, &[3, 6, 2, 5, 1, 4])),
        2,
    ),
    (
        Call::Copy(Copied::RotatedCcw(2), (2, 3, &[6, 5, 4, 3, 2, 1])),
        2,
    ),
    (Call::Change(Change::Fill(7), (2, 3, &[7; 6])), 2),
    (
        Call::Change(
            Change::Extend(&[7, 8, 9]),
            (3, 3, &[1, 2, 3, 4, 5, 6, 7, 8, 9]),
        ),
        2,
    ),
    (
        Call::Change(Change::Transpose, (3, 2, &[1, 4, 2, 5, 3, 6])),
        2,
    ),
    (
        Call::Change(Change::SetSlice((1, 2)), (2, 3, &[1, 2, 3, 4, 5, 9])),
        2,
    ),
    (Call::Change(Change::SetSlice((2, 0)), SIX), 2),
    (Call::Columns, 4),
    (Call::EmptyColumns, 0),
    (Call::Flood, 2),
    (Call::FloodFromOutside, 3),
    (Call::Words(WordCall::Clone), 6),
    (Call::Words(WordCall::Slice), 6),
    (Call::Words(WordCall::FlippedLr), 6),
    (Call::Words(WordCall::Transposed), 6),
    (Call::Words(WordCall::Fill), 6),
    (Call::Words(WordCall::Extend), 6),
];

#[test]
fn calls_refuse_each_growth(rt: HostRuntime) {
    for (number, (call, least)) in CALLS.iter().enumerate() {
        let growths = growths_of(rt.alloc(), call);
        assert!(rt; growths >= Some(*least), "call {number}");
    }
}
