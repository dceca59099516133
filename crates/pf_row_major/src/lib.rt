//! Values in row-major order, the first row first: what is done to them in place, and clones of them.
//!
//! The layer below `pf_matrix`. No other crate exports it.
#![tactic(auto)]

ghost use Rattle.std.specs.Prelude.{◌≡◌, ◌⊎◌, ℕ, ◌+◌, ◌-◌, ◌*◌, ◌^◌, ◌<◌, ◌≤◌, ◌≢◌, length, slice_index_or, vec_len, IfOk, IsOk};
ghost use Rattle.pf_row_major.specs.Parts.{IsCovered, IsPartOf, row_from};

use std::alloc::{AllocError, Allocator};

/// Turns each of these rows round.
pub fn reverse_rows<C>(values: &mut [C], rows: usize, columns: usize)
    requires { length values.old ≡ rows * columns }
    ensures values { (r c : ℕ) (d : C) → r < rows → c < columns → slice_index_or values.new (r * columns + c) d ≡ slice_index_or values.old (r * columns + (columns - 1 - c)) d }
{
    for row in 0..rows {
        values[row * columns..(row + 1) * columns].reverse();
    }
}

/// Exchanges the rows above the middle and those below it, the first with the last.
pub fn exchange_rows<C>(values: &mut [C], rows: usize, columns: usize)
    requires { length values.old ≡ rows * columns }
    ensures values { (r c : ℕ) (d : C) → r < rows → c < columns → slice_index_or values.new (r * columns + c) d ≡ slice_index_or values.old ((rows - 1 - r) * columns + c) d }
{
    for row in 0..rows / 2 {
        swap_rows(values, columns, row, rows - 1 - row);
    }
}

/// Exchanges two rows.
fn swap_rows<C>(values: &mut [C], columns: usize, row: usize, other: usize)
    requires order { row < other }
    requires inside { other * columns + columns ≤ length values.old }
    ensures row { (c : ℕ) (d : C) → c < columns → slice_index_or values.new (row * columns + c) d ≡ slice_index_or values.old (other * columns + c) d }
    ensures other { (c : ℕ) (d : C) → c < columns → slice_index_or values.new (other * columns + c) d ≡ slice_index_or values.old (row * columns + c) d }
    ensures others { (r c : ℕ) (d : C) → r ≢ row → r ≢ other → c < columns → slice_index_or values.new (r * columns + c) d ≡ slice_index_or values.old (r * columns + c) d }
{
    let (above, below) = values.split_at_mut(other * columns);
    above[row * columns..row * columns + columns].swap_with_slice(&mut below[..columns]);
}

/// Exchanges the rows and the columns of a square.
pub fn transpose_square<C>(values: &mut [C], size: usize)
    requires { length values.old ≡ size * size }
    ensures values { (r c : ℕ) (d : C) → r < size → c < size → slice_index_or values.new (r * size + c) d ≡ slice_index_or values.old (c * size + r) d }
{
    exchange_band(values, size, 0, size);
}

/// Exchanges the rows and the columns from `from` up to `to` of values of which there are rows up to
/// `to`: row by row, what is above the diagonal and in these columns with what is below it.
fn exchange_band<C>(values: &mut [C], columns: usize, from: usize, to: usize)
    requires order { from ≤ to }
    requires inside { to ≤ columns }
    requires size { length values.old ≡ to * columns }
    ensures exchanged { (r c : ℕ) (d : C) → r < to → c < to → (from ≤ r) ⊎ (from ≤ c) → slice_index_or values.new (r * columns + c) d ≡ slice_index_or values.old (c * columns + r) d }
    ensures others { (r c : ℕ) (d : C) → r < to → c < columns → ((r < from) × (c < from)) ⊎ (to ≤ c) → slice_index_or values.new (r * columns + c) d ≡ slice_index_or values.old (r * columns + c) d }
{
    for row in 0..to {
        for column in from.max(row + 1)..to {
            values.swap(row * columns + column, column * columns + row);
        }
    }
}

/// Copies a part of `size.0` rows and `size.1` columns, which stands by rows of `part_columns`, over
/// the values from the position `to` on.
pub fn copy_part<C: Copy>(
    values: &mut [C],
    columns: usize,
    to: (usize, usize),
    part: &[C],
    part_columns: usize,
    size: (usize, usize),
)
    requires fits { to.0 + size.0 < 2 ^ 64 }
    requires rows { (to.0 + size.0) * columns ≤ length values.old }
    requires columns { to.1 + size.1 ≤ columns }
    requires part_rows { size.0 * part_columns ≤ length part.now }
    requires part_columns { size.1 ≤ part_columns }
    ensures copied { (r c : ℕ) (d : C) → r < size.0 → c < size.1 → slice_index_or values.new ((to.0 + r) * columns + (to.1 + c)) d ≡ slice_index_or part.now (r * part_columns + c) d }
    ensures others { (r c : ℕ) (d : C) → c < columns → ¬ (IsCovered to size.0 size.1 r c) → slice_index_or values.new (r * columns + c) d ≡ slice_index_or values.old (r * columns + c) d }
{
    for row in 0..size.0 {
        let begin = (to.0 + row) * columns + to.1;
        let from = row * part_columns;
        write_at(values, begin, &part[from..from + size.1]);
    }
}

/// Copies these values over those from the place `begin` on.
fn write_at<C: Copy>(values: &mut [C], begin: usize, part: &[C])
    requires { begin + length part.now ≤ length values.old }
    ensures inside { (i : ℕ) (d : C) → i < length part.now → slice_index_or values.new (begin + i) d ≡ slice_index_or part.now i d }
    ensures below { (i : ℕ) (d : C) → i < begin → slice_index_or values.new i d ≡ slice_index_or values.old i d }
    ensures above { (i : ℕ) (d : C) → begin + length part.now ≤ i → slice_index_or values.new i d ≡ slice_index_or values.old i d }
{
    values[begin..begin + part.len()].copy_from_slice(part);
}

/// Clones of the values in `size.0` rows and `size.1` columns from the position `from` on. No rows are
/// never refused.
pub fn cloned_part<C: Clone + Drop, A: Allocator>(
    alloc: A,
    all: &[C],
    columns: usize,
    from: (usize, usize),
    size: (usize, usize),
) -> Result<Vec<C, A>, AllocError>
    requires rows_fit { from.0 + size.0 < 2 ^ 64 }
    requires rows { (from.0 + size.0) * columns ≤ length all.now }
    requires columns { from.1 + size.1 ≤ columns }
    requires fits { size.0 * size.1 < 2 ^ 64 }
    ensures len { IfOk result (λ v. vec_len v ≡ size.0 * size.1) }
    ensures values { IfOk result (λ v. IsPartOf C.is_clone columns from size all.now v.items) }
    ensures no_rows { size.0 ≡ 0 → IsOk result }
{
    let mut values = Vec::with_capacity(alloc, size.0 * size.1)?;
    for row in 0..size.0 {
        let begin = (from.0 + row) * columns + from.1;
        values.extend_with_clones(run(all, begin, size.1))?;
    }
    Ok(values)
}

fn run<C>(all: &[C], begin: usize, len: usize) -> &[C]
    requires { begin + len ≤ length all.now }
    ensures len { length result.now ≡ len }
    ensures values { (i : ℕ) (d : C) → i < len → slice_index_or result.now i d ≡ slice_index_or all.now (begin + i) d }
{
    &all[begin..begin + len]
}

/// Clones of the rows, the last row first.
pub fn cloned_upwards<C: Clone + Drop, A: Allocator>(
    alloc: A,
    all: &[C],
    rows: usize,
    columns: usize,
) -> Result<Vec<C, A>, AllocError>
    requires { length all.now ≡ rows * columns }
    ensures len { IfOk result (λ v. vec_len v ≡ rows * columns) }
    ensures values { IfOk result (λ v. (r c : ℕ) (d : C) → r < rows → c < columns → C.is_clone (slice_index_or all.now ((rows - 1 - r) * columns + c) d) (slice_index_or v.items (r * columns + c) d)) }
{
    let mut values = Vec::with_capacity(alloc, all.len())?;
    for row in 0..rows {
        let begin = (rows - 1 - row) * columns;
        values.extend_with_clones(run(all, begin, columns))?;
    }
    Ok(values)
}

/// How many rows are cloned before they are exchanged with the columns above them, while a cache still
/// has the rows: also where rows whose length is a power of two share its places.
const BAND: usize = 8;

/// Clones of the values of a square by columns, the first column first: each from the top, or from the
/// bottom if `upwards`.
pub fn cloned_square<C: Clone + Drop, A: Allocator>(
    alloc: A,
    all: &[C],
    size: usize,
    upwards: bool,
) -> Result<Vec<C, A>, AllocError>
    requires { length all.now ≡ size * size }
    ensures len { IfOk result (λ v. vec_len v ≡ size * size) }
    ensures values { IfOk result (λ v. (r c : ℕ) (d : C) → r < size → c < size → C.is_clone (slice_index_or all.now (row_from upwards size c * size + r) d) (slice_index_or v.items (r * size + c) d)) }
{
    let mut values = Vec::with_capacity(alloc, all.len())?;
    let mut from = 0;
    while from < size {
        let to = from + BAND.min(size - from);
        for row in from..to {
            let begin = row_from(upwards, size, row) * size;
            values.extend_with_clones(run(all, begin, size))?;
        }
        exchange_band(values.as_mut_slice(), size, from, to);
        from = to;
    }
    Ok(values)
}

/// The row, counted from the last one if `upwards`.
fn row_from(upwards: bool, rows: usize, row: usize) -> usize
    requires { row < rows }
    ensures from { result ≡ row_from upwards rows row }
    ensures inside { result < rows }
{
    if upwards { rows - 1 - row } else { row }
}

/// Clones of the values by columns, the first column first.
pub fn cloned_columns<C: Clone + Drop, A: Allocator>(
    alloc: A,
    all: &[C],
    rows: usize,
    columns: usize,
) -> Result<Vec<C, A>, AllocError>
    requires { length all.now ≡ rows * columns }
    ensures len { IfOk result (λ v. vec_len v ≡ columns * rows) }
    ensures values { IfOk result (λ v. (r c : ℕ) (d : C) → r < columns → c < rows → C.is_clone (slice_index_or all.now (c * columns + r) d) (slice_index_or v.items (r * rows + c) d)) }
{
    let mut values = Vec::with_capacity(alloc, all.len())?;
    for column in 0..columns {
        for row in 0..rows {
            values.push_reserved(all[row * columns + column].clone()?);
        }
    }
    Ok(values)
}
