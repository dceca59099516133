//! A matrix whose rows and columns are exchanged: in place, for values of any type, or as a copy.

ghost use Rattle.std.specs.Prelude.{◌≡◌, ℕ, ◌+◌, ◌*◌, ◌<◌, ◌≤◌, [], length, slice_index_or, slice_set, vec_len, vec_capacity, Some, None, IsOk, IsSome, IfOk, OnOk, OnErr, IfErr};
ghost use Rattle.pf_matrix.specs.Arrange.{CanTurn, IsArranged, IsTransposed, itself};
ghost use Rattle.pf_row_major.specs.Parts.{row_from};
ghost use Rattle.pf_matrix.specs.declared.error.MatrixFormatError.TheVariants.{OutOfMemory};

use crate::error::MatrixFormatError;
use crate::matrix::Matrix;
use pf_row_major::{cloned_columns, cloned_square, transpose_square};
use std::alloc::{AllocError, Allocator};
use std::mem;

impl<C, A: Allocator> Matrix<C, A> {
    pub(super) fn transpose_in_place(&mut self)
        requires { self.old.rows ≡ self.old.columns }
        ensures { IsTransposed itself self.old self.new }
    {
        transpose_square(self.values.as_mut_slice(), self.rows);
    }
}

impl<C: Drop, A: Allocator + Copy> Matrix<C, A> {
    /// Exchanges rows and columns. A matrix with columns has to have rows.
    ///
    /// A square takes no memory. Else the only error is out of memory, and then the matrix stays as
    /// it was.
    pub fn transpose(&mut self) -> Result<(), MatrixFormatError>
        requires { CanTurn self.old }
        ensures transposed { OnOk result (IsTransposed itself self.old self.new) }
        ensures stays { OnErr result (self.new ≡ self.old) }
        ensures square { self.old.rows ≡ self.old.columns → IsOk result }
        ensures refused { IfErr result (λ e. e ≡ OutOfMemory) }
    {
        if self.is_square() {
            self.transpose_in_place();
            return Ok(());
        }
        move_by_columns(&mut self.values, self.rows, self.columns)?;
        mem::swap(&mut self.rows, &mut self.columns);
        Ok(())
    }
}

impl<C: Clone + Drop, A: Allocator + Copy> Matrix<C, A> {
    /// A copy with rows and columns exchanged. A matrix with columns has to have rows.
    ///
    /// The copy has clones of the values, and takes its memory from the allocator of the matrix,
    /// which stays as it was. The only error is out of memory.
    pub fn transposed(&self) -> Result<Self, MatrixFormatError>
        requires { CanTurn self.now }
        ensures transposed { IfOk result (IsTransposed C.is_clone self.now) }
        ensures refused { IfErr result (λ e. e ≡ OutOfMemory) }
    {
        if self.is_square() {
            return self.square_by_columns(false);
        }
        let alloc = *self.values.allocator();
        let values = cloned_columns(alloc, self.values.as_slice(), self.rows, self.columns)?;
        Ok(Matrix {
            rows: self.columns,
            columns: self.rows,
            values,
        })
    }
}

impl<C: Clone + Drop, A: Allocator + Copy> Matrix<C, A> {
    /// A copy of a square, column by column, each from the top, or from the bottom if `upwards`. Clones
    /// by rows, which are put in order while a cache has them, take less than half the time.
    pub(super) fn square_by_columns(&self, upwards: bool) -> Result<Self, MatrixFormatError>
        requires { self.now.rows ≡ self.now.columns }
        ensures arranged { IfOk result (IsArranged C.is_clone self.now.columns self.now.rows (λ r c. (row_from upwards self.now.rows c, r)) self.now) }
        ensures refused { IfErr result (λ e. e ≡ OutOfMemory) }
    {
        let alloc = *self.values.allocator();
        let values = cloned_square(alloc, self.values.as_slice(), self.rows, upwards)?;
        Ok(Matrix {
            rows: self.rows,
            columns: self.columns,
            values,
        })
    }
}

/// Orders values that stand by rows by columns. All room is taken before the first value moves.
fn move_by_columns<C: Drop, A: Allocator + Copy>(
    values: &mut Vec<C, A>,
    rows: usize,
    columns: usize,
) -> Result<(), AllocError>
    requires { vec_len values.old ≡ rows * columns }
    ensures len { vec_len values.new ≡ vec_len values.old }
    ensures moved { OnOk result ((r c : ℕ) (d : C) → r < columns → c < rows → slice_index_or values.new.items (r * rows + c) d ≡ slice_index_or values.old.items (c * columns + r) d) }
    ensures err { OnErr result (values.new.items ≡ values.old.items) }
{
    let alloc = *values.allocator();
    let waiting = Vec::with_capacity(alloc, values.len())?;
    let ordered = Vec::with_capacity(alloc, values.len())?;
    let all = mem::replace(values, Vec::new(alloc));
    let mut waiting = all_waiting(all, waiting);
    *values = take_by_columns(waiting.as_mut_slice(), ordered, rows, columns);
    Ok(())
}

fn all_waiting<C: Drop, A: Allocator>(
    values: Vec<C, A>,
    mut waiting: Vec<Option<C>, A>,
) -> Vec<Option<C>, A>
    requires empty { waiting.items ≡ [] }
    requires room { vec_len values ≤ vec_capacity waiting }
    ensures len { vec_len result ≡ vec_len values }
    ensures some { (k : ℕ) → k < vec_len values → IsSome (slice_index_or result.items k None) }
    ensures all { (k : ℕ) (d : C) → k < vec_len values → slice_index_or result.items k None ≡ Some (slice_index_or values.items k d) }
{
    for value in values {
        waiting.push_reserved(Some(value));
    }
    waiting
}

fn take_by_columns<C: Drop, A: Allocator>(
    waiting: &mut [Option<C>],
    mut ordered: Vec<C, A>,
    rows: usize,
    columns: usize,
) -> Vec<C, A>
    requires size { length waiting.old ≡ rows * columns }
    requires all { (k : ℕ) → k < length waiting.old → IsSome (slice_index_or waiting.old k None) }
    requires empty { ordered.items ≡ [] }
    requires room { rows * columns ≤ vec_capacity ordered }
    ensures len { vec_len result ≡ rows * columns }
    ensures values { (r c : ℕ) (d : C) → r < columns → c < rows → Some (slice_index_or result.items (r * rows + c) d) ≡ slice_index_or waiting.old (c * columns + r) None }
{
    for column in 0..columns {
        for row in 0..rows {
            let Some(value) = take_at(waiting, row * columns + column) else {
                unreachable!()
            };
            ordered.push_reserved(value);
        }
    }
    ordered
}

fn take_at<C: Drop>(waiting: &mut [Option<C>], at: usize) -> Option<C>
    requires { at < length waiting.old }
    ensures value { result ≡ slice_index_or waiting.old at None }
    ensures rest { waiting.new ≡ slice_set waiting.old at None }
{
    waiting[at].take()
}
