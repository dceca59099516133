//! A part of a matrix: as a copy, or overwritten in place.
//!
//! A copy has clones of the values, and takes its memory from the allocator of the matrix, which stays
//! as it was.

ghost use Rattle.std.specs.Prelude.{◌≡◌, ◌⊎◌, ◌↔◌, ◌+◌, ◌<◌, ◌≤◌, IfOk, IfErr, IsErrOf, IsOk};
ghost use Rattle.pf_matrix.specs.Arrange.{IsArranged, IsOverwritten, IsPart, IsWithin};
ghost use Rattle.pf_matrix.specs.declared.error.MatrixFormatError.TheVariants.{EmptyRow, WrongIndex, OutOfMemory};

use crate::error::MatrixFormatError;
use crate::matrix::Matrix;
use pf_row_major::{cloned_part, copy_part};
use std::alloc::Allocator;
use std::ops::Range;

impl<C: Clone + Drop, A: Allocator + Copy> Matrix<C, A> {
    /// The part of the matrix in these rows and columns.
    ///
    /// `WrongIndex` where a range is reversed or ends past the matrix; else `EmptyRow` where there
    /// are rows without columns. No rows inside give an empty matrix, and are never refused.
    pub fn slice(
        &self,
        rows: Range<usize>,
        columns: Range<usize>,
    ) -> Result<Self, MatrixFormatError>
        ensures part { IfOk result (IsPart C.is_clone rows columns self.now) }
        ensures wrong_index { IsErrOf result WrongIndex ↔ ¬ (IsWithin self.now rows columns) }
        ensures empty_row { IsErrOf result EmptyRow ↔ (IsWithin self.now rows columns × (rows.start < rows.end) × (columns.start ≡ columns.end)) }
        ensures no_rows { IsWithin self.now rows columns → rows.start ≡ rows.end → IsOk result }
        ensures refused { IfErr result (λ e. (e ≡ WrongIndex) ⊎ (e ≡ EmptyRow) ⊎ (e ≡ OutOfMemory)) }
    {
        if rows.start > rows.end
            || rows.end > self.rows
            || columns.start > columns.end
            || columns.end > self.columns
        {
            return Err(MatrixFormatError::WrongIndex);
        }
        let height = rows.end - rows.start;
        let width = columns.end - columns.start;
        if height > 0 && width == 0 {
            return Err(MatrixFormatError::EmptyRow);
        }
        self.part((rows.start, columns.start), height, width)
    }

    /// The part of these sizes from the position `from` on.
    pub(super) fn part(
        &self,
        from: (usize, usize),
        height: usize,
        width: usize,
    ) -> Result<Self, MatrixFormatError>
        requires rows { from.0 + height ≤ self.now.rows }
        requires columns { from.1 + width ≤ self.now.columns }
        requires filled { 0 < height → 0 < width }
        ensures part { IfOk result (IsArranged C.is_clone height width (λ r c. (from.0 + r, from.1 + c)) self.now) }
        ensures no_rows { height ≡ 0 → IsOk result }
        ensures refused { IfErr result (λ e. e ≡ OutOfMemory) }
    {
        let alloc = *self.values.allocator();
        let values = cloned_part(
            alloc,
            self.values.as_slice(),
            self.columns,
            from,
            (height, width),
        )?;
        Ok(Matrix {
            rows: height,
            columns: width,
            values,
        })
    }
}

impl<C: Copy, A: Allocator> Matrix<C, A> {
    /// Copies the values of `part` to the positions from `position` on, as far as they fit. From a
    /// position outside on nothing fits.
    pub fn set_slice(&mut self, position: (usize, usize), part: &Self)
        ensures { IsOverwritten position part.now self.old self.new }
    {
        if !self.within_bounds(position) {
            return;
        }
        let height = part.rows.min(self.rows - position.0);
        let width = part.columns.min(self.columns - position.1);
        let columns = self.columns;
        copy_part(
            self.values.as_mut_slice(),
            columns,
            position,
            part.values.as_slice(),
            part.columns,
            (height, width),
        );
    }
}
