//! A matrix with left and right, or up and down, exchanged: in place, or as a copy.
//!
//! A copy has clones of the values, and takes its memory from the allocator of the matrix. Its only
//! error is out of memory. The matrix stays as it was.

ghost use Rattle.std.specs.Prelude.{◌≡◌, IfOk, IfErr};
ghost use Rattle.pf_matrix.specs.Arrange.{IsFlippedLr, IsFlippedUd, itself};
ghost use Rattle.pf_matrix.specs.declared.error.MatrixFormatError.TheVariants.{OutOfMemory};

use crate::error::MatrixFormatError;
use crate::matrix::Matrix;
use pf_row_major::{cloned_upwards, exchange_rows, reverse_rows};
use std::alloc::Allocator;

impl<C, A: Allocator> Matrix<C, A> {
    /// Exchanges left and right.
    pub fn flip_lr(&mut self)
        ensures { IsFlippedLr itself self.old self.new }
    {
        reverse_rows(self.values.as_mut_slice(), self.rows, self.columns);
    }

    /// Exchanges up and down.
    pub fn flip_ud(&mut self)
        ensures { IsFlippedUd itself self.old self.new }
    {
        exchange_rows(self.values.as_mut_slice(), self.rows, self.columns);
    }
}

impl<C: Clone + Drop, A: Allocator + Copy> Matrix<C, A> {
    /// A copy with left and right exchanged.
    pub fn flipped_lr(&self) -> Result<Self, MatrixFormatError>
        ensures flipped { IfOk result (IsFlippedLr C.is_clone self.now) }
        ensures refused { IfErr result (λ e. e ≡ OutOfMemory) }
    {
        let mut flipped = self.clone()?;
        flipped.flip_lr();
        Ok(flipped)
    }

    /// A copy with up and down exchanged.
    pub fn flipped_ud(&self) -> Result<Self, MatrixFormatError>
        ensures flipped { IfOk result (IsFlippedUd C.is_clone self.now) }
        ensures refused { IfErr result (λ e. e ≡ OutOfMemory) }
    {
        let alloc = *self.values.allocator();
        let values = cloned_upwards(alloc, self.values.as_slice(), self.rows, self.columns)?;
        Ok(Matrix {
            rows: self.rows,
            columns: self.columns,
            values,
        })
    }
}
