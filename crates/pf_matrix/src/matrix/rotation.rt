//! A matrix that is turned by quarter turns: a square in place, or any matrix as a copy.
//!
//! A copy has clones of the values, and takes its memory from the allocator of the matrix. Its only
//! error is out of memory. The matrix stays as it was.

ghost use Rattle.std.specs.Prelude.{◌≡◌, ◌%◌, IfOk, IfErr};
ghost use Rattle.pf_matrix.specs.Arrange.{CanTurn, IsRotatedCcw, IsRotatedCw, IsTurnedTwice, itself};
ghost use Rattle.pf_matrix.specs.Internal.Turning.{IsFlippedFor};
ghost use Rattle.pf_matrix.specs.declared.error.MatrixFormatError.TheVariants.{OutOfMemory};

use crate::error::MatrixFormatError;
use crate::matrix::Matrix;
use std::alloc::Allocator;

impl<C, A: Allocator> Matrix<C, A> {
    /// Turns a square to the right, by this many quarter turns.
    pub fn rotate_cw(&mut self, times: usize)
        requires { self.old.rows ≡ self.old.columns }
        ensures { IsRotatedCw itself self.old self.new times }
    {
        // Tells the proof that the matrix is one, also where nothing is exchanged.
        let _ = &self.values;
        if times % 2 == 1 {
            self.transpose_in_place();
        }
        self.flip_for(times);
    }

    /// Turns a square to the left, by this many quarter turns.
    pub fn rotate_ccw(&mut self, times: usize)
        requires { self.old.rows ≡ self.old.columns }
        ensures { IsRotatedCcw itself self.old self.new times }
    {
        self.rotate_cw(3 * (times % 4));
    }

    fn turn_twice(&mut self)
        ensures { IsTurnedTwice itself self.old self.new }
    {
        self.values.as_mut_slice().reverse();
    }

    /// Completes that many quarter turns to the right. Where their number is odd, rows and columns
    /// are exchanged already.
    fn flip_for(&mut self, times: usize)
        ensures { IsFlippedFor self.old self.new (times % 4) }
    {
        // Tells the proof that the matrix is one, also where nothing is done.
        let _ = &self.values;
        match times % 4 {
            0 => {}
            1 => self.flip_lr(),
            2 => self.turn_twice(),
            _ => self.flip_ud(),
        }
    }
}

impl<C: Clone + Drop, A: Allocator + Copy> Matrix<C, A> {
    /// A copy that is turned to the right, by this many quarter turns. For an odd number a matrix
    /// with columns has to have rows.
    pub fn rotated_cw(&self, times: usize) -> Result<Self, MatrixFormatError>
        requires { times % 2 ≡ 1 → CanTurn self.now }
        ensures rotated { IfOk result (λ m. IsRotatedCw C.is_clone self.now m times) }
        ensures refused { IfErr result (λ e. e ≡ OutOfMemory) }
    {
        if times % 4 == 1 && self.is_square() {
            return self.square_by_columns(true);
        }
        let mut turned = if times % 2 == 0 {
            self.clone()?
        } else {
            self.transposed()?
        };
        turned.flip_for(times);
        Ok(turned)
    }

    /// A copy that is turned to the left, by this many quarter turns. For an odd number a matrix
    /// with columns has to have rows.
    pub fn rotated_ccw(&self, times: usize) -> Result<Self, MatrixFormatError>
        requires { times % 2 ≡ 1 → CanTurn self.now }
        ensures rotated { IfOk result (λ m. IsRotatedCcw C.is_clone self.now m times) }
        ensures refused { IfErr result (λ e. e ≡ OutOfMemory) }
    {
        self.rotated_cw(3 * (times % 4))
    }
}
