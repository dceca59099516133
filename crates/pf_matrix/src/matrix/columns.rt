//! Iteration by columns, from both ends.

ghost use Rattle.std.specs.Prelude.{◌≡◌, ◌<◌, map, IfOk, IfErr};
ghost use Rattle.std.specs.Iterator.{item_count};
ghost use Rattle.pf_matrix.specs.Tables.{IsMatrix};
ghost use Rattle.pf_matrix.specs.Lines.{column_of, columns_of, YieldsFirstColumn, YieldsLastColumn};
ghost use Rattle.pf_matrix.specs.declared.error.MatrixFormatError.TheVariants.{OutOfMemory};

use crate::error::MatrixFormatError;
use crate::matrix::Matrix;
use std::alloc::{Allocator, Global};
use std::marker::Model;

/// The columns of a matrix, each as references to its values from the first row on. A contract sees
/// the list of the columns that are left.
///
/// Each item takes memory. A refused one is answered `OutOfMemory` in the place of its column, and
/// the next call goes on with the next column.
#[derive(Drop)]
pub struct ColumnIterator<'a, C, A: Allocator = Global> {
    matrix: &'a Matrix<C, A>,
    first: usize,
    end: usize,
}

impl<'a, C, A: Allocator> Model for ColumnIterator<'a, C, A> {
    ghost use Rattle.std.specs.Prelude.{◌-◌, ◌≤◌, List};
    ghost use Rattle.pf_matrix.specs.Lines.{columns_from};

    ghost Value = { List (List C) };

    ghost view = { λ s. columns_from s.matrix.now s.first (s.end - s.first) };

    ghost invariant = { λ s. (s.first ≤ s.end) × (s.end ≤ s.matrix.now.columns) };
}

impl<C, A: Allocator + Copy> Matrix<C, A> {
    /// The columns, from the first on, or from the last back.
    pub fn column_iter(&self) -> ColumnIterator<'_, C, A>
        ensures columns { result ≡ columns_of self.now }
        ensures matrix { IsMatrix self.now }
    {
        ColumnIterator {
            matrix: self,
            first: 0,
            end: self.columns,
        }
    }

    fn column(&self, column: usize) -> Result<Vec<&C, A>, MatrixFormatError>
        requires { column < self.now.columns }
        ensures values { IfOk result (λ refs. map (λ x. x.now) refs.items ≡ column_of self.now column) }
        ensures refused { IfErr result (λ e. e ≡ OutOfMemory) }
    {
        let values = self.values.as_slice();
        let mut refs = Vec::with_capacity(*self.values.allocator(), self.rows)?;
        for row in 0..self.rows {
            refs.push(&values[row * self.columns + column])?;
        }
        Ok(refs)
    }
}

impl<'a, C, A: Allocator + Copy> Iterator for ColumnIterator<'a, C, A> {
    type Item = Result<Vec<&'a C, A>, MatrixFormatError>;

    ghost next_gives = { YieldsFirstColumn (λ refs. refs.items) OutOfMemory };

    ghost remaining = { item_count (λ columns. columns) };

    fn next(&mut self) -> Option<Result<Vec<&'a C, A>, MatrixFormatError>> {
        if self.first == self.end {
            return None;
        }
        let column = self.first;
        self.first += 1;
        Some(self.matrix.column(column))
    }
}

impl<'a, C, A: Allocator + Copy> DoubleEndedIterator for ColumnIterator<'a, C, A> {
    ghost next_back_gives = { YieldsLastColumn (λ refs. refs.items) OutOfMemory };

    fn next_back(&mut self) -> Option<Result<Vec<&'a C, A>, MatrixFormatError>> {
        if self.first == self.end {
            return None;
        }
        self.end -= 1;
        Some(self.matrix.column(self.end))
    }
}
