//! Iteration by rows, from both ends.

ghost use Rattle.std.specs.Prelude.{◌≡◌};
ghost use Rattle.std.specs.Iterator.{YieldsFirstBy, YieldsLastBy, item_count};
ghost use Rattle.pf_matrix.specs.Tables.{IsMatrix};
ghost use Rattle.pf_matrix.specs.Lines.{rows_of};

use crate::matrix::Matrix;
use std::alloc::Allocator;
use std::marker::Model;

/// The rows of a matrix, each as a slice. A contract sees the list of the rows that are left.
#[derive(Drop)]
pub struct RowIterator<'a, C> {
    values: &'a [C],
    rows: usize,
    columns: usize,
}

impl<'a, C> Model for RowIterator<'a, C> {
    ghost use Rattle.std.specs.Prelude.{◌≡◌, ◌*◌, List, length};
    ghost use Rattle.pf_matrix.specs.Lines.{rows_by};

    ghost Value = { List (List C) };

    ghost view = { λ s. rows_by s.rows s.columns s.values.now };

    ghost invariant = { λ s. length s.values.now ≡ s.rows * s.columns };
}

impl<C, A: Allocator> Matrix<C, A> {
    /// The rows, from the first on, or from the last back.
    pub fn iter(&self) -> RowIterator<'_, C>
        ensures rows { result ≡ rows_of self.now }
        ensures matrix { IsMatrix self.now }
    {
        RowIterator {
            values: self.values.as_slice(),
            rows: self.rows,
            columns: self.columns,
        }
    }
}

impl<'a, C> Iterator for RowIterator<'a, C> {
    type Item = &'a [C];

    ghost next_gives = { YieldsFirstBy (λ row. row.now) (λ rows. rows) };

    ghost remaining = { item_count (λ rows. rows) };

    fn next(&mut self) -> Option<&'a [C]> {
        if self.rows == 0 {
            return None;
        }
        let (row, rest) = self.values.split_at(self.columns);
        self.values = rest;
        self.rows -= 1;
        Some(row)
    }
}

impl<'a, C> DoubleEndedIterator for RowIterator<'a, C> {
    ghost next_back_gives = { YieldsLastBy (λ row. row.now) (λ rows. rows) };

    fn next_back(&mut self) -> Option<&'a [C]> {
        if self.rows == 0 {
            return None;
        }
        let (rest, row) = self.values.split_at(self.values.len() - self.columns);
        self.values = rest;
        self.rows -= 1;
        Some(row)
    }
}

impl<'a, C, A: Allocator> IntoIterator for &'a Matrix<C, A> {
    type Item = &'a [C];

    type IntoIter = RowIterator<'a, C>;

    ghost into_iter_gives = { λ m rows. rows ≡ rows_of m.now };

    fn into_iter(self) -> RowIterator<'a, C> {
        self.iter()
    }
}
