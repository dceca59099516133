//! The sizes and the values of a matrix.

ghost use Rattle.std.specs.Prelude.{◌≡◌, ◌↔◌, ◌+◌, ◌*◌, ◌<◌, ◌^◌, length, IsTrue, IsSome, IfSome};
ghost use Rattle.std.specs.Slice.Iter.{iter_rest};
ghost use Rattle.std.specs.Iterator.Adapters.{IterYieldsInOrder, IterYieldsInReverse};
ghost use Rattle.pf_matrix.specs.Tables.{IsMatrix, HasPosition, value_at};

use crate::matrix::Matrix;
use std::alloc::Allocator;
use std::slice;

impl<C, A: Allocator> Matrix<C, A> {
    /// The number of rows.
    pub fn rows(&self) -> usize
        ensures rows { result ≡ self.now.rows }
        ensures matrix { IsMatrix self.now }
    {
        self.rows
    }

    /// The number of columns.
    pub fn columns(&self) -> usize
        ensures columns { result ≡ self.now.columns }
        ensures matrix { IsMatrix self.now }
    {
        self.columns
    }

    /// Whether there are no rows.
    pub fn is_empty(&self) -> bool
        ensures { IsTrue result ↔ (self.now.rows ≡ 0) }
    {
        self.rows == 0
    }

    /// Whether there are as many rows as columns.
    pub fn is_square(&self) -> bool
        ensures { IsTrue result ↔ (self.now.rows ≡ self.now.columns) }
    {
        self.rows == self.columns
    }

    /// Whether the matrix has this row and this column.
    pub fn within_bounds(&self, position: (usize, usize)) -> bool
        ensures { IsTrue result ↔ HasPosition self.now position.0 position.1 }
    {
        position.0 < self.rows && position.1 < self.columns
    }

    /// The place of a position inside among the values by rows.
    pub fn idx(&self, position: (usize, usize)) -> usize
        requires { HasPosition self.now position.0 position.1 }
        ensures place { result ≡ position.0 * self.now.columns + position.1 }
        ensures below { result < length self.now.values }
    {
        position.0 * self.columns + position.1
    }

    /// The same as `idx`. Nothing is tested, since the position is inside.
    pub fn idx_unchecked(&self, position: (usize, usize)) -> usize
        requires { HasPosition self.now position.0 position.1 }
        ensures place { result ≡ position.0 * self.now.columns + position.1 }
        ensures below { result < length self.now.values }
    {
        self.idx(position)
    }

    /// The value at a position, or `None` outside.
    pub fn get(&self, position: (usize, usize)) -> Option<&C>
        ensures inside { IsSome result ↔ HasPosition self.now position.0 position.1 }
        ensures value { IfSome result (λ x. x.now ≡ value_at self.now position.0 position.1 x.now) }
    {
        if self.within_bounds(position) {
            Some(&self.values[self.idx_unchecked(position)])
        } else {
            None
        }
    }

    /// The values by rows, the first row first.
    pub fn as_slice(&self) -> &[C]
        ensures values { result.now ≡ self.now.values }
        ensures matrix { IsMatrix self.now }
    {
        self.values.as_ref()
    }

    /// The values by rows, the first row first.
    pub fn values(&self) -> slice::Iter<'_, C>
        ensures rest { iter_rest result ≡ self.now.values }
        ensures len { length (iter_rest result) ≡ self.now.rows * self.now.columns }
        ensures bound { length (iter_rest result) < 2 ^ 64 }
        ensures runs { IterYieldsInOrder C }
        ensures runs_back { IterYieldsInReverse C }
    {
        self.values.as_slice().iter()
    }
}
