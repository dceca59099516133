//! A matrix whose values are written, or lent for writing.

ghost use Rattle.std.specs.Prelude.{◌≡◌, ◌≢◌, ◌↔◌, ◌⊎◌, ◌*◌, ◌<◌, ◌^◌, [], length, IsSome, IfSome, OnOk, OnErr, IfErr, IsErrOf};
ghost use Rattle.std.specs.Borrow.{sem};
ghost use Rattle.std.specs.Slice.Iter.{iter_mut_rest};
ghost use Rattle.pf_matrix.specs.Arrange.{IsExchanged, IsExtended, IsFilled};
ghost use Rattle.pf_matrix.specs.Tables.{IsMatrix, HasPosition, value_at};
ghost use Rattle.pf_matrix.specs.Lends.{lends_values, lends_iter, lends_get};
ghost use Rattle.pf_matrix.specs.declared.error.MatrixFormatError.TheVariants.{EmptyRow, WrongLength, OutOfMemory};

use crate::error::MatrixFormatError;
use crate::matrix::Matrix;
use std::alloc::Allocator;
use std::slice;

impl<C, A: Allocator> Matrix<C, A> {
    /// The value at a position for writing, or `None` outside.
    pub fn get_mut(&mut self, position: (usize, usize)) -> Option<&mut C>
        ensures* writes_back { sem 𝓛 (lends_get C.row A.row A.Allocator self.entry position result) }
        ensures inside { IsSome result ↔ HasPosition self.old position.0 position.1 }
        ensures value { IfSome result (λ x. x.now ≡ value_at self.old position.0 position.1 x.now) }
    {
        if self.within_bounds(position) {
            let place = position.0 * self.columns + position.1;
            self.values.get_mut(place)
        } else {
            None
        }
    }

    /// The values by rows for writing, the first row first.
    pub fn as_mut_slice(&mut self) -> &mut [C]
        ensures* writes_back { sem 𝓛 (lends_values C.row A.row A.Allocator self.entry result) }
        ensures values { result.now ≡ self.old.values }
        ensures matrix { IsMatrix self.old }
    {
        self.values.as_mut()
    }

    /// The values by rows for writing, the first row first.
    pub fn values_mut(&mut self) -> slice::IterMut<'_, C>
        ensures* writes_back { sem 𝓛 (lends_iter C.row A.row A.Allocator self.entry result) }
        ensures rest { iter_mut_rest result ≡ self.old.values }
        ensures len { length (iter_mut_rest result) ≡ self.old.rows * self.old.columns }
        ensures bound { length (iter_mut_rest result) < 2 ^ 64 }
    {
        self.values.as_mut_slice().iter_mut()
    }

    /// Exchanges the values at two positions inside.
    pub fn swap(&mut self, a: (usize, usize), b: (usize, usize))
        requires a_inside { HasPosition self.old a.0 a.1 }
        requires b_inside { HasPosition self.old b.0 b.1 }
        ensures { IsExchanged a b self.old self.new }
    {
        let first = self.idx(a);
        let second = self.idx(b);
        self.values.as_mut_slice().swap(first, second);
    }
}

impl<C: Clone + Drop, A: Allocator + Copy> Matrix<C, A> {
    /// Writes `value`, or a clone of it, to each position. The only error is out of memory, and then
    /// the matrix stays as it was.
    pub fn fill(&mut self, value: C) -> Result<(), MatrixFormatError>
        ensures filled { OnOk result (IsFilled C.is_clone value self.old self.new) }
        ensures stays { OnErr result (self.new ≡ self.old) }
        ensures refused { IfErr result (λ e. e ≡ OutOfMemory) }
    {
        let alloc = *self.values.allocator();
        self.values = Vec::from_elem(alloc, value, self.values.len())?;
        Ok(())
    }

    /// Adds a row of clones of these values at the end.
    ///
    /// `EmptyRow` for no values; else `WrongLength` where there are not as many as columns. A refused
    /// call leaves the matrix as it was.
    pub fn extend(&mut self, row: &[C]) -> Result<(), MatrixFormatError>
        ensures extended { OnOk result (IsExtended C.is_clone row.now self.old self.new) }
        ensures stays { OnErr result (self.new ≡ self.old) }
        ensures empty_row { IsErrOf result EmptyRow ↔ (row.now ≡ []) }
        ensures wrong_length { IsErrOf result WrongLength ↔ ((row.now ≢ []) × (length row.now ≢ self.old.columns)) }
        ensures refused { IfErr result (λ e. (e ≡ EmptyRow) ⊎ (e ≡ WrongLength) ⊎ (e ≡ OutOfMemory)) }
    {
        if row.is_empty() {
            return Err(MatrixFormatError::EmptyRow);
        }
        if row.len() != self.columns {
            return Err(MatrixFormatError::WrongLength);
        }
        self.values.extend_with_clones(row)?;
        self.rows += 1;
        Ok(())
    }
}
