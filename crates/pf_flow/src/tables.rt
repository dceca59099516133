//! Tables of capacities that a store takes.

ghost use Rattle.std.specs.Prelude.{◌≡◌, List, IfOk, IfErr};
ghost use Rattle.pf_base.specs.declared.error.PathError.TheVariants.{OutOfMemory};
ghost use Rattle.pf_matrix.specs.Tables.{Table};

use pf_base::PathError;
use pf_matrix::Matrix;
use std::alloc::{AllocError, Allocator};

/// A matrix that a store takes: one with the allocator of the store's tables, whose values stay in
/// place, or one that is lent, which is copied.
pub trait IntoMatrix<C, A: Allocator>: Sized {
    // The sizes, and the values by rows.
    ghost table: { Self → Table C };

    /// The matrix.
    ///
    /// # Errors
    ///
    /// The only error is `OutOfMemory`.
    fn into_matrix(self, alloc: A) -> Result<Matrix<C, A>, PathError>
        ensures matrix { IfOk result (λ matrix. matrix ≡ table self) }
        ensures refused { IfErr result (λ e. e ≡ OutOfMemory) };
}

impl<C, A: Allocator + Copy> IntoMatrix<C, A> for Matrix<C, A> {
    ghost table = { λ matrix. matrix };

    fn into_matrix(self, _alloc: A) -> Result<Matrix<C, A>, PathError> {
        Ok(self)
    }
}

impl<'m, C: Copy + Drop, A: Allocator, B: Allocator> IntoMatrix<C, A> for &'m Matrix<C, B> {
    ghost table = { λ matrix. matrix.now };

    fn into_matrix(self, alloc: A) -> Result<Matrix<C, A>, PathError> {
        Ok(copy_of(alloc, self)?)
    }
}

/// Values that a store takes: a vector with the allocator of the store's tables, which stays in place,
/// or values that are lent, which are copied.
pub trait IntoVec<C, A: Allocator>: Sized {
    // The values.
    ghost values: { Self → List C };

    /// The vector.
    ///
    /// # Errors
    ///
    /// The only error is `OutOfMemory`.
    fn into_vec(self, alloc: A) -> Result<Vec<C, A>, PathError>
        ensures values { IfOk result (λ list. list.items ≡ values self) }
        ensures refused { IfErr result (λ e. e ≡ OutOfMemory) };
}

impl<C, A: Allocator + Copy> IntoVec<C, A> for Vec<C, A> {
    ghost values = { λ list. list.items };

    fn into_vec(self, _alloc: A) -> Result<Vec<C, A>, PathError> {
        Ok(self)
    }
}

impl<'v, C: Copy, A: Allocator> IntoVec<C, A> for &'v [C] {
    ghost values = { λ list. list.now };

    fn into_vec(self, alloc: A) -> Result<Vec<C, A>, PathError> {
        Ok(Vec::from_slice(alloc, self)?)
    }
}

/// A table of the same numbers. They are copied, and no `clone` of theirs is called.
pub fn copy_of<C: Copy, A: Allocator, B: Allocator>(
    alloc: A,
    table: &Matrix<C, B>,
) -> Result<Matrix<C, A>, AllocError>
    ensures { IfOk result (λ copy. copy ≡ table.now) }
{
    let values = Vec::from_slice(alloc, table.as_slice())?;
    let Ok(copy) = Matrix::from_vec(table.rows(), table.columns(), values) else {
        unreachable!()
    };
    Ok(copy)
}
