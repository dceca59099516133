//! How matrices are made.

ghost use Rattle.std.specs.Prelude.{◌≡◌, ◌≢◌, ℕ, ◌*◌, ◌<◌, ◌^◌, ◌⊎◌, [], IsOk, IsErrOf, IfOk, IfErr, OnErr, vec_len, ◌↔◌};
ghost use Rattle.std.specs.List.{AllClonesOf};
ghost use Rattle.pf_matrix.specs.Calls.{CallableInTurn, GivesInTurn};
ghost use Rattle.pf_matrix.specs.Positions.{positions};
ghost use Rattle.pf_matrix.specs.Tables.{IsMatrix};
ghost use Rattle.pf_matrix.specs.declared.error.MatrixFormatError.TheVariants.{EmptyRow, WrongLength, OutOfMemory};

use crate::error::MatrixFormatError;
use crate::matrix::Matrix;
use crate::matrix::keys::Keys;
use pf_utils::uint_sqrt;
use std::alloc::Allocator;

impl<C, A: Allocator> Matrix<C, A> {
    /// The matrix of `columns` columns that has no rows. It takes no memory.
    pub fn new_empty(alloc: A, columns: usize) -> Self
        ensures made { result ≡ record { rows = 0; columns = columns; values = [] } }
        ensures matrix { IsMatrix result }
    {
        Matrix {
            rows: 0,
            columns,
            values: Vec::new(alloc),
        }
    }
}

impl<C: Drop, A: Allocator> Matrix<C, A> {
    /// The matrix of these values, given by rows. It takes no memory.
    ///
    /// `WrongLength` where `rows` times `columns` is not the number of values, also where the
    /// product does not fit `usize`; else `EmptyRow` where there are rows without columns.
    pub fn from_vec(
        rows: usize,
        columns: usize,
        values: Vec<C, A>,
    ) -> Result<Self, MatrixFormatError>
        ensures made { IfOk result (λ m. m ≡ record { rows = rows; columns = columns; values = values.items }) }
        ensures matrix { IfOk result IsMatrix }
        ensures wrong_length { IsErrOf result WrongLength ↔ (rows * columns ≢ vec_len values) }
        ensures empty_row { IsErrOf result EmptyRow ↔ ((rows * columns ≡ vec_len values) × (0 < rows) × (columns ≡ 0)) }
        ensures refused { IfErr result (λ e. (e ≡ WrongLength) ⊎ (e ≡ EmptyRow)) }
    {
        if rows.checked_mul(columns) != Some(values.len()) {
            return Err(MatrixFormatError::WrongLength);
        }
        if rows > 0 && columns == 0 {
            return Err(MatrixFormatError::EmptyRow);
        }
        Ok(Matrix {
            rows,
            columns,
            values,
        })
    }

    /// The square matrix of these values, given by rows. It takes no memory.
    ///
    /// `WrongLength` where the number of values is no square. No values give an empty matrix.
    pub fn square_from_vec(values: Vec<C, A>) -> Result<Self, MatrixFormatError>
        ensures square { IfOk result (λ m. m.rows ≡ m.columns) }
        ensures values { IfOk result (λ m. m.values ≡ values.items) }
        ensures matrix { IfOk result IsMatrix }
        ensures wrong_length { OnErr result ((size : ℕ) → size * size ≢ vec_len values) }
        ensures refused { IfErr result (λ e. e ≡ WrongLength) }
    {
        let Some(size) = uint_sqrt(values.len()) else {
            return Err(MatrixFormatError::WrongLength);
        };
        Ok(Matrix {
            rows: size,
            columns: size,
            values,
        })
    }
}

impl<C: Clone + Drop, A: Allocator> Matrix<C, A> {
    /// A matrix with `value`, or a clone of it, at each position. The only error is out of memory.
    pub fn new(alloc: A, rows: usize, columns: usize, value: C) -> Result<Self, MatrixFormatError>
        requires fits { rows * columns < 2 ^ 64 }
        requires filled { 0 < rows → 0 < columns }
        ensures rows { IfOk result (λ m. m.rows ≡ rows) }
        ensures columns { IfOk result (λ m. m.columns ≡ columns) }
        ensures values { IfOk result (λ m. AllClonesOf C.is_clone value m.values) }
        ensures matrix { IfOk result IsMatrix }
        ensures refused { IfErr result (λ e. e ≡ OutOfMemory) }
    {
        let values = Vec::from_elem(alloc, value, rows * columns)?;
        Ok(Matrix {
            rows,
            columns,
            values,
        })
    }

    /// A square matrix with `value`, or a clone of it, at each position. The only error is out of
    /// memory.
    pub fn new_square(alloc: A, size: usize, value: C) -> Result<Self, MatrixFormatError>
        requires { size * size < 2 ^ 64 }
        ensures rows { IfOk result (λ m. m.rows ≡ size) }
        ensures columns { IfOk result (λ m. m.columns ≡ size) }
        ensures values { IfOk result (λ m. AllClonesOf C.is_clone value m.values) }
        ensures matrix { IfOk result IsMatrix }
        ensures refused { IfErr result (λ e. e ≡ OutOfMemory) }
    {
        Self::new(alloc, size, size, value)
    }
}

impl<C: Drop, A: Allocator> Matrix<C, A> {
    /// The matrix of what `cb` answers at each position, called first row first, once a position. It
    /// has to be callable at each in turn. The only error is out of memory.
    pub fn from_fn<F: FnMut((usize, usize)) -> C>(
        alloc: A,
        rows: usize,
        columns: usize,
        mut cb: F,
    ) -> Result<Self, MatrixFormatError>
        requires fits { rows * columns < 2 ^ 64 }
        requires filled { 0 < rows → 0 < columns }
        requires callable { CallableInTurn F.pre F.step cb (positions rows columns) }
        ensures rows { IfOk result (λ m. m.rows ≡ rows) }
        ensures columns { IfOk result (λ m. m.columns ≡ columns) }
        ensures values { IfOk result (λ m. GivesInTurn F.step cb (positions rows columns) m.values) }
        ensures matrix { IfOk result IsMatrix }
        ensures refused { IfErr result (λ e. e ≡ OutOfMemory) }
    {
        let mut values = Vec::with_capacity(alloc, rows * columns)?;
        for position in Keys::of(rows, columns) {
            values.push(cb(position))?;
        }
        Ok(Matrix {
            rows,
            columns,
            values,
        })
    }
}

impl<C: Drop, A: Allocator + Copy> Matrix<C, A> {
    /// The matrix of what `f` answers at each value, called first row first, once a position. It has
    /// to be callable at each in turn. It takes its memory from the allocator of the matrix. The only
    /// error is out of memory, and the values are used up.
    pub fn map<O: Drop, F: FnMut(C) -> O>(self, mut f: F) -> Result<Matrix<O, A>, MatrixFormatError>
        requires { CallableInTurn F.pre F.step f self.values }
        ensures rows { IfOk result (λ m. m.rows ≡ self.rows) }
        ensures columns { IfOk result (λ m. m.columns ≡ self.columns) }
        ensures values { IfOk result (λ m. GivesInTurn F.step f self.values m.values) }
        ensures matrix { IfOk result IsMatrix }
        ensures refused { IfErr result (λ e. e ≡ OutOfMemory) }
    {
        let Self {
            rows,
            columns,
            values,
        } = self;
        let mut answers = Vec::with_capacity(*values.allocator(), values.len())?;
        for value in values {
            answers.push(f(value))?;
        }
        Ok(Matrix {
            rows,
            columns,
            values: answers,
        })
    }
}
