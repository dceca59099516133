//! A matrix of the rows that an iterator gives.

ghost use Rattle.std.specs.Prelude.{◌≡◌, ◌++◌, ◌<◌, ◌⊎◌, List, length, IfOk, IfErr, IsErrOf};
ghost use Rattle.std.specs.Iterator.{IsFiniteIterable};
ghost use Rattle.pf_matrix.specs.Rows.{AllOfLength, Given, IsOfRows, LastDiffers, RowsEnd};
ghost use Rattle.pf_matrix.specs.Tables.{IsMatrix};
ghost use Rattle.pf_matrix.specs.declared.error.MatrixFormatError.TheVariants.{EmptyRow, WrongLength, OutOfMemory};

use crate::error::MatrixFormatError;
use crate::giving::Giving;
use crate::matrix::Matrix;
use std::alloc::Allocator;

impl<C: Drop, A: Allocator + Copy> Matrix<C, A> {
    /// The matrix of these rows. No rows give the empty matrix of 0 columns.
    ///
    /// `WrongLength` where the length of some row differs from that of the first row; else `EmptyRow`
    /// where there are rows and they are empty.
    pub fn from_rows<IR, IC>(alloc: A, rows: IR) -> Result<Self, MatrixFormatError>
    where
        IR: IntoIterator<Item = IC>,
        IC: IntoIterator<Item = C>,
        requires ends { IsFiniteIterable IR.into_iter_gives IR.IntoIter.can_next IR.IntoIter.remaining rows }
        requires rows_end { RowsEnd ⟦<IR as Giving<IC>>⟧.gives_first IC.into_iter_gives IC.IntoIter.can_next IC.IntoIter.remaining rows }
        ensures made { IfOk result (λ m. Given ⟦<IR as Giving<IC>>⟧.gives_all ⟦<IC as Giving<C>>⟧.gives_all (IsOfRows m) rows) }
        ensures matrix { IfOk result IsMatrix }
        ensures wrong_length { IsErrOf result WrongLength → Given ⟦<IR as Giving<IC>>⟧.gives_first ⟦<IC as Giving<C>>⟧.gives_all LastDiffers rows }
        ensures empty_row { IsErrOf result EmptyRow → Given ⟦<IR as Giving<IC>>⟧.gives_all ⟦<IC as Giving<C>>⟧.gives_all (λ lists. (0 < length lists) × AllOfLength 0 lists) rows }
        ensures refused { IfErr result (λ e. (e ≡ WrongLength) ⊎ (e ≡ EmptyRow) ⊎ (e ≡ OutOfMemory)) }
    {
        let mut values = Vec::new(alloc);
        let mut width = None;
        for row in rows {
            let length = push_all(&mut values, row)?;
            if width.unwrap_or(length) != length {
                return Err(MatrixFormatError::WrongLength);
            }
            width = Some(length);
        }
        let Some(columns) = width else {
            return Ok(Matrix::new_empty(alloc, 0));
        };
        if columns == 0 {
            return Err(MatrixFormatError::EmptyRow);
        }
        Ok(Matrix {
            rows: values.len() / columns,
            columns,
            values,
        })
    }
}

/// Puts the values of a row at the end, and answers how many they are.
fn push_all<C: Drop, A: Allocator, IC: IntoIterator<Item = C>>(
    values: &mut Vec<C, A>,
    row: IC,
) -> Result<usize, MatrixFormatError>
    requires { IsFiniteIterable IC.into_iter_gives IC.IntoIter.can_next IC.IntoIter.remaining row }
    ensures given { IfOk result (λ n. (xs : List C) × ⟦<IC as Giving<C>>⟧.gives_all row xs × (values.new.items ≡ values.old.items ++ xs) × (n ≡ length xs)) }
    ensures refused { IfErr result (λ e. e ≡ OutOfMemory) }
{
    let before = values.len();
    for value in row {
        values.push(value)?;
    }
    Ok(values.len() - before)
}
