//! `matrix!`.

ghost use Rattle.std.specs.Prelude.{◌≡◌, ◌⊎◌, length, Some, None, IfOk, IfErr, OnOk};
ghost use Rattle.std.specs.List.{AllZip};
ghost use Rattle.pf_matrix.specs.Rows.{first_length, first_refusal, joined};
ghost use Rattle.pf_matrix.specs.Tables.{IsMatrix};
ghost use Rattle.pf_matrix.specs.declared.error.MatrixFormatError.TheVariants.{OutOfMemory};

use crate::error::MatrixFormatError;
use crate::matrix::Matrix;
use std::alloc::Allocator;

/// Makes a matrix of its rows: `matrix![in alloc; [1, 2], [3, 4]]?` or `matrix![in alloc; 1, 2; 3, 4]?`.
///
/// The rows of the first form are arrays of any length. It answers as [`from_slices`] does.
/// `matrix![in alloc]` is the empty matrix of 0 columns.
#[macro_export]
macro_rules! matrix {
    (in $alloc:expr $(;)?) => {
        $crate::from_slices($alloc, &[])
    };
    (in $alloc:expr; $($row:expr),+ $(,)?) => {
        $crate::from_slices($alloc, &[$(&$row[..]),+])
    };
    (in $alloc:expr; $($($value:expr),+ $(,)?);+ $(;)?) => {
        $crate::from_slices($alloc, &[$(&[$($value),+][..]),+])
    };
}

/// The matrix of clones of these rows, of which each next one is put in by `extend`: what `matrix!`
/// calls.
///
/// It begins with no rows and the length of the first row as columns, and answers the first refusal:
/// `EmptyRow` for a row without values, else `WrongLength` for one of another length.
pub fn from_slices<C: Clone + Drop, A: Allocator + Copy>(
    alloc: A,
    rows: &[&[C]],
) -> Result<Matrix<C, A>, MatrixFormatError>
    ensures rows { IfOk result (λ m. m.rows ≡ length rows.now) }
    ensures columns { IfOk result (λ m. m.columns ≡ first_length rows.now) }
    ensures values { IfOk result (λ m. AllZip C.is_clone (joined rows.now) m.values) }
    ensures matrix { IfOk result IsMatrix }
    ensures all_fit { OnOk result (first_refusal (first_length rows.now) rows.now ≡ None) }
    ensures refused { IfErr result (λ e. (e ≡ OutOfMemory) ⊎ (first_refusal (first_length rows.now) rows.now ≡ Some e)) }
{
    let columns = match rows.first() {
        Some(row) => row.len(),
        None => 0,
    };
    let mut matrix = Matrix::new_empty(alloc, columns);
    for row in rows {
        matrix.extend(row)?;
    }
    Ok(matrix)
}
