//! `matrix!`.

/// Makes a matrix of its rows: `matrix![in alloc; [1, 2], [3, 4]]?` or `matrix![in alloc; 1, 2; 3, 4]?`.
///
/// The rows of the first form are arrays of any length. It answers as
/// [`from_slices`](crate::matrix::from_slices) does. `matrix![in alloc]` is the empty matrix of 0
/// columns. It is the macro of `pf_matrix` over again, so that a crate that uses it has to list
/// `pathfinding` alone: a macro that is exported again is reached only where its own crate is listed.
#[macro_export]
macro_rules! matrix {
    (in $alloc:expr $(;)?) => {
        $crate::matrix::from_slices($alloc, &[])
    };
    (in $alloc:expr; $($row:expr),+ $(,)?) => {
        $crate::matrix::from_slices($alloc, &[$(&$row[..]),+])
    };
    (in $alloc:expr; $($($value:expr),+ $(,)?);+ $(;)?) => {
        $crate::matrix::from_slices($alloc, &[$(&[$($value),+][..]),+])
    };
}
