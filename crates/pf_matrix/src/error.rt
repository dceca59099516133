//! Why a call of a matrix was refused.

ghost use Rattle.std.specs.Prelude.{◌≡◌};
ghost use Rattle.pf_matrix.specs.declared.error.MatrixFormatError.TheVariants.{OutOfMemory};

use std::alloc::{AllocError, AllocFailed};
use thiserror::Error;

/// Why a call of a matrix gave no answer.
#[derive(Clone, Copy, Debug, PartialEq, Eq, Error)]
pub enum MatrixFormatError {
    /// There are rows, and they have no columns.
    #[error("matrix rows cannot be empty")]
    EmptyRow,
    /// A range ends past the matrix, or before it begins.
    #[error("index does not point to data inside the matrix")]
    WrongIndex,
    /// A number of values does not match the sizes.
    #[error("provided data does not correspond to the expected length")]
    WrongLength,
    /// A request for memory was refused during the call.
    #[error("out of memory")]
    OutOfMemory,
}

impl From<AllocError> for MatrixFormatError {
    ghost from_gives = { λ _ e. e ≡ OutOfMemory };

    fn from(_e: AllocError) -> MatrixFormatError {
        MatrixFormatError::OutOfMemory
    }
}

impl<T: Drop> From<AllocFailed<T>> for MatrixFormatError {
    ghost from_gives = { λ _ e. e ≡ OutOfMemory };

    fn from(_e: AllocFailed<T>) -> MatrixFormatError {
        MatrixFormatError::OutOfMemory
    }
}
