//! Why a call of a grid was refused.

ghost use Rattle.std.specs.Prelude.{◌≡◌};
ghost use Rattle.pf_grid.specs.declared.error.GridError.TheVariants.{OutOfMemory};

use std::alloc::{AllocError, AllocFailed};
use thiserror::Error;

/// Why a call of a grid gave no answer.
#[derive(Clone, Copy, Debug, PartialEq, Eq, Error)]
pub enum GridError {
    /// A request for memory was refused during the call.
    #[error("out of memory")]
    OutOfMemory,
    /// A coordinate plus 1, or the width times the height, does not fit `usize`.
    #[error("grid is too large")]
    TooLarge,
}

impl From<AllocError> for GridError {
    ghost from_gives = { λ _ e. e ≡ OutOfMemory };

    fn from(_e: AllocError) -> GridError {
        GridError::OutOfMemory
    }
}

impl<T: Drop> From<AllocFailed<T>> for GridError {
    ghost from_gives = { λ _ e. e ≡ OutOfMemory };

    fn from(_e: AllocFailed<T>) -> GridError {
        GridError::OutOfMemory
    }
}
