//! Why a call was refused.

ghost use Rattle.std.specs.Prelude.{◌≡◌};
ghost use Rattle.pf_base.specs.declared.error.PathError.TheVariants.{OutOfMemory};

use std::alloc::{AllocError, AllocFailed};
use thiserror::Error;

/// Why a call gave no answer.
#[derive(Clone, Copy, Debug, PartialEq, Eq, Error)]
pub enum PathError {
    /// A request for memory was refused during the call.
    #[error("out of memory")]
    OutOfMemory,
    /// A sum of costs does not fit its type. Each call says when this can come.
    #[error("cost overflow")]
    CostOverflow,
    /// A vertex is not in the given set or range.
    #[error("unknown vertex")]
    UnknownVertex,
    /// A count of steps does not fit `usize`.
    #[error("step count overflow")]
    StepOverflow,
    /// A capacity is below zero.
    #[error("negative capacity")]
    NegativeCapacity,
}

impl From<AllocError> for PathError {
    ghost from_gives = { λ _ e. e ≡ OutOfMemory };

    fn from(_e: AllocError) -> PathError {
        PathError::OutOfMemory
    }
}

impl<T: Drop> From<AllocFailed<T>> for PathError {
    ghost from_gives = { λ _ e. e ≡ OutOfMemory };

    fn from(_e: AllocFailed<T>) -> PathError {
        PathError::OutOfMemory
    }
}
