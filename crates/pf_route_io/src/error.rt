//! Why a run gave no answer.

ghost use Rattle.std.specs.Prelude.{◌≡◌};
ghost use Rattle.pf_route_io.specs.declared.error.RouteError.TheVariants.{OutOfMemory};

use std::alloc::{AllocError, AllocFailed};
use thiserror::Error;

/// Why a run gave no answer. The text of each is what the program `routes` prints.
#[derive(Clone, Copy, Debug, PartialEq, Eq, Error)]
pub enum RouteError {
    /// The line of this number, counted from 1, is neither an edge nor blank.
    #[error("line {0}: bad edge")]
    BadEdge(u64),
    /// A sum of costs does not fit `u64`.
    #[error("cost overflow")]
    CostOverflow,
    /// A request for memory was refused.
    #[error("out of memory")]
    OutOfMemory,
    /// A read answered an error.
    #[error("read failed")]
    ReadFailed,
    /// A write answered an error, or took none of some bytes.
    #[error("write failed")]
    WriteFailed,
}

impl From<AllocError> for RouteError {
    ghost from_gives = { λ _ e. e ≡ OutOfMemory };

    fn from(_e: AllocError) -> RouteError {
        RouteError::OutOfMemory
    }
}

impl<T: Drop> From<AllocFailed<T>> for RouteError {
    ghost from_gives = { λ _ e. e ≡ OutOfMemory };

    fn from(_e: AllocFailed<T>) -> RouteError {
        RouteError::OutOfMemory
    }
}
