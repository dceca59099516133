//! Why a list of edges was refused.

ghost use Rattle.std.specs.Prelude.{◌≡◌};
ghost use Rattle.pf_edge_lists.specs.declared.error.EdgeListError.TheVariants.{OutOfMemory};

use std::alloc::{AllocError, AllocFailed};
use thiserror::Error;

/// Why a list of edges between names is no graph. Edges are counted from 0.
#[derive(Clone, Copy, Debug, PartialEq, Eq, Error)]
pub enum EdgeListError {
    /// A request for memory was refused.
    #[error("out of memory")]
    OutOfMemory,
    /// The edge of this number costs less than 0.
    #[error("edge {edge} costs less than 0")]
    NegativeCost { edge: usize },
}

impl From<AllocError> for EdgeListError {
    ghost from_gives = { λ _ e. e ≡ OutOfMemory };

    fn from(_e: AllocError) -> EdgeListError {
        EdgeListError::OutOfMemory
    }
}

impl<T: Drop> From<AllocFailed<T>> for EdgeListError {
    ghost from_gives = { λ _ e. e ≡ OutOfMemory };

    fn from(_e: AllocFailed<T>) -> EdgeListError {
        EdgeListError::OutOfMemory
    }
}
