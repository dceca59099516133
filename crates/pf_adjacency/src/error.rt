//! Why a list of edges between numbers was refused.

ghost use Rattle.std.specs.Prelude.{◌≡◌};
ghost use Rattle.pf_adjacency.specs.declared.error.AdjacencyError.TheVariants.{OutOfMemory};

use std::alloc::{AllocError, AllocFailed};
use thiserror::Error;

/// Why a list of edges between numbers is no graph. Edges are counted from 0.
#[derive(Clone, Copy, Debug, PartialEq, Eq, Error)]
pub enum AdjacencyError {
    /// A request for memory was refused, or there are more nodes than a table can have places.
    #[error("out of memory")]
    OutOfMemory,
    /// The edge of this number comes from no node.
    #[error("edge {edge} comes from no node")]
    SourceOutside { edge: usize },
    /// The edge of this number leads to no node.
    #[error("edge {edge} leads to no node")]
    TargetOutside { edge: usize },
    /// The edge of this number costs less than 0.
    #[error("edge {edge} costs less than 0")]
    NegativeCost { edge: usize },
}

impl From<AllocError> for AdjacencyError {
    ghost from_gives = { λ _ e. e ≡ OutOfMemory };

    fn from(_e: AllocError) -> AdjacencyError {
        AdjacencyError::OutOfMemory
    }
}
