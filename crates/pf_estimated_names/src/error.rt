//! Why estimates by name were refused.

use std::fmt::Display;
use thiserror::Error;

/// Why the numbers that were given for names do not lead a search to a cheapest path.
#[derive(Debug, Drop, Error)]
#[error_bound(N: Display)]
pub enum NameEstimateError<'p, N> {
    /// A request for memory was refused.
    #[error("out of memory")]
    OutOfMemory,
    /// The estimate of this name is less than 0.
    #[error("the estimate of {name} is less than 0")]
    NegativeEstimate { name: &'p N },
    /// The estimate of this name, which is the goal, is above 0.
    #[error("the estimate of {name}, the goal, is above 0")]
    EstimateAtGoal { name: &'p N },
    /// The estimate of the one name is above what an edge to the other costs and the estimate of that.
    #[error("the estimate of {from} is above the edge to {to} and what remains behind it")]
    EstimateAboveEdge { from: &'p N, to: &'p N },
}
