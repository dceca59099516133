//! Why estimates were refused.

use thiserror::Error;

/// Why the estimates of the nodes of a table do not lead a search to a cheapest path. Nodes and places
/// are counted from 0.
#[derive(Clone, Copy, Debug, PartialEq, Eq, Error)]
pub enum EstimateError {
    /// The number of estimates is not that of the nodes.
    #[error("the number of estimates is not that of the nodes")]
    WrongNumberOfEstimates,
    /// The estimate of this node is less than 0.
    #[error("the estimate of node {node} is less than 0")]
    NegativeEstimate { node: usize },
    /// The estimate of this node, which is a goal, is above 0.
    #[error("the estimate of node {node}, a goal, is above 0")]
    EstimateAtGoal { node: usize },
    /// The estimate of this node is above what the edge at this place costs and the estimate of the
    /// node that it leads to.
    #[error("the estimate of node {node} is above the edge at place {place} and what remains behind it")]
    EstimateAboveEdge { node: usize, place: usize },
}
