//! Why a table was refused.

use thiserror::Error;

/// Why a table is no graph. Nodes, places, offsets and cells are counted from 0.
#[derive(Clone, Copy, Debug, PartialEq, Eq, Error)]
pub enum TableError {
    /// The edge at this place of this node leads to no node.
    #[error("the edge at place {place} of node {node} leads to no node")]
    TargetOutside { node: usize, place: usize },
    /// The edge at this place of this node costs less than 0.
    #[error("the edge at place {place} of node {node} costs less than 0")]
    NegativeCost { node: usize, place: usize },
    /// There are no offsets, or the first one is not 0.
    #[error("the offsets do not begin with 0")]
    NoFirstOffset,
    /// The offset after this node is below the offset of this node.
    #[error("the offset after node {node} is below the one before it")]
    FallingOffset { node: usize },
    /// The last offset is not the number of edges.
    #[error("the last offset is not the number of edges")]
    WrongLastOffset,
    /// The number of cells is not the number of rows times the number of columns.
    #[error("the number of cells is not that of the rows times that of the columns")]
    WrongNumberOfCells,
    /// To enter the cell of this number costs less than 0.
    #[error("to enter cell {cell} costs less than 0")]
    NegativeCell { cell: usize },
}
