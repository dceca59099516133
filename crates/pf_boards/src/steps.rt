//! The steps over a board.

/// The steps that lead from a cell of a board.
#[derive(Clone, Copy, Debug, PartialEq, Eq)]
pub enum Steps {
    /// Up, right, down and left, in this order.
    Four,
    /// These four, and then up right, down right, down left and up left.
    Eight,
}
