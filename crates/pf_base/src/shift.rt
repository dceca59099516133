//! Steps to a neighbour, axis by axis.

/// Where a neighbour stands along one axis.
#[derive(Clone, Copy, PartialEq, Eq)]
pub enum Shift {
    Before,
    Same,
    After,
}
