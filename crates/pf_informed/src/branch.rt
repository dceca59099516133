//! Ways on that a walk back from goals has still to try.

/// A way on from the way so far.
#[derive(Copy, Clone)]
pub struct Branch {
    /// The number that it leads to.
    pub number: usize,
    /// How many numbers of the way it comes behind.
    pub depth: usize,
}
