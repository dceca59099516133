//! Edges between numbers.

ghost use Rattle.std.specs.Prelude.{◌≡◌, ℕ};

use pf_base::Cost;
use pf_tables::Costless;

/// An edge between nodes that are numbers: the node that it comes from, the one that it leads to, and
/// what it costs.
///
/// A triple (from, to, cost) is one, and so is a pair (from, to), which is [`Costless`].
pub trait NumberedEdge<C: Cost> {
    // The source, the target and the cost.
    ghost ends: { Self → ℕ × ℕ × C };

    /// The source, the target and the cost.
    fn ends(&self) -> (usize, usize, C)
        ensures { result ≡ ends self.now };
}

impl<C: Cost> NumberedEdge<C> for (usize, usize, C) {
    ghost ends = { λ edge. edge };

    fn ends(&self) -> (usize, usize, C) {
        *self
    }
}

impl NumberedEdge<Costless> for (usize, usize) {
    ghost ends = { λ edge. (edge.0, edge.1, record {}) };

    fn ends(&self) -> (usize, usize, Costless) {
        (self.0, self.1, Costless)
    }
}
