//! Graphs with goals and an estimate of the cost that remains.

ghost use Rattle.std.specs.Prelude.{◌≡◌, ℕ, ℤ};
ghost use Rattle.pf_estimated_graphs.specs.EstimatedGraphs.{IsConsistent};

use pf_base::Cost;
use pf_tables::{Goals, Graph};

/// A graph in a table, its goals, and an estimate of the cost that remains from each node to a goal,
/// which is never above what remains.
pub trait EstimatedGraph<C: Cost>: Graph<C> + Goals {
    // The estimate of each number.
    ghost estimates: { Self → ℕ → ℤ };

    /// At most what remains from the node to a goal.
    fn estimate(&self, node: usize) -> C
        ensures { C.value result ≡ estimates self.now node };

    /// Says that the estimates are consistent. The body is empty.
    fn consistent(&self)
        ensures { IsConsistent C.value (Self.size self.now) (Self.places self.now) (Self.passes self.now) (estimates self.now) };
}
