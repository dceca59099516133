//! Graphs over numbers, which are read place by place.

ghost use Rattle.std.specs.Prelude.{◌≡◌, ◌<◌, ℕ, List, Option, Some, length, slice_get};
ghost use Rattle.pf_tables.specs.Graphs.{IsGraph};

use pf_base::Cost;

/// A graph whose nodes are the numbers below `len()`.
///
/// What leads from a node stands at its places, which are counted from 0: at each place there is
/// an edge, as the node that it leads to and its cost, or nothing.
pub trait Graph<C: Cost> {
    // The number of nodes.
    ghost size: { Self → ℕ };

    // What stands at the places of a node.
    ghost places: { Self → ℕ → List (Option (ℕ × C)) };

    /// The number of nodes.
    fn len(&self) -> usize
        ensures { result ≡ size self.now };

    /// The number of places of a node.
    fn places(&self, node: usize) -> usize
        requires { node < size self.now }
        ensures { result ≡ length (places self.now node) };

    /// What stands at a place of a node: the node that the edge leads to and its cost, or nothing.
    fn edge(&self, node: usize, place: usize) -> Option<(usize, C)>
        requires node { node < size self.now }
        requires place { place < length (places self.now node) }
        ensures { slice_get (places self.now node) place ≡ Some result };

    /// Says that each edge leads to a node and that none costs less than 0. The body is empty.
    fn known(&self)
        ensures { IsGraph C.value (size self.now) (places self.now) };
}
