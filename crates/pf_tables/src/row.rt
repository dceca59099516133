//! Rows of edges.

ghost use Rattle.std.specs.Prelude.{◌≡◌, ◌<◌, ℕ, List, Some, length, map, slice_get};

use crate::costless::Costless;
use pf_base::Cost;
use std::alloc::Allocator;

/// Some edges, one after another, each as the node that it leads to and its cost.
///
/// A `Vec` and a slice of pairs (node, cost) are rows, and so are a `Vec` and a slice of nodes,
/// whose edges are [`Costless`].
pub trait Row<C: Cost> {
    // The edges, in order.
    ghost edges: { Self → List (ℕ × C) };

    /// The number of edges.
    fn len(&self) -> usize
        ensures { result ≡ length (edges self.now) };

    /// The edge at a place.
    fn edge(&self, place: usize) -> (usize, C)
        requires { place < length (edges self.now) }
        ensures { slice_get (edges self.now) place ≡ Some result };
}

impl<C: Cost, A: Allocator> Row<C> for Vec<(usize, C), A> {
    ghost edges = { λ row. row.items };

    fn len(&self) -> usize {
        self.len()
    }

    fn edge(&self, place: usize) -> (usize, C) {
        self[place]
    }
}

impl<'a, C: Cost> Row<C> for &'a [(usize, C)] {
    ghost edges = { λ row. row.now };

    fn len(&self) -> usize {
        (*self).len()
    }

    fn edge(&self, place: usize) -> (usize, C) {
        self[place]
    }
}

impl<A: Allocator> Row<Costless> for Vec<usize, A> {
    ghost edges = { λ row. map (λ node. (node, record {})) row.items };

    fn len(&self) -> usize {
        self.len()
    }

    fn edge(&self, place: usize) -> (usize, Costless) {
        (self[place], Costless)
    }
}

impl<'a> Row<Costless> for &'a [usize] {
    ghost edges = { λ row. map (λ node. (node, record {})) row.now };

    fn len(&self) -> usize {
        (*self).len()
    }

    fn edge(&self, place: usize) -> (usize, Costless) {
        (self[place], Costless)
    }
}
