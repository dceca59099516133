//! Graphs that own their edges.

ghost use Rattle.std.specs.Prelude.{◌≡◌, ◌<◌, ◌+◌, ◌-◌, ◌^◌, IfOk, IfErr, length, map};
ghost use Rattle.pf_tables.specs.Graphs.{between, filled};
ghost use Rattle.pf_tables.specs.Offsets.{IsCompact};
ghost use Rattle.pf_adjacency.specs.NumberedEdges.{AreSoundEdges, IsLaidOut};
ghost use Rattle.pf_adjacency.specs.EdgeFaults.{IsAdjacencyFault};

use crate::checks::check_edges;
use crate::error::AdjacencyError;
use crate::layout::{offsets_of, targets_of};
use crate::numbered_edge::NumberedEdge;
use pf_base::Cost;
use pf_tables::Graph;
use std::alloc::{AllocError, Allocator, Global};
use std::marker::Model;

/// A graph that owns its edges, in compact form: the edges from the node n are those from the place
/// `offsets[n]` on up to the place `offsets[n + 1]`, which is not among them.
///
/// A contract sees the offsets and the edges, as it does of `CompactRows`.
#[derive(Drop)]
pub struct AdjacencyList<C: Cost, A: Allocator = Global> {
    offsets: Vec<usize, A>,
    edges: Vec<(usize, C), A>,
}

impl<C: Cost, A: Allocator> Model for AdjacencyList<C, A> {
    ghost use Rattle.std.specs.Prelude.{List, ℕ};
    ghost use Rattle.pf_tables.specs.Offsets.{IsCompact};

    ghost Value = { List ℕ × List (ℕ × C) };

    ghost view = { λ s. (s.offsets.items, s.edges.items) };

    ghost invariant = { λ s. IsCompact C.value s.offsets.items s.edges.items };
}

impl<C: Cost, A: Allocator + Copy> AdjacencyList<C, A> {
    /// The graph of these edges between the numbers below `size`. The edges from each node keep their
    /// order; parallel edges and loops stay. Memory and time are linear in the number of nodes and
    /// edges: the edges are laid out by a counting sort of the numbers that they come from.
    ///
    /// # Errors
    ///
    /// - `SourceOutside`, `TargetOutside`, `NegativeCost`: the first edge that comes from no node,
    ///   leads to no node or costs less than 0; of one edge the first of these.
    /// - `OutOfMemory`: a request for memory was refused, or `size` is `usize::MAX`, and each edge is
    ///   sound.
    pub fn new<E: NumberedEdge<C>>(
        alloc: A,
        size: usize,
        edges: &[E],
    ) -> Result<Self, AdjacencyError>
        ensures laid_out { IfOk result (IsLaidOut size (map E.ends edges.now)) }
        ensures sound { IfOk result (λ graph. IsCompact C.value graph.0 graph.1) }
        ensures fault { IfErr result (IsAdjacencyFault C.value size (map E.ends edges.now)) }
    {
        check_edges(edges, size)?;
        if size == usize::MAX {
            return Err(AdjacencyError::OutOfMemory);
        }
        let graph = Self::from_sound_edges(alloc, size, edges)?;
        Ok(graph)
    }

    /// The graph of these edges, for a caller that knows them to be sound: nothing is tested.
    pub fn from_sound_edges<E: NumberedEdge<C>>(
        alloc: A,
        size: usize,
        edges: &[E],
    ) -> Result<Self, AllocError>
        requires few { size + 1 < 2 ^ 64 }
        requires sound { AreSoundEdges C.value size (map E.ends edges.now) }
        ensures laid_out { IfOk result (IsLaidOut size (map E.ends edges.now)) }
        ensures sound { IfOk result (λ graph. IsCompact C.value graph.0 graph.1) }
    {
        let offsets = offsets_of(alloc, size, edges)?;
        let edges = targets_of(alloc, size, &offsets, edges)?;
        Ok(AdjacencyList { offsets, edges })
    }
}

impl<C: Cost, A: Allocator> Graph<C> for AdjacencyList<C, A> {
    ghost size = { λ graph. length graph.0 - 1 };

    ghost places = { λ graph node. filled (between graph.0 graph.1 node) };

    fn len(&self) -> usize {
        self.offsets.len() - 1
    }

    fn places(&self, node: usize) -> usize {
        let offsets = self.offsets.as_slice();
        offsets[node + 1] - offsets[node]
    }

    fn edge(&self, node: usize, place: usize) -> Option<(usize, C)> {
        Some(self.edges[self.offsets[node] + place])
    }

    fn known(&self) {
        let _offsets = &self.offsets;
    }
}
