//! Tables with their edges in both directions.

ghost use Rattle.std.specs.Prelude.{◌≡◌, ◌<◌, ◌-◌, ◌++◌, IfOk, IfErr, OnOk, length};
ghost use Rattle.pf_tables.specs.Graphs.{between, filled, graph_of};
ghost use Rattle.pf_tables.specs.Offsets.{IsCompact};
ghost use Rattle.pf_adjacency.specs.Reverses.{IsReverse, IsTurnedRound, turned_below, turned_row};

use crate::adjacency_list::AdjacencyList;
use pf_base::{Cost, PathError};
use pf_tables::Graph;
use std::alloc::{AllocError, Allocator, Global};
use std::marker::Model;

/// A table, and its edges turned round: the node n has an edge to the node m there for each edge of the
/// table from m to n, at the same cost.
///
/// A contract sees the table, and the turned edges as an `AdjacencyList`.
#[derive(Drop)]
pub struct BothWays<'g, C: Cost, G: Graph<C>, A: Allocator = Global> {
    forth: &'g G,
    back: AdjacencyList<C, A>,
}

impl<'g, C: Cost, G: Graph<C>, A: Allocator> Model for BothWays<'g, C, G, A> {
    ghost use Rattle.pf_adjacency.specs.Reverses.{IsReverse, TableBothWays};

    ghost Value = { TableBothWays C G };

    ghost view = { λ s. record { forth = s.forth.now; back = s.back } };

    ghost invariant = { λ s. IsReverse (G.size s.forth.now) (G.places s.forth.now) s.back };
}

/// Adds the edges of a node, each turned round.
fn add_turned<C: Cost, G: Graph<C>, A: Allocator>(
    graph: &G,
    node: usize,
    turned: &mut Vec<(usize, usize, C), A>,
) -> Result<(), AllocError>
    requires { node < G.size graph.now }
    ensures { OnOk result (turned.new.items ≡ turned.old.items ++ turned_row node (G.places graph.now node)) }
{
    for place in 0..graph.places(node) {
        if let Some(edge) = graph.edge(node, place) {
            turned.push((edge.0, node, edge.1))?;
        }
    }
    Ok(())
}

/// The edges of a table, each turned round, by the nodes that they come from.
fn turned_edges<C: Cost, G: Graph<C>, A: Allocator + Copy>(
    alloc: A,
    graph: &G,
) -> Result<Vec<(usize, usize, C), A>, AllocError>
    ensures { IfOk result (λ turned. turned.items ≡ turned_below (G.places graph.now) (G.size graph.now)) }
{
    let mut turned = Vec::new(alloc);
    for node in 0..graph.len() {
        add_turned(graph, node, &mut turned)?;
    }
    Ok(turned)
}

impl<'g, C: Cost, G: Graph<C>, A: Allocator + Copy> BothWays<'g, C, G, A> {
    /// The table with its edges in both directions. Memory and time are linear in the number of its
    /// nodes and places; one value serves any number of searches.
    ///
    /// # Errors
    ///
    /// `OutOfMemory`: a request for memory was refused.
    pub fn new(alloc: A, graph: &'g G) -> Result<Self, PathError>
        ensures forth { IfOk result (λ both. both.forth ≡ graph.now) }
        ensures back { IfOk result (λ both. IsReverse (G.size graph.now) (G.places graph.now) both.back) }
        ensures sound { IfOk result (λ both. IsCompact C.value both.back.0 both.back.1) }
        ensures refused { IfErr result (λ e. e ≡ PathError.OutOfMemory) }
    {
        graph.known();
        let turned = turned_edges(alloc, graph)?;
        let nodes = graph.len();
        if nodes == usize::MAX {
            return Err(PathError::OutOfMemory);
        }
        let back = AdjacencyList::from_sound_edges(alloc, nodes, &turned)?;
        Ok(BothWays { forth: graph, back })
    }
}

impl<'g, C: Cost, G: Graph<C>, A: Allocator> BothWays<'g, C, G, A> {
    /// The table.
    pub fn forth(&self) -> &'g G
        ensures { result.now ≡ self.now.forth }
    {
        self.forth
    }

    /// The table with its edges turned round.
    pub fn back(&self) -> &AdjacencyList<C, A>
        ensures back { result.now ≡ self.now.back }
        ensures reverse { IsReverse (G.size self.now.forth) (G.places self.now.forth) result.now }
        ensures mirror { IsTurnedRound (graph_of C.value (G.size self.now.forth) (G.places self.now.forth)) (graph_of C.value (length result.now.0 - 1) (λ node. filled (between result.now.0 result.now.1 node))) }
    {
        self.forth.known();
        &self.back
    }
}
