//! A graph that is computed, and callers of what goes over graphs whose nodes are numbers.

ghost use Rattle.std.specs.Prelude.{◌<◌, ◌-◌, ◌==◌, ◌∷◌, [], length, nat_eq, pos, IfOk, IfSome};
ghost use Rattle.pf_base.specs.Edges.{IsCheapestOrNone};
ghost use Rattle.pf_base.specs.Successors.{IsFewestEdgesOrNone};
ghost use Rattle.pf_tables.specs.Goals.{is_marked};
ghost use Rattle.pf_tables.specs.Graphs.{between, filled, successors_of};
ghost use Rattle.test_searches.specs.Rings.{ring_edges, ring_places};

use num_traits::Number;
use pf_base::{Cost, PathError};
use pf_table_breadth::bfs;
use pf_tables::{CompactRows, Costless, Graph, dijkstra};
use std::alloc::Global;

/// A ring of nodes: each leads to the next one at cost 1, and the last one to the node 0.
#[derive(Drop)]
pub struct Ring {
    pub nodes: usize,
}

impl Graph<u32> for Ring {
    ghost size = { λ ring. ring.nodes };

    ghost places = { λ ring. ring_places ring.nodes };

    fn len(&self) -> usize {
        self.nodes
    }

    fn places(&self, _node: usize) -> usize {
        1
    }

    fn edge(&self, node: usize, _place: usize) -> Option<(usize, u32)> {
        let nodes = self.nodes;
        let next = node + 1;
        Some((if next < nodes { next } else { 0 }, 1))
    }

    fn known(&self) {}
}

/// The way from one node of a ring to another, and its cost, or `None` exactly where no walk leads
/// there.
pub fn way_round(
    alloc: Global,
    ring: &Ring,
    from: usize,
    to: usize,
) -> Result<Option<(Vec<usize>, u32)>, PathError>
    ensures best { IfOk result (IsCheapestOrNone nat_eq (ring_edges ring.now.nodes) (from ∷ []) (λ n. n == to) (λ c. pos c)) }
{
    dijkstra(alloc, ring, from, to)
}

/// A path with fewest edges to a node that is marked, or `None` exactly where no walk leads to one.
pub fn way_to_marked(
    alloc: Global,
    graph: &CompactRows<'_, &[usize], Costless>,
    from: usize,
    marks: &[bool],
) -> Result<Option<Vec<usize>>, PathError>
    ensures best { IfOk result (IsFewestEdgesOrNone nat_eq (successors_of ⟦<Costless as Number>⟧.value (length graph.now.0 - 1) (λ n. filled (between graph.now.0 graph.now.1 n))) (from ∷ []) (is_marked marks.now)) }
{
    bfs(alloc, graph, from, marks)
}

/// The node that the first edge of the node 0 leads to, if there is one.
pub fn first_target<C: Cost, G: Graph<C>>(graph: &G) -> Option<usize>
    ensures { IfSome result (λ node. node < G.size graph.now) }
{
    if graph.len() == 0 || graph.places(0) == 0 {
        return None;
    }
    graph.known();
    let edge = graph.edge(0, 0)?;
    Some(edge.0)
}
