//! Strong components.

ghost use Rattle.std.specs.Prelude.{◌≡◌, IfOk, IfErr, nat_eq};
ghost use Rattle.pf_orders.specs.StrongComponents.{AreStrongComponents, IsStrongComponentOf, lists_of};
ghost use Rattle.pf_tables.specs.Graphs.{successors_of};

use pf_base::{Cost, PathError};
use pf_orders::directed::strongly_connected_components;
use pf_orders::discovered::{component_of, components_of};
use pf_table_functions::discovery::hop_discovery;
use pf_table_functions::edges::ends_of;
use pf_table_functions::table_nodes::{TableNodes, table_nodes_of};
use pf_tables::Graph;
use std::alloc::Allocator;

/// The strong components of all nodes in reach of the given ones: each node in reach once, in the
/// component of those that it reaches and that reach it, and each component behind every other that it
/// reaches. What the edges cost plays no part.
///
/// The given nodes may repeat. The order of the nodes in a component is open. A number that is no node
/// of the graph has no edges, and is a component of its own.
///
/// # Errors
///
/// `OutOfMemory`: a request for memory was refused.
///
/// The algorithm is the path-based one (H. N. Gabow, "Path-based depth-first search for strong and
/// biconnected components", 2000).
pub fn strongly_connected_components<C, G, A>(
    alloc: A,
    graph: &G,
    nodes: &[usize],
) -> Result<Vec<Vec<usize, A>, A>, PathError>
where
    C: Cost,
    G: Graph<C>,
    A: Allocator + Copy,
    ensures components { IfOk result (λ components. AreStrongComponents nat_eq (successors_of C.value (G.size graph.now) (G.places graph.now)) nodes.now (lists_of components.items)) }
    ensures errors { IfErr result (λ e. e ≡ PathError.OutOfMemory) }
{
    match table_nodes_of(alloc, graph.len(), nodes)? {
        Some(found) => components_of(alloc, hop_discovery(graph, found)),
        None => strongly_connected_components::strongly_connected_components(
            alloc,
            nodes,
            |n: &usize| ends_of(graph, *n),
        ),
    }
}

/// The strong component of a node: all nodes that it reaches and that reach it, each once, in open
/// order. What the edges cost plays no part.
///
/// # Errors
///
/// `OutOfMemory`: a request for memory was refused.
///
/// All nodes in reach are searched, as by `strongly_connected_components`.
pub fn strongly_connected_component<C, G, A>(
    alloc: A,
    graph: &G,
    node: usize,
) -> Result<Vec<usize, A>, PathError>
where
    C: Cost,
    G: Graph<C>,
    A: Allocator + Copy,
    ensures component { IfOk result (λ component. IsStrongComponentOf nat_eq (successors_of C.value (G.size graph.now) (G.places graph.now)) node component.items) }
    ensures errors { IfErr result (λ e. e ≡ PathError.OutOfMemory) }
{
    let nodes = TableNodes::begin(alloc, graph.len(), node)?;
    component_of(alloc, hop_discovery(graph, nodes))
}
