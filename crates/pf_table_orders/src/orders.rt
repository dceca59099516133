//! Orders in which every edge leads forward.

ghost use Rattle.std.specs.Prelude.{◌≡◌, ◌⊎◌, [], ℕ, Err, IfOk, IfErr, nat_eq};
ghost use Rattle.pf_base.specs.Successors.{HasSuccessor};
ghost use Rattle.pf_base.specs.Walks.{HasNode, IsReachable};
ghost use Rattle.pf_orders.specs.GroupDepths.{AreClosed, HasDepth, AreDepthGroups, HaveNoDepth};
ghost use Rattle.pf_orders.specs.TopologicalOrders.{IsTopologicalOrder, IsOnCycle};
ghost use Rattle.pf_tables.specs.Graphs.{successors_of};

use pf_base::{Cost, PathError, Tally};
use pf_orders::directed::topological_sort;
use pf_orders::discovered::{groups_in, order_in};
use pf_table_functions::discovery::hop_discovery;
use pf_table_functions::edges::ends_of;
use pf_table_functions::table_nodes::table_nodes_of;
use pf_tables::Graph;
use std::alloc::Allocator;

/// All nodes in reach of the `roots`, each once, in an order in which every edge leads forward; or, in
/// the inner `Err`, a node in reach of the roots that lies on a cycle. What the edges cost plays no
/// part.
///
/// An edge from a node to itself is a cycle. Which of several orders is answered is open. A number
/// that is no node of the graph has no edges.
///
/// # Errors
///
/// `OutOfMemory`: a request for memory was refused.
///
/// The algorithm is depth-first search (R. Tarjan, "Edge-disjoint spanning trees and depth-first
/// search", 1976).
pub fn topological_sort<C, G, A>(
    alloc: A,
    graph: &G,
    roots: &[usize],
) -> Result<Result<Vec<usize, A>, usize>, PathError>
where
    C: Cost,
    G: Graph<C>,
    A: Allocator + Copy,
    ensures order { IfOk result (λ answer. IfOk answer (λ order. IsTopologicalOrder nat_eq (successors_of C.value (G.size graph.now) (G.places graph.now)) (IsReachable nat_eq (HasSuccessor nat_eq (successors_of C.value (G.size graph.now) (G.places graph.now))) roots.now) order.items)) }
    ensures cycle { IfOk result (λ answer. IfErr answer (λ node. IsReachable nat_eq (HasSuccessor nat_eq (successors_of C.value (G.size graph.now) (G.places graph.now))) roots.now node × IsOnCycle nat_eq (successors_of C.value (G.size graph.now) (G.places graph.now)) node)) }
    ensures errors { IfErr result (λ e. e ≡ PathError.OutOfMemory) }
{
    match table_nodes_of(alloc, graph.len(), roots)? {
        Some(found) => order_in(alloc, &mut hop_discovery(graph, found), &mut Tally::new()),
        None => topological_sort::topological_sort(alloc, roots, |n: &usize| ends_of(graph, *n)),
    }
}

/// The nodes in groups: group k has exactly those whose longest incoming walk from one of the `nodes`
/// has k steps, each once, and no group is empty. Where some have no longest incoming walk, since a
/// cycle leads to them, the inner `Err` has the groups of the others, and these nodes, each once.
///
/// An edge from a node to itself is a cycle. What the edges cost plays no part. The order of the nodes
/// in a group is open. A number that is no node of the graph has no edges.
///
/// # Errors
///
/// - `UnknownVertex`: exactly where an edge leads from one of `nodes` to none of them; this is tested
///   before anything else.
/// - `OutOfMemory`: a request for memory was refused.
///
/// The algorithm takes away nodes without predecessors, a round at a time (A. B. Kahn, "Topological
/// sorting of large networks", 1962).
pub fn topological_sort_into_groups<C, G, A>(
    alloc: A,
    graph: &G,
    nodes: &[usize],
) -> Result<Result<Vec<Vec<usize, A>, A>, (Vec<Vec<usize, A>, A>, Vec<usize, A>)>, PathError>
where
    C: Cost,
    G: Graph<C>,
    A: Allocator + Copy,
    ensures groups { IfOk result (λ answer. IfOk answer (λ groups. AreDepthGroups nat_eq (successors_of C.value (G.size graph.now) (G.places graph.now)) nodes.now groups.items
        × ((x : ℕ) → HasNode nat_eq nodes.now x → (k : ℕ) × HasDepth nat_eq (successors_of C.value (G.size graph.now) (G.places graph.now)) nodes.now x k))) }
    ensures cycle { IfOk result (λ answer. IfErr answer (λ both. AreDepthGroups nat_eq (successors_of C.value (G.size graph.now) (G.places graph.now)) nodes.now both.0.items
        × HaveNoDepth nat_eq (successors_of C.value (G.size graph.now) (G.places graph.now)) nodes.now both.1.items × ¬ (both.1.items ≡ []))) }
    ensures closed { IfOk result (λ answer. AreClosed nat_eq (successors_of C.value (G.size graph.now) (G.places graph.now)) nodes.now) }
    ensures unknown { result ≡ Err PathError.UnknownVertex
        → (x : ℕ) × (y : ℕ) × HasNode nat_eq nodes.now x × HasSuccessor nat_eq (successors_of C.value (G.size graph.now) (G.places graph.now)) x y × ¬ (HasNode nat_eq nodes.now y) }
    ensures errors { IfErr result (λ e. (e ≡ PathError.OutOfMemory) ⊎ (e ≡ PathError.UnknownVertex)) }
{
    match table_nodes_of(alloc, graph.len(), nodes)? {
        Some(found) => groups_in(alloc, &mut hop_discovery(graph, found)),
        None => topological_sort::topological_sort_into_groups(
            alloc,
            nodes,
            |n: &usize| ends_of(graph, *n),
        ),
    }
}
