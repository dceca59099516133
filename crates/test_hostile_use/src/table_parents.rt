//! A caller over any graph in a table.

ghost use Rattle.std.specs.HashMap.{get};
ghost use Rattle.std.specs.Prelude.{IfOk, nat_eq, pos};
ghost use Rattle.pf_search.specs.Parents.{IsCheapestMap};
ghost use Rattle.pf_tables.specs.Graphs.{graph_of};

use pf_base::PathError;
use pf_search::directed::dijkstra::Parents;
use pf_table_searches::dijkstra_all;
use pf_tables::Graph;
use std::alloc::Allocator;

/// The parents and the cheapest costs of all nodes in reach of a node.
pub fn all_from<G, A>(alloc: A, graph: &G, from: usize) -> Result<Parents<usize, u32, A>, PathError>
where
    G: Graph<u32>,
    A: Allocator + Copy,
    ensures { IfOk result (λ parents. IsCheapestMap nat_eq (graph_of (λ c. pos c) (G.size graph.now) (G.places graph.now)) from (λ c. pos c) (get nat_eq parents)) }
{
    dijkstra_all(alloc, graph, from)
}
