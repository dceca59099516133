//! A table as searches by numbers see it.

ghost use Rattle.std.specs.Prelude.{◌≡◌};

use crate::neighbours::Neighbours;
use crate::table_nodes::TableNodes;
use pf_base::Cost;
use pf_discovery::discovery::DiscoveryBy;
use pf_discovery::source::{Unweighted, Weighted};
use pf_tables::Graph;
use std::alloc::Allocator;

/// A discovery of a table that begins with these nodes, whatever its edges cost.
pub fn hop_discovery<C: Cost, G: Graph<C>, A: Allocator>(
    graph: &G,
    nodes: TableNodes<A>,
) -> DiscoveryBy<TableNodes<A>, Unweighted<Neighbours<'_, C, G>>>
    ensures { result ≡ record { nodes = nodes; source = record { function = graph.now } } }
{
    DiscoveryBy {
        nodes,
        source: Unweighted {
            function: Neighbours::new(graph),
        },
    }
}

/// A discovery of a table and what its edges cost, which begins with these nodes.
pub fn edge_discovery<C: Cost, G: Graph<C>, A: Allocator>(
    graph: &G,
    nodes: TableNodes<A>,
) -> DiscoveryBy<TableNodes<A>, Weighted<Neighbours<'_, C, G>>>
    ensures { result ≡ record { nodes = nodes; source = record { function = graph.now } } }
{
    DiscoveryBy {
        nodes,
        source: Weighted {
            function: Neighbours::new(graph),
        },
    }
}
