//! Spanning edges as text.

ghost use Rattle.std.specs.Prelude.{◌≡◌, map, IfOk, IfErr};
ghost use Rattle.pf_routes.specs.Internal.Parsed.{HoldsOfEdges, RefusesText};
ghost use Rattle.pf_routes.specs.SpanningText.{AreSpanningLines};
ghost use Rattle.pf_routes.specs.Internal.NumberedLines.{weighed_link};

use crate::routes::edge_lines::{WeighedEdge, write_edges};
use crate::routes::links::Link;
use crate::routes::network::Linked;
use pf_graph::undirected::kruskal::kruskal_indices;
use pf_route_io::error::RouteError;
use std::alloc::{AllocError, Allocator};
use std::hash::BuildHasher;

/// The links as edges with weights.
fn weigh<A: Allocator + Copy>(alloc: A, links: &[Link]) -> Result<Vec<WeighedEdge, A>, AllocError>
    ensures { IfOk result (λ edges. edges.items ≡ map weighed_link links.now) }
{
    let mut edges = Vec::with_capacity(alloc, links.len())?;
    for link in links {
        edges.push((link.source as usize, link.target as usize, link.cost))?;
    }
    Ok(edges)
}

/// The lines of spanning edges of least weight, by rising weight.
pub(crate) fn spanning_lines<S: BuildHasher + Drop, A: Allocator + Copy>(
    alloc: A,
    text: Vec<u8, A>,
    hash_builder: S,
) -> Result<Vec<u8, A>, RouteError>
    ensures ok { IfOk result (λ lines. HoldsOfEdges text.items (λ edges. AreSpanningLines edges lines.items)) }
    ensures err { IfErr result (λ e. RefusesText e text.items) }
{
    let Linked { names, links } = Linked::read(alloc, text.as_slice(), hash_builder)?;
    // What is not needed any more is given back before the next table is made.
    drop(text);
    let edges = weigh(alloc, links.as_slice())?;
    drop(links);
    // All ends are numbers of names, so the only refusal is out of memory.
    let Ok(chosen) = kruskal_indices(alloc, names.len(), edges.as_slice()) else {
        return Err(RouteError::OutOfMemory);
    };
    drop(edges);
    Ok(write_edges(alloc, &names, chosen)?)
}
