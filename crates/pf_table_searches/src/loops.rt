//! Loops with fewest edges.

ghost use Rattle.std.specs.Prelude.{◌≡◌, IfOk, IfErr, IfSome, MatchOption, nat_eq};
ghost use Rattle.std.specs.List.{IsDistinct};
ghost use Rattle.pf_base.specs.Loops.{HasNoLoop, IsBestLoop};
ghost use Rattle.pf_base.specs.NodeRefs.{HasSameNodes};
ghost use Rattle.pf_tables.specs.Graphs.{successors_of};

use pf_base::{Cost, PathError};
use pf_discovery::numbering::Numbering;
use pf_node_refs::NodeRefs;
use pf_search::directed::bfs;
use pf_search::discovered::loop_from;
use pf_table_functions::discovery::hop_discovery;
use pf_table_functions::edges::ends_of;
use pf_table_functions::table_nodes::TableNodes;
use pf_tables::Graph;
use std::alloc::Allocator;

/// These nodes of a table with `size` nodes, each once, or `None` where one of them is no node of it.
fn table_nodes_at<A: Allocator + Copy, B: Allocator>(
    alloc: A,
    size: usize,
    starts: &NodeRefs<'_, usize, B>,
) -> Result<Option<TableNodes<A>>, PathError>
    ensures same { IfOk result (λ found. IfSome found (λ keys. HasSameNodes nat_eq keys starts.now)) }
    ensures distinct { IfOk result (λ found. IfSome found (λ keys. IsDistinct nat_eq keys)) }
    ensures refused { IfErr result (λ e. e ≡ PathError.OutOfMemory) }
{
    let mut found = TableNodes::new(alloc, size);
    'starts: for start in starts.iter() {
        if *start >= size {
            return Ok(None);
        }
        found.number_of(*start)?;
    }
    Ok(Some(found))
}

/// A walk of at least one step, with fewest edges, from one of the `starts` to one of them, or `None`
/// exactly where there is no such walk. What the edges cost plays no part.
///
/// No node stands twice, save that the first and the last may be the same node. Which of several such
/// loops is answered is open. A number that is no node of the graph has no edges.
///
/// # Errors
///
/// `OutOfMemory`: a request for memory was refused.
///
/// The algorithm is breadth-first search (E. F. Moore, "The shortest path through a maze", 1959) from
/// all starts at once.
pub fn bfs_loop<C, G, A, B>(
    alloc: A,
    graph: &G,
    starts: &NodeRefs<'_, usize, B>,
) -> Result<Option<Vec<usize, A>>, PathError>
where
    C: Cost,
    G: Graph<C>,
    A: Allocator + Copy,
    B: Allocator,
    ensures best { IfOk result (λ answer. MatchOption answer
        (HasNoLoop nat_eq (successors_of C.value (G.size graph.now) (G.places graph.now)) starts.now)
        (λ path. IsBestLoop nat_eq (successors_of C.value (G.size graph.now) (G.places graph.now)) starts.now path.items)) }
    ensures errors { IfErr result (λ e. e ≡ PathError.OutOfMemory) }
{
    match table_nodes_at(alloc, graph.len(), starts)? {
        Some(found) => loop_from(alloc, &mut hop_discovery(graph, found)),
        None => bfs::bfs_loop(alloc, starts, |n: &usize| ends_of(graph, *n)),
    }
}
