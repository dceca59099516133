//! A caller of `bfs_loop` over a list of edges (from, to).

use crate::fewest::{Found, Heap};
use pf_node_refs::NodeRefs;
use pf_search::directed::bfs::bfs_loop;
use test_edge_lists::nodes_after;

/// A loop with fewest edges from one of the starts to one of them.
pub fn loop_in_pairs<'h>(
    heap: Heap<'h>,
    edges: &[(u8, u8)],
    starts: &NodeRefs<'_, u8>,
) -> Found<'h> {
    bfs_loop(heap, starts, |n| nodes_after(edges, *n))
}
