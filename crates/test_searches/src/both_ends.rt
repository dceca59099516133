//! A caller of `bfs_bidirectional` over a list of edges (from, to).

use crate::fewest::{Found, Heap};
use pf_both_ends::bfs_bidirectional;
use pf_node_refs::NodeRefs;
use test_edge_lists::{nodes_after, nodes_before};

/// A path with fewest edges from one of the starts to one of the ends.
pub fn fewest_between_in_pairs<'h>(
    heap: Heap<'h>,
    edges: &[(u8, u8)],
    starts: &NodeRefs<'_, u8>,
    ends: &NodeRefs<'_, u8>,
) -> Found<'h> {
    bfs_bidirectional(
        heap,
        starts,
        ends,
        |n| nodes_after(edges, *n),
        |n| nodes_before(edges, *n),
    )
}
