//! Callers of `bfs` and `iddfs` over lists of edges (from, to).

use pf_base::PathError;
use pf_node_refs::NodeRefs;
use pf_search::directed::bfs::bfs;
use pf_search::directed::iddfs::iddfs;
use std::alloc::Global;
use test_allocator::Refusing;
use test_edge_lists::nodes_after;

/// The heap that the tests refuse growths of, or do not.
pub type Heap<'h> = &'h Refusing<Global>;

/// A path, where there is one.
pub type Found<'h> = Result<Option<Vec<u8, Heap<'h>>>, PathError>;

/// A path with fewest edges from one of the starts to one of the goals.
pub fn fewest_in_pairs<'h>(
    heap: Heap<'h>,
    edges: &[(u8, u8)],
    starts: &NodeRefs<'_, u8>,
    goals: &[u8],
) -> Found<'h> {
    bfs(
        heap,
        starts,
        |n| nodes_after(edges, *n),
        |n| goals.contains(n),
    )
}

/// The same from one start to one goal, by depth limits that grow.
pub fn deepened_in_pairs<'h>(heap: Heap<'h>, edges: &[(u8, u8)], start: u8, goal: u8) -> Found<'h> {
    iddfs(heap, start, |n| nodes_after(edges, *n), |n| *n == goal)
}
