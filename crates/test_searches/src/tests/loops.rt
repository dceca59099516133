//! Worked examples of loops with fewest edges.

use crate::loops::loop_in_pairs;
use crate::tests::answers::is_path;
use pf_node_refs::NodeRefs;
use std::alloc::Global;
use test_allocator::Refusing;

/// The edges of the graph in which 8 and 9 follow each other, 7 leads to both, and both lead to 7.
const NEIGHBOURS: &[(u8, u8)] = &[(7, 8), (7, 9), (8, 7), (8, 9), (9, 7)];

/// Edges, starts, and the only loop with fewest edges.
type Loops = (&'static [(u8, u8)], &'static [u8], Option<&'static [u8]>);

const LOOPS: &[Loops] = &[
    (NEIGHBOURS, &[8], Some(&[8, 7, 8])),
    // A start that follows itself is a loop of one step.
    (&[(1, 2), (2, 1), (2, 2)], &[2], Some(&[2, 2])),
    // The two ends may be different starts.
    (&[(1, 2), (2, 3), (3, 1)], &[2, 1], Some(&[1, 2])),
    // A loop that no start is on, and one way alone.
    (&[(1, 2), (2, 3), (3, 2)], &[1], None),
    (&[(1, 2), (2, 3)], &[1], None),
    // No starts have no loop.
    (NEIGHBOURS, &[], None),
];

/// Whether this loop is found from these nodes, or none.
fn is_loop(alloc: Global, edges: &[(u8, u8)], nodes: &[u8], want: Option<&[u8]>) -> bool {
    let heap = Refusing::new(alloc);
    match &NodeRefs::from_nodes(alloc, nodes) {
        Ok(starts) => is_path(loop_in_pairs(&heap, edges, starts), want),
        Err(_) => false,
    }
}

#[test]
fn the_shortest_way_back_is_taken(rt: HostRuntime) {
    for (edges, nodes, want) in LOOPS {
        assert!(rt; is_loop(rt.alloc(), edges, nodes, *want), "{nodes:?}");
    }
}
