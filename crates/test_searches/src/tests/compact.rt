//! The callers over tables in compact form, at numbers.

use crate::compact::{cheapest_in_compact, fewest_in_compact, is_compact};
use crate::tests::answers::{is_cheapest, is_path};
use pf_node_refs::NodeRefs;

/// Where the edges of each of the nodes 0 to 4 begin, and where the last ones end.
const OFFSETS: &[usize] = &[0, 2, 4, 6, 7, 7];

/// The edges, with their costs.
const EDGES: &[(usize, u32)] = &[(1, 4), (2, 2), (2, 1), (3, 5), (3, 8), (4, 10), (4, 2)];

/// Where they lead.
const TARGETS: &[usize] = &[1, 2, 2, 3, 3, 4, 4];

#[test]
fn cheapest_paths(rt: HostRuntime) {
    assert!(rt; is_compact(OFFSETS, EDGES));
    let there = cheapest_in_compact(rt.alloc(), OFFSETS, EDGES, 0, 4);
    assert!(rt; is_cheapest(there, Some((&[0, 1, 3, 4], 11))));
    let back = cheapest_in_compact(rt.alloc(), OFFSETS, EDGES, 4, 0);
    assert!(rt; is_cheapest(back, None));
}

#[test]
fn fewest_edges(rt: HostRuntime) {
    assert!(rt; is_compact(OFFSETS, TARGETS));
    let starts = NodeRefs::from_one(rt.alloc(), &0usize).expect(&rt, "memory");
    let found = fewest_in_compact(rt.alloc(), OFFSETS, TARGETS, &starts, 4);
    assert!(rt; is_path(found, Some(&[0, 2, 4])));
}

/// Offsets, how many targets there are, and whether these are a graph in compact form.
const CASES: &[(&[usize], &[u8], bool)] = &[
    (&[0, 1, 1, 2], &[7, 8], true),
    (&[0, 2, 1, 2], &[7, 8], false),
    (&[0, 1, 3], &[7, 8], false),
    (&[], &[], true),
];

#[test]
fn offsets_that_are_not_compact(rt: HostRuntime) {
    for (offsets, targets, want) in CASES {
        assert!(rt; is_compact(offsets, targets) == *want, "{offsets:?}");
    }
}
