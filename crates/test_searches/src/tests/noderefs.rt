//! Sets of nodes: the calls with ample memory, and what a set is printed as.

use crate::fewest::Heap;
use crate::no_case::NoCase;
use pf_node_refs::NodeRefs;
use std::alloc::Global;
use test_allocator::Refusing;

/// Two spellings of one node.
const SPELLINGS: &[NoCase<'static>] = &[NoCase { name: "A" }, NoCase { name: "a" }];

/// Whether a set has the two spellings as one node, and no other node.
fn is_one_node(nodes: &NodeRefs<'_, NoCase<'_>>) -> bool {
    nodes.len() == 1
        && nodes.contains(&NoCase { name: "a" })
        && !nodes.contains(&NoCase { name: "b" })
}

/// Whether the set of the two spellings is so.
fn are_one_node(alloc: Global) -> bool {
    match &NodeRefs::from_nodes(alloc, SPELLINGS) {
        Ok(nodes) => is_one_node(nodes),
        Err(_) => false,
    }
}

#[test]
fn equal_nodes_are_one(rt: HostRuntime) {
    assert!(rt; are_one_node(rt.alloc()));
}

/// Whether a set is printed as this text.
fn is_printed(alloc: Global, nodes: &NodeRefs<'_, u32>, want: &str) -> bool {
    matches!(format!(in alloc; "{nodes:?}"), Ok(text) if text.as_str() == want)
}

#[test]
fn sets_are_printed(rt: HostRuntime) {
    let one = NodeRefs::from_one(rt.alloc(), &7u32).expect(&rt, "memory");
    assert!(rt; is_printed(rt.alloc(), &one, "{7}") && !one.is_empty());
}

/// The sum of the nodes, by a loop over a set that is lent.
fn sum_of(nodes: &NodeRefs<'_, u32>) -> u32 {
    let mut sum = 0u32;
    for node in nodes {
        sum = sum.saturating_add(*node);
    }
    sum
}

/// The product of the nodes, by a loop over a set that is used up.
fn product_of(nodes: NodeRefs<'_, u32>) -> u32 {
    let mut product = 1u32;
    for node in nodes {
        product = product.saturating_mul(*node);
    }
    product
}

/// Nodes, of which some stand twice.
const REPEATED: &[u32] = &[3, 1, 3, 2, 1];

#[test]
fn gives_each_node_once(rt: HostRuntime) {
    let nodes = NodeRefs::from_nodes(rt.alloc(), REPEATED).expect(&rt, "memory");
    assert!(rt; nodes.iter().count() == 3 && sum_of(&nodes) == 6 && product_of(nodes) == 6);
}

/// Whether a set of three nodes answers its readers, beside another one.
fn is_read<'h>(nodes: &NodeRefs<'_, u32, Heap<'h>>, other: &NodeRefs<'_, u32, Heap<'h>>) -> bool {
    nodes.len() == 3
        && !nodes.is_empty()
        && *nodes != *other
        && nodes.contains(&2)
        && !nodes.contains(&4)
        && nodes.iter().count() == 3
}

/// Whether readers of sets, and a walk over a set that is used up, answer while no memory is left.
fn are_read(alloc: Global) -> bool {
    let heap = Refusing::new(alloc);
    match (
        NodeRefs::from_nodes(&heap, REPEATED),
        NodeRefs::from_one(&heap, &3u32),
    ) {
        (Ok(nodes), Ok(other)) => {
            heap.refuse(0, u64::MAX);
            is_read(&nodes, &other) && other.into_iter().count() == 1 && heap.pending() == u64::MAX
        }
        _ => false,
    }
}

#[test]
fn readers_take_no_memory(rt: HostRuntime) {
    assert!(rt; are_read(rt.alloc()));
}

/// Nodes of two sets, and whether the sets are equal.
const PAIRS: &[(&[u32], &[u32], bool)] = &[
    (&[1, 2, 3], &[3, 2, 1, 2], true),
    (&[1, 2, 3], &[1, 2], false),
    (&[1, 2], &[1, 2, 3], false),
    (&[], &[], true),
];

/// Whether sets of these nodes are equal, where memory is left.
fn are_equal(alloc: Global, left: &[u32], right: &[u32]) -> Option<bool> {
    match (
        NodeRefs::from_nodes(alloc, left),
        NodeRefs::from_nodes(alloc, right),
    ) {
        (Ok(first), Ok(second)) => Some(first == second),
        _ => None,
    }
}

#[test]
fn equal_sets_may_differ_in_order(rt: HostRuntime) {
    for (left, right, wanted) in PAIRS {
        assert!(rt;
            are_equal(rt.alloc(), left, right) == Some(*wanted),
            "{left:?}"
        );
    }
}
