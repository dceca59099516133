//! Worked examples of spanning edges.

use pf_base::PathError;
use pf_graph::undirected::kruskal::{kruskal, kruskal_indices, spanning_weight};
use pf_graph::undirected::prim::prim;
use std::alloc::Global;

/// Edges between letters, with their weights.
type Edges<'a> = &'a [(char, char, u32)];

/// Five nodes, each weight once.
const SEVEN: &[(char, char, u32)] = &[
    ('a', 'b', 3),
    ('a', 'e', 1),
    ('b', 'c', 5),
    ('b', 'e', 4),
    ('c', 'd', 2),
    ('c', 'e', 6),
    ('d', 'e', 7),
];

/// Nine nodes, with equal weights of edges that meet no common node.
const NINE: &[(char, char, u32)] = &[
    ('a', 'b', 4),
    ('a', 'h', 8),
    ('b', 'c', 8),
    ('b', 'h', 11),
    ('c', 'd', 7),
    ('c', 'f', 4),
    ('c', 'i', 2),
    ('d', 'e', 9),
    ('d', 'f', 14),
    ('e', 'f', 10),
    ('f', 'g', 2),
    ('g', 'h', 1),
    ('g', 'i', 6),
    ('h', 'i', 7),
];

/// Five nodes, with two edges that stand twice.
const FIVE: &[(char, char, u32)] = &[
    ('B', 'C', 10),
    ('B', 'D', 4),
    ('C', 'D', 2),
    ('A', 'C', 3),
    ('C', 'D', 2),
    ('D', 'E', 1),
    ('C', 'E', 6),
    ('D', 'E', 1),
];

/// Edges of which a tree from the first node takes one in the other direction.
const BACKWARDS: Edges<'static> = &[('a', 'b', 5), ('c', 'a', 1)];

/// Edges that `kruskal` chooses, and the sum of their weights.
const CHOSEN: &[(Edges<'static>, Edges<'static>, u32)] = &[
    (
        SEVEN,
        &[('a', 'e', 1), ('c', 'd', 2), ('a', 'b', 3), ('b', 'c', 5)],
        11,
    ),
    (&[('a', 'a', 1)], &[], 0),
    (BACKWARDS, &[('c', 'a', 1), ('a', 'b', 5)], 6),
    (&[], &[], 0),
];

/// Weights below zero, whose sum of the first two fits no `i8`.
const BELOW_ZERO: &[(char, char, i8)] = &[('a', 'b', -100), ('b', 'c', -100), ('c', 'd', 127)];

/// Weights whose sum fits no `u8`.
const HEAVY: &[(char, char, u8)] = &[('a', 'b', 200), ('b', 'c', 100)];

/// An edge below zero from a node to itself, and parallel edges of different directions.
const PARALLEL: &[(char, char, i32)] = &[('a', 'a', -5), ('a', 'b', 2), ('b', 'a', 1)];

/// Edges between columns and rows, each with the less of its two rows.
type Lines<'a> = &'a [((usize, usize), (usize, usize), usize)];

/// The edges of a full grid of two columns and two rows.
const GRID: Lines<'static> = &[
    ((0, 0), (1, 0), 0),
    ((0, 0), (0, 1), 0),
    ((1, 0), (1, 1), 0),
    ((0, 1), (1, 1), 1),
];

/// Edges, and those of the tree that grows over them.
const GROWN: &[(Edges<'static>, Edges<'static>)] = &[
    (
        SEVEN,
        &[('a', 'e', 1), ('a', 'b', 3), ('b', 'c', 5), ('c', 'd', 2)],
    ),
    (
        NINE,
        &[
            ('a', 'b', 4),
            ('a', 'h', 8),
            ('h', 'g', 1),
            ('g', 'f', 2),
            ('f', 'c', 4),
            ('c', 'i', 2),
            ('c', 'd', 7),
            ('d', 'e', 9),
        ],
    ),
    (
        FIVE,
        &[('B', 'D', 4), ('D', 'E', 1), ('D', 'C', 2), ('C', 'A', 3)],
    ),
    (BACKWARDS, &[('a', 'c', 1), ('a', 'b', 5)]),
    // What is not joined to the start is left out.
    (&[('b', 'c', 1), ('d', 'e', 2)], &[('b', 'c', 1)]),
    (&[], &[]),
];

/// Whether `kruskal` chooses these edges, and none after them.
fn chooses(alloc: Global, edges: Edges<'_>, expected: Edges<'_>) -> bool {
    let Ok(mut chosen) = kruskal(alloc, edges) else {
        return false;
    };
    for edge in expected {
        if chosen.next() != Some((&edge.0, &edge.1, edge.2)) {
            return false;
        }
    }
    chosen.next().is_none() && chosen.next().is_none()
}

/// Whether `kruskal` chooses the edges of weight 0 of the grid, and no others.
fn chooses_the_first_row(alloc: Global) -> bool {
    let Ok(edges) = kruskal(alloc, GRID) else {
        return false;
    };
    let Ok(chosen) = edges.collect(alloc) else {
        return false;
    };
    let chosen: Vec<(&(usize, usize), &(usize, usize), usize)> = chosen;
    for edge in GRID {
        if chosen.contains(&(&edge.0, &edge.1, edge.2)) != (edge.2 == 0) {
            return false;
        }
    }
    chosen.len() == 3
}

/// Whether `prim` grows a tree of these edges.
fn grows(alloc: Global, edges: Edges<'_>, grown: Edges<'_>) -> bool {
    let Ok(tree) = prim(alloc, edges) else {
        return false;
    };
    for (edge, wanted) in tree.iter().zip(grown) {
        if *edge != (&wanted.0, &wanted.1, wanted.2) {
            return false;
        }
    }
    tree.len() == grown.len()
}

#[test]
fn spans_by_least_weights(rt: HostRuntime) {
    for (edges, chosen, total) in CHOSEN {
        assert!(rt; chooses(rt.alloc(), edges, chosen), "a sum of {total}");
        assert!(rt; spanning_weight(rt.alloc(), edges) == Ok(*total));
    }
    for (number, (edges, grown)) in GROWN.iter().enumerate() {
        assert!(rt; grows(rt.alloc(), edges, grown), "case {number}");
    }
    assert!(rt; spanning_weight(rt.alloc(), BELOW_ZERO) == Ok(-73));
    assert!(rt; spanning_weight(rt.alloc(), HEAVY) == Err(PathError::CostOverflow));
    assert!(rt; spanning_weight(rt.alloc(), PARALLEL) == Ok(1));
    assert!(rt; chooses_the_first_row(rt.alloc()));
    let unknown = kruskal_indices(rt.alloc(), 2, &[(0, 2, 1u32)]);
    assert!(rt; matches!(&unknown, Err(PathError::UnknownVertex)));
}
