//! Worked examples of paths with fewest edges.

use crate::both_ends::fewest_between_in_pairs;
use crate::fewest::{Found, deepened_in_pairs, fewest_in_pairs};
use crate::tests::answers::is_path;
use pf_node_refs::NodeRefs;
use std::alloc::{AllocError, Global};
use test_allocator::Refusing;

/// The field of a chess board at a column and a row, each from 0 to 7.
fn field(column: u8, row: u8) -> u8 {
    column.wrapping_mul(8).wrapping_add(row)
}

/// Adds the knight's moves between the fields, each in both directions.
fn add_knight_moves(moves: &mut Vec<(u8, u8)>) -> Result<(), AllocError> {
    for x in 0..8u8 {
        for y in 0..8u8 {
            for (right, up) in [(1, 2), (2, 1)] {
                let (far, high) = (x + right, y + up);
                if far < 8 && high < 8 {
                    moves.extend_from_slice(&[
                        (field(x, y), field(far, high)),
                        (field(far, high), field(x, y)),
                        (field(far, y), field(x, high)),
                        (field(x, high), field(far, y)),
                    ])?;
                }
            }
        }
    }
    Ok(())
}

/// Whether these are five fields, the first and the last of which are these.
fn lead(fields: &[u8], from: u8, to: u8) -> bool {
    fields.len() == 5 && fields.first().copied() == Some(from) && fields.last().copied() == Some(to)
}

/// Whether the answer is a way of five fields from one field to another.
fn is_way(answer: Found<'_>, from: u8, to: u8) -> bool {
    match &answer {
        Ok(Some(fields)) => lead(fields, from, to),
        _ => false,
    }
}

/// Whether each search answers a way of five fields.
fn are_ways(alloc: Global, moves: &[(u8, u8)], from: u8, to: u8) -> bool {
    let heap = Refusing::new(alloc);
    match (
        &NodeRefs::from_one(alloc, &from),
        &NodeRefs::from_one(alloc, &to),
    ) {
        (Ok(starts), Ok(ends)) => {
            is_way(fewest_in_pairs(&heap, moves, starts, &[to]), from, to)
                && is_way(deepened_in_pairs(&heap, moves, from, to), from, to)
                && is_way(
                    fewest_between_in_pairs(&heap, moves, starts, ends),
                    from,
                    to,
                )
        }
        _ => false,
    }
}

#[test]
fn a_knight_needs_four_moves(rt: HostRuntime) {
    let mut moves = Vec::new(rt.alloc());
    add_knight_moves(&mut moves).expect(&rt, "memory");
    assert!(rt; moves.len() == 336 && are_ways(rt.alloc(), &moves, field(1, 1), field(4, 6)));
}

/// Edges that follow one another.
const CHAIN: &[(u8, u8)] = &[(1, 2), (2, 3), (3, 4), (4, 5)];

/// From 1 over 2, 4 and 7 to 10, and over 3 and 8 with one edge less. The way back from 10 meets 4 first
/// where it leaves out half of a level.
const TWO_WAYS: &[(u8, u8)] = &[
    (1, 2),
    (1, 3),
    (2, 4),
    (2, 5),
    (2, 6),
    (4, 7),
    (7, 10),
    (3, 8),
    (8, 10),
];

/// Edges, starts and ends, and the only path with fewest edges.
type Ways = (
    &'static [(u8, u8)],
    &'static [u8],
    &'static [u8],
    Option<&'static [u8]>,
);

const WAYS: &[Ways] = &[
    (CHAIN, &[1], &[5], Some(&[1, 2, 3, 4, 5])),
    (CHAIN, &[1, 2], &[4, 5], Some(&[2, 3, 4])),
    (TWO_WAYS, &[1], &[10], Some(&[1, 3, 8, 10])),
    // A start that is an end is a path alone.
    (CHAIN, &[1, 3], &[4, 3], Some(&[3])),
    // No walk leads against the edges, nor to a node that stands in no edge.
    (CHAIN, &[5], &[1], None),
    (CHAIN, &[1, 2], &[6], None),
    (CHAIN, &[], &[1], None),
    (CHAIN, &[1], &[], None),
];

/// Whether both searches answer the path of a row.
fn are_nearest(alloc: Global, row: &Ways) -> bool {
    let heap = Refusing::new(alloc);
    let (edges, from, to, want) = *row;
    match (
        &NodeRefs::from_nodes(alloc, from),
        &NodeRefs::from_nodes(alloc, to),
    ) {
        (Ok(starts), Ok(ends)) => {
            is_path(fewest_in_pairs(&heap, edges, starts, to), want)
                && is_path(fewest_between_in_pairs(&heap, edges, starts, ends), want)
        }
        _ => false,
    }
}

#[test]
fn the_nearest_start_and_end_are_taken(rt: HostRuntime) {
    for (number, row) in WAYS.iter().enumerate() {
        assert!(rt; are_nearest(rt.alloc(), row), "row {number}");
    }
}
