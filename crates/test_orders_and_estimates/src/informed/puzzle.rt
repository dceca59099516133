//! The positions of the 15-puzzle near the solved one, numbered, and the moves between them as a list
//! of edges.

use crate::informed::listed::{Edge, Task, all_cost};
use std::alloc::Global;
use test_allocator::Refusing;

/// The tiles row by row, 0 the blank.
type Tiles = [u8; 16];

/// The solved position.
const SOLVED: Tiles = [1, 2, 3, 4, 5, 6, 7, 8, 9, 10, 11, 12, 13, 14, 15, 0];

/// How many positions are 0, 1, 2 and up to 6 moves from the solved one, as published.
static POSITIONS: [usize; 7] = [1, 2, 4, 10, 24, 54, 107];

/// How many those are.
const PLACES: usize = 202;

/// The positions up to six moves from the solved one, each with its number of moves.
#[derive(Drop)]
struct Near {
    positions: [Tiles; PLACES],
    moves: [u8; PLACES],
    count: usize,
}

impl Near {
    /// The number of a position, which is added at so many moves where it is new and has a place.
    fn number(&mut self, position: Tiles, moves: u8) -> Option<usize> {
        let mut known = None;
        for (number, place) in self.positions.iter().enumerate().take(self.count) {
            if *place == position {
                known = Some(number);
            }
        }
        if known.is_none() && self.count < PLACES {
            self.positions[self.count] = position;
            self.moves[self.count] = moves;
            self.count += 1;
            return Some(self.count - 1);
        }
        known
    }
}

/// The cells beside a cell, or the cell itself beyond an edge.
fn beside(cell: usize) -> [usize; 4] {
    [
        if cell >= 4 { cell - 4 } else { cell },
        if cell < 12 { cell + 4 } else { cell },
        if cell % 4 > 0 { cell - 1 } else { cell },
        if cell % 4 < 3 && cell < 15 {
            cell + 1
        } else {
            cell
        },
    ]
}

/// The cell of the blank.
fn blank_of(position: Tiles) -> usize {
    position.iter().position(|tile| *tile == 0).unwrap_or(0)
}

/// The position with two cells exchanged.
fn exchanged(position: Tiles, first: usize, second: usize) -> Tiles {
    let mut next = position;
    if first < 16 && second < 16 {
        next[first] = position[second];
        next[second] = position[first];
    }
    next
}

/// How far the tiles are from their places by rows and columns, together.
fn far(position: Tiles) -> u8 {
    let mut sum = 0u8;
    for (tile, cell) in position.into_iter().zip(0..16u8) {
        if tile > 0 {
            let rows = ((tile - 1) / 4).abs_diff(cell / 4);
            let columns = ((tile - 1) % 4).abs_diff(cell % 4);
            sum = sum.saturating_add(rows).saturating_add(columns);
        }
    }
    sum
}

/// The positions up to six moves from the solved one, by walking their list, and the moves between
/// them, four from each; one to a position further away leads to where it came from.
fn near_solved() -> (Near, [Edge; 4 * PLACES]) {
    let mut near = Near {
        positions: [SOLVED; PLACES],
        moves: [0; PLACES],
        count: 1,
    };
    let mut edges = [(0, 0, 1); 4 * PLACES];
    for number in 0..PLACES {
        let position = near.positions[number];
        let moves = near.moves[number].saturating_add(1);
        let blank = blank_of(position);
        for (turn, cell) in beside(blank).into_iter().enumerate() {
            let next = exchanged(position, blank, cell);
            let to = near.number(next, moves).unwrap_or(number);
            if turn < 4 {
                edges[4 * number + turn] = (number, to, 1);
            }
        }
    }
    (near, edges)
}

/// How many positions are so many moves away.
fn count_at(near: &Near, moves: usize) -> usize {
    let mut count = 0usize;
    for found in &near.moves {
        if usize::from(*found) == moves {
            count = count.saturating_add(1);
        }
    }
    count
}

/// How far each position is from the solved one by the places of its tiles.
fn distances_in(near: &Near) -> [u8; PLACES] {
    let mut distances = [0u8; PLACES];
    for number in 0..PLACES {
        distances[number] = far(near.positions[number]);
    }
    distances
}

/// Whether the searches from a position take as many moves to the solved one.
fn agree(ample: Global, edges: &[Edge], distances: &[u8], from: usize, moves: u8) -> bool {
    let task = Task {
        edges,
        from,
        goals: (0, 0),
        estimates: distances,
        bounds: distances,
    };
    all_cost(&Refusing::new(ample), ample, &task, Some(moves))
}

#[test]
fn first_positions_are_as_far_as_their_list_says(rt: HostRuntime) {
    let (near, edges) = near_solved();
    for (moves, positions) in POSITIONS.iter().enumerate() {
        assert!(rt; count_at(&near, moves) == *positions, "{moves} moves");
    }
    let distances = distances_in(&near);
    for (number, moves) in near.moves.iter().enumerate() {
        assert!(rt;
            agree(rt.alloc(), &edges, &distances, number, *moves),
            "{number}"
        );
    }
}
