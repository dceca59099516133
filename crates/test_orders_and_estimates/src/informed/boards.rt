//! Boards of 8 by 8 heights, over the numbers of their cells, against a plain program.

use crate::informed::listed::{Call, Edge, Task, all_cost, searched};
use std::alloc::Global;
use test_allocator::Refusing;

/// The cells of a board of 8 by 8.
const CELLS: usize = 64;

/// The greatest height that is entered.
const BOUND: u8 = 6;

/// The cells beside one on a board of 8 by 8, or the cell itself beyond an edge.
fn beside(cell: usize) -> [usize; 4] {
    [
        if cell % 8 < 7 && cell < CELLS {
            cell + 1
        } else {
            cell
        },
        if cell < CELLS - 8 { cell + 8 } else { cell },
        if cell % 8 > 0 { cell - 1 } else { cell },
        if cell >= 8 { cell - 8 } else { cell },
    ]
}

/// How many steps lead from the first cell to the last, or `CELLS` where none do, by trying all steps
/// from all cells as often as there are cells.
fn steps_to_last(heights: &[u8; 64]) -> usize {
    let mut steps = [CELLS; 64];
    steps[0] = 0;
    for _ in 0..CELLS {
        for cell in 0..CELLS {
            for next in beside(cell) {
                if next < CELLS
                    && heights[next] <= BOUND
                    && steps[cell] < CELLS
                    && steps[cell] + 1 < steps[next]
                {
                    steps[next] = steps[cell] + 1;
                }
            }
        }
    }
    steps[63]
}

/// Whether the searches, led by the Manhattan distance, take this many steps from the first cell to
/// the last, or find no way where there are `CELLS`. There `idastar` would go along every path, and is
/// left out.
fn agree(ample: Global, heights: &[u8; 64], steps: usize) -> bool {
    let mut edges: [Edge; 4 * CELLS] = [(63, 63, 1); 4 * CELLS];
    let mut distances = [0u8; 64];
    for cell in 0..CELLS {
        distances[cell] = 14 - (cell / 8 + cell % 8) as u8;
        for (turn, next) in beside(cell).into_iter().enumerate() {
            if turn < 4 && next < CELLS && heights[next] <= BOUND {
                edges[4 * cell + turn] = (cell, next, 1);
            }
        }
    }
    let task = Task {
        edges: &edges,
        from: 0,
        goals: (63, 63),
        estimates: &distances,
        bounds: &distances,
    };
    let heap = Refusing::new(ample);
    if steps < CELLS {
        all_cost(&heap, ample, &task, Some(steps as u8))
    } else {
        let by_astar = searched(&heap, ample, Call::Astar, &task, &[]);
        by_astar == Some(Ok(None)) && searched(&heap, ample, Call::Fringe, &task, &[]) == by_astar
    }
}

#[test]
fn searches_take_as_many_steps_as_a_plain_program(rt: HostRuntime) {
    let mut state = 1u64;
    let mut ways = 0u32;
    for board in 0..100u32 {
        let mut heights = [0u8; 64];
        for cell in 1..63 {
            state = state
                .wrapping_mul(6364136223846793005)
                .wrapping_add(1442695040888963407);
            heights[cell] = 1 + ((state >> 33) % 9) as u8;
        }
        let steps = steps_to_last(&heights);
        if steps < CELLS {
            ways = ways.saturating_add(1);
        }
        assert!(rt; agree(rt.alloc(), &heights, steps), "board {board}");
    }
    assert!(rt; ways == 44);
}
