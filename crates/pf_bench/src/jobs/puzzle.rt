//! Searches for the solved 15-puzzle.

use crate::checks::cost_of;
use crate::inputs::{Tiles, estimate, moves_from, puzzle, solved};
use crate::repeats::{Outcome, Repeats};
use pf_informed::directed::astar::astar;
use pf_informed::directed::idastar::idastar;
use std::alloc::Global;

/// A search for the solved 15-puzzle.
pub enum PuzzleJob {
    Astar,
    Idastar,
}

impl PuzzleJob {
    /// Runs it from a state that is so many moves from the solved one.
    pub fn run(&self, alloc: Global, moves: usize, repeats: &Repeats) -> Outcome {
        let start = puzzle(moves);
        repeats.check(|is_last| self.call(alloc, &start, is_last))
    }

    /// Makes the call from a state.
    fn call(&self, alloc: Global, start: &Tiles, is_last: bool) -> Outcome {
        let goal = solved();
        let next = |tiles: &Tiles| moves_from(*tiles);
        let least = |tiles: &Tiles| estimate(tiles);
        let is_goal = |tiles: &Tiles| *tiles == goal;
        match self {
            PuzzleJob::Astar => cost_of(astar(alloc, start, next, least, is_goal), is_last),
            PuzzleJob::Idastar => cost_of(idastar(alloc, start, next, least, is_goal), is_last),
        }
    }
}
