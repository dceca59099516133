//! A table of one's own for `kuhn_munkres`: rows of scores.

ghost use Rattle.std.specs.Prelude.{◌≡◌, IfOk, IfSome};
ghost use Rattle.pf_assignment.specs.Assignments.{IsBestAssignment, assignment_total};
ghost use Rattle.test_grids_and_trees.specs.Scores.{score_table};

use pf_assignment::kuhn_munkres::{Weights, kuhn_munkres, weights_fit};
use pf_base::PathError;
use std::alloc::Allocator;

/// What each player scores at each of three positions, or the negations of that.
#[derive(Drop)]
pub struct Scores<'a> {
    pub rows: &'a [[i32; 3]],
    pub negated: bool,
}

impl Weights<i64> for Scores<'_> {
    ghost use Rattle.test_grids_and_trees.specs.Scores.{score_table};

    ghost table = { λ s. score_table s.negated s.rows.now };

    fn rows(&self) -> usize {
        self.rows.len()
    }

    fn columns(&self) -> usize {
        3
    }

    fn at(&self, row: usize, column: usize) -> i64 {
        let score = i64::from(self.rows[row][column]);
        if self.negated { -score } else { score }
    }

    fn neg(&self) -> Result<Self, PathError> {
        Ok(Scores {
            rows: self.rows,
            negated: !self.negated,
        })
    }
}

/// A position for each player, so that they score the most together, and what they score. There is
/// none where there are more players than positions, or where the scores may not fit.
pub fn best_lineup<A: Allocator + Copy>(
    alloc: A,
    scores: &Scores<'_>,
) -> Result<Option<(i64, Vec<usize, A>)>, PathError>
    ensures best { IfOk result (λ answer. IfSome answer (λ lineup. IsBestAssignment (score_table scores.now.negated scores.now.rows.now) lineup.1.items)) }
    ensures total { IfOk result (λ answer. IfSome answer (λ lineup. lineup.0 ≡ assignment_total (score_table scores.now.negated scores.now.rows.now) lineup.1.items)) }
{
    if scores.rows() > scores.columns() || !weights_fit(scores) {
        return Ok(None);
    }
    let lineup = kuhn_munkres(alloc, scores)?;
    Ok(Some(lineup))
}
