//! Assignments, turns and floods of a table.

ghost use Rattle.std.specs.Prelude.{◌≡◌, ◌<◌};

use crate::checks::size_of;
use crate::error::BenchError;
use crate::inputs::table;
use crate::repeats::{Outcome, Repeats};
use pf_assignment::kuhn_munkres::{kuhn_munkres, kuhn_munkres_min, weights_fit};
use pf_base::PathError;
use pf_matrix::{Matrix, MatrixFormatError};
use std::alloc::Global;

/// An assignment.
pub enum AssignmentJob {
    Greatest,
    Least,
}

impl AssignmentJob {
    /// Runs it on the input of this size.
    pub fn run(&self, alloc: Global, size: usize, repeats: &Repeats) -> Outcome
        requires { 0 < size }
    {
        let table = table(alloc, size)?;
        self.repeat(alloc, &table, repeats)
    }

    /// Makes the call on a table so often.
    fn repeat(&self, alloc: Global, table: &Matrix<i64>, repeats: &Repeats) -> Outcome
        requires { table.now.rows ≡ table.now.columns }
    {
        match self {
            AssignmentJob::Greatest if weights_fit(table) => {
                repeats.check(|is_last| total_of(kuhn_munkres(alloc, table), is_last))
            }
            AssignmentJob::Least if weights_fit(table) => {
                repeats.check(|is_last| total_of(kuhn_munkres_min(alloc, table), is_last))
            }
            _ => Err(BenchError::TooLarge),
        }
    }
}

/// The total of an assignment.
fn total_of(found: Result<(i64, Vec<usize>), PathError>, is_last: bool) -> Outcome {
    match &found {
        Ok(answer) if is_last => Ok(u64::try_from(answer.0).ok()),
        Ok(_) => Ok(None),
        Err(fault) => Err(BenchError::Path(*fault)),
    }
}

/// A turn or a flood of a table.
pub enum TableJob {
    Rotate,
    Transpose,
    Bfs,
    Dfs,
}

impl TableJob {
    /// Runs it on the input of this size. A flood begins at the first open position.
    pub fn run(&self, alloc: Global, size: usize, repeats: &Repeats) -> Outcome
        requires { 0 < size }
    {
        let table = table(alloc, size)?;
        let start = first_open(&table);
        repeats.check(|is_last| self.call(&table, start, is_last))
    }

    /// Makes the call on a table.
    fn call(&self, table: &Matrix<i64>, start: (usize, usize), is_last: bool) -> Outcome
        requires { 0 < table.now.rows }
    {
        let is_passable = |position: (usize, usize)| table.get(position).is_some_and(is_open);
        match self {
            TableJob::Rotate => first_row(table.rotated_cw(1), is_last),
            TableJob::Transpose => first_row(table.transposed(), is_last),
            TableJob::Bfs => size_of(table.bfs_reachable(start, false, is_passable), is_last),
            TableJob::Dfs => size_of(table.dfs_reachable(start, false, is_passable), is_last),
        }
    }
}

/// Whether a number is no multiple of 4.
fn is_open(value: &i64) -> bool {
    *value % 4 != 0
}

/// The first position, row by row, whose number is open, or the first of all.
fn first_open(table: &Matrix<i64>) -> (usize, usize) {
    for (position, value) in table.items() {
        if is_open(value) {
            return position;
        }
    }
    (0, 0)
}

/// The sum of the first row.
fn first_row(turned: Result<Matrix<i64>, MatrixFormatError>, is_last: bool) -> Outcome {
    match &turned {
        Ok(table) if is_last => Ok(sum_of_first_row(table)),
        Ok(_) => Ok(None),
        Err(fault) => Err(BenchError::Matrix(*fault)),
    }
}

/// The sum of the first row, where there is one and the sum is not below 0.
fn sum_of_first_row(table: &Matrix<i64>) -> Option<u64> {
    let mut sum = 0i64;
    for value in table.iter().next()? {
        sum = sum.wrapping_add(*value);
    }
    u64::try_from(sum).ok()
}
