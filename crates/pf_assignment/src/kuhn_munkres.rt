//! Assignments of rows to columns of the greatest and of the least total.

ghost use Rattle.std.specs.Prelude.{◌≡◌, ◌≤◌, ◌+◌, ◌*◌, IfOk, IfErr};
ghost use Rattle.pf_base.specs.declared.error.PathError.TheVariants.{OutOfMemory};
ghost use Rattle.pf_assignment.specs.Assignments.{NumberTable, IsAssignment, IsBestAssignment, IsLeastAssignment, assignment_total, WeightsFit};

mod matching;
mod totals;
mod tree;
mod weights;

use crate::kuhn_munkres::matching::Matching;
use crate::kuhn_munkres::totals::total_of;
use crate::kuhn_munkres::tree::Tree;
pub use crate::kuhn_munkres::weights::{Weights, weights_fit};
use pf_base::{PathError, SignedCost, Tally};
use std::alloc::Allocator;

/// The greatest total of an assignment, and the column of each row, with one tick for each round.
///
/// It is `kuhn_munkres`; a round is the choice of one more column, and reads at most one row of the
/// table. There are at most as many rounds as the square of the number of rows. The tally never falls.
pub fn kuhn_munkres_tallied<C, W, A>(
    alloc: A,
    weights: &W,
    tally: &mut Tally,
) -> Result<(C, Vec<usize, A>), PathError>
where
    C: SignedCost,
    W: Weights<C>,
    A: Allocator + Copy,
    requires shape { (W.table weights.now).rows ≤ (W.table weights.now).columns }
    requires weights_fit { WeightsFit C.fits (W.table weights.now) }
    ensures assignment { IfOk result (λ answer. IsAssignment (W.table weights.now).rows (W.table weights.now).columns answer.1.items) }
    ensures total { IfOk result (λ answer. C.value answer.0 ≡ assignment_total (W.table weights.now) answer.1.items) }
    ensures best { IfOk result (λ answer. IsBestAssignment (W.table weights.now) answer.1.items) }
    ensures refused { IfErr result (λ e. e ≡ OutOfMemory) }
    ensures ticked { tally.old ≤ tally.new }
    ensures rounds { tally.new ≤ tally.old + (W.table weights.now).rows * (W.table weights.now).rows }
{
    let columns = weights.columns();
    let mut matching = Matching::new(alloc, columns)?;
    let mut tree = Tree::new(alloc, columns)?;
    for _row in 0..weights.rows() {
        matching.match_row(weights, &mut tree, tally)?;
    }
    let total = total_of(weights, &matching.column_of);
    Ok((total, matching.column_of))
}

/// The greatest total of an assignment, and the column of each row.
///
/// Each row has a column of its own, so there may be at most as many rows as columns, and
/// `weights_fit` has to be true of the weights. The total is the sum of the weights of the rows, each
/// at its column, and no assignment of the rows to columns has a greater one. Which of several best
/// assignments is answered is open. Of a table without rows the answer is zero and no columns.
///
/// The only error is `OutOfMemory`. Beside the table it takes memory for the rows and columns.
///
/// The rows are matched one after another by shortest augmenting paths over potentials (Kuhn 1955;
/// Munkres 1957; the form with shortest paths is Jonker and Volgenant 1987).
pub fn kuhn_munkres<C, W, A>(alloc: A, weights: &W) -> Result<(C, Vec<usize, A>), PathError>
where
    C: SignedCost,
    W: Weights<C>,
    A: Allocator + Copy,
    requires shape { (W.table weights.now).rows ≤ (W.table weights.now).columns }
    requires weights_fit { WeightsFit C.fits (W.table weights.now) }
    ensures assignment { IfOk result (λ answer. IsAssignment (W.table weights.now).rows (W.table weights.now).columns answer.1.items) }
    ensures total { IfOk result (λ answer. C.value answer.0 ≡ assignment_total (W.table weights.now) answer.1.items) }
    ensures best { IfOk result (λ answer. IsBestAssignment (W.table weights.now) answer.1.items) }
    ensures refused { IfErr result (λ e. e ≡ OutOfMemory) }
{
    kuhn_munkres_tallied(alloc, weights, &mut Tally::new())
}

/// The least total of an assignment, and the column of each row.
///
/// The rows, columns, refusals and conditions are those of `kuhn_munkres`: it is that of the negated
/// weights, and its total the negation of theirs.
pub fn kuhn_munkres_min<C, W, A>(alloc: A, weights: &W) -> Result<(C, Vec<usize, A>), PathError>
where
    C: SignedCost,
    W: Weights<C> + Drop,
    A: Allocator + Copy,
    requires shape { (W.table weights.now).rows ≤ (W.table weights.now).columns }
    requires weights_fit { WeightsFit C.fits (W.table weights.now) }
    ensures assignment { IfOk result (λ answer. IsAssignment (W.table weights.now).rows (W.table weights.now).columns answer.1.items) }
    ensures total { IfOk result (λ answer. C.value answer.0 ≡ assignment_total (W.table weights.now) answer.1.items) }
    ensures least { IfOk result (λ answer. IsLeastAssignment (W.table weights.now) answer.1.items) }
    ensures refused { IfErr result (λ e. e ≡ OutOfMemory) }
{
    let negated = weights.neg()?;
    let (total, columns) = kuhn_munkres(alloc, &negated)?;
    Ok((total.negated(), columns))
}
