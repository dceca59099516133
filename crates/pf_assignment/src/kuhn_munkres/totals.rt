//! The total of an assignment.

ghost use Rattle.std.specs.Prelude.{◌≡◌, length};
ghost use Rattle.pf_assignment.specs.Assignments.{NumberTable, IsAssignment, assignment_total, WeightsFit};

use crate::kuhn_munkres::weights::Weights;
use pf_base::SignedCost;
use pf_base::cost::arithmetic::plus;

/// The sum of the weights of the rows, each at its column.
pub fn total_of<C, W>(weights: &W, column_of: &[usize]) -> C
where
    C: SignedCost,
    W: Weights<C>,
    requires weights_fit { WeightsFit C.fits (W.table weights.now) }
    requires assignment { IsAssignment (W.table weights.now).rows (W.table weights.now).columns column_of.now }
    ensures { C.value result ≡ assignment_total (W.table weights.now) column_of.now }
{
    let mut total = C::zero();
    for row in 0..weights.rows() {
        total = plus(total, weights.at(row, column_of[row]));
    }
    total
}
