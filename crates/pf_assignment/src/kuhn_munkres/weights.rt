//! Tables of weights.

ghost use Rattle.std.specs.Prelude.{◌≡◌, ◌⊎◌, ◌↔◌, ◌<◌, ◌*◌, ◌+◌, ◌+ℤ◌, ◌≤ℤ◌, ℕ, ℤ, pos, neg_ℤ, IsTrue, IfOk, IfErr, length};
ghost use Rattle.pf_base.specs.declared.error.PathError.TheVariants.{OutOfMemory};
ghost use Rattle.pf_base.specs.Places.{number};
ghost use Rattle.pf_assignment.specs.Assignments.{NumberTable, IsNegatedTable, IsGreatestWeight, WeightsFit};
ghost use Rattle.pf_assignment.specs.Internal.AssignmentSteps.{IsBeyond, IsEither, IsExact};

use pf_base::cost::arithmetic::is_below;
use pf_base::{Cost, PathError, SignedCost};
use pf_matrix::Matrix;
use std::alloc::Allocator;

/// A table of numbers: a weight for each row and column.
///
/// A contract sees it as `Self.table`, its sizes and the number of each weight.
pub trait Weights<C: SignedCost>: Sized {
    // The sizes, and the number of the weight at each row and column.
    ghost table: { Self → NumberTable };

    /// The number of rows.
    fn rows(&self) -> usize
        ensures { result ≡ (table self.now).rows };

    /// The number of columns.
    fn columns(&self) -> usize
        ensures { result ≡ (table self.now).columns };

    /// The weight at a row and a column of the table.
    fn at(&self, row: usize, column: usize) -> C
        requires row { row < (table self.now).rows }
        requires column { column < (table self.now).columns }
        ensures { C.value result ≡ (table self.now).at row column };

    /// The table of the negations, each of which has to fit. The only error is `OutOfMemory`.
    fn neg(&self) -> Result<Self, PathError>
        requires { (r c : ℕ) → r < (table self.now).rows → c < (table self.now).columns → C.fits (neg_ℤ ((table self.now).at r c)) }
        ensures negated { IfOk result (λ negated. IsNegatedTable (table self.now) (table negated)) }
        ensures refused { IfErr result (λ e. e ≡ OutOfMemory) };
}

impl<C: SignedCost, A: Allocator + Copy> Weights<C> for Matrix<C, A> {
    ghost table = { λ m. record { rows = m.rows; columns = m.columns; at = λ r c. number C.value m.values (r * m.columns + c) } };

    fn rows(&self) -> usize {
        self.rows()
    }

    fn columns(&self) -> usize {
        self.columns()
    }

    fn at(&self, row: usize, column: usize) -> C {
        let place = self.idx((row, column));
        self.as_slice()[place]
    }

    fn neg(&self) -> Result<Self, PathError> {
        let mut negated = self.clone()?;
        write_negations(negated.as_mut_slice(), self.as_slice());
        Ok(negated)
    }
}

/// Overwrites numbers with the negations of others.
fn write_negations<C: SignedCost>(target: &mut [C], source: &[C])
    requires len { length target.old ≡ length source.now }
    requires fits { (k : ℕ) → k < length source.now → C.fits (neg_ℤ (number C.value source.now k)) }
    ensures { (k : ℕ) → k < length source.now → number C.value target.new k ≡ neg_ℤ (number C.value source.now k) }
{
    for k in 0..source.len() {
        target[k] = source[k].negated();
    }
}

/// The number or its negation, whichever is not above zero: that one fits, whatever the number is.
fn lowered<C: SignedCost>(weight: C) -> C
    ensures low { C.value result ≤ℤ pos 0 }
    ensures same { (C.value result ≡ C.value weight) ⊎ (C.value result ≡ neg_ℤ (C.value weight)) }
{
    if is_below(weight, C::zero()) {
        weight
    } else {
        weight.known();
        weight.negated()
    }
}

/// The lesser of two numbers.
fn lesser<C: Cost>(left: C, right: C) -> C
    ensures left { C.value result ≤ℤ C.value left }
    ensures right { C.value result ≤ℤ C.value right }
    ensures one { (C.value result ≡ C.value left) ⊎ (C.value result ≡ C.value right) }
{
    if is_below(right, left) { right } else { left }
}

/// The least of a number and of the lowered weights of a row.
fn least_of_row<C: SignedCost, W: Weights<C>>(weights: &W, row: usize, least: C) -> C
    requires row { row < (W.table weights.now).rows }
    ensures lower { C.value result ≤ℤ C.value least }
    ensures each { (c : ℕ) → c < (W.table weights.now).columns → IsBeyond (C.value result) ((W.table weights.now).at row c) }
    ensures reached { (C.value result ≡ C.value least) ⊎ ((c : ℕ) × (c < (W.table weights.now).columns) × IsEither (C.value result) ((W.table weights.now).at row c)) }
{
    let mut least = least;
    for column in 0..weights.columns() {
        least = lesser(least, lowered(weights.at(row, column)));
    }
    least
}

/// The negation of the greatest absolute weight, or zero where there is no weight.
fn least_weight<C: SignedCost, W: Weights<C>>(weights: &W) -> C
    ensures { (w : ℕ) × IsGreatestWeight (W.table weights.now) w × (C.value result ≡ neg_ℤ (pos w)) }
{
    let mut least = C::zero();
    if weights.columns() == 0 {
        return least;
    }
    for row in 0..weights.rows() {
        least = least_of_row(weights, row, least);
    }
    least
}

/// The negation of a number that is not above zero, if it fits.
fn absolute<C: SignedCost>(least: C) -> Option<C>
    requires { C.value least ≤ℤ pos 0 }
    ensures { IsExact C.value C.fits (neg_ℤ (C.value least)) result }
{
    match C::greatest().checked_add(&least) {
        Some(left) => {
            if is_below(left, C::zero()) {
                None
            } else {
                Some(least.negated())
            }
        }
        None => None,
    }
}

/// The sum of a total and two times a weight, if it fits.
fn two_more<C: Cost>(total: C, weight: C) -> Option<C>
    requires total { pos 0 ≤ℤ C.value total }
    requires weight { pos 0 ≤ℤ C.value weight }
    ensures { IsExact C.value C.fits (C.value total +ℤ C.value weight +ℤ C.value weight) result }
{
    match total.checked_add(&weight) {
        Some(sum) => sum.checked_add(&weight),
        None => None,
    }
}

/// Four times a number from zero up, if it fits.
fn four_times<C: Cost>(weight: C) -> Option<C>
    requires { pos 0 ≤ℤ C.value weight }
    ensures { IsExact C.value C.fits (C.value weight +ℤ C.value weight +ℤ C.value weight +ℤ C.value weight) result }
{
    match two_more(C::zero(), weight) {
        Some(double) => two_more(double, weight),
        None => None,
    }
}

/// Does (2 * rows + 4) times a number from zero up fit?
fn multiple_fits<C: Cost>(weight: C, rows: usize) -> bool
    requires { pos 0 ≤ℤ C.value weight }
    ensures { (w : ℕ) → C.value weight ≡ pos w → IsTrue result ↔ C.fits (pos ((2 * rows + 4) * w)) }
{
    let Some(mut total) = four_times(weight) else {
        return false;
    };
    for _row in 0..rows {
        match two_more(total, weight) {
            Some(more) => total = more,
            None => return false,
        }
    }
    true
}

/// Whether the numbers of `kuhn_munkres` fit: is (2 * rows + 4) times the greatest absolute weight in
/// the range of the type, and its negation too? It is true of a table without weights. It takes no
/// memory.
pub fn weights_fit<C: SignedCost, W: Weights<C>>(weights: &W) -> bool
    ensures { IsTrue result ↔ WeightsFit C.fits (W.table weights.now) }
{
    let least = least_weight(weights);
    if least.is_zero() {
        return true;
    }
    match absolute(least) {
        Some(greatest) => multiple_fits(greatest, weights.rows()),
        None => false,
    }
}
