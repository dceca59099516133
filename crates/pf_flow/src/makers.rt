//! Stores that are filled with capacities.

ghost use Rattle.std.specs.Prelude.{◌≡◌, ◌⊎◌, ◌<◌, ◌*◌, ◌≤ℤ◌, ◌<ℤ◌, ◌+ℤ◌, ◌-ℤ◌, ℕ, pos, OnOk, IfOk, IfErr, MatchBool, length};
ghost use Rattle.pf_base.specs.declared.error.PathError.TheVariants.{OutOfMemory};
ghost use Rattle.num_traits.specs.Laws.{Checks};
ghost use Rattle.pf_residual.specs.Flows.{IsNonNegative, pair_sum};
ghost use Rattle.pf_base.specs.Sums.{sum_to};
ghost use Rattle.pf_residual.specs.Networks.{Network, KeepsShape, ChangesCapacity, HasCapacities, capacity_sum};
ghost use Rattle.pf_base.specs.Places.{number};
ghost use Rattle.pf_residual.specs.Capacities.{square_table, matrix_table, edge_table, AreRefused, AreTaken, IsChangeRefused, IsFirstFault};
ghost use Rattle.pf_residual.specs.Internal.Filling.{IsUnused};

use crate::edmonds_karp::Edge;
use pf_base::cost::arithmetic::is_below;
use pf_base::{PathError, SignedCost};
use pf_matrix::Matrix;
use pf_residual::store::FlowStore;
use std::alloc::Allocator;

/// A sum with a new cost in the place of an old one, if it fits.
pub fn exchanged<C: SignedCost>(sum: C, old: C, new: C) -> Option<C>
    requires old { pos 0 ≤ℤ C.value old }
    requires within { C.value old ≤ℤ C.value sum }
    ensures { Checks C.value C.fits ((C.value sum -ℤ C.value old) +ℤ C.value new) result }
{
    sum.known();
    sum.minus(old).checked_add(&new)
}

/// The difference of two costs that are not below zero.
fn difference<C: SignedCost>(new: C, old: C) -> C
    requires new { pos 0 ≤ℤ C.value new }
    requires old { pos 0 ≤ℤ C.value old }
    ensures { C.value result ≡ C.value new -ℤ C.value old }
{
    new.known();
    old.known();
    new.minus(old)
}

/// Puts a capacity in the place of that of a pair, in a store without flow. Given is the sum of all
/// capacities before, and answered that after.
pub fn put_capacity<C, S>(
    store: &mut S,
    sum: C,
    from: usize,
    to: usize,
    capacity: C,
) -> Result<C, PathError>
where
    C: SignedCost,
    S: FlowStore<C>,
    requires unused { IsUnused C.fits (S.network store.old) }
    requires sum { C.value sum ≡ capacity_sum (S.network store.old) }
    requires from { from < (S.network store.old).vertices }
    requires to { to < (S.network store.old).vertices }
    ensures unused { OnOk result (IsUnused C.fits (S.network store.new)) }
    ensures sum { IfOk result (λ sum. C.value sum ≡ capacity_sum (S.network store.new)) }
    ensures changed { OnOk result (ChangesCapacity from to (C.value capacity) (S.network store.old) (S.network store.new)) }
    ensures refused { IfErr result (IsChangeRefused C.fits (S.network store.old) from to (C.value capacity)) }
{
    if is_below(capacity, C::zero()) {
        return Err(PathError::NegativeCapacity);
    }
    let old = store.residual_capacity(from, to);
    let Some(sum) = exchanged(sum, old, capacity) else {
        return Err(PathError::CostOverflow);
    };
    capacity.known();
    store.make_room(from, to)?;
    store.add_residual_capacity(from, to, difference(capacity, old));
    Ok(sum)
}

/// Is some number below zero?
fn has_negative<C: SignedCost>(numbers: &[C]) -> bool
    ensures { MatchBool result ((k : ℕ) × (k < length numbers.now) × (number C.value numbers.now k <ℤ pos 0)) ((k : ℕ) → k < length numbers.now → pos 0 ≤ℤ number C.value numbers.now k) }
{
    'numbers: for number in numbers {
        if is_below(*number, C::zero()) {
            return true;
        }
    }
    false
}

/// Fills a store that has no capacities with those of a square, given by rows.
pub fn fill<C, S>(store: &mut S, capacities: &[C]) -> Result<(), PathError>
where
    C: SignedCost,
    S: FlowStore<C>,
    requires unused { IsUnused C.fits (S.network store.old) }
    requires none { HasCapacities (λ a b. pos 0) (S.network store.old) }
    requires square { length capacities.now ≡ (S.network store.old).vertices * (S.network store.old).vertices }
    ensures unused { OnOk result (IsUnused C.fits (S.network store.new)) }
    ensures shape { OnOk result (KeepsShape (S.network store.old) (S.network store.new)) }
    ensures capacities { OnOk result (HasCapacities (square_table C.value (S.network store.old).vertices capacities.now) (S.network store.new)) }
    ensures refused { IfErr result (AreRefused C.fits (S.network store.old).vertices (square_table C.value (S.network store.old).vertices capacities.now)) }
{
    if has_negative(capacities) {
        return Err(PathError::NegativeCapacity);
    }
    let size = store.size();
    let mut sum = C::zero();
    'places: for place in 0..capacities.len() {
        sum = put_capacity(store, sum, place / size, place % size, capacities[place])?;
    }
    Ok(())
}

/// Puts the capacities of edges in turn into a store that has none.
pub fn put_all<C, S>(store: &mut S, edges: &[Edge<usize, C>]) -> Result<(), PathError>
where
    C: SignedCost,
    S: FlowStore<C>,
    requires unused { IsUnused C.fits (S.network store.old) }
    requires none { HasCapacities (λ a b. pos 0) (S.network store.old) }
    ensures unused { OnOk result (IsUnused C.fits (S.network store.new)) }
    ensures shape { OnOk result (KeepsShape (S.network store.old) (S.network store.new)) }
    ensures taken { OnOk result (AreTaken C.value C.fits (S.network store.old).vertices (λ a b. pos 0) edges.now) }
    ensures capacities { OnOk result (HasCapacities (edge_table C.value edges.now) (S.network store.new)) }
    ensures refused { IfErr result (λ e. (e ≡ OutOfMemory) ⊎ IsFirstFault C.value C.fits (S.network store.old).vertices edges.now e) }
{
    let size = store.size();
    let mut sum = C::zero();
    'edges: for edge in edges {
        let ((from, to), capacity) = *edge;
        if from >= size || to >= size {
            return Err(PathError::UnknownVertex);
        }
        sum = put_capacity(store, sum, from, to, capacity)?;
    }
    Ok(())
}

/// The sum of numbers that are not below zero, if it fits.
fn sum_of<C: SignedCost>(numbers: &[C]) -> Option<C>
    requires { (k : ℕ) → k < length numbers.now → pos 0 ≤ℤ number C.value numbers.now k }
    ensures { Checks C.value C.fits (sum_to (number C.value numbers.now) (length numbers.now)) result }
{
    let mut sum = C::zero();
    'numbers: for number in numbers {
        let Some(more) = sum.checked_add(number) else {
            return None;
        };
        sum = more;
    }
    sum.known();
    Some(sum)
}

/// The sum of the capacities of a square.
pub fn sum_of_square<C: SignedCost, A: Allocator>(capacities: &Matrix<C, A>) -> Result<C, PathError>
    requires { capacities.now.rows ≡ capacities.now.columns }
    ensures above { OnOk result (IsNonNegative capacities.now.rows (matrix_table C.value capacities.now)) }
    ensures fits { OnOk result (C.fits (pair_sum capacities.now.rows (matrix_table C.value capacities.now))) }
    ensures sum { IfOk result (λ sum. C.value sum ≡ pair_sum capacities.now.rows (matrix_table C.value capacities.now)) }
    ensures refused { IfErr result (AreRefused C.fits capacities.now.rows (matrix_table C.value capacities.now)) }
{
    let numbers = capacities.as_slice();
    if has_negative(numbers) {
        return Err(PathError::NegativeCapacity);
    }
    match sum_of(numbers) {
        Some(sum) => Ok(sum),
        None => Err(PathError::CostOverflow),
    }
}
