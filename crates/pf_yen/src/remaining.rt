//! What remains from each number to a goal.

ghost use Rattle.std.specs.Prelude.{◌≡◌, ◌⊎◌, ◌≤ℤ◌, ◌<◌, ◌+ℤ◌, ⊤, true, ℕ, Some, Contains, slice_get, length, IfOk, IfErr, IfSome, MatchOption};
ghost use Rattle.pf_yen.specs.Internal.Remaining.{IsLeastFrom, AreRemaining};

use crate::adjacency::Adjacency;
use crate::backward::costs_to_goals;
use pf_base::{Cost, PathError};
use std::alloc::Allocator;

/// What these costs say of a number: nothing, where they are too few.
pub fn cost_at<C: Cost>(costs: &[Option<C>], number: usize) -> Option<C>
    ensures { MatchOption result ((y : C) → ¬ (slice_get costs.now number ≡ Some (Some y))) (λ y. slice_get costs.now number ≡ Some (Some y)) }
{
    if number >= costs.len() {
        return None;
    }
    costs[number]
}

/// The lesser of two costs, where there is a first one.
pub fn lesser<C: Cost>(least: Option<C>, sum: C) -> C
    ensures { (C.value result ≤ℤ C.value sum) × IfSome least (λ x. C.value result ≤ℤ C.value x) × ((result ≡ sum) ⊎ (least ≡ Some result)) }
{
    match least {
        Some(cost) if cost < sum => cost,
        _ => sum,
    }
}

/// The least over these steps of the step and what remains behind it: `None` inside where nothing
/// remains known behind a step, and `None` where some sum does not fit.
fn least_on<C: Cost>(row: &[(usize, C)], costs: &[Option<C>]) -> Option<Option<C>>
    ensures { IfSome result (λ least. (b : ℕ) (c y : C) → Contains row.now (b, c) → slice_get costs.now b ≡ Some (Some y)
        → (x : C) × (least ≡ Some x) × (C.value x ≤ℤ (C.value c +ℤ C.value y)) × C.fits (C.value c +ℤ C.value y)) }
{
    let mut least = None;
    'steps: for (next, price) in row {
        if let Some(rest) = cost_at(costs, *next) {
            let sum = price.checked_add(&rest)?;
            least = Some(lesser(least, sum));
        }
    }
    Some(least)
}

/// What remains from a number, where these costs remain from the others.
fn least_from<C: Cost, A: Allocator>(
    adjacency: &Adjacency<C, A>,
    costs: &[Option<C>],
    number: usize,
) -> Option<Option<C>>
    requires { number < length adjacency.now.rows }
    ensures { IfSome result (λ least. IsLeastFrom C.value C.fits adjacency.now costs.now number least) }
{
    if adjacency.is_goal(number) {
        return Some(Some(C::zero()));
    }
    least_on(adjacency.row(number), costs)
}

/// Is there such a cost, and no more than this one, if there is one?
fn is_within<C: Cost>(here: Option<C>, least: Option<C>) -> bool
    ensures { result ≡ true → (y : C) → least ≡ Some y → (x : C) × (here ≡ Some x) × (C.value x ≤ℤ C.value y) }
{
    let Some(least) = least else {
        return true;
    };
    match here {
        Some(here) => !(least < here),
        None => false,
    }
}

/// Do these costs agree with each other?
fn are_settled<C: Cost, A: Allocator>(adjacency: &Adjacency<C, A>, costs: &[Option<C>]) -> bool
    requires { length costs.now ≡ length adjacency.now.rows }
    ensures { result ≡ true → AreRemaining C.value C.fits adjacency.now costs.now }
{
    'numbers: for number in 0..adjacency.len() {
        let Some(least) = least_from(adjacency, costs, number) else {
            return false;
        };
        if !is_within(costs[number], least) {
            return false;
        }
    }
    true
}

/// What remains from each number to a goal, or `None` where some sum does not fit. A search backwards
/// finds the costs, and they are compared with each step.
pub fn remaining_costs<C: Cost, A: Allocator + Copy>(
    alloc: A,
    adjacency: &Adjacency<C, A>,
) -> Result<Option<Vec<Option<C>, A>>, PathError>
    ensures known { IfOk result (λ known. MatchOption known ⊤ (λ costs. AreRemaining C.value C.fits adjacency.now costs.items)) }
    ensures refused { IfErr result (λ e. e ≡ PathError.OutOfMemory) }
{
    let Some(costs) = costs_to_goals(alloc, adjacency)? else {
        return Ok(None);
    };
    if are_settled(adjacency, &costs) {
        Ok(Some(costs))
    } else {
        Ok(None)
    }
}
