//! Whether the sums of a row fit: where an end is left without a label, a cost overflow is answered.

ghost use Rattle.std.specs.Prelude.{◌≡◌, ◌+ℤ◌, ◌↔◌, ◌⊎◌, ⊤, ℕ, Contains, MatchBool, length};
ghost use Rattle.std.specs.List.Sorted.{IsNonDecreasingBy};
ghost use Rattle.pf_core.specs.declared.labels.Label.{Label};
ghost use Rattle.pf_core.specs.Labels.{HasLabel, IsReached};
ghost use Rattle.pf_core.specs.Sums.{joined_end};

use crate::slot::Slot;
use pf_base::Cost;

/// The end of the steps that were looked at last, and whether one of them reaches it.
#[derive(Clone, Copy)]
struct End {
    number: usize,
    is_reached: bool,
}

/// Does the number have a label?
fn is_labelled<C: Cost>(labels: &[Slot<C>], number: usize) -> bool
    ensures { MatchBool result
        ((m : Label C) × HasLabel labels.now number m × C.fits (C.value m.cost))
        ((m : Label C) → ¬ (HasLabel labels.now number m)) }
{
    if number >= labels.len() {
        return false;
    }
    match labels[number].label() {
        None => false,
        Some(label) => {
            label.cost.known();
            true
        }
    }
}

/// Does the sum of two costs fit?
fn fits<C: Cost>(cost: C, price: C) -> bool
    ensures { MatchBool result (C.fits (C.value cost +ℤ C.value price)) (¬ (C.fits (C.value cost +ℤ C.value price))) }
{
    cost.checked_add(&price).is_some()
}

/// Does the sum of this cost and that of each step of the row fit?
fn all_fit<C: Cost>(row: &[(usize, C)], cost: C) -> bool
    ensures { MatchBool result ((j : ℕ) (c : C) → Contains row.now (j, c) → C.fits (C.value cost +ℤ C.value c)) ⊤ }
{
    'steps: for (_, price) in row {
        if !fits(cost, *price) {
            return false;
        }
    }
    true
}

/// Has the end of a step a label, or does the sum fit?
fn is_reached_by<C: Cost>(labels: &[Slot<C>], cost: C, number: usize, price: C) -> bool
    ensures { MatchBool result
        (((m : Label C) × HasLabel labels.now number m × C.fits (C.value m.cost)) ⊎ C.fits (C.value cost +ℤ C.value price))
        (((m : Label C) → ¬ (HasLabel labels.now number m)) × (¬ (C.fits (C.value cost +ℤ C.value price)))) }
{
    fits(cost, price) || is_labelled(labels, number)
}

/// What is known once one step more, to this number, was looked at: `None` where the end before it is
/// not reached.
fn joined(last: Option<End>, number: usize, is_reached: bool) -> Option<End>
    ensures { result ≡ joined_end last number is_reached }
{
    let Some(end) = last else {
        return Some(End { number, is_reached });
    };
    if end.number == number {
        let is_reached = is_reached || end.is_reached;
        return Some(End { number, is_reached });
    }
    if end.is_reached {
        Some(End { number, is_reached })
    } else {
        None
    }
}

/// The same as `sums_fit`, of a row that is sorted by ends, so that steps to one end stand together.
fn ends_reached<C: Cost>(labels: &[Slot<C>], row: &[(usize, C)], cost: C) -> bool
    requires { IsNonDecreasingBy (λ (x : ℕ × C). x.0) row.now }
    ensures { MatchBool result
        ((j : ℕ) (c : C) → Contains row.now (j, c) → IsReached C.value C.fits labels.now row.now (C.value cost) j)
        ((j : ℕ) × (c : C) × Contains row.now (j, c) × ((m : Label C) → ¬ (HasLabel labels.now j m))
        × ((d : C) → Contains row.now (j, d) → ¬ (C.fits (C.value cost +ℤ C.value d)))) }
{
    let mut last: Option<End> = None;
    'steps: for (next, price) in row {
        let is_reached = is_reached_by(labels, cost, *next, *price);
        match joined(last, *next, is_reached) {
            Some(end) => last = Some(end),
            None => return false,
        }
    }
    match last {
        Some(end) => end.is_reached,
        None => true,
    }
}

/// Whether the end of each step of the row has a label, or the sum of this cost and that of some step
/// to it fits. Where some sum does not fit, the row is sorted by ends.
pub fn sums_fit<C: Cost>(labels: &[Slot<C>], row: &mut [(usize, C)], cost: C) -> bool
    ensures same { (x : ℕ × C) → Contains row.new x ↔ Contains row.old x }
    ensures len { length row.new ≡ length row.old }
    ensures reached { MatchBool result
        ((j : ℕ) (c : C) → Contains row.new (j, c) → IsReached C.value C.fits labels.now row.new (C.value cost) j)
        ((j : ℕ) × (c : C) × Contains row.new (j, c) × ((m : Label C) → ¬ (HasLabel labels.now j m))
        × ((d : C) → Contains row.new (j, d) → ¬ (C.fits (C.value cost +ℤ C.value d)))) }
{
    if all_fit(row, cost) {
        return true;
    }
    row.sort_unstable_by_key(|step| step.0);
    ends_reached(labels, row, cost)
}
