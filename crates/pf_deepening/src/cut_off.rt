//! Where ways are cut off at a limit.

ghost use Rattle.std.specs.Prelude.{◌≡◌, ◌⊎◌, ◌<◌, ◌≤ℤ◌, ◌<ℤ◌, ◌+ℤ◌, ℤ, pos, true, false, None, Some, MatchBool, MatchOption, length, slice_get};
ghost use Rattle.pf_deepening.specs.Ways.{IsCutOff};

use pf_base::Cost;
use std::alloc::Allocator;

/// What was cut off.
#[derive(Drop)]
pub struct CutOff<C> {
    /// The least sum of a cost and an estimate that was cut off.
    pub least: Option<C>,
    /// Whether some sum did not fit.
    pub past: bool,
}

/// Is a sum below the least one so far, or the first one?
fn is_below<C: Cost>(sum: C, least: Option<C>) -> bool
    ensures { MatchBool result
        ((n : C) → least ≡ Some n → C.value sum ≤ℤ C.value n)
        ((n : C) × (least ≡ Some n) × (C.value n ≤ℤ C.value sum)) }
{
    match least {
        Some(least) => sum < least,
        None => true,
    }
}

impl<C: Copy> CutOff<C> {
    /// Nothing was cut off yet.
    pub fn new() -> Self
        ensures least { result.least ≡ None }
        ensures past { result.past ≡ false }
    {
        CutOff {
            least: None,
            past: false,
        }
    }
}

impl<C: Cost> CutOff<C> {
    /// Notes a sum.
    fn put(&mut self, sum: C)
        ensures past { self.new.past ≡ self.old.past }
        ensures covered { (u : ℤ) → C.value sum ≤ℤ u → IsCutOff C.value C.fits self.new.least self.new.past u }
        ensures kept { (u : ℤ) → IsCutOff C.value C.fits self.old.least self.old.past u → IsCutOff C.value C.fits self.new.least self.new.past u }
        ensures from { (n : C) → self.new.least ≡ Some n → (self.old.least ≡ Some n) ⊎ (n ≡ sum) }
    {
        if is_below(sum, self.least) {
            self.least = Some(sum);
        }
    }
}

/// The cost at which the search goes on by a step, or `None` where the way is cut off: where its cost
/// and the estimate of the step's end are above the limit together, or do not fit.
pub fn admit<C: Cost>(
    limit: C,
    estimates: &[C],
    cost: C,
    step: (usize, C),
    cut_off: &mut CutOff<C>,
) -> Option<C>
    requires inside { step.0 < length estimates.now }
    requires cost { pos 0 ≤ℤ C.value cost }
    requires price { pos 0 ≤ℤ C.value step.1 }
    requires estimate { (h : C) → slice_get estimates.now step.0 ≡ Some h → pos 0 ≤ℤ C.value h }
    ensures entered { MatchOption result
        ((h : C) → slice_get estimates.now step.0 ≡ Some h → (u : ℤ) → (C.value cost +ℤ C.value step.1 +ℤ C.value h) ≤ℤ u → IsCutOff C.value C.fits cut_off.new.least cut_off.new.past u)
        (λ sum. (C.value sum ≡ C.value cost +ℤ C.value step.1) × ((h : C) → slice_get estimates.now step.0 ≡ Some h → (C.value sum +ℤ C.value h) ≤ℤ C.value limit)
        × (cut_off.new.least ≡ cut_off.old.least) × (cut_off.new.past ≡ cut_off.old.past)) }
    ensures kept { (u : ℤ) → IsCutOff C.value C.fits cut_off.old.least cut_off.old.past u → IsCutOff C.value C.fits cut_off.new.least cut_off.new.past u }
    ensures past { cut_off.new.past ≡ true → (cut_off.old.past ≡ true) ⊎ ((h : C) → slice_get estimates.now step.0 ≡ Some h → ¬ (C.fits (C.value cost +ℤ C.value step.1 +ℤ C.value h))) }
    ensures above { (n : C) → cut_off.new.least ≡ Some n → (cut_off.old.least ≡ Some n) ⊎ (C.value limit <ℤ C.value n) }
{
    let Some(cost) = cost.checked_add(&step.1) else {
        cut_off.past = true;
        return None;
    };
    let Some(sum) = cost.checked_add(&estimates[step.0]) else {
        cut_off.past = true;
        return None;
    };
    if sum <= limit {
        Some(cost)
    } else {
        cut_off.put(sum);
        None
    }
}
