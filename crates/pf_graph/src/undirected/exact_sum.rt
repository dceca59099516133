//! Sums of costs that are refused only where the whole sum does not fit.

ghost use Rattle.std.specs.Prelude.{◌≡◌, [], MatchOption};
ghost use Rattle.std.specs.List.Sorted.{IsSorted};
ghost use Rattle.pf_graph.specs.Internal.Spanning.SpanningSteps.{IsTaken, values_sum};

use pf_base::Cost;

/// A weight and the others: the last one, or else the first.
fn take_weight<C: Copy>(last: bool, weights: &[C]) -> Option<(C, &[C])>
    ensures { MatchOption result (weights.now ≡ []) (λ taken. IsTaken last taken.0 taken.1.now weights.now) }
{
    if last {
        match weights {
            [rest @ .., weight] => Some((*weight, rest)),
            [] => None,
        }
    } else {
        match weights {
            [weight, rest @ ..] => Some((*weight, rest)),
            [] => None,
        }
    }
}

/// The sum of weights that never fall, or `None` exactly where it does not fit.
///
/// The greatest weight that is left is added while the sum is below zero, and else the least one:
/// so a sum on the way leaves the range only where all weights that are left lead further away.
pub fn exact_sum<C: Cost>(weights: &[C]) -> Option<C>
    requires { IsSorted C.cmp weights.now }
    ensures { MatchOption result (¬ (C.fits (values_sum C.value weights.now))) (λ sum. C.value sum ≡ values_sum C.value weights.now) }
{
    let mut sum = C::zero();
    let mut left = weights;
    sum.known();
    'weights: while let Some(taken) = take_weight(sum < C::zero(), left) {
        taken.0.known();
        sum = sum.checked_add(&taken.0)?;
        sum.known();
        left = taken.1;
    }
    Some(sum)
}
