//! Sums and comparisons of costs.

ghost use Rattle.std.specs.Prelude.{◌≡◌, ◌⊎◌, ◌+ℤ◌, ◌≤ℤ◌, ◌<ℤ◌, pos, MatchBool};

use crate::cost::Cost;

/// The sum of two costs.
pub fn plus<C: Cost>(left: C, right: C) -> C
    requires { C.fits (C.value left +ℤ C.value right) }
    ensures { C.value result ≡ C.value left +ℤ C.value right }
{
    left + right
}

/// Is the first cost below the second?
pub fn is_below<C: Cost>(left: C, right: C) -> bool
    ensures { MatchBool result (C.value left <ℤ C.value right) (C.value right ≤ℤ C.value left) }
{
    left < right
}

/// Is the cost below 0?
pub fn is_negative<C: Cost>(cost: C) -> bool
    ensures { MatchBool result (C.value cost <ℤ pos 0) (pos 0 ≤ℤ C.value cost) }
{
    cost < C::zero()
}

/// The lesser of two costs.
pub fn lesser<C: Cost>(left: C, right: C) -> C
    ensures lower { C.value result ≤ℤ C.value left }
    ensures also { C.value result ≤ℤ C.value right }
    ensures either { (C.value result ≡ C.value left) ⊎ (C.value result ≡ C.value right) }
{
    if is_below(left, right) { left } else { right }
}
