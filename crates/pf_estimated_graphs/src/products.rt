//! Multiples of a cost.

ghost use Rattle.std.specs.Prelude.{◌≡◌, ◌≤ℤ◌, ◌+ℤ◌, ◌*ℤ◌, pos};
ghost use Rattle.std.specs.Int.{int_min};

use pf_base::Cost;

/// The sum of two costs, or the greatest cost of the type where that does not fit.
fn capped_sum<C: Cost>(left: C, right: C) -> C
    requires left { pos 0 ≤ℤ C.value left }
    requires right { pos 0 ≤ℤ C.value right }
    ensures { C.value result ≡ int_min (C.value left +ℤ C.value right) (C.value C.greatest) }
{
    left.known();
    match left.checked_add(&right) {
        Some(sum) => sum,
        None => C::greatest(),
    }
}

/// A cost so many times, or the greatest cost of the type where that does not fit.
///
/// It is found by doubling, in as many rounds as the number has bits. `nothing` is added for a bit that is
/// 0: the compiler makes a branch by the bits, which the processor seldom foresees, where it knows that a
/// sum stays the same.
pub(crate) fn capped_product<C: Cost>(cost: C, count: usize, nothing: C) -> C
    requires from_zero { pos 0 ≤ℤ C.value cost }
    requires nothing { C.value nothing ≡ pos 0 }
    ensures { C.value result ≡ int_min (pos count *ℤ C.value cost) (C.value C.greatest) }
{
    let mut product = C::zero();
    let mut double = cost;
    let mut left = count;
    'bits: while left > 0 {
        let part = if left % 2 == 1 { double } else { nothing };
        product = capped_sum(product, part);
        double = capped_sum(double, double);
        left /= 2;
    }
    product
}
