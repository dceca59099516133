//! Square roots of whole numbers.

ghost use Rattle.std.specs.Prelude.{◌≡◌, ◌≢◌, ◌+◌, ◌*◌, ◌/◌, ◌<◌, ◌≤◌, ◌^◌, ◌*ℤ◌, ℕ, ℤ, IfSome, IfNone, unsigned_abs};
ghost use Rattle.num_traits.specs.Laws.{bit_len};

use num_traits::{PrimInt, Unsigned};

/// The square root of `n`, where `n` is the square of a whole number.
///
/// It is found by the method of Heron of Alexandria (Metrica, first century), from a first value
/// of half as many bits as `n`. A caller at one of std's unsigned types has nothing to show.
pub fn uint_sqrt<T: PrimInt + Unsigned>(n: T) -> Option<T>
    requires in_range { T.fits (T.value n) }
    ensures found { IfSome result (λ root. T.value root *ℤ T.value root ≡ T.value n) }
    ensures none { IfNone result ((root : ℤ) → root *ℤ root ≢ T.value n) }
{
    if n.is_zero() {
        return Some(n);
    }
    let root = candidate(n);
    if root * root == n { Some(root) } else { None }
}

/// A number whose square is not above `n`. Where `n` is a square, it is the root.
fn candidate<T: PrimInt + Unsigned>(n: T) -> T
    requires in_range { T.fits (T.value n) }
    requires positive { 0 < unsigned_abs (T.value n) }
    ensures below { unsigned_abs (T.value result) * unsigned_abs (T.value result) ≤ unsigned_abs (T.value n) }
    ensures only { (root : ℕ) → root * root ≡ unsigned_abs (T.value n) → root ≡ unsigned_abs (T.value result) }
{
    let mut root = n >> half_length(n);
    let mut quotient = quotient_of(n, root);
    'steps: while quotient < root {
        root = middle(quotient, root);
        quotient = quotient_of(n, root);
    }
    root
}

/// Half of the place of the highest bit of `n`, rounded down.
fn half_length<T: PrimInt + Unsigned>(n: T) -> u32
    requires in_range { T.fits (T.value n) }
    requires positive { 0 < unsigned_abs (T.value n) }
    ensures square { 2 ^ (2 * result) ≤ unsigned_abs (T.value n) }
    ensures highest { unsigned_abs (T.value n) < 2 ^ (2 * result + 2) }
    ensures shifts { result < bit_len T.width }
{
    (T::zero().leading_zeros() - n.leading_zeros() - 1) / 2
}

fn quotient_of<T: PrimInt + Unsigned>(n: T, divisor: T) -> T
    requires n_in_range { T.fits (T.value n) }
    requires in_range { T.fits (T.value divisor) }
    requires positive { 0 < unsigned_abs (T.value divisor) }
    ensures in_range { T.fits (T.value result) }
    ensures quotient { unsigned_abs (T.value result) ≡ unsigned_abs (T.value n) / unsigned_abs (T.value divisor) }
{
    n / divisor
}

/// The number halfway between two numbers, rounded down.
fn middle<T: PrimInt + Unsigned>(low: T, high: T) -> T
    requires in_range { T.fits (T.value high) }
    requires order { unsigned_abs (T.value low) ≤ unsigned_abs (T.value high) }
    ensures in_range { T.fits (T.value result) }
    ensures middle { unsigned_abs (T.value result) ≡ (unsigned_abs (T.value low) + unsigned_abs (T.value high)) / 2 }
{
    low + ((high - low) >> 1)
}
