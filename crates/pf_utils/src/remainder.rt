//! Remainders that are not negative.

ghost use Rattle.std.specs.Prelude.{◌≡◌, ◌<◌, ℤ, pos, ◌+ℤ◌, ◌*ℤ◌};
ghost use Rattle.std.specs.Int.{int_rem_euclid};

/// The remainder of `value` by `upper` that is not negative: from 0 up to `upper - 1`.
///
/// It is exact for each `isize` and each `usize` above 0.
pub fn constrain(value: isize, upper: usize) -> usize
    requires above_zero { 0 < upper }
    ensures below { result < upper }
    ensures congruent { (turns : ℤ) × (value ≡ pos result +ℤ turns *ℤ pos upper) }
    ensures remainder { pos result ≡ int_rem_euclid value (pos upper) }
{
    // The number before 0, -1, has the remainder `upper - 1`. `!value` is `-1 - value`, which fits
    // also at `isize::MIN`.
    if value < 0 {
        upper - 1 - !value as usize % upper
    } else {
        value as usize % upper
    }
}
