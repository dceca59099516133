//! A cost type of one's own: the minutes of a day. It shows what such a type needs.
//!
//! `num_traits` gives each cost the whole number that it stands for, `value`, and the numbers that
//! fit the type, `fits`; `Cost` adds the least and the greatest cost. An own type says what these
//! are, and proves that order, zero and sums agree with the whole numbers. The proofs stand in
//! `specs/MinuteLaws.antt`, since an `impl` cites them.

ghost use Rattle.std.specs.Prelude.{◌≡◌, ◌≢◌, ◌+◌, ◌<◌, ⊤, pos, refl};
ghost use Rattle.std.proofs.Common.{ap, lit<};
ghost use Rattle.num_traits.specs.Ints.{unsigned-eq, unsigned-order};
ghost use Rattle.num_traits.specs.Laws.{Checks};
ghost use Rattle.test_hostile_use.specs.MinuteLaws.{FitsDay, wrap_day, FitsDay-between, wrap_day-same, FitsDay-wrap, FitsDay-range};

use num_traits::{CheckedAdd, Integral, Number, Zero};
use pf_base::Cost;
use std::ops::Add;

/// A time of less than a day, in minutes: 0 to 1439.
#[derive(Clone, Copy, PartialEq, Eq, PartialOrd, Ord, Debug)]
pub struct Minutes {
    pub minutes: u16,
    ghost within: { minutes < 1440 },
}

// The number of a value, the numbers that fit, and the laws that tie `==` and `<` to them.
impl Number for Minutes {
    ghost exact = { ⊤ };

    ghost value = { λ m. pos m.minutes };

    ghost fits = { FitsDay };

    ghost nonzero = { λ z. z ≢ pos 0 };

    ghost wrap = { wrap_day };

    ghost eq_law = { λ a b _. unsigned-eq a.minutes b.minutes };

    ghost order_law = { λ a b _. unsigned-order a.minutes b.minutes };

    ghost between_law = { λ x y z _. FitsDay-between x y z };

    ghost nonzero_law = { λ x _. λ _. ((λ h. h), (λ h. h)) };
}

// A whole number, not a float: each value has exactly one number.
impl Integral for Minutes {
    ghost exact_law = { tt };

    ghost wrap_law = { wrap_day-same };

    ghost wrap_fits_law = { FitsDay-wrap };
}

// `+` is for sums that are known to fit.
impl Add<Minutes> for Minutes {
    type Output = Minutes;

    ghost can_add = { λ a b. a.minutes + b.minutes < 1440 };

    ghost add_gives = { λ a b r. r.minutes ≡ a.minutes + b.minutes };

    fn add(self, other: Minutes) -> Minutes {
        Minutes {
            minutes: self.minutes + other.minutes,
        }
    }
}

impl Zero for Minutes {
    ghost zero = { record { minutes = 0; within = lit< tt } };

    fn zero() -> Minutes {
        Minutes { minutes: 0 }
    }

    fn is_zero(&self) -> bool {
        self.minutes == 0
    }

    ghost zero_law = { λ _. refl };

    ghost zero_fits_law = { λ _. lit< tt };

    ghost can_add_law = { λ a b h. h tt };

    ghost add_law = { λ a b r h _ _. ap pos h };
}

// `checked_add` is `Some` of the sum exactly where the sum fits.
impl CheckedAdd for Minutes {
    ghost checked_add_gives = { λ a b r. Checks (λ m. pos m.minutes) FitsDay (pos (a.minutes + b.minutes)) r };

    fn checked_add(&self, other: &Minutes) -> Option<Minutes> {
        let minutes = self.minutes + other.minutes;
        if minutes < 1440 {
            Some(Minutes { minutes })
        } else {
            None
        }
    }

    ghost checked_add_law = { λ a b r h. h };
}

impl Cost for Minutes {
    ghost least = { record { minutes = 0; within = lit< tt } };

    ghost greatest = { record { minutes = 1439; within = lit< tt } };

    fn least() -> Minutes {
        Minutes { minutes: 0 }
    }

    fn greatest() -> Minutes {
        Minutes { minutes: 1439 }
    }

    fn known(self) {}

    ghost range_law = { FitsDay-range };
}
