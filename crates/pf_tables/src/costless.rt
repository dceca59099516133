//! The cost of an edge that has none.

ghost use Rattle.std.specs.Prelude.{◌≡◌, ◌≢◌, ⊤, pos, refl};
ghost use Rattle.num_traits.specs.Laws.{Checks};
ghost use Rattle.pf_base.specs.Costs.{LiesBetween};
ghost use Rattle.pf_tables.specs.Internal.CostlessLaws.{only_zero, zero_fits, only_between};

use num_traits::{CheckedAdd, Integral, Number, Zero};
use pf_base::Cost;
use std::ops::Add;

/// A cost without size: its only value stands for 0. An unweighted table is a graph of these.
#[derive(Clone, Copy, PartialEq, Eq, PartialOrd, Ord, Debug)]
pub struct Costless;

impl Number for Costless {
    ghost exact = { ⊤ };

    ghost value = { λ _. pos 0 };

    ghost fits = { LiesBetween (pos 0) (pos 0) };

    ghost nonzero = { λ z. z ≢ pos 0 };

    ghost wrap = { λ _. pos 0 };

    ghost eq_law = { λ a b _. ((λ _. refl), (λ _. refl)) };

    ghost order_law = { λ a b _. refl };

    ghost between_law = { λ x y z _ f g low high. only_between x y z f g low high };

    ghost nonzero_law = { λ x _. λ _. ((λ h. h), (λ h. h)) };
}

impl Integral for Costless {
    ghost exact_law = { tt };

    ghost wrap_law = { only_zero };

    ghost wrap_fits_law = { λ _. zero_fits };
}

// The sum of two costs of 0 is 0.
impl Add<Costless> for Costless {
    type Output = Costless;

    ghost can_add = { λ _ _. ⊤ };

    ghost add_gives = { λ _ _ _. ⊤ };

    fn add(self, _other: Costless) -> Costless {
        Costless
    }
}

impl Zero for Costless {
    ghost zero = { record {} };

    fn zero() -> Costless {
        Costless
    }

    fn is_zero(&self) -> bool {
        true
    }

    ghost zero_law = { λ _. refl };

    ghost zero_fits_law = { λ _. zero_fits };

    ghost can_add_law = { λ a b h. tt };

    ghost add_law = { λ a b r h _ _. refl };
}

impl CheckedAdd for Costless {
    ghost checked_add_gives = { λ a b r. Checks (λ _. pos 0) (LiesBetween (pos 0) (pos 0)) (pos 0) r };

    fn checked_add(&self, _other: &Costless) -> Option<Costless> {
        Some(Costless)
    }

    ghost checked_add_law = { λ a b r h. h };
}

impl Cost for Costless {
    ghost least = { record {} };

    ghost greatest = { record {} };

    fn least() -> Costless {
        Costless
    }

    fn greatest() -> Costless {
        Costless
    }

    fn known(self) {}

    ghost range_law = { λ z. ((λ h. h), (λ h. h)) };
}
