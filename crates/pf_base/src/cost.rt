//! Costs: whole numbers between a least and a greatest one.

ghost use Rattle.std.specs.Prelude.{◌≡◌, ◌↔◌, ◌≤ℤ◌, ◌+ℤ◌, ◌-ℤ◌, ℤ, pos, neg_ℤ, IfSome};
ghost use Rattle.pf_base.specs.Costs.{LiesBetween};

pub mod arithmetic;
mod signed;
mod unsigned;

pub use crate::error::PathError;
use num_traits::{CheckedAdd, Zero};

/// A cost stands for a whole number, `Self.value x`, between those of `least()` and `greatest()`.
///
/// Order and zero agree with that number, and `checked_add` is `Some` exactly where the sum of the
/// two numbers lies in the range. All integers of std are costs. An own type becomes one by
/// implementing this trait and its supertraits, with proofs of their laws.
pub trait Cost: Copy + Ord + Zero + CheckedAdd {
    // The least cost of the type.
    ghost least: { Self };

    // The greatest cost of the type.
    ghost greatest: { Self };

    /// The least cost of the type.
    fn least() -> Self
        ensures { result ≡ least };

    /// The greatest cost of the type.
    fn greatest() -> Self
        ensures { result ≡ greatest };

    /// Says that the number of a cost lies in the range of its type. The body is empty.
    fn known(self)
        ensures { Self.fits (Self.value self) };

    /// The difference of two costs, or `None` where it does not fit or the type does not find it. The
    /// integers of std find each one that fits (`exact`). An own type may leave this method out; `yen`
    /// then searches its classes without it.
    fn difference(self, other: Self) -> Option<Self>
        ensures { IfSome result (λ cost. Self.value cost +ℤ Self.value other ≡ Self.value self) }
    {
        None
    }

    // The whole numbers that fit are those between the least and the greatest.
    ghost range_law: { (z : ℤ) → Self.fits z ↔ LiesBetween (Self.value least) (Self.value greatest) z };
}

/// A cost with differences and negations, each under the condition that the result fits.
pub trait SignedCost: Cost {
    /// The difference of two costs.
    fn minus(self, other: Self) -> Self
        requires { Self.fits (Self.value self -ℤ Self.value other) }
        ensures { Self.value result ≡ Self.value self -ℤ Self.value other };

    /// The cost with the other sign.
    fn negated(self) -> Self
        requires { Self.fits (neg_ℤ (Self.value self)) }
        ensures { Self.value result ≡ neg_ℤ (Self.value self) };

    // The negation of every number from 0 up that fits does so too.
    ghost negation_law: { (z : ℤ) → Self.fits z → pos 0 ≤ℤ z → Self.fits (neg_ℤ z) };
}
