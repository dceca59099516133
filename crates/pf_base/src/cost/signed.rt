//! The signed integers of std as costs.

ghost use Rattle.std.specs.Prelude.{◌-◌, ◌-ℤ◌, ◌^◌, pos, negsuc, FitsSigned};
ghost use Rattle.std.specs.Option.{SomeIff};
ghost use Rattle.std.specs.Int.{w8, w16, w32, w64, w128};
ghost use Rattle.num_traits.specs.Ints.{signed-bounds};
ghost use Rattle.pf_base.specs.Costs.{signed-negation_fits};

use crate::cost::{Cost, SignedCost};

impl Cost for i8 {
    ghost least = { negsuc (2 ^ (8 - 1) - 1) };

    ghost greatest = { pos (2 ^ (8 - 1) - 1) };

    fn least() -> i8 {
        i8::MIN
    }

    fn greatest() -> i8 {
        i8::MAX
    }

    fn known(self) {}

    fn difference(self, other: i8) -> Option<i8>
        ensures exact { SomeIff result (FitsSigned w8 (self -ℤ other)) (self -ℤ other) }
    {
        i8::checked_sub(self, other)
    }

    ghost range_law = { signed-bounds w8 };
}

impl SignedCost for i8 {
    fn minus(self, other: i8) -> i8 {
        self - other
    }

    fn negated(self) -> i8 {
        -self
    }

    ghost negation_law = { signed-negation_fits w8 };
}

impl Cost for i16 {
    ghost least = { negsuc (2 ^ (16 - 1) - 1) };

    ghost greatest = { pos (2 ^ (16 - 1) - 1) };

    fn least() -> i16 {
        i16::MIN
    }

    fn greatest() -> i16 {
        i16::MAX
    }

    fn known(self) {}

    fn difference(self, other: i16) -> Option<i16>
        ensures exact { SomeIff result (FitsSigned w16 (self -ℤ other)) (self -ℤ other) }
    {
        i16::checked_sub(self, other)
    }

    ghost range_law = { signed-bounds w16 };
}

impl SignedCost for i16 {
    fn minus(self, other: i16) -> i16 {
        self - other
    }

    fn negated(self) -> i16 {
        -self
    }

    ghost negation_law = { signed-negation_fits w16 };
}

impl Cost for i32 {
    ghost least = { negsuc (2 ^ (32 - 1) - 1) };

    ghost greatest = { pos (2 ^ (32 - 1) - 1) };

    fn least() -> i32 {
        i32::MIN
    }

    fn greatest() -> i32 {
        i32::MAX
    }

    fn known(self) {}

    fn difference(self, other: i32) -> Option<i32>
        ensures exact { SomeIff result (FitsSigned w32 (self -ℤ other)) (self -ℤ other) }
    {
        i32::checked_sub(self, other)
    }

    ghost range_law = { signed-bounds w32 };
}

impl SignedCost for i32 {
    fn minus(self, other: i32) -> i32 {
        self - other
    }

    fn negated(self) -> i32 {
        -self
    }

    ghost negation_law = { signed-negation_fits w32 };
}

impl Cost for i64 {
    ghost least = { negsuc (2 ^ (64 - 1) - 1) };

    ghost greatest = { pos (2 ^ (64 - 1) - 1) };

    fn least() -> i64 {
        i64::MIN
    }

    fn greatest() -> i64 {
        i64::MAX
    }

    fn known(self) {}

    fn difference(self, other: i64) -> Option<i64>
        ensures exact { SomeIff result (FitsSigned w64 (self -ℤ other)) (self -ℤ other) }
    {
        i64::checked_sub(self, other)
    }

    ghost range_law = { signed-bounds w64 };
}

impl SignedCost for i64 {
    fn minus(self, other: i64) -> i64 {
        self - other
    }

    fn negated(self) -> i64 {
        -self
    }

    ghost negation_law = { signed-negation_fits w64 };
}

impl Cost for i128 {
    ghost least = { negsuc (2 ^ (128 - 1) - 1) };

    ghost greatest = { pos (2 ^ (128 - 1) - 1) };

    fn least() -> i128 {
        i128::MIN
    }

    fn greatest() -> i128 {
        i128::MAX
    }

    fn known(self) {}

    fn difference(self, other: i128) -> Option<i128>
        ensures exact { SomeIff result (FitsSigned w128 (self -ℤ other)) (self -ℤ other) }
    {
        i128::checked_sub(self, other)
    }

    ghost range_law = { signed-bounds w128 };
}

impl SignedCost for i128 {
    fn minus(self, other: i128) -> i128 {
        self - other
    }

    fn negated(self) -> i128 {
        -self
    }

    ghost negation_law = { signed-negation_fits w128 };
}

impl Cost for isize {
    ghost least = { negsuc (2 ^ (64 - 1) - 1) };

    ghost greatest = { pos (2 ^ (64 - 1) - 1) };

    fn least() -> isize {
        isize::MIN
    }

    fn greatest() -> isize {
        isize::MAX
    }

    fn known(self) {}

    fn difference(self, other: isize) -> Option<isize>
        ensures exact { SomeIff result (FitsSigned w64 (self -ℤ other)) (self -ℤ other) }
    {
        isize::checked_sub(self, other)
    }

    ghost range_law = { signed-bounds w64 };
}

impl SignedCost for isize {
    fn minus(self, other: isize) -> isize {
        self - other
    }

    fn negated(self) -> isize {
        -self
    }

    ghost negation_law = { signed-negation_fits w64 };
}
