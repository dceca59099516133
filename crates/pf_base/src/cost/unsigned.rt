//! The unsigned integers of std as costs.

ghost use Rattle.std.specs.Prelude.{◌-◌, ◌≤◌, ◌^◌};
ghost use Rattle.std.specs.Option.{SomeIff};
ghost use Rattle.num_traits.specs.Ints.{unsigned-bounds};

use crate::cost::Cost;

impl Cost for u8 {
    ghost least = { 0 };

    ghost greatest = { 2 ^ 8 - 1 };

    fn least() -> u8 {
        0
    }

    fn greatest() -> u8 {
        u8::MAX
    }

    fn known(self) {}

    fn difference(self, other: u8) -> Option<u8>
        ensures exact { SomeIff result (other ≤ self) (self - other) }
    {
        u8::checked_sub(self, other)
    }

    ghost range_law = { unsigned-bounds 8 };
}

impl Cost for u16 {
    ghost least = { 0 };

    ghost greatest = { 2 ^ 16 - 1 };

    fn least() -> u16 {
        0
    }

    fn greatest() -> u16 {
        u16::MAX
    }

    fn known(self) {}

    fn difference(self, other: u16) -> Option<u16>
        ensures exact { SomeIff result (other ≤ self) (self - other) }
    {
        u16::checked_sub(self, other)
    }

    ghost range_law = { unsigned-bounds 16 };
}

impl Cost for u32 {
    ghost least = { 0 };

    ghost greatest = { 2 ^ 32 - 1 };

    fn least() -> u32 {
        0
    }

    fn greatest() -> u32 {
        u32::MAX
    }

    fn known(self) {}

    fn difference(self, other: u32) -> Option<u32>
        ensures exact { SomeIff result (other ≤ self) (self - other) }
    {
        u32::checked_sub(self, other)
    }

    ghost range_law = { unsigned-bounds 32 };
}

impl Cost for u64 {
    ghost least = { 0 };

    ghost greatest = { 2 ^ 64 - 1 };

    fn least() -> u64 {
        0
    }

    fn greatest() -> u64 {
        u64::MAX
    }

    fn known(self) {}

    fn difference(self, other: u64) -> Option<u64>
        ensures exact { SomeIff result (other ≤ self) (self - other) }
    {
        u64::checked_sub(self, other)
    }

    ghost range_law = { unsigned-bounds 64 };
}

impl Cost for u128 {
    ghost least = { 0 };

    ghost greatest = { 2 ^ 128 - 1 };

    fn least() -> u128 {
        0
    }

    fn greatest() -> u128 {
        u128::MAX
    }

    fn known(self) {}

    fn difference(self, other: u128) -> Option<u128>
        ensures exact { SomeIff result (other ≤ self) (self - other) }
    {
        u128::checked_sub(self, other)
    }

    ghost range_law = { unsigned-bounds 128 };
}

impl Cost for usize {
    ghost least = { 0 };

    ghost greatest = { 2 ^ 64 - 1 };

    fn least() -> usize {
        0
    }

    fn greatest() -> usize {
        usize::MAX
    }

    fn known(self) {}

    fn difference(self, other: usize) -> Option<usize>
        ensures exact { SomeIff result (other ≤ self) (self - other) }
    {
        usize::checked_sub(self, other)
    }

    ghost range_law = { unsigned-bounds 64 };
}
