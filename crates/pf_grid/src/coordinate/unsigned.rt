//! The unsigned integers of std as coordinates.

ghost use Rattle.std.specs.Prelude.{pos};
ghost use Rattle.pf_grid.specs.Internal.Orders.{unsigned_order};

use crate::coordinate::{Coordinate, offset};

impl Coordinate for u8 {
    ghost value = { λ n. pos n };

    ghost order_law = { unsigned_order };

    fn offset_from(self, least: u8) -> Option<usize> {
        offset(self < least, self.abs_diff(least) as u128)
    }
}

impl Coordinate for u16 {
    ghost value = { λ n. pos n };

    ghost order_law = { unsigned_order };

    fn offset_from(self, least: u16) -> Option<usize> {
        offset(self < least, self.abs_diff(least) as u128)
    }
}

impl Coordinate for u32 {
    ghost value = { λ n. pos n };

    ghost order_law = { unsigned_order };

    fn offset_from(self, least: u32) -> Option<usize> {
        offset(self < least, self.abs_diff(least) as u128)
    }
}

impl Coordinate for u64 {
    ghost value = { λ n. pos n };

    ghost order_law = { unsigned_order };

    fn offset_from(self, least: u64) -> Option<usize> {
        offset(self < least, self.abs_diff(least) as u128)
    }
}

impl Coordinate for u128 {
    ghost value = { λ n. pos n };

    ghost order_law = { unsigned_order };

    fn offset_from(self, least: u128) -> Option<usize> {
        offset(self < least, self.abs_diff(least))
    }
}

impl Coordinate for usize {
    ghost value = { λ n. pos n };

    ghost order_law = { unsigned_order };

    fn offset_from(self, least: usize) -> Option<usize> {
        offset(self < least, self.abs_diff(least) as u128)
    }
}
