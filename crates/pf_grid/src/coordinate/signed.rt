//! The signed integers of std as coordinates.

ghost use Rattle.std.specs.Prelude.{refl};

use crate::coordinate::{Coordinate, offset};

impl Coordinate for i8 {
    ghost value = { λ z. z };

    ghost order_law = { λ a b. refl };

    fn offset_from(self, least: i8) -> Option<usize> {
        offset(self < least, self.abs_diff(least) as u128)
    }
}

impl Coordinate for i16 {
    ghost value = { λ z. z };

    ghost order_law = { λ a b. refl };

    fn offset_from(self, least: i16) -> Option<usize> {
        offset(self < least, self.abs_diff(least) as u128)
    }
}

impl Coordinate for i32 {
    ghost value = { λ z. z };

    ghost order_law = { λ a b. refl };

    fn offset_from(self, least: i32) -> Option<usize> {
        offset(self < least, self.abs_diff(least) as u128)
    }
}

impl Coordinate for i64 {
    ghost value = { λ z. z };

    ghost order_law = { λ a b. refl };

    fn offset_from(self, least: i64) -> Option<usize> {
        offset(self < least, self.abs_diff(least) as u128)
    }
}

impl Coordinate for i128 {
    ghost value = { λ z. z };

    ghost order_law = { λ a b. refl };

    fn offset_from(self, least: i128) -> Option<usize> {
        offset(self < least, self.abs_diff(least))
    }
}

impl Coordinate for isize {
    ghost value = { λ z. z };

    ghost order_law = { λ a b. refl };

    fn offset_from(self, least: isize) -> Option<usize> {
        offset(self < least, self.abs_diff(least) as u128)
    }
}
