//! Coordinates: whole numbers whose differences place the vertices of a grid.

ghost use Rattle.std.specs.Prelude.{◌≡◌, ℤ, Bool, if◌then◌else◌, None};
ghost use Rattle.std.specs.Ordering.{int_cmp};
ghost use Rattle.pf_grid.specs.Coordinates.{offset, size_of};

mod signed;
mod unsigned;

/// A coordinate stands for a whole number, `Self.value x`, and is ordered by it. All integers of std
/// are coordinates. An own type becomes one by implementing this trait, with a proof of its law.
pub trait Coordinate: Copy + Ord {
    // The whole number that a coordinate stands for.
    ghost value: { Self → ℤ };

    /// How far this coordinate is from the least one, or `None` where it is below that, or where the
    /// difference does not fit `usize`.
    fn offset_from(self, least: Self) -> Option<usize>
        ensures { result ≡ offset (value self) (value least) };

    // The order is that of the whole numbers.
    ghost order_law: { (a b : Self) → Self.cmp a b ≡ int_cmp (value a) (value b) };
}

/// The distance of two coordinates as a number of columns or rows, where the first is not below the
/// second and the distance fits.
fn offset(is_below: bool, distance: u128) -> Option<usize>
    ensures { result ≡ (if is_below then None else size_of distance) }
{
    if is_below || distance > usize::MAX as u128 {
        None
    } else {
        Some(distance as usize)
    }
}
