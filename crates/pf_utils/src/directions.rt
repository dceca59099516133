//! Moves over a board of rows and columns.

ghost use Rattle.std.specs.Prelude.{◌≡◌, ◌+◌, ℕ, IfSome, IfNone, slice_get, length};
ghost use Rattle.std.specs.Iterator.{YieldsFirst, item_count};
ghost use Rattle.pf_base.specs.Moves.{Finds, IsMove, times};
ghost use Rattle.pf_utils.specs.Internal.CoordinateSteps.{IsCoordinateStep};

use std::marker::Model;

/// The position that is reached from `start` by one step in `direction`, on a board of
/// `dimensions` (rows, columns).
///
/// It is `None` where `start` is outside, where the direction is (0, 0) and where the position
/// is outside. It is exact for all coordinates, directions and dimensions.
pub fn move_in_direction(
    start: (usize, usize),
    direction: (isize, isize),
    dimensions: (usize, usize),
) -> Option<(usize, usize)>
    ensures { Finds (IsMove start direction dimensions) result }
{
    if direction == (0, 0) || start.0 >= dimensions.0 || start.1 >= dimensions.1 {
        return None;
    }
    let row = moved(start.0, direction.0, dimensions.0)?;
    let column = moved(start.1, direction.1, dimensions.1)?;
    Some((row, column))
}

/// The coordinate that is reached by one step, where it is below `size`.
fn moved(from: usize, step: isize, size: usize) -> Option<usize>
    ensures { Finds (IsCoordinateStep from step size) result }
{
    let to = from.checked_add_signed(step)?;
    if to < size { Some(to) } else { None }
}

/// The positions that are reached from `start` by one step, two steps and so on in `direction`,
/// as long as they are inside a board of `dimensions` (rows, columns). `start` is not among them.
///
/// There are none where `start` is outside and where the direction is (0, 0). They are exact for
/// all coordinates, directions and dimensions.
pub fn in_direction(
    start: (usize, usize),
    direction: (isize, isize),
    dimensions: (usize, usize),
) -> InDirection
    ensures { (k : ℕ) → Finds (IsMove start (times (k + 1) direction) dimensions) (slice_get result k) }
{
    InDirection {
        last: start,
        direction,
        dimensions,
    }
}

/// The positions of a ray over a board, as [`in_direction`] gives them. A contract sees the list
/// of those that are left. After the last one it answers `None` for good.
#[derive(Clone, Debug, Drop)]
pub struct InDirection {
    last: (usize, usize),
    direction: (isize, isize),
    dimensions: (usize, usize),
}

impl Model for InDirection {
    ghost use Rattle.std.specs.Prelude.{List, ℕ};
    ghost use Rattle.pf_base.specs.Moves.{ray};

    ghost Value = { List (ℕ × ℕ) };

    ghost view = { λ s. ray s.last s.direction s.dimensions };
}

impl Iterator for InDirection {
    type Item = (usize, usize);

    ghost next_gives = { YieldsFirst (λ s. s) };

    ghost remaining = { item_count (λ s. s) };

    fn next(&mut self) -> Option<(usize, usize)> {
        let target = move_in_direction(self.last, self.direction, self.dimensions)?;
        self.last = target;
        Some(target)
    }
}
