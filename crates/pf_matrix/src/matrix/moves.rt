//! Steps over the positions of a matrix.

ghost use Rattle.std.specs.Prelude.{◌≡◌, ◌+◌, ◌<◌, ℕ, pos, slice_get};
ghost use Rattle.std.specs.Int.{int_rem_euclid};
ghost use Rattle.pf_base.specs.Moves.{Finds, IsMove, times};

use crate::matrix::Matrix;
use pf_utils::InDirection;
use std::alloc::Allocator;

impl<C, A: Allocator> Matrix<C, A> {
    /// The position inside that has the remainder of the row by the number of rows, and that of the
    /// column by the number of columns. Both sizes have to be above 0.
    pub fn constrain(&self, position: (isize, isize)) -> (usize, usize)
        requires rows { 0 < self.now.rows }
        requires columns { 0 < self.now.columns }
        ensures inside { (result.0 < self.now.rows) × (result.1 < self.now.columns) }
        ensures row { pos result.0 ≡ int_rem_euclid position.0 (pos self.now.rows) }
        ensures column { pos result.1 ≡ int_rem_euclid position.1 (pos self.now.columns) }
    {
        (
            pf_utils::constrain(position.0, self.rows),
            pf_utils::constrain(position.1, self.columns),
        )
    }

    /// The position that is reached from `start` by one step in `direction`, where both are inside
    /// and the direction is not (0, 0).
    pub fn move_in_direction(
        &self,
        start: (usize, usize),
        direction: (isize, isize),
    ) -> Option<(usize, usize)>
        ensures { Finds (IsMove start direction (self.now.rows, self.now.columns)) result }
    {
        pf_utils::move_in_direction(start, direction, (self.rows, self.columns))
    }

    /// The positions that are reached from `start` by one step, two steps and so on in `direction`,
    /// as long as they are inside. It borrows nothing, and what is added to the matrix later is not
    /// among them.
    pub fn in_direction(&self, start: (usize, usize), direction: (isize, isize)) -> InDirection
        ensures { (k : ℕ) → Finds (IsMove start (times (k + 1) direction) (self.now.rows, self.now.columns)) (slice_get result k) }
    {
        pf_utils::in_direction(start, direction, (self.rows, self.columns))
    }
}
