//! The positions of a matrix by rows.

ghost use Rattle.std.specs.Prelude.{◌≡◌, ◌*◌, ◌^◌, ◌<◌, length};
ghost use Rattle.std.specs.Iterator.{YieldsFirst, item_count};
ghost use Rattle.pf_matrix.specs.Positions.{positions, positions_of};

use crate::matrix::Matrix;
use std::alloc::Allocator;
use std::marker::Model;

/// The positions of a matrix of some sizes, the first row first. It borrows nothing. A contract
/// sees the list of the positions that are left.
#[derive(Drop)]
pub struct Keys {
    row: usize,
    column: usize,
    rows: usize,
    columns: usize,
}

impl Model for Keys {
    ghost use Rattle.std.specs.Prelude.{◌≡◌, ℕ, ◌+◌, ◌*◌, ◌<◌, ◌≤◌, List, drop};
    ghost use Rattle.pf_matrix.specs.Internal.AtKey.{IsAtKey};
    ghost use Rattle.pf_matrix.specs.Positions.{positions};

    ghost Value = { List (ℕ × ℕ) };

    ghost view = { λ s. drop (s.row * s.columns + s.column) (positions s.rows s.columns) };

    ghost invariant = { λ s. IsAtKey s.row s.column s.rows s.columns };
}

impl<C, A: Allocator> Matrix<C, A> {
    /// The positions, the first row first. What is added to the matrix later is not among them.
    pub fn keys(&self) -> Keys
        ensures keys { result ≡ positions_of self.now }
        ensures len { length result ≡ self.now.rows * self.now.columns }
        ensures bound { length result < 2 ^ 64 }
    {
        Keys::of(self.rows, self.columns)
    }
}

impl Keys {
    pub(super) fn of(rows: usize, columns: usize) -> Keys
        requires { 0 < rows → 0 < columns }
        ensures { result ≡ positions rows columns }
    {
        Keys {
            row: 0,
            column: 0,
            rows,
            columns,
        }
    }
}

impl Iterator for Keys {
    type Item = (usize, usize);

    ghost next_gives = { YieldsFirst (λ keys. keys) };

    ghost remaining = { item_count (λ keys. keys) };

    fn next(&mut self) -> Option<(usize, usize)> {
        if self.row == self.rows {
            return None;
        }
        let position = (self.row, self.column);
        if self.column + 1 == self.columns {
            self.row += 1;
            self.column = 0;
        } else {
            self.column += 1;
        }
        Some(position)
    }
}
