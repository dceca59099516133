//! The positions of a matrix with their values.

ghost use Rattle.std.specs.Prelude.{◌≡◌};
ghost use Rattle.std.specs.Iterator.{YieldsFirstBy, item_count};
ghost use Rattle.pf_matrix.specs.Positions.{items_of};

use crate::matrix::Matrix;
use crate::matrix::keys::Keys;
use std::alloc::Allocator;
use std::marker::Model;
use std::slice;

/// Each position of a matrix with a reference to its value, the first row first. A contract sees
/// the list of the positions and values that are left.
#[derive(Drop)]
pub struct Items<'a, C> {
    keys: Keys,
    values: slice::Iter<'a, C>,
}

impl<'a, C> Model for Items<'a, C> {
    ghost use Rattle.std.specs.Prelude.{ℕ, List};
    ghost use Rattle.std.specs.List.{zip};
    ghost use Rattle.std.specs.Slice.Iter.{iter_rest};

    ghost Value = { List ((ℕ × ℕ) × C) };

    ghost view = { λ s. zip s.keys (iter_rest s.values) };
}

impl<C, A: Allocator> Matrix<C, A> {
    /// Each position with a reference to its value, the first row first.
    pub fn items(&self) -> Items<'_, C>
        ensures { result ≡ items_of self.now }
    {
        Items {
            keys: self.keys(),
            values: self.values(),
        }
    }
}

impl<'a, C> Iterator for Items<'a, C> {
    type Item = ((usize, usize), &'a C);

    ghost next_gives = { YieldsFirstBy (λ item. (item.0, item.1.now)) (λ items. items) };

    ghost remaining = { item_count (λ items. items) };

    fn next(&mut self) -> Option<((usize, usize), &'a C)> {
        let position = self.keys.next()?;
        let value = self.values.next()?;
        Some((position, value))
    }
}
