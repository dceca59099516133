//! The positions of a matrix with their values, for writing.

ghost use Rattle.std.specs.Prelude.{◌≡◌};
ghost use Rattle.std.specs.Borrow.{sem};
ghost use Rattle.std.specs.Iterator.{YieldsFirstBy, item_count};
ghost use Rattle.std.specs.Slice.Iter.{iter_mut_rest};
ghost use Rattle.pf_matrix.specs.Positions.{items_of};

use crate::matrix::Matrix;
use crate::matrix::keys::Keys;
use std::alloc::Allocator;
use std::slice;

/// Each position of a matrix with a `&mut` to its value, the first row first.
#[derive(Drop)]
pub struct ItemsMut<'a, C> {
    keys: Keys,
    values: slice::IterMut<'a, C>,
}

impl<C, A: Allocator> Matrix<C, A> {
    ghost use Rattle.pf_matrix.specs.ItemsMut.{items_mut_rest, lends_items};

    /// Each position with a `&mut` to its value, the first row first.
    pub fn items_mut(&mut self) -> ItemsMut<'_, C>
        ensures* writes_back { sem 𝓛 (lends_items C.row A.row A.Allocator self.entry result) }
        ensures items { items_mut_rest result ≡ items_of self.old }
    {
        ItemsMut {
            keys: self.keys(),
            values: self.values.as_mut_slice().iter_mut(),
        }
    }
}

impl<'a, C> Iterator for ItemsMut<'a, C> {
    ghost use Rattle.pf_matrix.specs.ItemsMut.{items_mut_rest};

    type Item = ((usize, usize), &'a mut C);

    ghost next_gives = { YieldsFirstBy (λ item. (item.0, item.1.now)) items_mut_rest };

    ghost remaining = { item_count items_mut_rest };

    fn next(&mut self) -> Option<((usize, usize), &'a mut C)> {
        let position = self.keys.next()?;
        let value = self.values.next()?;
        Some((position, value))
    }
}
