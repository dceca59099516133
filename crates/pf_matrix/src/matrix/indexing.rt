//! Indexing by a position inside, to read and to write.

ghost use Rattle.std.specs.Prelude.{◌≡◌};
ghost use Rattle.std.specs.Borrow.{sem};
ghost use Rattle.pf_matrix.specs.Tables.{HasPosition, value_at};
ghost use Rattle.pf_matrix.specs.Lends.{lends_at};

use crate::matrix::Matrix;
use std::alloc::Allocator;
use std::ops::{Index, IndexMut};

impl<C, A: Allocator> Index<(usize, usize)> for Matrix<C, A> {
    type Output = C;

    ghost can_index = { λ m position. HasPosition m position.0 position.1 };

    ghost index_gives = { λ m position value. value ≡ value_at m position.0 position.1 value };

    fn index(&self, position: (usize, usize)) -> &C {
        &self.values[position.0 * self.columns + position.1]
    }
}

impl<C, A: Allocator> IndexMut<(usize, usize)> for Matrix<C, A> {
    fn index_mut(&mut self, position: (usize, usize)) -> &mut C
        requires { HasPosition self.old position.0 position.1 }
        ensures* writes_back { sem 𝓛 (lends_at C.row A.row A.Allocator self.entry position result) }
        ensures value { result.now ≡ value_at self.old position.0 position.1 result.now }
    {
        let place = position.0 * self.columns + position.1;
        &mut self.values[place]
    }
}

impl<'p, C, A: Allocator> Index<&'p (usize, usize)> for Matrix<C, A> {
    type Output = C;

    ghost can_index = { λ m position. HasPosition m position.now.0 position.now.1 };

    ghost index_gives = { λ m position value. value ≡ value_at m position.now.0 position.now.1 value };

    fn index(&self, position: &'p (usize, usize)) -> &C {
        &self[*position]
    }
}

impl<'p, C, A: Allocator> IndexMut<&'p (usize, usize)> for Matrix<C, A> {
    fn index_mut(&mut self, position: &'p (usize, usize)) -> &mut C
        requires { HasPosition self.old position.now.0 position.now.1 }
        ensures* writes_back { sem 𝓛 (lends_at C.row A.row A.Allocator self.entry position.now result) }
        ensures value { result.now ≡ value_at self.old position.now.0 position.now.1 result.now }
    {
        &mut self[*position]
    }
}
