//! The iterators over chosen edges.

ghost use Rattle.std.specs.Iterator.{YieldsFirst, YieldsFirstBy, item_count};
ghost use Rattle.pf_graph.specs.EdgesByReference.{shown};

use std::alloc::{Allocator, Global};
use std::marker::Model;
use std::vec;

/// The edges that `kruskal_indices` chooses, by rising weight.
///
/// All of them are chosen when the iterator is made; giving them takes no memory. A contract sees
/// the list of the edges that are still to be given.
#[derive(Drop)]
pub struct KruskalIndices<C, A: Allocator = Global> {
    pub(crate) left: vec::IntoIter<(usize, usize, C), A>,
}

impl<C, A: Allocator> Model for KruskalIndices<C, A> {
    ghost use Rattle.std.specs.Prelude.{List, ℕ};
    ghost use Rattle.std.specs.Vec.Iter.{into_iter_items};

    ghost Value = { List (ℕ × ℕ × C) };

    ghost view = { λ s. into_iter_items s.left };
}

impl<C: Drop, A: Allocator> Iterator for KruskalIndices<C, A> {
    type Item = (usize, usize, C);

    ghost next_gives = { YieldsFirst (λ s. s) };

    ghost remaining = { item_count (λ s. s) };

    fn next(&mut self) -> Option<(usize, usize, C)> {
        self.left.next()
    }
}

/// The edges that `kruskal` chooses, by rising weight, with references to their ends.
///
/// All of them are chosen when the iterator is made; giving them takes no memory. A contract sees
/// the list of the edges that are still to be given.
#[derive(Drop)]
pub struct Kruskal<'a, N, C, A: Allocator = Global> {
    pub(crate) left: vec::IntoIter<(&'a N, &'a N, C), A>,
}

impl<'a, N, C, A: Allocator> Model for Kruskal<'a, N, C, A> {
    ghost use Rattle.std.specs.Prelude.{List, map};
    ghost use Rattle.std.specs.Vec.Iter.{into_iter_items};
    ghost use Rattle.pf_graph.specs.EdgesByReference.{shown};

    ghost Value = { List (N × N × C) };

    ghost view = { λ s. map shown (into_iter_items s.left) };
}

impl<'a, N, C: Drop, A: Allocator> Iterator for Kruskal<'a, N, C, A> {
    type Item = (&'a N, &'a N, C);

    ghost next_gives = { YieldsFirstBy shown (λ s. s) };

    ghost remaining = { item_count (λ s. s) };

    fn next(&mut self) -> Option<(&'a N, &'a N, C)> {
        self.left.next()
    }
}
