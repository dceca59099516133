//! The vertices of a grid, by rows.

ghost use Rattle.std.specs.Prelude.{◌≡◌, ◌+◌, ◌*◌, ◌<◌, ◌≤◌, ◌^◌, ℕ, [], ◌∷◌, length, false, true, MatchOption};
ghost use Rattle.std.specs.Iterator.{YieldsFirst, item_count};
ghost use Rattle.pf_grid.specs.GridPositions.{IsInside, has};
ghost use Rattle.pf_grid.specs.Vertices.{vertices_from, vertices_of};

use crate::grid::Grid;
use crate::words;
use std::alloc::{Allocator, Global};
use std::marker::Model;

/// The vertices of a grid that is lent, by rows. A contract sees the list of those that are left.
#[derive(Drop)]
pub struct GridIterator<'a, A: Allocator = Global> {
    grid: &'a Grid<A>,
    x: usize,
    y: usize,
}

impl<'a, A: Allocator> Model for GridIterator<'a, A> {
    ghost use Rattle.std.specs.Prelude.{ℕ, ◌+◌, ◌*◌, ◌≤◌, List};
    ghost use Rattle.pf_grid.specs.Vertices.{vertices_from};

    ghost Value = { List (ℕ × ℕ) };

    ghost view = { λ s. vertices_from s.grid.now (s.y * s.grid.now.width + s.x) };

    ghost invariant = { λ s. s.x ≤ s.grid.now.width };
}

/// The vertices of a grid that is used up, by rows. A contract sees the list of those that are left.
#[derive(Drop)]
pub struct GridIntoIterator<A: Allocator = Global> {
    grid: Grid<A>,
    x: usize,
    y: usize,
}

impl<A: Allocator> Model for GridIntoIterator<A> {
    ghost use Rattle.std.specs.Prelude.{ℕ, ◌+◌, ◌*◌, ◌≤◌, List};
    ghost use Rattle.pf_grid.specs.Vertices.{vertices_from};

    ghost Value = { List (ℕ × ℕ) };

    ghost view = { λ s. vertices_from s.grid (s.y * s.grid.width + s.x) };

    ghost invariant = { λ s. s.x ≤ s.grid.width };
}

impl<A: Allocator> Grid<A> {
    /// The vertices, each once, by rows.
    pub fn iter(&self) -> GridIterator<'_, A>
        ensures vertices { result ≡ vertices_of self.now }
        ensures fits { length result < 2 ^ 64 }
    {
        GridIterator {
            grid: self,
            x: 0,
            y: self.first_row(),
        }
    }

    /// The row at which an iterator begins. Without columns that is the end, since there may be very
    /// many rows.
    pub(super) fn first_row(&self) -> usize
        ensures first { result * self.now.width ≡ 0 }
        ensures fits { length (vertices_of self.now) < 2 ^ 64 }
    {
        if self.width == 0 { self.height } else { 0 }
    }

    /// The first vertex from the position (x, y) on, by rows.
    pub(super) fn first_from(&self, x: usize, y: usize) -> Option<(usize, usize)>
        requires { x ≤ self.now.width }
        ensures { MatchOption result
            (vertices_from self.now (y * self.now.width + x) ≡ [])
            (λ p. (vertices_from self.now (y * self.now.width + x) ≡ p ∷ vertices_from self.now (p.1 * self.now.width + (p.0 + 1))) × IsInside self.now p × (p.0 + 1 < 2 ^ 64)) }
    {
        let mut x = x;
        for y in y..self.height {
            if let Some(found) = self.next_in_row(x, y) {
                return Some((found, y));
            }
            x = 0;
        }
        None
    }

    /// The first vertex of the row `y`, from `x` on.
    fn next_in_row(&self, x: usize, y: usize) -> Option<usize>
        requires { y < self.now.height }
        ensures { MatchOption result
            ((i : ℕ) → x ≤ i → has self.now i y ≡ false)
            (λ i. (x ≤ i) × (i + 1 < 2 ^ 64) × (has self.now i y ≡ true) × ((j : ℕ) → x ≤ j → j < i → has self.now j y ≡ false)) }
    {
        let per_row = words::row_words(self.width());
        let found = words::first_held(self.words.as_slice(), per_row, self.inverted, x, y)?;
        // Behind the last column there are bits for which there is no position.
        if found < self.width {
            Some(found)
        } else {
            None
        }
    }
}

impl<'a, A: Allocator> Iterator for GridIterator<'a, A> {
    type Item = (usize, usize);

    ghost next_gives = { YieldsFirst (λ vertices. vertices) };

    ghost remaining = { item_count (λ vertices. vertices) };

    fn next(&mut self) -> Option<(usize, usize)> {
        let vertex = self.grid.first_from(self.x, self.y)?;
        self.x = vertex.0 + 1;
        self.y = vertex.1;
        Some(vertex)
    }
}

impl<A: Allocator> Iterator for GridIntoIterator<A> {
    type Item = (usize, usize);

    ghost next_gives = { YieldsFirst (λ vertices. vertices) };

    ghost remaining = { item_count (λ vertices. vertices) };

    fn next(&mut self) -> Option<(usize, usize)> {
        let vertex = self.grid.first_from(self.x, self.y)?;
        self.x = vertex.0 + 1;
        self.y = vertex.1;
        Some(vertex)
    }
}

impl<'a, A: Allocator> IntoIterator for &'a Grid<A> {
    type Item = (usize, usize);

    type IntoIter = GridIterator<'a, A>;

    ghost into_iter_gives = { λ g r. (r ≡ vertices_of g.now) × (length r < 2 ^ 64) };

    fn into_iter(self) -> GridIterator<'a, A> {
        self.iter()
    }
}

impl<A: Allocator> IntoIterator for Grid<A> {
    type Item = (usize, usize);

    type IntoIter = GridIntoIterator<A>;

    ghost into_iter_gives = { λ g r. (r ≡ vertices_of g) × (length r < 2 ^ 64) };

    fn into_iter(self) -> GridIntoIterator<A> {
        let y = self.first_row();
        GridIntoIterator {
            grid: self,
            x: 0,
            y,
        }
    }
}
