//! The vertices beside a vertex.

ghost use Rattle.std.specs.Prelude.{◌≡◌, IfOk, IfErr};
ghost use Rattle.std.specs.Iterator.{YieldsFirst, item_count};
ghost use Rattle.pf_grid.specs.Steps.{neighbours_of};
ghost use Rattle.pf_grid.specs.Vertices.{listed};
ghost use Rattle.pf_grid.specs.declared.error.GridError.TheVariants.{OutOfMemory};

use crate::error::GridError;
use crate::grid::Grid;
use crate::grid::steps::{AROUND, next_step};
use std::alloc::{Allocator, Global};
use std::marker::Model;

/// The vertices beside a vertex of a grid that is lent. A contract sees the list of those that are left.
#[derive(Drop)]
pub(crate) struct Around<'a, A: Allocator = Global> {
    grid: &'a Grid<A>,
    from: (usize, usize),
    next: usize,
}

impl<'a, A: Allocator> Model for Around<'a, A> {
    ghost use Rattle.std.specs.Prelude.{ℕ, ◌<◌, ◌≤◌, List, drop};
    ghost use Rattle.std.specs.List.{filter_map};
    ghost use Rattle.pf_grid.specs.GridPositions.{IsInside};
    ghost use Rattle.pf_grid.specs.Steps.{around, target};

    ghost Value = { List (ℕ × ℕ) };

    ghost view = { λ s. filter_map (target s.grid.now s.from) (drop s.next around) };

    ghost invariant = { λ s. (s.next ≤ 8) × (s.next < 8 → IsInside s.grid.now s.from) };
}

impl<A: Allocator> Grid<A> {
    /// The vertices beside a vertex, without memory. Beside another position there are none.
    pub(crate) fn around(&self, from: (usize, usize)) -> Around<'_, A>
        ensures { result ≡ neighbours_of self.now from }
    {
        Around {
            grid: self,
            from,
            next: if self.has_vertex(from) { 0 } else { 8 },
        }
    }

    /// Whether one step leads from the first vertex to the second: the second is among the neighbours
    /// of the first.
    pub fn has_edge(&self, from: (usize, usize), to: (usize, usize)) -> bool
        ensures { result ≡ listed (neighbours_of self.now from) to.0 to.1 }
    {
        for neighbour in self.around(from) {
            if neighbour == to {
                return true;
            }
        }
        false
    }
}

impl<A: Allocator + Copy> Grid<A> {
    /// The vertices beside a vertex: those to the left, to the right, and in the same column, each
    /// straight ones first; the others only in diagonal mode. A position that is no vertex has none. The
    /// memory comes from the allocator of the grid.
    ///
    /// # Errors
    ///
    /// `OutOfMemory` where a request for memory was refused.
    pub fn neighbours(&self, vertex: (usize, usize)) -> Result<Vec<(usize, usize), A>, GridError>
        ensures neighbours { IfOk result (λ found. found.items ≡ neighbours_of self.now vertex) }
        ensures refused { IfErr result (λ e. e ≡ OutOfMemory) }
    {
        let mut found = Vec::with_capacity(*self.words.allocator(), AROUND.len())?;
        for neighbour in self.around(vertex) {
            found.push(neighbour)?;
        }
        Ok(found)
    }
}

impl<'a, A: Allocator> Iterator for Around<'a, A> {
    type Item = (usize, usize);

    ghost next_gives = { YieldsFirst (λ vertices. vertices) };

    ghost remaining = { item_count (λ vertices. vertices) };

    fn next(&mut self) -> Option<(usize, usize)> {
        let vertex = next_step(self.grid, self.from, &AROUND, &mut self.next)?;
        Some(vertex)
    }
}
