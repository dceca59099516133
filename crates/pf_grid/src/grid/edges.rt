//! The edges of a grid.

ghost use Rattle.std.specs.Prelude.{◌≡◌, ◌+◌, ◌*◌, ◌<◌, ◌≤◌, [], ◌∷◌, ◌++◌, drop, MatchOption};
ghost use Rattle.std.specs.Iterator.{YieldsFirst, item_count};
ghost use Rattle.pf_grid.specs.GridPositions.{IsInside};
ghost use Rattle.pf_grid.specs.Steps.{edges_of, edges_by, forward};

use crate::grid::Grid;
use crate::grid::steps::{FORWARD, next_step};
use std::alloc::{Allocator, Global};
use std::marker::Model;

/// The edges of a grid that is lent, each once. A contract sees the list of those that are left.
#[derive(Drop)]
pub struct EdgesIterator<'a, A: Allocator = Global> {
    grid: &'a Grid<A>,
    /// The vertex whose edges are given, and the step that is tried next.
    from: (usize, usize),
    next: usize,
    /// From here on the next vertex is looked for.
    x: usize,
    y: usize,
}

impl<'a, A: Allocator> Model for EdgesIterator<'a, A> {
    ghost use Rattle.std.specs.Prelude.{ℕ, ◌+◌, ◌*◌, ◌<◌, ◌≤◌, ◌++◌, List, drop};
    ghost use Rattle.std.specs.List.{flat_map};
    ghost use Rattle.pf_grid.specs.GridPositions.{IsInside};
    ghost use Rattle.pf_grid.specs.Steps.{edges_by, forward};
    ghost use Rattle.pf_grid.specs.Vertices.{vertices_from};

    ghost Value = { List ((ℕ × ℕ) × (ℕ × ℕ)) };

    ghost view = { λ s. edges_by s.grid.now s.from (drop s.next forward) ++ flat_map (λ p. edges_by s.grid.now p forward) (vertices_from s.grid.now (s.y * s.grid.now.width + s.x)) };

    ghost invariant = { λ s. (s.next ≤ 4) × (s.next < 4 → IsInside s.grid.now s.from) × (s.x ≤ s.grid.now.width) };
}

impl<A: Allocator> Grid<A> {
    /// The edges, each once: by rows, from each vertex those to the right, down, and in diagonal mode
    /// down to the right and down to the left.
    pub fn edges(&self) -> EdgesIterator<'_, A>
        ensures { result ≡ edges_of self.now }
    {
        EdgesIterator {
            grid: self,
            from: (0, 0),
            next: FORWARD.len(),
            x: 0,
            y: self.first_row(),
        }
    }
}

impl<'a, A: Allocator> Iterator for EdgesIterator<'a, A> {
    type Item = ((usize, usize), (usize, usize));

    ghost next_gives = { YieldsFirst (λ edges. edges) };

    ghost remaining = { item_count (λ edges. edges) };

    fn next(&mut self) -> Option<((usize, usize), (usize, usize))> {
        let mut edge = next_edge(self.grid, self.from, &mut self.next);
        while edge.is_none() {
            self.from = self.grid.first_from(self.x, self.y)?;
            self.x = self.from.0 + 1;
            self.y = self.from.1;
            self.next = 0;
            edge = next_edge(self.grid, self.from, &mut self.next);
        }
        edge
    }
}

/// The next edge from this vertex, and the step after it.
fn next_edge<A: Allocator>(
    grid: &Grid<A>,
    from: (usize, usize),
    next: &mut usize,
) -> Option<((usize, usize), (usize, usize))>
    requires steps { next.old ≤ 4 }
    requires inside { next.old < 4 → IsInside grid.now from }
    ensures steps { next.new ≤ 4 }
    ensures inside { next.new < 4 → IsInside grid.now from }
    ensures edge { MatchOption result
        ((edges_by grid.now from (drop next.old forward) ≡ []) × (next.new ≡ 4))
        (λ e. edges_by grid.now from (drop next.old forward) ≡ e ∷ edges_by grid.now from (drop next.new forward)) }
{
    let end = next_step(grid, from, &FORWARD, next)?;
    Some((from, end))
}
