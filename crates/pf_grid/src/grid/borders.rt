//! The borders of a grid.

ghost use Rattle.std.specs.Prelude.{◌≡◌, ◌+◌, true, false, IsOk, IfOk, if◌then◌else◌};
ghost use Rattle.pf_grid.specs.Borders.{with_borders};
ghost use Rattle.pf_grid.specs.GridPositions.{IsInside, has, is_position, vertex_count, with_vertices};

use crate::error::GridError;
use crate::grid::Grid;
use std::alloc::Allocator;

impl<A: Allocator> Grid<A> {
    /// Makes all positions on the borders vertices: those of the first and the last column and of the
    /// first and the last row. It answers how many were none before. It is always `Ok`, and takes no
    /// memory.
    pub fn add_borders(&mut self) -> Result<usize, GridError>
        ensures always { IsOk result }
        ensures added { self.new ≡ with_borders self.old true }
        ensures count { IfOk result (λ n. vertex_count self.old + n ≡ vertex_count self.new) }
    {
        let before = self.vertices_len();
        self.set_borders(true);
        Ok(self.vertices_len() - before)
    }

    /// Takes all positions on the borders out of the vertices, and answers how many were vertices. It is
    /// always `Ok`, and takes no memory.
    pub fn remove_borders(&mut self) -> Result<usize, GridError>
        ensures always { IsOk result }
        ensures removed { self.new ≡ with_borders self.old false }
        ensures count { IfOk result (λ n. vertex_count self.new + n ≡ vertex_count self.old) }
    {
        let before = self.vertices_len();
        self.set_borders(false);
        Ok(before - self.vertices_len())
    }

    fn set_borders(&mut self, present: bool)
        ensures { self.new ≡ with_borders self.old present }
    {
        let (width, height) = (self.width, self.height);
        // Without positions inside there may still be very many rows or columns.
        if width == 0 || height == 0 {
            return;
        }
        for x in 0..width {
            self.put((x, 0), present);
            self.put((x, height - 1), present);
        }
        for y in 0..height {
            self.put((0, y), present);
            self.put((width - 1, y), present);
        }
    }

    /// Makes a position inside a vertex, or takes it out.
    pub(super) fn put(&mut self, position: (usize, usize), present: bool)
        requires { IsInside self.old position }
        ensures { self.new ≡ with_vertices self.old (λ x y. if is_position position x y then present else has self.old x y) }
    {
        let _ = if present {
            self.add_vertex(position)
        } else {
            self.remove_vertex(position)
        };
    }
}
