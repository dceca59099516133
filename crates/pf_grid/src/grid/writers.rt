//! What changes the vertices of a grid.

ghost use Rattle.std.specs.Prelude.{◌≡◌, ◌↔◌, ◌&&◌, ◌*◌, ◌<◌, not, if◌then◌else◌, true, false, IsTrue, IsOk, IfOk};
ghost use Rattle.pf_grid.specs.GridPositions.{IsInside, in_mode, is_inside, is_position, has, filled, cleared, inverted, with_position, with_vertices, without_position, vertex_count};

use crate::error::GridError;
use crate::grid::Grid;
use crate::words;
use std::alloc::Allocator;

impl<A: Allocator> Grid<A> {
    /// From now on steps may be diagonal.
    pub fn enable_diagonal_mode(&mut self)
        ensures { self.new ≡ in_mode self.old true }
    {
        self.diagonal = true;
    }

    /// From now on steps may not be diagonal.
    pub fn disable_diagonal_mode(&mut self)
        ensures { self.new ≡ in_mode self.old false }
    {
        self.diagonal = false;
    }

    /// Adds a position inside to the vertices, and answers whether it was none before. Outside nothing
    /// is added. It is always `Ok`, and takes no memory.
    pub fn add_vertex(&mut self, position: (usize, usize)) -> Result<bool, GridError>
        ensures always { IsOk result }
        ensures missing { IfOk result (λ added. added ≡ (is_inside self.old position.0 position.1 && not (has self.old position.0 position.1))) }
        ensures added { self.new ≡ with_position self.old position }
    {
        // Tells the proof how many cells there are, also where nothing is added.
        let _ = &self.words;
        let missing = self.is_inside(position) && !self.has_vertex(position);
        if missing {
            self.flip(position, true);
        }
        Ok(missing)
    }

    /// Takes a position out of the vertices, and answers whether it was one. It is always `Ok`, and takes
    /// no memory.
    pub fn remove_vertex(&mut self, position: (usize, usize)) -> Result<bool, GridError>
        ensures always { IsOk result }
        ensures there { IfOk result (λ removed. removed ≡ has self.old position.0 position.1) }
        ensures removed { self.new ≡ without_position self.old position }
    {
        // Tells the proof how many cells there are, also where nothing is taken out.
        let _ = &self.words;
        let there = self.has_vertex(position);
        if there {
            self.flip(position, false);
        }
        Ok(there)
    }

    /// Makes a position inside a vertex that is none, or takes out one that is.
    fn flip(&mut self, position: (usize, usize), present: bool)
        requires inside { IsInside self.old position }
        requires other { has self.old position.0 position.1 ≡ not present }
        ensures { self.new ≡ with_vertices self.old (λ x y. if is_position position x y then present else has self.old x y) }
    {
        let per_row = words::row_words(self.width);
        words::turn_bit(self.words.as_mut_slice(), per_row, position.0, position.1);
        if present {
            self.len += 1;
        } else {
            self.len -= 1;
        }
    }

    /// Takes all vertices out, and answers whether there were any.
    pub fn clear(&mut self) -> bool
        ensures some { IsTrue result ↔ (0 < vertex_count self.old) }
        ensures cleared { self.new ≡ cleared self.old }
    {
        let some = !self.is_empty();
        self.set_all(false);
        some
    }

    /// Makes all positions inside vertices, and answers whether one was missing.
    pub fn fill(&mut self) -> bool
        ensures missing { IsTrue result ↔ (vertex_count self.old < self.old.width * self.old.height) }
        ensures filled { self.new ≡ filled self.old }
    {
        let missing = self.vertices_len() < self.size();
        self.set_all(true);
        missing
    }

    /// Makes all positions inside vertices, or none.
    fn set_all(&mut self, present: bool)
        ensures { self.new ≡ with_vertices self.old (λ x y. present) }
    {
        words::clear_words(self.words.as_mut_slice());
        self.inverted = present;
        self.len = if present { self.width * self.height } else { 0 };
    }

    /// Exchanges the vertices and the other positions inside.
    pub fn invert(&mut self)
        ensures { self.new ≡ inverted self.old }
    {
        self.inverted = !self.inverted;
        self.len = self.width * self.height - self.len;
    }
}
