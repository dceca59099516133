//! The standard traits at grids.

ghost use Rattle.std.specs.Prelude.{◌≡◌, ◌↔◌, ◌+◌, ◌*◌, ◌<◌, ◌≤◌, ℕ, false, nat_eq, IsTrue};
ghost use Rattle.std.specs.Cmp.{partial_equiv_from_equiv};
ghost use Rattle.std.specs.Int.{bit_at};
ghost use Rattle.pf_grid.specs.GridEquality.{HasSameVertices, same_vertices};
ghost use Rattle.pf_grid.specs.Internal.EqualityLaws.{same_vertices_equiv};
ghost use Rattle.pf_grid.specs.GridPositions.{has};

use crate::grid::Grid;
use crate::words;
use std::alloc::{AllocError, Allocator};

/// A clone has the same sizes, the same mode and the same vertices.
impl<A: Allocator + Copy> Clone for Grid<A> {
    ghost is_clone = { λ g h. h ≡ g };

    fn clone(&self) -> Result<Self, AllocError> {
        let words = Vec::from_clones(*self.words.allocator(), self.words.as_slice())?;
        Ok(Grid {
            width: self.width,
            height: self.height,
            diagonal: self.diagonal,
            inverted: self.inverted,
            len: self.len,
            words,
        })
    }
}

/// Grids are equal where they have the same vertices, whatever their sizes and modes.
impl<A: Allocator> PartialEq for Grid<A> {
    ghost eq = { same_vertices };

    ghost laws = { partial_equiv_from_equiv same_vertices_equiv };

    fn eq(&self, other: &Self) -> bool
        ensures value { result ≡ same_vertices self.now other.now }
        ensures same { IsTrue result ↔ HasSameVertices self.now other.now }
    {
        let rows = self.kept_rows().max(other.kept_rows());
        let per_row = words::row_words(self.width).max(words::row_words(other.width));
        for y in 0..rows {
            for place in 0..per_row {
                if self.word(place, y) != other.word(place, y) {
                    return false;
                }
            }
        }
        true
    }
}

impl<A: Allocator> Eq for Grid<A> {
    ghost laws = { same_vertices_equiv };
}

impl<A: Allocator> Grid<A> {
    /// The number of rows of which words are kept.
    fn kept_rows(&self) -> usize
        ensures { (x y : ℕ) → result ≤ y → has self.now x y ≡ false }
    {
        if self.width == 0 { 0 } else { self.height }
    }

    /// The word at a place of the row `y`. Outside all bits are 0.
    fn word(&self, place: usize, y: usize) -> u64
        ensures { (i : ℕ) → i < 64 → nat_eq (bit_at result i) 1 ≡ has self.now (place * 64 + i) y }
    {
        let per_row = words::row_words(self.width);
        if place < per_row && y < self.height {
            let bits = words::turned_if(self.inverted, self.words[y * per_row + place]);
            words::trimmed(bits, place, self.width)
        } else {
            0
        }
    }
}
