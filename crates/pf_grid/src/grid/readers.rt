//! The sizes of a grid, and whether a position is a vertex.

ghost use Rattle.std.specs.Prelude.{◌≡◌, ◌↔◌, ◌*◌, ◌+◌, ◌<◌, ◌^◌, IsTrue, ℤ, pos};
ghost use Rattle.std.specs.Int.{int_rem_euclid};
ghost use Rattle.pf_grid.specs.Distances.{distance_between};
ghost use Rattle.pf_grid.specs.GridPositions.{IsGrid, IsInside, has, vertex_count};

use crate::grid::Grid;
use crate::words;
use std::alloc::Allocator;

impl<A: Allocator> Grid<A> {
    /// The number of columns.
    pub fn width(&self) -> usize
        ensures width { result ≡ self.now.width }
        ensures grid { IsGrid self.now }
    {
        self.width
    }

    /// The number of rows.
    pub fn height(&self) -> usize
        ensures height { result ≡ self.now.height }
        ensures grid { IsGrid self.now }
    {
        self.height
    }

    /// The number of positions inside, be they vertices or not.
    pub fn size(&self) -> usize
        ensures size { result ≡ self.now.width * self.now.height }
        ensures grid { IsGrid self.now }
    {
        self.width * self.height
    }

    /// Whether x is below the width and y below the height.
    pub fn is_inside(&self, position: (usize, usize)) -> bool
        ensures { IsTrue result ↔ IsInside self.now position }
    {
        position.0 < self.width && position.1 < self.height
    }

    /// Whether the position is a vertex. Outside there are none.
    pub fn has_vertex(&self, position: (usize, usize)) -> bool
        ensures { result ≡ has self.now position.0 position.1 }
    {
        let (x, y) = position;
        self.is_inside(position)
            && words::bit_of(self.words.as_slice(), words::row_words(self.width), x, y)
                != self.inverted
    }

    /// The number of vertices.
    pub fn vertices_len(&self) -> usize
        ensures count { result ≡ vertex_count self.now }
        ensures grid { IsGrid self.now }
    {
        self.len
    }

    /// Whether there are no vertices.
    pub fn is_empty(&self) -> bool
        ensures { IsTrue result ↔ (vertex_count self.now ≡ 0) }
    {
        self.vertices_len() == 0
    }

    /// Whether all positions inside are vertices.
    pub fn is_full(&self) -> bool
        ensures { IsTrue result ↔ (vertex_count self.now ≡ self.now.width * self.now.height) }
    {
        self.vertices_len() == self.size()
    }

    /// How many steps over full grids lead from one position to the other: in diagonal mode the greater
    /// of the two differences, else their sum, which has to fit.
    pub fn distance(&self, a: (usize, usize), b: (usize, usize)) -> usize
        requires { distance_between self.now.diagonal a b < 2 ^ 64 }
        ensures { result ≡ distance_between self.now.diagonal a b }
    {
        let (across, down) = (a.0.abs_diff(b.0), a.1.abs_diff(b.1));
        if self.diagonal {
            across.max(down)
        } else {
            across + down
        }
    }

    /// The position inside whose x is the remainder of x by the width, and whose y is that of y by the
    /// height: the remainders that are not negative.
    pub fn constrain(&self, position: (isize, isize)) -> (usize, usize)
        requires width { 0 < self.now.width }
        requires height { 0 < self.now.height }
        ensures x { pos result.0 ≡ int_rem_euclid position.0 (pos self.now.width) }
        ensures y { pos result.1 ≡ int_rem_euclid position.1 (pos self.now.height) }
        ensures inside { IsInside self.now result }
    {
        (
            pf_utils::constrain(position.0, self.width),
            pf_utils::constrain(position.1, self.height),
        )
    }
}
