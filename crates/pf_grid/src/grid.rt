//! The type of grids.

mod borders;
mod edges;
mod floods;
mod from_coordinates;
mod from_matrix;
mod from_vertices;
mod makers;
mod neighbours;
mod readers;
mod resize;
mod steps;
mod text;
mod traits;
mod vertices;
mod writers;

pub use edges::EdgesIterator;
use std::alloc::{Allocator, Global};
use std::marker::Model;
pub use vertices::{GridIntoIterator, GridIterator};

/// A width, a height, a mode, and a set of positions (x, y) inside: its vertices.
///
/// A contract sees the sizes, the mode, and for each position inside, by rows, whether it is a vertex.
/// Each row is kept as bits in words: a vertex is a 1, or a 0 where the grid is inverted. A grid of
/// width 0 or height 0 keeps no word.
#[derive(Drop)]
pub struct Grid<A: Allocator = Global> {
    width: usize,
    height: usize,
    diagonal: bool,
    /// Whether the bits that are 0 are the vertices.
    inverted: bool,
    /// The number of vertices.
    len: usize,
    words: Vec<u64, A>,
}

impl<A: Allocator> Model for Grid<A> {
    ghost use Rattle.pf_grid.specs.Internal.PositionsCode.{positions_code};
    ghost use Rattle.pf_grid.specs.Internal.Words.{IsRows, held, row_words};
    ghost use Rattle.pf_grid.specs.GridPositions.{Positions, grid_of};

    ghost Value = { Positions };

    ghost coded = { positions_code };

    ghost view = { λ s. grid_of s.width s.height s.diagonal (held s.words.items (row_words s.width) s.inverted) };

    ghost invariant = { λ s. IsRows s.words.items s.width s.height s.inverted s.len };
}
