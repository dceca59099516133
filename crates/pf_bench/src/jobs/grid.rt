//! Calls of a grid.

use crate::checks::size_of;
use crate::inputs::grid;
use crate::repeats::{Outcome, Repeats};
use pf_grid::{Grid, GridError};
use std::alloc::Global;

/// A call of a grid that answers a number.
pub enum GridJob {
    Fill,
    Invert,
    Iter,
    Edges,
}

impl GridJob {
    /// Runs it on the input of this size, and answers the greatest number that a call gave. Where all
    /// are the same, that is the last one, and no call can be left out.
    pub fn run(&self, alloc: Global, size: usize, repeats: &Repeats) -> Outcome {
        let mut grid = grid(alloc, size)?;
        let vertex = middle_vertex(&grid);
        let mut greatest = 0usize;
        repeats.check(|_is_last| {
            greatest = greatest.max(self.call(&mut grid, vertex)?);
            Ok(Some(greatest as u64))
        })
    }

    /// Makes the call on a grid.
    fn call(&self, grid: &mut Grid, vertex: (usize, usize)) -> Result<usize, GridError> {
        match self {
            GridJob::Fill => fill(grid),
            GridJob::Invert => Ok(invert(grid)),
            GridJob::Iter => sum(grid, vertex),
            GridJob::Edges => edges(grid, vertex),
        }
    }
}

/// A flood of a grid.
pub enum GridFloodJob {
    Bfs,
    Dfs,
}

impl GridFloodJob {
    /// Runs it on the input of this size.
    pub fn run(&self, alloc: Global, size: usize, repeats: &Repeats) -> Outcome {
        let grid = grid(alloc, size)?;
        let vertex = middle_vertex(&grid);
        repeats.check(|is_last| self.call(&grid, vertex, is_last))
    }

    /// Makes the call on a grid.
    fn call(&self, grid: &Grid, vertex: (usize, usize), is_last: bool) -> Outcome {
        let is_passable = |_position: (usize, usize)| true;
        match self {
            GridFloodJob::Bfs => size_of(grid.bfs_reachable(vertex, is_passable), is_last),
            GridFloodJob::Dfs => size_of(grid.dfs_reachable(vertex, is_passable), is_last),
        }
    }
}

/// The first vertex in the second half of the positions, row by row, or (0, 0).
fn middle_vertex(grid: &Grid) -> (usize, usize) {
    let half = grid.size() / 2;
    for (x, y) in grid.iter() {
        if y.wrapping_mul(grid.width()).wrapping_add(x) >= half {
            return (x, y);
        }
    }
    (0, 0)
}

/// Takes a vertex out and puts it back, so that two calls on a grid are not one.
fn touch(grid: &mut Grid, vertex: (usize, usize)) -> Result<(), GridError> {
    if grid.remove_vertex(vertex)? {
        let _ = grid.add_vertex(vertex)?;
    }
    Ok(())
}

/// Fills a grid that misses one vertex, and counts its vertices.
fn fill(grid: &mut Grid) -> Result<usize, GridError> {
    let _ = grid.remove_vertex((0, 0))?;
    let _ = grid.fill();
    Ok(grid.vertices_len())
}

/// How many positions are no vertices, by exchanging both and back.
fn invert(grid: &mut Grid) -> usize {
    grid.invert();
    let missing = grid.vertices_len();
    grid.invert();
    missing
}

/// The sum of all coordinates.
fn sum(grid: &mut Grid, vertex: (usize, usize)) -> Result<usize, GridError> {
    touch(grid, vertex)?;
    let mut sum = 0usize;
    for (x, y) in grid.iter() {
        sum = sum.wrapping_add(x).wrapping_add(y);
    }
    Ok(sum)
}

/// How many edges there are.
fn edges(grid: &mut Grid, vertex: (usize, usize)) -> Result<usize, GridError> {
    touch(grid, vertex)?;
    let mut edges = 0usize;
    for _edge in grid.edges() {
        edges = edges.wrapping_add(1);
    }
    Ok(edges)
}
