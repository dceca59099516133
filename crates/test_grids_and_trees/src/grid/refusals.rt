//! Each growth refused in turn: a call answers out of memory and leaves what it was lent as it was,
//! until no request is refused and it gives its right answer.

use pf_grid::{Grid, GridError};
use pf_matrix::{Matrix, matrix};
use std::alloc::Global;
use std::collections::BTreeSet;
use test_allocator::Refusing;

/// A heap that refuses requests.
type Heap<'h> = &'h Refusing<Global>;

/// A call that takes memory.
enum Call {
    New,
    FromVertices,
    FromMatrix,
    FromCoordinates,
    Neighbours,
    BreadthFlood,
    DepthFlood,
    Resize,
    Text,
    Clone,
}

const CALLS: &[Call] = &[
    Call::New,
    Call::FromVertices,
    Call::FromMatrix,
    Call::FromCoordinates,
    Call::Neighbours,
    Call::BreadthFlood,
    Call::DepthFlood,
    Call::Resize,
    Call::Text,
    Call::Clone,
];

/// The vertices of a grid of three columns and three rows.
const VERTICES: [(usize, usize); 3] = [(0, 0), (1, 1), (2, 2)];

/// A test that each position passes.
fn is_any(_position: (usize, usize)) -> bool {
    true
}

/// Whether a grid has these sizes and vertices.
fn is_grid(grid: &Grid<Heap<'_>>, sizes: (usize, usize), vertices: &[(usize, usize)]) -> bool {
    (grid.width(), grid.height()) == sizes && grid.iter().eq(vertices.iter().copied())
}

/// Whether steps in a grid are diagonal, by an edge that it has in this mode alone.
fn is_diagonal(grid: &Grid<Heap<'_>>) -> bool {
    grid.has_edge((0, 0), (1, 1))
}

/// Whether a grid is that of `VERTICES` in diagonal mode.
fn is_as_made(grid: &Grid<Heap<'_>>) -> bool {
    is_grid(grid, (3, 3), &VERTICES) && is_diagonal(grid)
}

/// Whether a grid was made that has these sizes and vertices.
fn is_made(
    made: Result<Grid<Heap<'_>>, GridError>,
    sizes: (usize, usize),
    vertices: &[(usize, usize)],
) -> Result<bool, GridError> {
    let grid = made?;
    Ok(is_grid(&grid, sizes, vertices))
}

/// Whether a grid is made of the points (-3, 2) and (4, 2).
fn is_made_of_points(heap: Heap<'_>) -> Result<bool, GridError> {
    match Grid::from_coordinates(heap, &[(-3, 2), (4, 2)])? {
        Some(grid) => Ok(is_grid(&grid, (8, 1), &[(0, 0), (7, 0)])),
        None => Ok(false),
    }
}

/// Whether a flood reached `VERTICES`.
fn is_reached<'h>(
    flood: Result<BTreeSet<(usize, usize), Heap<'h>>, GridError>,
) -> Result<bool, GridError> {
    let reached = flood?;
    Ok(reached.into_iter().eq(VERTICES))
}

/// Whether the grid shows as its text. A refused one has to be empty.
fn is_shown<'h>(heap: Heap<'h>, grid: &Grid<Heap<'h>>) -> Result<bool, GridError> {
    let mut text = String::new(heap);
    match grid.append_text(&mut text, '#', '.', false) {
        Ok(()) => Ok(text.as_str() == "#..\n.#.\n..#"),
        Err(error) if text.is_empty() => Err(error),
        Err(_) => Ok(false),
    }
}

/// Whether a call answers the only right answer.
fn is_right<'h>(
    call: &Call,
    heap: Heap<'h>,
    grid: &mut Grid<Heap<'h>>,
    matrix: &Matrix<bool>,
) -> Result<bool, GridError> {
    match call {
        Call::New => is_made(Grid::new(heap, 3, 3), (3, 3), &[]),
        Call::FromVertices => {
            let made = Grid::from_vertices(heap, [(1, 2), (3, 0)]);
            is_made(made, (4, 3), &[(3, 0), (1, 2)])
        }
        Call::FromMatrix => {
            let made = Grid::from_matrix(heap, matrix);
            is_made(made, (3, 2), &[(0, 0), (2, 0), (1, 1), (2, 1)])
        }
        Call::FromCoordinates => is_made_of_points(heap),
        Call::Neighbours => Ok(grid.neighbours((1, 1))?.as_slice() == [(0, 0), (2, 2)].as_slice()),
        Call::BreadthFlood => is_reached(grid.bfs_reachable((1, 1), is_any)),
        Call::DepthFlood => is_reached(grid.dfs_reachable((2, 2), is_any)),
        Call::Resize => {
            let is_less = grid.resize(70, 2)?;
            Ok(is_less && is_grid(grid, (70, 2), &[(0, 0), (1, 1)]) && is_diagonal(grid))
        }
        Call::Text => is_shown(heap, grid),
        Call::Clone => Ok(is_as_made(&grid.clone()?)),
    }
}

/// How many growths a call makes until it gives its right answer, where it is refused with each of
/// them and leaves the grid as it was.
fn growths_of(alloc: Global, call: &Call, matrix: &Matrix<bool>) -> Option<u64> {
    for growth in 0..100u64 {
        let heap = Refusing::new(alloc);
        let Ok(mut grid) = Grid::from_vertices(&heap, VERTICES) else {
            return None;
        };
        grid.enable_diagonal_mode();
        heap.refuse(growth, 1);
        let answer = is_right(call, &heap, &mut grid, matrix);
        if heap.pending() > 0 {
            return if answer == Ok(true) {
                Some(growth)
            } else {
                None
            };
        }
        if answer != Err(GridError::OutOfMemory) || !is_as_made(&grid) {
            return None;
        }
    }
    None
}

#[test]
fn each_growth_refused(rt: HostRuntime) {
    let alloc = rt.alloc();
    let matrix = matrix![in alloc; [true, false, true], [false, true, true]].expect(&rt, "memory");
    for (number, call) in CALLS.iter().enumerate() {
        let growths = growths_of(alloc, call, &matrix);
        assert!(rt; growths > Some(0), "call {number}: {growths:?}");
    }
}

/// The edges between the positions around the centre of a grid of three columns and three rows, in
/// diagonal mode.
const AROUND_THE_CENTRE: &[((usize, usize), (usize, usize))] = &[
    ((0, 0), (1, 0)),
    ((0, 0), (0, 1)),
    ((1, 0), (2, 0)),
    ((1, 0), (2, 1)),
    ((1, 0), (0, 1)),
    ((2, 0), (2, 1)),
    ((0, 1), (0, 2)),
    ((0, 1), (1, 2)),
    ((2, 1), (2, 2)),
    ((2, 1), (1, 2)),
    ((0, 2), (1, 2)),
    ((1, 2), (2, 2)),
];

/// Whether the calls that take no memory answer what they should of the grid of `VERTICES`.
fn are_answered(grid: &mut Grid<Heap<'_>>) -> bool {
    for changed in [true, false] {
        if grid.add_vertex((0, 1)) != Ok(changed) {
            return false;
        }
    }
    for changed in [true, false] {
        if grid.remove_vertex((0, 1)) != Ok(changed) {
            return false;
        }
    }
    if grid.add_borders() != Ok(6) || !grid.is_full() || grid.fill() {
        return false;
    }
    if grid.remove_borders() != Ok(8) || grid.vertices_len() != 1 {
        return false;
    }
    grid.invert();
    grid.enable_diagonal_mode();
    let are_edges = grid.edges().eq(AROUND_THE_CENTRE.iter().copied());
    are_edges && grid.has_edge((0, 1), (1, 0)) && grid.clear() && !grid.clear() && grid.is_empty()
}

/// Whether the grid of `VERTICES` answers its sizes, places and vertices, and leaves diagonal mode.
fn is_read<'h>(grid: &mut Grid<Heap<'h>>, same: &Grid<Heap<'h>>) -> bool {
    grid.disable_diagonal_mode();
    is_grid(grid, (3, 3), &VERTICES)
        && *grid == *same
        && grid.size() == 9
        && grid.is_inside((2, 2))
        && !grid.is_inside((3, 0))
        && grid.has_vertex((1, 1))
        && !grid.has_vertex((0, 1))
        && grid.distance((0, 0), (2, 1)) == 3
        && grid.width() > 0
        && grid.height() > 0
        && grid.constrain((10, -53)) == (1, 1)
}

#[test]
fn calls_without_memory(rt: HostRuntime) {
    let heap = Refusing::new(rt.alloc());
    let mut grid = Grid::from_vertices(&heap, VERTICES).expect(&rt, "memory");
    let mut same = Grid::from_vertices(&heap, VERTICES).expect(&rt, "memory");
    heap.refuse(0, u64::MAX);
    same.enable_diagonal_mode();
    assert!(rt; is_read(&mut same, &grid) && are_answered(&mut grid));
    assert!(rt; heap.pending() == u64::MAX);
}
