//! Worked values.

ghost use Rattle.std.specs.Prelude.{◌*◌, ◌^◌, ◌<◌};

use pf_grid::{Grid, GridError};
use pf_matrix::matrix;
use std::alloc::Global;
use std::collections::BTreeSet;
use std::process::Abort;

/// A column and a row.
type Position = (usize, usize);

/// The characters for vertices and for other positions.
type Marks = (char, char);

const PLAIN: Marks = ('#', '.');

const SHADED: Marks = ('▓', '░');

/// Whether this is the text of a grid.
fn has_text(grid: &Grid, alloc: Global, marks: Marks, reversed: bool, wanted: &str) -> bool {
    let mut text = String::new(alloc);
    let written = grid.append_text(&mut text, marks.0, marks.1, reversed);
    written.is_ok() && text.as_str() == wanted
}

/// Whether the borders of a grid of three columns and four rows are added, shown and removed.
fn is_bordered(grid: &mut Grid, alloc: Global) -> bool {
    grid.add_borders() == Ok(10)
        && has_text(grid, alloc, PLAIN, false, "###\n#.#\n#.#\n###")
        && grid.remove_borders() == Ok(10)
        && grid.is_empty()
}

#[test]
fn borders_as_text(rt: HostRuntime) {
    let mut grid = Grid::new(rt.alloc(), 3, 4).expect(&rt, "memory");
    assert!(rt; is_bordered(&mut grid, rt.alloc()));
}

/// Whether an inverted grid has neither vertices nor edges.
fn has_nothing(grid: &mut Grid) -> bool {
    grid.invert();
    grid.edges().next().is_none() && grid.iter().next().is_none()
}

/// A grid of so many columns and rows without vertices.
fn new_grid(rt: &impl Abort, alloc: Global, columns: usize, rows: usize) -> Grid
    requires { columns * rows < 2 ^ 64 }
{
    Grid::new(alloc, columns, rows).expect(rt, "memory")
}

#[test]
fn no_columns_or_no_rows(rt: HostRuntime) {
    let alloc = rt.alloc();
    let mut thin = new_grid(&rt, alloc, 0, 3);
    assert!(rt; has_nothing(&mut thin) && has_text(&thin, alloc, PLAIN, false, "\n\n"));
    let flat = new_grid(&rt, alloc, 3, 0);
    assert!(rt; has_text(&flat, alloc, PLAIN, true, ""));
    let mut long = new_grid(&rt, alloc, 0, usize::MAX);
    assert!(rt; has_nothing(&mut long));
}

/// The positions around the centre of a full grid of three columns and rows, in diagonal mode.
const AROUND_THE_CENTRE: &[Position] = &[
    (0, 1),
    (0, 0),
    (0, 2),
    (2, 1),
    (2, 0),
    (2, 2),
    (1, 0),
    (1, 2),
];

/// The edges of a full grid of two columns and rows, in diagonal mode.
const SMALL_EDGES: &[(Position, Position)] = &[
    ((0, 0), (1, 0)),
    ((0, 0), (0, 1)),
    ((0, 0), (1, 1)),
    ((1, 0), (1, 1)),
    ((1, 0), (0, 1)),
    ((0, 1), (1, 1)),
];

/// Makes each position of a grid a vertex, and its steps diagonal too.
fn complete(grid: &mut Grid) {
    grid.fill();
    grid.enable_diagonal_mode();
}

/// Whether the positions around the centre are given in their order.
fn has_order_around(grid: &Grid) -> bool {
    matches!(&grid.neighbours((1, 1)), Ok(around) if around.as_slice() == AROUND_THE_CENTRE)
}

/// Whether the edges are given in their order, and those that are diagonal in their mode alone.
fn has_order_of_edges(small: &mut Grid) -> bool {
    let are_edges = small.edges().eq(SMALL_EDGES.iter().copied());
    small.disable_diagonal_mode();
    are_edges && !small.has_edge((0, 0), (1, 1)) && small.distance((0, 0), (1, 1)) == 2
}

#[test]
fn orders(rt: HostRuntime) {
    let mut grid = new_grid(&rt, rt.alloc(), 3, 3);
    complete(&mut grid);
    assert!(rt; has_order_around(&grid));
    let mut small = new_grid(&rt, rt.alloc(), 2, 2);
    complete(&mut small);
    assert!(rt; has_order_of_edges(&mut small));
}

/// Adds vertices, and answers whether each was missing.
fn are_added(grid: &mut Grid, positions: &[Position]) -> bool {
    for position in positions {
        if grid.add_vertex(*position) != Ok(true) {
            return false;
        }
    }
    true
}

/// Whether grids without vertices are equal as long as they have the same ones, whatever their sizes.
fn are_equal_by_vertices(small: &mut Grid, large: &mut Grid) -> bool {
    are_added(small, &[(1, 1), (0, 0)])
        && are_added(large, &[(0, 0), (1, 1)])
        && *small == *large
        && small.add_vertex((2, 0)) == Ok(false)
        && are_added(large, &[(4, 4)])
        && *small != *large
}

#[test]
fn equal_by_vertices(rt: HostRuntime) {
    let mut small = new_grid(&rt, rt.alloc(), 2, 2);
    let mut large = new_grid(&rt, rt.alloc(), 5, 5);
    assert!(rt; are_equal_by_vertices(&mut small, &mut large));
}

/// Whether the only vertex that is missing in a grid of 65 columns and two rows is kept as it should
/// when the grid is inverted and loses its column.
fn is_cut_off(grid: &mut Grid) -> bool {
    if !grid.fill() || grid.remove_vertex((64, 0)) != Ok(true) || grid.vertices_len() != 129 {
        return false;
    }
    grid.invert();
    grid.vertices_len() == 1
        && grid.iter().eq([(64, 0)])
        && grid.resize(64, 2) == Ok(true)
        && grid.resize(65, 2) == Ok(false)
        && !grid.has_vertex((64, 0))
}

#[test]
fn a_column_behind_a_word(rt: HostRuntime) {
    let mut grid = Grid::new(rt.alloc(), 65, 2).expect(&rt, "memory");
    assert!(rt; is_cut_off(&mut grid));
}

/// Whether a grid has these sizes and vertices.
fn is_grid(made: Result<Grid, GridError>, sizes: (usize, usize), vertices: &[Position]) -> bool {
    match made {
        Ok(grid) => {
            (grid.width(), grid.height()) == sizes && grid.into_iter().eq(vertices.iter().copied())
        }
        Err(_) => false,
    }
}

/// Whether a grid is refused that is as wide as a number can say.
fn is_too_wide(alloc: Global) -> bool {
    let far = Grid::from_vertices(alloc, [(usize::MAX, 0)]);
    matches!(far, Err(GridError::TooLarge))
}

/// Whether a grid is made of a matrix that has these sizes and vertices.
fn is_made_of_rows(alloc: Global) -> bool {
    match matrix![in alloc; [true, false, true], [false, true, false]] {
        Ok(matrix) => is_grid(
            Grid::from_matrix(alloc, &matrix),
            (3, 2),
            &[(0, 0), (2, 0), (1, 1)],
        ),
        Err(_) => false,
    }
}

/// Positions that are (1, 2) inside of a grid of three columns and five rows.
const ALIKE: &[(isize, isize)] = &[(isize::MIN, isize::MAX), (1, 2), (10, -53)];

/// Whether a position is (1, 2) inside of a grid.
fn is_alike(grid: &Grid, place: (isize, isize)) -> bool {
    grid.width() > 0 && grid.height() > 0 && grid.constrain(place) == (1, 2)
}

#[test]
fn vertices_and_rows(rt: HostRuntime) {
    let alloc = rt.alloc();
    assert!(rt; is_too_wide(alloc) && is_made_of_rows(alloc));
    assert!(rt; is_grid(Grid::from_vertices(alloc, []), (0, 0), &[]));
    let plain = new_grid(&rt, alloc, 3, 5);
    for place in ALIKE {
        assert!(rt; is_alike(&plain, *place), "{place:?}");
    }
}

/// Points whose least coordinates are below zero.
const POINTS: &[(i32, i32)] = &[(-16, -15), (-16, -16), (-15, -16)];

/// No points.
const NO_POINTS: &[(u8, u8)] = &[];

/// What is made of points: `None` where their differences do not fit.
type OfPoints = Result<Option<Grid>, GridError>;

/// Whether a grid is made of points that has these sizes and vertices.
fn is_made_of_points(made: OfPoints, sizes: (usize, usize), vertices: &[Position]) -> bool {
    match made {
        Ok(Some(grid)) => is_grid(Ok(grid), sizes, vertices),
        _ => false,
    }
}

/// Whether a grid is made of points that has these texts, one of them reversed.
fn is_made_of_corner(made: OfPoints, alloc: Global) -> bool {
    matches!(
        &made,
        Ok(Some(corner)) if has_text(corner, alloc, SHADED, false, "▓▓\n▓░")
            && has_text(corner, alloc, SHADED, true, "▓░\n▓▓")
    )
}

#[test]
fn points_of_any_whole_numbers(rt: HostRuntime) {
    let alloc = rt.alloc();
    let wide = Grid::from_coordinates(alloc, &[(i8::MIN, 0), (i8::MAX, 0)]);
    assert!(rt; is_made_of_points(wide, (256, 1), &[(0, 0), (255, 0)]));
    let none = Grid::from_coordinates(alloc, NO_POINTS);
    assert!(rt; is_made_of_points(none, (0, 0), &[]));
    let small = Grid::from_coordinates(alloc, &[(2u8, 2u8), (3, 4)]);
    assert!(rt; is_made_of_points(small, (2, 3), &[(0, 0), (1, 2)]));
    let apart = Grid::from_coordinates(alloc, &[(0, 0), (1u128 << 64, 0)]);
    assert!(rt; matches!(apart, Ok(None)));
    let apart = Grid::from_coordinates(alloc, &[(0, 0), (usize::MAX, 0)]);
    assert!(rt; matches!(apart, Err(GridError::TooLarge)));
    assert!(rt; is_made_of_corner(Grid::from_coordinates(alloc, POINTS), alloc));
}

/// Starts in a full grid of two columns and rows, whether steps are diagonal too, and what is
/// reached, where the position (1, 0) is not taken.
const FLOODS: &[(Position, bool, &[Position])] = &[
    ((0, 0), false, &[(0, 0), (0, 1), (1, 1)]),
    // The start need not be taken.
    ((1, 0), true, &[(0, 0), (0, 1), (1, 0), (1, 1)]),
    // From a position that is no vertex no step leads on.
    ((9, 9), true, &[(9, 9)]),
];

/// Whether a flood reached these positions.
fn has_reached(flood: Result<BTreeSet<Position>, GridError>, positions: &[Position]) -> bool {
    match flood {
        Ok(reached) => reached.into_iter().eq(positions.iter().copied()),
        Err(_) => false,
    }
}

/// Whether both floods from a start reach these positions.
fn is_flooded(grid: &Grid, start: Position, reached: &[Position]) -> bool {
    let takes = |position: Position| position != (1, 0);
    has_reached(grid.bfs_reachable(start, takes), reached)
        && has_reached(grid.dfs_reachable(start, takes), reached)
}

#[test]
fn floods_over_vertices(rt: HostRuntime) {
    let mut grid = new_grid(&rt, rt.alloc(), 2, 2);
    grid.fill();
    for (start, is_diagonal, reached) in FLOODS {
        if *is_diagonal {
            grid.enable_diagonal_mode();
        }
        assert!(rt; is_flooded(&grid, *start, reached));
    }
}

/// Whether a grid is made that is printed as this text.
fn is_printed(made: Result<Grid, GridError>, alloc: Global, wanted: &str) -> bool {
    let Ok(grid) = made else {
        return false;
    };
    matches!(format!(in alloc; "{grid:?}"), Ok(text) if text.as_str() == wanted)
}

/// The refusals and their texts.
const TEXTS: &[(GridError, &str)] = &[
    (GridError::OutOfMemory, "out of memory"),
    (GridError::TooLarge, "grid is too large"),
];

/// Whether a refusal is printed as this text.
fn is_told(error: GridError, alloc: Global, wanted: &str) -> bool {
    matches!(format!(in alloc; "{error}"), Ok(text) if text.as_str() == wanted)
}

#[test]
fn printed_texts(rt: HostRuntime) {
    let alloc = rt.alloc();
    let some = Grid::from_vertices(alloc, [(2, 1), (0, 0), (3, 1)]);
    assert!(rt; is_printed(some, alloc, "#...\n..##"));
    assert!(rt; is_printed(Grid::new(alloc, 3, 0), alloc, ""));
    assert!(rt; is_printed(Grid::new(alloc, 0, 2), alloc, "\n"));
    for (error, text) in TEXTS {
        assert!(rt; is_told(*error, alloc, text), "{text}");
    }
}
