//! Matrices and grids at the ends of `usize` and `isize`.

use pf_grid::{Grid, GridError};
use pf_matrix::{Matrix, MatrixFormatError, matrix};

/// Positions outside of all that fits the memory.
const FAR: [(usize, usize); 3] = [(usize::MAX, usize::MAX), (usize::MAX, 0), (0, usize::MAX)];

#[test]
fn positions_far_outside_of_a_matrix(rt: HostRuntime) {
    let mut board = matrix![in rt.alloc(); [1u8, 2, 3], [4, 5, 6]].expect(&rt, "memory");
    let part = matrix![in rt.alloc(); [9u8]].expect(&rt, "memory");
    for far in FAR {
        assert!(rt;
            !board.within_bounds(far) && board.get(far).is_none(),
            "{far:?}"
        );
        assert!(rt; board.get_mut(far).is_none(), "{far:?}");
        assert!(rt; board.neighbours(far, true).next().is_none(), "{far:?}");
        assert!(rt; board.move_in_direction(far, (-1, -1)).is_none(), "{far:?}");
        assert!(rt;
            board.in_direction(far, (-1, -1)).next().is_none(),
            "{far:?}"
        );
        board.set_slice(far, &part);
    }
    assert_eq!(rt; board.as_slice(), [1, 2, 3, 4, 5, 6].as_slice());
}

#[test]
fn far_directions_in_a_matrix(rt: HostRuntime) {
    let board = matrix![in rt.alloc(); [1u8, 2, 3], [4, 5, 6]].expect(&rt, "memory");
    for direction in [
        (isize::MIN, isize::MIN),
        (isize::MAX, isize::MAX),
        (0, isize::MIN),
        (isize::MAX, 0),
    ] {
        assert!(rt;
            board.move_in_direction((1, 2), direction).is_none(),
            "{direction:?}"
        );
        assert!(rt;
            board.in_direction((1, 2), direction).next().is_none(),
            "{direction:?}"
        );
    }
    // 2^63 is 0 and 2 more than multiples of 2 and 3.
    for (position, inside) in [
        ((isize::MIN, isize::MIN), (0, 1)),
        ((isize::MAX, isize::MAX), (1, 1)),
        ((isize::MIN, isize::MAX), (0, 1)),
        ((-1, -1), (1, 2)),
    ] {
        assert_eq!(rt; board.constrain(position), inside);
    }
}

#[test]
fn far_ranges_and_turns_of_a_matrix(rt: HostRuntime) {
    let board = matrix![in rt.alloc(); [1u8, 2, 3], [4, 5, 6]].expect(&rt, "memory");
    for (rows, columns) in [
        (0..usize::MAX, 0..1),
        (0..1, 0..usize::MAX),
        (usize::MAX..0, 0..1),
        (usize::MAX..usize::MAX, 0..1),
    ] {
        let refused = board.slice(rows, columns);
        assert!(rt; matches!(refused, Err(MatrixFormatError::WrongIndex)));
    }
    // usize::MAX quarter turns are three more than a multiple of four.
    let turned = board.rotated_ccw(usize::MAX).expect(&rt, "memory");
    assert_eq!(rt; turned.as_slice(), [4, 1, 5, 2, 6, 3].as_slice());
    let mut square = matrix![in rt.alloc(); [1u8, 2], [3, 4]].expect(&rt, "memory");
    square.rotate_cw(usize::MAX);
    assert_eq!(rt; square.as_slice(), [2, 4, 1, 3].as_slice());
    let one = vec![in rt.alloc(); 1u8].expect(&rt, "memory");
    let square_of_most = Matrix::from_vec(usize::MAX, usize::MAX, one);
    assert!(rt; matches!(square_of_most, Err(MatrixFormatError::WrongLength)));
}

#[test]
fn positions_far_outside_of_a_grid(rt: HostRuntime) {
    let mut grid = Grid::new(rt.alloc(), 3, 5).expect(&rt, "memory");
    grid.fill();
    grid.enable_diagonal_mode();
    assert!(rt; grid.distance((0, usize::MAX), (usize::MAX, 0)) == usize::MAX);
    for far in FAR {
        assert!(rt; !grid.is_inside(far) && !grid.has_vertex(far), "{far:?}");
        assert!(rt;
            matches!(
                (grid.add_vertex(far), grid.remove_vertex(far)),
                (Ok(false), Ok(false))
            ),
            "{far:?}"
        );
        assert!(rt;
            grid.neighbours(far).expect(&rt, "memory").is_empty(),
            "{far:?}"
        );
        assert!(rt;
            !grid.has_edge(far, (0, 0)) && !grid.has_edge((0, 0), far),
            "{far:?}"
        );
    }
    assert!(rt; grid.vertices_len() == 15);
    // 2^63 is 2 more than a multiple of 3, and 3 more than one of 5.
    assert!(rt; grid.constrain((isize::MAX, isize::MIN)) == (1, 2));
    let wide = Grid::from_vertices(rt.alloc(), [(0, 0), (0, usize::MAX)]);
    assert!(rt; matches!(wide, Err(GridError::TooLarge)));
}
