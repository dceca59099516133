//! Worked values of `utils`, at the ends of the types too.

use pf_base::Tally;
use pf_utils::{constrain, in_direction, move_in_direction, uint_sqrt};
use std::mem;

/// A row and a column, or how many there are of each.
type Cell = (usize, usize);

/// How far a move goes.
type Direction = (isize, isize);

/// Numbers and their roots.
const ROOTS: &[(u64, Option<u64>)] = &[
    (0, Some(0)),
    (1, Some(1)),
    (2, None),
    (10, None),
    (49, Some(7)),
    (100, Some(10)),
    (255, None),
    (152399025, Some(12345)),
    (18446744065119617024, None),
    (18446744065119617025, Some(4294967295)),
    (18446744065119617026, None),
    (u64::MAX, None),
];

/// Whether roots are found at the ends of the narrowest type and of the widest one.
fn are_rooted_at_ends() -> bool {
    let square = 340282366920938463426481119284349108225u128;
    uint_sqrt(225u8) == Some(15)
        && uint_sqrt(255u8).is_none()
        && uint_sqrt(square) == Some(18446744073709551615)
        && uint_sqrt(u128::MAX).is_none()
}

#[test]
fn square_roots(rt: HostRuntime) {
    for (number, root) in ROOTS {
        assert!(rt; uint_sqrt(*number) == *root, "the root of {number}");
    }
    assert!(rt; are_rooted_at_ends());
}

/// Values, how many numbers there are from 0 on, and the remainders.
const REMAINDERS: &[(isize, usize, usize)] = &[
    (5, 7, 5),
    (-30, 7, 5),
    (isize::MIN, 2, 0),
    (30, 7, 2),
    (-28, 7, 0),
    (-1, usize::MAX, usize::MAX - 1),
    (isize::MIN, usize::MAX, 9223372036854775807),
];

#[test]
fn remainders(rt: HostRuntime) {
    for (value, upper, remainder) in REMAINDERS {
        assert!(rt;
            *upper > 0 && constrain(*value, *upper) == *remainder,
            "{value} by {upper}"
        );
    }
}

/// Cells of a board of 8 by 8, directions, and where these lead.
const MOVES: &[(Cell, Direction, Option<Cell>)] = &[
    ((1, 1), (1, 3), Some((2, 4))),
    ((1, 1), (-1, -1), Some((0, 0))),
    ((5, 5), (-1, -2), Some((4, 3))),
    ((1, 1), (-1, -2), None),
    ((0, 0), (-1, -1), None),
    ((7, 0), (1, -1), None),
    ((8, 8), (-1, -1), None),
    ((1, 1), (isize::MAX, 0), None),
    ((0, 1), (isize::MIN, 0), None),
    ((1, 1), (0, 0), None),
    ((8, 1), (-1, 0), None),
    ((7, 7), (0, 1), None),
];

#[test]
fn moves(rt: HostRuntime) {
    for (start, direction, target) in MOVES {
        assert!(rt;
            move_in_direction(*start, *direction, (8, 8)) == *target,
            "{start:?}"
        );
    }
}

/// Cells, directions, sizes of boards, and the cells to which the directions lead.
const RAYS: &[(Cell, Direction, Cell, &[Cell])] = &[
    ((1, 1), (1, 3), (8, 8), &[(2, 4), (3, 7)]),
    ((1, 1), (1, 3), (2, 4), &[]),
    ((0, 0), (1, 2), (8, 8), &[(1, 2), (2, 4), (3, 6)]),
    ((0, 0), (-1, -1), (8, 8), &[]),
    ((0, 7), (-1, 1), (8, 8), &[]),
    ((0, 7), (0, 0), (8, 8), &[]),
    ((0, 8), (-1, 1), (8, 8), &[]),
    ((8, 0), (-1, 1), (8, 8), &[]),
    ((8, 8), (-1, -1), (8, 8), &[]),
    ((1, 1), (0, 0), (8, 8), &[]),
    ((8, 1), (-1, 0), (8, 8), &[]),
    (
        (7, 3),
        (-1, 0),
        (8, 8),
        &[(6, 3), (5, 3), (4, 3), (3, 3), (2, 3), (1, 3), (0, 3)],
    ),
    (
        (0, 0),
        (1, 1),
        (8, 9),
        &[(1, 1), (2, 2), (3, 3), (4, 4), (5, 5), (6, 6), (7, 7)],
    ),
    (
        (0, 0),
        (0, isize::MAX),
        (1, usize::MAX),
        &[(0, 9223372036854775807), (0, 18446744073709551614)],
    ),
];

#[test]
fn rays(rt: HostRuntime) {
    for (start, direction, dimensions, targets) in RAYS {
        let ray = in_direction(*start, *direction, *dimensions);
        assert!(rt;
            ray.eq(targets.iter().copied()),
            "{start:?} to {direction:?}"
        );
    }
}

#[test]
fn a_tally_has_no_size(rt: HostRuntime) {
    let mut tally = Tally::new();
    tally.tick();
    assert!(rt; mem::size_of::<Tally>() == 0);
}
