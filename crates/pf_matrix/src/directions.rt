//! The directions of a grid, as steps by rows and columns.

/// One column on.
pub const E: (isize, isize) = (0, 1);
/// One row on.
pub const S: (isize, isize) = (1, 0);
/// One column back.
pub const W: (isize, isize) = (0, -1);
/// One row back.
pub const N: (isize, isize) = (-1, 0);
/// One row back and one column on.
pub const NE: (isize, isize) = (-1, 1);
/// One row on and one column on.
pub const SE: (isize, isize) = (1, 1);
/// One row back and one column back.
pub const NW: (isize, isize) = (-1, -1);
/// One row on and one column back.
pub const SW: (isize, isize) = (1, -1);

/// The four directions along rows and columns, clockwise.
pub const DIRECTIONS_4: [(isize, isize); 4] = [E, S, W, N];

/// The eight directions with diagonals, clockwise.
pub const DIRECTIONS_8: [(isize, isize); 8] = [NE, E, SE, S, SW, W, NW, N];
