//! Texts, directions and laws.

use pf_matrix::directions::{DIRECTIONS_4, DIRECTIONS_8, E, N, NE, NW, S, SE, SW, W};
use pf_matrix::{Matrix, MatrixFormatError, laws, matrix};
use std::alloc::{AllocError, Global};
use std::marker::PhantomData;

/// The refusals and their texts.
const TEXTS: &[(MatrixFormatError, &str)] = &[
    (MatrixFormatError::EmptyRow, "matrix rows cannot be empty"),
    (
        MatrixFormatError::WrongIndex,
        "index does not point to data inside the matrix",
    ),
    (
        MatrixFormatError::WrongLength,
        "provided data does not correspond to the expected length",
    ),
    (MatrixFormatError::OutOfMemory, "out of memory"),
];

/// Whether the rows of a matrix of characters are the lines "abc" and "def".
fn has_lines(made: Result<Matrix<char>, MatrixFormatError>) -> bool {
    let Ok(letters) = &made else {
        return false;
    };
    letters.rows() == 2
        && letters.columns() == 3
        && letters.as_slice() == ['a', 'b', 'c', 'd', 'e', 'f'].as_slice()
        && letters.get((1, 1)) == Some(&'e')
}

/// The matrix of the characters of a text, with a row for each line.
fn characters_of(alloc: Global, text: &str) -> Result<Matrix<char>, MatrixFormatError> {
    Matrix::from_rows(alloc, text.lines().map(|line: &str| line.chars()))
}

/// Whether a refusal is printed as this text.
fn is_told(alloc: Global, error: MatrixFormatError, wanted: &str) -> bool {
    matches!(format!(in alloc; "{error}"), Ok(text) if text.as_str() == wanted)
}

/// Whether a matrix is printed as this text.
fn is_printed(made: Result<Matrix<u8>, MatrixFormatError>, alloc: Global, wanted: &str) -> bool {
    let Ok(matrix) = made else {
        return false;
    };
    matches!(format!(in alloc; "{matrix:?}"), Ok(text) if text.as_str() == wanted)
}

#[test]
fn texts_of_refusals_and_of_a_matrix(rt: HostRuntime) {
    let alloc = rt.alloc();
    for (error, text) in TEXTS {
        assert!(rt; is_told(alloc, *error, text), "{text}");
    }
    assert!(rt; MatrixFormatError::from(AllocError) == MatrixFormatError::OutOfMemory);
    let four = matrix![in alloc; 1u8, 2; 3, 4];
    assert!(rt;
        is_printed(
            four,
            alloc,
            "Matrix { rows: 2, columns: 2, data: [1, 2, 3, 4] }"
        )
    );
    assert!(rt; has_lines(characters_of(alloc, "abc\ndef")));
}

/// A number of rows and one of columns, which may be below zero.
type Step = (isize, isize);

/// Lists of directions, and what they are.
const LISTS: &[(&[Step], &[Step])] = &[
    (&[E, S, W, N], &[(0, 1), (1, 0), (0, -1), (-1, 0)]),
    (&[NE, SE, SW, NW], &[(-1, 1), (1, 1), (1, -1), (-1, -1)]),
    (&DIRECTIONS_4, &[E, S, W, N]),
    (&DIRECTIONS_8, &[NE, E, SE, S, SW, W, NW, N]),
];

#[test]
fn directions_have_their_steps_and_order(rt: HostRuntime) {
    for (directions, steps) in LISTS {
        assert!(rt; directions == steps);
    }
}

#[test]
fn laws_can_be_called() {
    laws::two_flips_lr(PhantomData::<u8>);
    laws::two_flips_ud(PhantomData::<u8>);
    laws::two_transpositions(PhantomData::<u8>);
    laws::four_quarter_turns(PhantomData::<u8>);
    laws::turns_undone(PhantomData::<u8>);
    laws::equal_copies(PhantomData::<String>);
    laws::equal_hash_alike(PhantomData::<u8>);
}
