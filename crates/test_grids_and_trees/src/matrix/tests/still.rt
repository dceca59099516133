//! Calls that take no memory: they answer while every growth is refused.

use super::{FOUR, Heap, Numbers, SIX, Shape, matrix_of, shows};
use pf_matrix::directions::{E, SE};
use pf_matrix::{Matrix, MatrixFormatError};
use std::hash::{DefaultHasher, Hash, Hasher};
use test_allocator::Refusing;

/// Three rows of five columns, of rising values.
const FIFTEEN: Shape<'static> = (3, 5, &[1, 2, 3, 4, 5, 6, 7, 8, 9, 10, 11, 12, 13, 14, 15]);

/// Whether `SIX` answers its sizes, places and values.
fn is_read(six: &Numbers<'_>) -> bool {
    !six.is_empty()
        && !six.is_square()
        && !six.within_bounds((2, 0))
        && six.within_bounds((1, 0))
        && six.idx((1, 0)) == 3
        && six.idx_unchecked((1, 0)) == 3
        && six[(1, 0)] == 4
        && six[&(1, 0)] == 4
        && six.get((1, 0)) == Some(&4)
        && six.get((0, 3)).is_none()
}

/// Whether steps in `SIX` and in `FOUR` lead where they should.
fn is_walked(six: &Numbers<'_>, four: &Numbers<'_>) -> bool {
    six.move_in_direction((0, 0), SE) == Some((1, 1))
        && six.move_in_direction((1, 1), SE).is_none()
        && six.in_direction((0, 0), E).eq([(0, 1), (0, 2)])
        && six.neighbours((0, 0), true).eq([(0, 1), (1, 0), (1, 1)])
        && six.neighbours((9, 9), true).next().is_none()
        && four.neighbours((0, 0), false).eq([(0, 1), (1, 0)])
        && four.neighbours((0, 0), true).eq([(0, 1), (1, 0), (1, 1)])
}

/// Whether `SIX` is iterated as it should.
fn is_iterated(six: &Numbers<'_>) -> bool {
    let mut rows = six.iter();
    rows.next() == Some(&[1, 2, 3])
        && rows.next_back() == Some(&[4, 5, 6])
        && rows.next().is_none()
        && rows.next_back().is_none()
        && six.into_iter().next() == Some(&[1, 2, 3])
        && six.keys().next() == Some((0, 0))
        && six.items().next() == Some(((0, 0), &1))
        && six.values().next() == Some(&1)
}

/// Whether the rows of `FIFTEEN` are given from both ends, and positions lead back inside.
fn is_bounded(fifteen: &Numbers<'_>) -> bool {
    let mut rows = fifteen.iter();
    rows.next() == Some(&[1, 2, 3, 4, 5])
        && rows.next_back() == Some(&[11, 12, 13, 14, 15])
        && rows.next_back() == Some(&[6, 7, 8, 9, 10])
        && rows.next().is_none()
        && fifteen.rows() > 0
        && fifteen.columns() > 0
        && fifteen.constrain((1, 2)) == (1, 2)
        && fifteen.constrain((10, -53)) == (1, 2)
}

/// Whether values that are written by indexing stand in `FOUR`.
fn is_indexed(four: &mut Numbers<'_>) -> bool {
    if four.within_bounds((1, 0)) {
        four[(1, 0)] = 7;
    }
    if four.within_bounds((1, 1)) {
        four[&(1, 1)] = 8;
    }
    shows(four, (2, 2, &[1, 2, 7, 8]))
}

/// Whether values that are written to what `FOUR` lends stand in it.
fn is_lent(four: &mut Numbers<'_>) -> bool {
    if let Some(place) = four.get_mut((0, 1)) {
        *place = 9;
    }
    four.as_mut_slice().reverse();
    if let Some(place) = four.values_mut().next() {
        *place = 7;
    }
    four.get_mut((2, 0)).is_none() && shows(four, (2, 2, &[7, 3, 9, 1]))
}

/// Whether values that are written to the items of `FOUR` stand in it.
fn is_itemized(four: &mut Numbers<'_>) -> bool {
    for (position, place) in four.items_mut() {
        if position.1 == 0 {
            *place = 0;
        }
    }
    shows(four, (2, 2, &[0, 2, 0, 4]))
}

/// Whether the values of `SIX` are moved as they should.
fn is_moved<'h>(six: &mut Numbers<'h>, four: &Numbers<'h>) -> bool {
    if six.within_bounds((0, 0)) && six.within_bounds((1, 1)) {
        six.swap((0, 0), (1, 1));
    }
    six.set_slice((1, 2), four);
    six.set_slice((2, 0), four);
    six.flip_lr();
    six.flip_ud();
    *six != *four && shows(six, (2, 3, &[1, 1, 4, 3, 2, 5]))
}

/// Whether `FOUR` is turned as it should.
fn is_turned(four: &mut Numbers<'_>) -> bool {
    if four.is_empty() || four.transpose().is_err() || !four.is_square() {
        return false;
    }
    four.rotate_cw(1);
    if !shows(four, (2, 2, &[2, 1, 4, 3])) {
        return false;
    }
    four.rotate_ccw(2);
    shows(four, (2, 2, &[3, 4, 1, 2]))
}

/// What is made of the writes of a matrix.
fn hash_of(matrix: &Numbers<'_>) -> u64 {
    let mut state = DefaultHasher::new();
    matrix.hash(&mut state);
    state.finish()
}

/// Calls that are made on a matrix.
enum Call {
    Read,
    Walk,
    Iterate,
    Bound,
    Index,
    Lend,
    Itemize,
    Move,
    Turn,
    Compare,
}

/// Whether calls on a matrix answer what they should, beside another one that is `FOUR`.
fn is_answered<'h>(matrix: &mut Numbers<'h>, four: &Numbers<'h>, call: &Call) -> bool {
    match call {
        Call::Read => is_read(matrix),
        Call::Walk => is_walked(matrix, four),
        Call::Iterate => is_iterated(matrix),
        Call::Bound => is_bounded(matrix),
        Call::Index => is_indexed(matrix),
        Call::Lend => is_lent(matrix),
        Call::Itemize => is_itemized(matrix),
        Call::Move => is_moved(matrix, four),
        Call::Turn => is_turned(matrix),
        Call::Compare => *matrix == *four && hash_of(matrix) == hash_of(four),
    }
}

/// Calls, and the matrices on which they are made.
const CALLS: &[(Call, Shape<'static>)] = &[
    (Call::Read, SIX),
    (Call::Walk, SIX),
    (Call::Iterate, SIX),
    (Call::Bound, FIFTEEN),
    (Call::Index, FOUR),
    (Call::Lend, FOUR),
    (Call::Itemize, FOUR),
    (Call::Move, SIX),
    (Call::Turn, FOUR),
    (Call::Compare, FOUR),
];

#[test]
fn calls_take_no_memory(rt: HostRuntime) {
    let heap = Refusing::new(rt.alloc());
    let four = matrix_of(&heap, FOUR).expect(&rt, "memory");
    for (number, (call, shape)) in CALLS.iter().enumerate() {
        let mut matrix = matrix_of(&heap, *shape).expect(&rt, "memory");
        heap.refuse(0, u64::MAX);
        let is_answered = is_answered(&mut matrix, &four, call);
        assert!(rt; is_answered && heap.pending() == u64::MAX, "call {number}");
        heap.refuse(0, 0);
    }
}

/// Whether `FOUR` is made of its values.
fn is_square_made(values: Vec<u8, Heap<'_>>) -> bool {
    matches!(Matrix::square_from_vec(values), Ok(four) if shows(&four, FOUR))
}

/// Numbers of rows and columns without values, and why `from_vec` refuses them.
const WITHOUT_VALUES: &[(usize, usize, MatrixFormatError)] = &[
    (2, 0, MatrixFormatError::EmptyRow),
    (usize::MAX, 2, MatrixFormatError::WrongLength),
    (usize::MAX, 0, MatrixFormatError::EmptyRow),
];

#[test]
fn makers_take_no_memory(rt: HostRuntime) {
    let heap = Refusing::new(rt.alloc());
    let values = vec![in &heap; 1u8, 2, 3, 4].expect(&rt, "memory");
    let signed_values = vec![in &heap; 1i8, -2].expect(&rt, "memory");
    heap.refuse(0, u64::MAX);
    let negated = -Matrix::from_vec(1, 2, signed_values).expect(&rt, "two values");
    assert!(rt; negated.as_slice() == [-1, 2].as_slice() && is_square_made(values));
    for (rows, columns, refusal) in WITHOUT_VALUES {
        let made: Result<Numbers<'_>, _> = Matrix::from_vec(*rows, *columns, Vec::new(&heap));
        assert!(rt; made.err() == Some(*refusal));
    }
    assert!(rt; heap.pending() == u64::MAX);
}
