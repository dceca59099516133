//! Calls on a matrix whose values take memory as well: the clone of one value is refused after others
//! were made.

ghost use Rattle.std.specs.Prelude.{◌≡◌, IfOk};
ghost use Rattle.pf_matrix.specs.Arrange.{CanTurn};

use super::Heap;
use pf_matrix::{Matrix, MatrixFormatError};

/// A value that takes memory: a word of one letter.
type Word<'h> = Vec<u8, Heap<'h>>;

type Words<'h> = Matrix<Word<'h>, Heap<'h>>;

/// A call on the matrix [["a", "a"]].
pub(super) enum WordCall {
    Clone,
    Slice,
    FlippedLr,
    Transposed,
    /// It is filled with "b".
    Fill,
    /// It is extended by the row ["a", "a"].
    Extend,
}

/// [["a", "a"]]
fn words_of(heap: Heap<'_>) -> Result<Words<'_>, MatrixFormatError>
    ensures { IfOk result (λ m. m.rows ≡ 1) }
{
    Matrix::new(heap, 1, 2, vec![in heap; b'a']?)
}

/// The letter of each word after a call, and the numbers of rows and of columns.
fn shape_after(call: &WordCall) -> (u8, usize, usize) {
    match call {
        WordCall::Clone | WordCall::Slice | WordCall::FlippedLr => (b'a', 1, 2),
        WordCall::Transposed => (b'a', 2, 1),
        WordCall::Fill => (b'b', 1, 2),
        WordCall::Extend => (b'a', 2, 2),
    }
}

/// Whether a matrix has these sizes, and each of its words is this letter.
fn are_words(words: &Words<'_>, shape: (u8, usize, usize)) -> bool {
    let letter = [shape.0];
    for word in words.values() {
        if word.as_slice() != letter.as_slice() {
            return false;
        }
    }
    words.rows() == shape.1 && words.columns() == shape.2
}

/// The copy that a call makes.
fn copy_of<'h>(words: &Words<'h>, call: &WordCall) -> Result<Words<'h>, MatrixFormatError>
    requires { CanTurn words.now }
{
    match call {
        WordCall::Slice => words.slice(0..1, 0..2),
        WordCall::FlippedLr => words.flipped_lr(),
        WordCall::Transposed => words.transposed(),
        _ => Ok(words.clone()?),
    }
}

/// Makes a change.
fn make_change<'h>(
    heap: Heap<'h>,
    words: &mut Words<'h>,
    call: &WordCall,
) -> Result<(), MatrixFormatError> {
    match call {
        WordCall::Fill => words.fill(vec![in heap; b'b']?),
        _ => {
            let row = words_of(heap)?;
            words.extend(row.as_slice())
        }
    }
}

/// Whether a copy has the right words.
fn is_copied(
    copy: Result<Words<'_>, MatrixFormatError>,
    shape: (u8, usize, usize),
) -> Result<bool, MatrixFormatError> {
    let words = copy?;
    Ok(are_words(&words, shape))
}

/// Whether a call answers the only right answer. A refused change has to leave the words as they were.
pub(super) fn answers_in_words(heap: Heap<'_>, call: &WordCall) -> Result<bool, MatrixFormatError> {
    let mut words = words_of(heap)?;
    match call {
        WordCall::Fill | WordCall::Extend => {
            let changed = make_change(heap, &mut words, call);
            match changed {
                Ok(()) => Ok(are_words(&words, shape_after(call))),
                Err(error) if are_words(&words, (b'a', 1, 2)) => Err(error),
                Err(_) => Ok(false),
            }
        }
        _ => is_copied(copy_of(&words, call), shape_after(call)),
    }
}
