//! Each call once with its answer, and each growth refused in turn.

ghost use Rattle.std.specs.Prelude.{◌≡◌, IfOk};

mod refusals;
mod still;
mod texts;
mod words;

use pf_matrix::{Matrix, MatrixFormatError};
use std::alloc::Global;
use test_allocator::Refusing;

/// A heap that refuses requests.
type Heap<'h> = &'h Refusing<Global>;

/// A matrix of numbers over such a heap.
type Numbers<'h> = Matrix<u8, Heap<'h>>;

/// A number of rows, a number of columns, and the values by rows.
type Shape<'a> = (usize, usize, &'a [u8]);

/// [[1, 2, 3], [4, 5, 6]]
const SIX: Shape<'static> = (2, 3, &[1, 2, 3, 4, 5, 6]);

/// [[1, 2], [3, 4]]
const FOUR: Shape<'static> = (2, 2, &[1, 2, 3, 4]);

/// The matrix of this shape.
fn matrix_of<'h>(heap: Heap<'h>, shape: Shape<'_>) -> Result<Numbers<'h>, MatrixFormatError>
    ensures rows { IfOk result (λ m. m.rows ≡ shape.entry.0) }
    ensures columns { IfOk result (λ m. m.columns ≡ shape.entry.1) }
{
    Matrix::from_vec(shape.0, shape.1, shape.2.to_vec(heap)?)
}

/// Whether a matrix has this shape.
fn shows(matrix: &Numbers<'_>, shape: Shape<'_>) -> bool {
    matrix.rows() == shape.0 && matrix.columns() == shape.1 && matrix.as_slice() == shape.2
}
