//! A square table of numbers.

ghost use Rattle.std.specs.Prelude.{◌≡◌, ◌<◌, IfOk};

use crate::draw::Draws;
use crate::error::BenchError;
use crate::inputs::drawn;
use pf_matrix::Matrix;
use std::alloc::Global;

/// A square matrix of numbers from 1 to 1000.
pub fn table(alloc: Global, size: usize) -> Result<Matrix<i64>, BenchError>
    requires { 0 < size }
    ensures rows { IfOk result (λ m. m.rows ≡ size) }
    ensures columns { IfOk result (λ m. m.columns ≡ size) }
{
    let Some(cells) = size.checked_mul(size) else {
        return Err(BenchError::TooLarge);
    };
    let mut draws = Draws::new();
    let values = drawn(alloc, cells, || i64::from(draws.cost()))?;
    Ok(Matrix::from_vec(size, size, values)?)
}
