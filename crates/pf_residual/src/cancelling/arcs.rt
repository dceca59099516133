//! Arcs, and their numbers in rows.

ghost use Rattle.std.specs.Prelude.{◌≡◌, ◌<◌, ℕ, Some, Vec, IfOk, IfErr, length, slice_get};
ghost use Rattle.pf_residual.specs.Internal.Cancelling.{Has, AreRows, AreInside};
ghost use Rattle.pf_residual.specs.declared.cancelling.arcs.Arc.{Arc};

use pf_base::PathError;
use std::alloc::Allocator;

/// An arc from a vertex to another.
#[derive(Clone, Copy)]
pub struct Arc {
    pub from: usize,
    pub to: usize,
}

/// For each vertex the numbers of the arcs that leave it.
pub type Rows<A> = Vec<Vec<usize, A>, A>;

/// As many empty rows.
fn empty_rows<A: Allocator + Copy>(alloc: A, count: usize) -> Result<Rows<A>, PathError>
    ensures len { IfOk result (λ rows. length rows.items ≡ count) }
    ensures empty { IfOk result (λ rows. (b k : ℕ) (row : Vec ℕ A) → slice_get rows.items b ≡ Some row → ¬ (Has row.items k)) }
    ensures refused { IfErr result (λ e. e ≡ PathError.OutOfMemory) }
{
    let mut rows = Vec::with_capacity(alloc, count)?;
    'rows: for _row in 0..count {
        rows.push(Vec::new(alloc))?;
    }
    Ok(rows)
}

/// The numbers of the arcs, in rows by the vertices that they leave.
pub fn rows_of<A: Allocator + Copy>(
    alloc: A,
    size: usize,
    ends: &[Arc],
) -> Result<Rows<A>, PathError>
    requires inside { AreInside size ends.now }
    ensures len { IfOk result (λ rows. length rows.items ≡ size) }
    ensures rows { IfOk result (λ rows. AreRows ends.now rows.items) }
    ensures refused { IfErr result (λ e. e ≡ PathError.OutOfMemory) }
{
    let mut rows = empty_rows(alloc, size)?;
    'arcs: for number in 0..ends.len() {
        rows[ends[number].from].push(number)?;
    }
    Ok(rows)
}
