//! The numbers that are given for names, by the numbers of the names.

ghost use Rattle.std.specs.Prelude.{◌≡◌, ℕ, Some, IfOk, length, slice_get};
ghost use Rattle.pf_edge_lists.specs.EdgeLists.{names_of};
ghost use Rattle.pf_estimated_graphs.specs.EstimatesInTables.{estimate_at};
ghost use Rattle.pf_estimated_names.specs.EstimatesByName.{last_given};

use pf_base::filled::filled;
use pf_base::{Cost, PathError};
use pf_edge_lists::EdgeList;
use std::alloc::Allocator;
use std::hash::Hash;

/// For each name of the list the last number that is given for it, and 0 where none is.
pub fn numbers_given<'e, N, C, A, B>(
    alloc: B,
    list: &EdgeList<'e, N, C, A>,
    given: &[(N, C)],
) -> Result<Vec<C, B>, PathError>
where
    N: Eq + Hash,
    C: Cost,
    A: Allocator,
    B: Allocator,
    ensures complete { IfOk result (λ numbers. length numbers.items ≡ length (names_of N.eq list.now)) }
    ensures last { IfOk result (λ numbers. (k : ℕ) (x : N) → slice_get (names_of N.eq list.now) k ≡ Some x → estimate_at C.value numbers.items k ≡ last_given N.eq C.value given.now x) }
{
    let mut numbers = filled(alloc, list.len(), C::zero())?;
    for entry in given {
        if let Some(node) = list.number_of(&entry.0) {
            numbers[node] = entry.1;
        }
    }
    Ok(numbers)
}
