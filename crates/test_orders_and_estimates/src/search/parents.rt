//! A map of parents that is made by hand, and the paths in it.

ghost use Rattle.std.specs.Prelude.{◌≡◌, ◌<◌, ℕ, Some, nat_eq, IfOk};
ghost use Rattle.std.specs.HashMap.{get};

use pf_base::PathError;
use pf_search::directed::dijkstra::{Parents, build_path};
use std::alloc::Global;
use std::collections::HashMap;
use test_allocator::Refusing;

/// A map in which the parent of each number from 2 to 100 is its half, rounded down.
fn halves(ample: Global) -> Result<Parents<usize, u32, Global>, PathError>
    ensures { IfOk result (λ parents. (x parent cost : ℕ) → get nat_eq parents x ≡ Some (parent, cost) → parent < x) }
{
    let mut parents = HashMap::new(ample);
    for number in 2..101usize {
        parents.insert(number, (number / 2, 1))?;
    }
    Ok(parents)
}

/// The chain of halves that ends at a number.
pub fn halved_to<'a>(
    heap: &'a Refusing<Global>,
    ample: Global,
    target: usize,
) -> Result<Vec<usize, &'a Refusing<Global>>, PathError> {
    let parents = halves(ample)?;
    build_path(heap, &target, &parents)
}
