//! One step of the iterator over all cheapest paths between names: the numbers of a path, and their names.

ghost use Rattle.std.specs.Prelude.{◌≡◌, None, IfOk, false, get_or};
ghost use Rattle.std.specs.Option.{option_map};
ghost use Rattle.pf_edge_lists.specs.EdgeLists.{names_of};
ghost use Rattle.pf_name_estimates.specs.CheapestPathsByName.{IsNamed, IsTaken, is_at_end, numbers_left};

use pf_base::{Cost, PathError};
use pf_edge_lists::EdgeList;
use pf_name_numbers::names::names_along;
use std::alloc::{AllocError, Allocator};
use std::hash::Hash;

/// The path that waits, if one does, or what the next step over numbers gives.
pub fn next_numbers<A>(
    paths: &mut pf_table_estimates::AstarSolution<A>,
    waiting: &mut Option<Vec<usize, A>>,
) -> Result<Option<Vec<usize, A>>, PathError>
where
    A: Allocator + Copy,
    requires { paths.old.refused ≡ false }
    ensures none { waiting.new ≡ None }
    ensures taken { IsTaken (numbers_left waiting.old paths.old.left) (is_at_end waiting.old paths.old.ended) result paths.new }
{
    match waiting.take() {
        Some(numbers) => Ok(Some(numbers)),
        None => paths.next().transpose(),
    }
}

/// A path with its names in the places of the numbers; where memory for them is refused, the path waits.
pub fn name_numbers<'p, 'e, N, C, A, D>(
    alloc: D,
    list: &EdgeList<'e, N, C, A>,
    other: &'p N,
    waiting: &mut Option<Vec<usize, D>>,
    numbers: Result<Option<Vec<usize, D>>, PathError>,
) -> Result<Option<Vec<&'p N, D>>, PathError>
where
    'e: 'p,
    N: Eq + Hash,
    C: Cost,
    A: Allocator,
    D: Allocator + Copy,
    ensures { IsNamed (λ number. get_or (names_of N.eq list.now) number other.now) numbers waiting.old waiting.new result }
{
    let Some(numbers) = numbers? else {
        return Ok(None);
    };
    match names_along(alloc, list, other, &numbers) {
        Ok(names) => Ok(Some(names)),
        Err(refusal) => {
            *waiting = Some(numbers);
            Err(refusal)
        }
    }
}

/// A copy of the path that waits, if one does.
pub fn copy_of<A>(waiting: &Option<Vec<usize, A>>) -> Result<Option<Vec<usize, A>>, AllocError>
where
    A: Allocator + Copy,
    ensures { IfOk result (λ copy. option_map (λ numbers. numbers.items) copy ≡ option_map (λ numbers. numbers.items) waiting.now) }
{
    match waiting {
        Some(numbers) => {
            let copy = numbers.clone()?;
            Ok(Some(copy))
        }
        None => Ok(None),
    }
}
