//! The names that numbers stand for.

ghost use Rattle.std.specs.Prelude.{◌≡◌, IfOk, IfErr, get_or, map};
ghost use Rattle.pf_base.specs.NodeRefs.{nodes_of};
ghost use Rattle.pf_edge_lists.specs.EdgeLists.{names_of};

use pf_base::{Cost, PathError};
use pf_edge_lists::EdgeList;
use std::alloc::Allocator;
use std::hash::Hash;

/// The name of a number, or the name that was handed in where the list has no such number.
pub fn name_or<'p, 'e, N, C, A>(list: &EdgeList<'e, N, C, A>, other: &'p N, number: usize) -> &'p N
where
    'e: 'p,
    N: Eq + Hash,
    C: Cost,
    A: Allocator,
    ensures { result.now ≡ get_or (names_of N.eq list.now) number other.now }
{
    match list.name_of(number) {
        Some(name) => name,
        None => other,
    }
}

/// The names of these numbers, in their order.
pub fn names_along<'p, 'e, N, C, A, B>(
    alloc: B,
    list: &EdgeList<'e, N, C, A>,
    other: &'p N,
    numbers: &[usize],
) -> Result<Vec<&'p N, B>, PathError>
where
    'e: 'p,
    N: Eq + Hash,
    C: Cost,
    A: Allocator,
    B: Allocator + Copy,
    ensures names { IfOk result (λ names. nodes_of names.items ≡ map (λ number. get_or (names_of N.eq list.now) number other.now) numbers.now) }
    ensures refused { IfErr result (λ e. e ≡ PathError.OutOfMemory) }
{
    let mut names = Vec::with_capacity(alloc, numbers.len())?;
    for number in numbers {
        names.push(name_or(list, other, *number))?;
    }
    Ok(names)
}
