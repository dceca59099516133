//! The names of a list alone, and their numbers.

ghost use Rattle.std.specs.Prelude.{◌≡◌, IfOk, IfErr, length, map, slice_get};
ghost use Rattle.std.specs.List.{filter_map, range_with_len};
ghost use Rattle.pf_base.specs.NodeRefs.{nodes_of};
ghost use Rattle.pf_edge_lists.specs.EdgeLists.{names_of};
ghost use Rattle.pf_name_numbers.specs.Numbered.{lists_in, named_lists_in};

use pf_base::{Cost, PathError};
use pf_edge_lists::EdgeList;
use std::alloc::Allocator;
use std::hash::Hash;

/// The numbers of all names of the list.
pub fn all_numbers<'e, N, C, A, B>(
    alloc: B,
    list: &EdgeList<'e, N, C, A>,
) -> Result<Vec<usize, B>, PathError>
where
    N: Eq + Hash,
    C: Cost,
    A: Allocator,
    B: Allocator + Copy,
    ensures numbers { IfOk result (λ numbers. numbers.items ≡ range_with_len 0 (length (names_of N.eq list.now))) }
    ensures refused { IfErr result (λ e. e ≡ PathError.OutOfMemory) }
{
    let mut numbers = Vec::with_capacity(alloc, list.len())?;
    for number in 0..list.len() {
        numbers.push(number)?;
    }
    Ok(numbers)
}

/// The names of these numbers, in their order. A number that the list does not have is passed over.
pub fn listed_names<'e, N, C, A, B>(
    alloc: B,
    list: &EdgeList<'e, N, C, A>,
    numbers: &[usize],
) -> Result<Vec<&'e N, B>, PathError>
where
    N: Eq + Hash,
    C: Cost,
    A: Allocator,
    B: Allocator + Copy,
    ensures names { IfOk result (λ names. nodes_of names.items ≡ filter_map (slice_get (names_of N.eq list.now)) numbers.now) }
    ensures refused { IfErr result (λ e. e ≡ PathError.OutOfMemory) }
{
    let mut names = Vec::with_capacity(alloc, numbers.len())?;
    for number in numbers {
        if let Some(name) = list.name_of(*number) {
            names.push(name)?;
        }
    }
    Ok(names)
}

/// The names of the numbers of each group, in their order.
pub fn listed_groups<'e, N, C, A, B>(
    alloc: B,
    list: &EdgeList<'e, N, C, A>,
    groups: &[Vec<usize, B>],
) -> Result<Vec<Vec<&'e N, B>, B>, PathError>
where
    N: Eq + Hash,
    C: Cost,
    A: Allocator,
    B: Allocator + Copy,
    ensures names { IfOk result (λ named. named_lists_in named.items ≡ map (filter_map (slice_get (names_of N.eq list.now))) (lists_in groups.now)) }
    ensures refused { IfErr result (λ e. e ≡ PathError.OutOfMemory) }
{
    let mut named = Vec::with_capacity(alloc, groups.len())?;
    for group in groups {
        let names = listed_names(alloc, list, group)?;
        named.push(names)?;
    }
    Ok(named)
}
