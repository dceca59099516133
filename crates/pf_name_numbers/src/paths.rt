//! The names of what a search over numbers answers.

ghost use Rattle.std.specs.Prelude.{◌≡◌, IfOk, IfErr, Vec, get_or, map};
ghost use Rattle.std.specs.Borrow.{Bor};
ghost use Rattle.std.specs.Option.{option_map};
ghost use Rattle.pf_base.specs.NodeRefs.{nodes_of};
ghost use Rattle.pf_edge_lists.specs.EdgeLists.{names_of};
ghost use Rattle.pf_name_numbers.specs.Numbered.{found_by, found_in, lists_in, named_lists_in};

use crate::names::names_along;
use pf_base::{Cost, PathError};
use pf_edge_lists::EdgeList;
use std::alloc::Allocator;
use std::hash::Hash;

/// The names of the numbers of a path, in their order, or nothing where there is no path.
pub fn named_path<'p, 'e, N, C, A, B>(
    alloc: B,
    list: &EdgeList<'e, N, C, A>,
    other: &'p N,
    path: Option<Vec<usize, B>>,
) -> Result<Option<Vec<&'p N, B>>, PathError>
where
    'e: 'p,
    N: Eq + Hash,
    C: Cost,
    A: Allocator,
    B: Allocator + Copy,
    ensures names { IfOk result (λ answer. option_map (λ names. nodes_of names.items) answer ≡ option_map (λ numbers. map (λ number. get_or (names_of N.eq list.now) number other.now) numbers.items) path) }
    ensures refused { IfErr result (λ e. e ≡ PathError.OutOfMemory) }
{
    match path {
        None => Ok(None),
        Some(numbers) => {
            let names = names_along(alloc, list, other, &numbers)?;
            Ok(Some(names))
        }
    }
}

/// The same of a path and what it costs.
pub fn named_found<'p, 'e, N, C, A, B>(
    alloc: B,
    list: &EdgeList<'e, N, C, A>,
    other: &'p N,
    found: Option<(Vec<usize, B>, C)>,
) -> Result<Option<(Vec<&'p N, B>, C)>, PathError>
where
    'e: 'p,
    N: Eq + Hash,
    C: Cost,
    A: Allocator,
    B: Allocator + Copy,
    ensures names { IfOk result (λ answer. found_in answer ≡ found_by (λ number. get_or (names_of N.eq list.now) number other.now) found) }
    ensures refused { IfErr result (λ e. e ≡ PathError.OutOfMemory) }
{
    match found {
        None => Ok(None),
        Some((numbers, cost)) => {
            let names = names_along(alloc, list, other, &numbers)?;
            Ok(Some((names, cost)))
        }
    }
}

/// The names of the numbers of each path, in their order.
pub fn named_paths<'p, 'e, N, C, A, B>(
    alloc: B,
    list: &EdgeList<'e, N, C, A>,
    other: &'p N,
    paths: &[Vec<usize, B>],
) -> Result<Vec<Vec<&'p N, B>, B>, PathError>
where
    'e: 'p,
    N: Eq + Hash,
    C: Cost,
    A: Allocator,
    B: Allocator + Copy,
    ensures names { IfOk result (λ named. named_lists_in named.items ≡ map (map (λ number. get_or (names_of N.eq list.now) number other.now)) (lists_in paths.now)) }
    ensures refused { IfErr result (λ e. e ≡ PathError.OutOfMemory) }
{
    let mut named = Vec::with_capacity(alloc, paths.len())?;
    for path in paths {
        let names = names_along(alloc, list, other, path)?;
        named.push(names)?;
    }
    Ok(named)
}
