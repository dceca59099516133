//! The names of the numbers that a step of a walk gave.

ghost use Rattle.std.specs.Prelude.{◌≡◌};
ghost use Rattle.pf_name_walks.specs.NameWalks.{item_result_by_name, named_item_result, named_result, result_by_name};

use pf_base::{Cost, PathError};
use pf_edge_lists::EdgeList;
use pf_name_numbers::names::name_or;
use pf_search::directed::dijkstra::DijkstraReachableItem;
use std::alloc::Allocator;
use std::hash::Hash;

/// What a step gave, with the name of the number in its place.
pub fn named_node<'p, 'e, N, C, A>(
    list: &EdgeList<'e, N, C, A>,
    other: &'p N,
    node: Option<Result<usize, PathError>>,
) -> Option<Result<&'p N, PathError>>
where
    'e: 'p,
    N: Eq + Hash,
    C: Cost,
    A: Allocator,
    ensures { named_result result ≡ result_by_name N.eq list.now other.now node }
{
    match node {
        None => None,
        Some(Ok(number)) => Some(Ok(name_or(list, other, number))),
        Some(Err(refusal)) => Some(Err(refusal)),
    }
}

/// What a step gave, with the names of the numbers in their places.
pub fn named_item<'p, 'e, N, C, A>(
    list: &EdgeList<'e, N, C, A>,
    other: &'p N,
    item: Option<Result<DijkstraReachableItem<usize, C>, PathError>>,
) -> Option<Result<DijkstraReachableItem<&'p N, C>, PathError>>
where
    'e: 'p,
    N: Eq + Hash,
    C: Cost,
    A: Allocator,
    ensures { named_item_result result ≡ item_result_by_name N.eq list.now other.now item }
{
    match item {
        None => None,
        Some(Err(refusal)) => Some(Err(refusal)),
        Some(Ok(item)) => {
            let parent = match item.parent {
                None => None,
                Some(number) => Some(name_or(list, other, number)),
            };
            Some(Ok(DijkstraReachableItem {
                node: name_or(list, other, item.node),
                parent,
                total_cost: item.total_cost,
            }))
        }
    }
}
