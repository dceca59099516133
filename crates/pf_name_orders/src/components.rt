//! Strong components of names.

ghost use Rattle.std.specs.Prelude.{◌≡◌, IfOk, IfErr};
ghost use Rattle.pf_base.specs.NodeRefs.{nodes_of};
ghost use Rattle.pf_edge_lists.specs.EdgeLists.{mentions_of, targets_from};
ghost use Rattle.pf_name_numbers.specs.Numbered.{named_lists_in};
ghost use Rattle.pf_orders.specs.StrongComponents.{AreStrongComponents, IsStrongComponentOf};

use pf_base::{Cost, PathError};
use pf_edge_lists::EdgeList;
use pf_name_numbers::listed::{all_numbers, listed_groups};
use pf_name_numbers::names::names_along;
use pf_name_numbers::numbers::number_or_next;
use std::alloc::Allocator;
use std::hash::Hash;

/// The strong components of all names of the list: each name once, in the component of those that it
/// reaches and that reach it, and each component behind every other that it reaches. What the edges
/// cost plays no part.
///
/// The order of the names in a component is open. The names are those that were given by themselves and
/// those of the edges.
///
/// # Errors
///
/// `OutOfMemory`: a request for memory was refused.
///
/// The algorithm is that of `strongly_connected_components` over the numbers of all names: no name is
/// hashed or compared.
pub fn strongly_connected_components<'e, N, C, A, B>(
    alloc: B,
    list: &EdgeList<'e, N, C, A>,
) -> Result<Vec<Vec<&'e N, B>, B>, PathError>
where
    N: Eq + Hash,
    C: Cost,
    A: Allocator,
    B: Allocator + Copy,
    ensures components { IfOk result (λ components. AreStrongComponents N.eq (targets_from N.eq list.now) (mentions_of list.now) (named_lists_in components.items)) }
    ensures errors { IfErr result (λ e. e ≡ PathError.OutOfMemory) }
{
    let numbers = all_numbers(alloc, list)?;
    let components = pf_table_orders::strongly_connected_components(alloc, list, &numbers)?;
    listed_groups(alloc, list, &components)
}

/// The strong component of a name: all names that it reaches and that reach it, each once, in open
/// order. What the edges cost plays no part. A name that the list does not have is a component of its
/// own, and then a reference to `name` itself is in it.
///
/// # Errors
///
/// `OutOfMemory`: a request for memory was refused.
///
/// All names in reach are searched, as by `strongly_connected_components`: `name` is looked up, and no
/// name is hashed or compared after that.
pub fn strongly_connected_component<'p, 'e, N, C, A, B>(
    alloc: B,
    list: &EdgeList<'e, N, C, A>,
    name: &'p N,
) -> Result<Vec<&'p N, B>, PathError>
where
    'e: 'p,
    N: Eq + Hash,
    C: Cost,
    A: Allocator,
    B: Allocator + Copy,
    ensures component { IfOk result (λ component. IsStrongComponentOf N.eq (targets_from N.eq list.now) name.now (nodes_of component.items)) }
    ensures errors { IfErr result (λ e. e ≡ PathError.OutOfMemory) }
{
    let number = number_or_next(list, name);
    let component = pf_table_orders::strongly_connected_component(alloc, list, number)?;
    names_along(alloc, list, name, &component)
}
