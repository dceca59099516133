//! Orders of names in which every edge leads forward.

ghost use Rattle.std.specs.Prelude.{◌≡◌, [], ℕ, IfOk, IfErr};
ghost use Rattle.pf_base.specs.NodeRefs.{nodes_of};
ghost use Rattle.pf_base.specs.Walks.{HasNode};
ghost use Rattle.pf_edge_lists.specs.EdgeLists.{mentions_of, targets_from};
ghost use Rattle.pf_name_numbers.specs.Numbered.{named_lists_in};
ghost use Rattle.pf_name_orders.specs.NameGroups.{AreNameGroups};
ghost use Rattle.pf_orders.specs.GroupDepths.{HasDepth, HaveNoDepth};
ghost use Rattle.pf_orders.specs.TopologicalOrders.{IsTopologicalOrder, IsOnCycle};

use pf_base::{Cost, PathError};
use pf_edge_lists::EdgeList;
use pf_name_numbers::listed::{all_numbers, listed_groups, listed_names};
use std::alloc::Allocator;
use std::hash::Hash;

/// All names of the list, each once, in an order in which every edge leads forward; or, in the inner
/// `Err`, a name that lies on a cycle. What the edges cost plays no part.
///
/// An edge from a name to itself is a cycle. Which of several orders is answered is open. The names are
/// those that were given by themselves and those of the edges: no start is handed in, since a name that
/// nothing leads to is in no other's reach.
///
/// # Errors
///
/// `OutOfMemory`: a request for memory was refused.
///
/// The algorithm is that of `topological_sort` over the numbers of all names: no name is hashed or
/// compared.
pub fn topological_sort<'e, N, C, A, B>(
    alloc: B,
    list: &EdgeList<'e, N, C, A>,
) -> Result<Result<Vec<&'e N, B>, &'e N>, PathError>
where
    N: Eq + Hash,
    C: Cost,
    A: Allocator,
    B: Allocator + Copy,
    ensures order { IfOk result (λ answer. IfOk answer (λ order. IsTopologicalOrder N.eq (targets_from N.eq list.now) (HasNode N.eq (mentions_of list.now)) (nodes_of order.items))) }
    ensures cycle { IfOk result (λ answer. IfErr answer (λ name. HasNode N.eq (mentions_of list.now) name.now × IsOnCycle N.eq (targets_from N.eq list.now) name.now)) }
    ensures errors { IfErr result (λ e. e ≡ PathError.OutOfMemory) }
{
    let roots = all_numbers(alloc, list)?;
    match pf_table_orders::topological_sort(alloc, list, &roots)? {
        Ok(order) => Ok(Ok(listed_names(alloc, list, &order)?)),
        Err(number) => match list.name_of(number) {
            Some(name) => Ok(Err(name)),
            None => unreachable!(),
        },
    }
}

/// The names of the list in groups: group k has exactly those whose longest incoming walk has k steps,
/// each once, and no group is empty. Where some have no longest incoming walk, since a cycle leads to
/// them, the inner `Err` has the groups of the others, and these names, each once.
///
/// An edge from a name to itself is a cycle. What the edges cost plays no part. The order of the names
/// in a group is open. The names are those that were given by themselves and those of the edges: one
/// that nothing leads to is in group 0.
///
/// # Errors
///
/// `OutOfMemory`: a request for memory was refused.
///
/// The algorithm is that of `topological_sort_into_groups` over the numbers of all names: no name is
/// hashed or compared.
pub fn topological_sort_into_groups<'e, N, C, A, B>(
    alloc: B,
    list: &EdgeList<'e, N, C, A>,
) -> Result<Result<Vec<Vec<&'e N, B>, B>, (Vec<Vec<&'e N, B>, B>, Vec<&'e N, B>)>, PathError>
where
    N: Eq + Hash,
    C: Cost,
    A: Allocator,
    B: Allocator + Copy,
    ensures groups { IfOk result (λ answer. IfOk answer (λ groups. AreNameGroups N.eq (targets_from N.eq list.now) (mentions_of list.now) (named_lists_in groups.items)
        × ((x : N) → HasNode N.eq (mentions_of list.now) x → (k : ℕ) × HasDepth N.eq (targets_from N.eq list.now) (mentions_of list.now) x k))) }
    ensures cycle { IfOk result (λ answer. IfErr answer (λ both. AreNameGroups N.eq (targets_from N.eq list.now) (mentions_of list.now) (named_lists_in both.0.items)
        × HaveNoDepth N.eq (targets_from N.eq list.now) (mentions_of list.now) (nodes_of both.1.items) × ¬ (both.1.items ≡ []))) }
    ensures errors { IfErr result (λ e. e ≡ PathError.OutOfMemory) }
{
    let numbers = all_numbers(alloc, list)?;
    match pf_table_orders::topological_sort_into_groups(alloc, list, &numbers)? {
        Ok(groups) => Ok(Ok(listed_groups(alloc, list, &groups)?)),
        Err((groups, remaining)) => {
            let groups = listed_groups(alloc, list, &groups)?;
            let remaining = listed_names(alloc, list, &remaining)?;
            Ok(Err((groups, remaining)))
        }
    }
}
