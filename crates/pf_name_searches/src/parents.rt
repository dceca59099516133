//! Cheapest paths to all names in reach.

ghost use Rattle.std.specs.HashMap.{get};
ghost use Rattle.std.specs.Option.{option_map};
ghost use Rattle.std.specs.Prelude.{◌≡◌, ◌⊎◌, [], ◌∷◌, false, Err, IfOk, IfErr, length, map, nat_eq};
ghost use Rattle.std.specs.List.{filter_map, range_with_len};
ghost use Rattle.pf_base.specs.Edges.{CostOverflows};
ghost use Rattle.pf_base.specs.Walks.{NoRepeats};
ghost use Rattle.pf_edge_lists.specs.EdgeLists.{edges_from, names_of};
ghost use Rattle.pf_name_searches.specs.NameParents.{entries_in, entry_of, name_entry};
ghost use Rattle.pf_search.specs.Parents.{IsCheapestMap, IsPartialMap};

use pf_base::{Cost, PathError};
use pf_edge_lists::EdgeList;
use pf_name_numbers::names::name_or;
use pf_name_numbers::numbers::{goal_of, number_or_next};
use pf_search::directed::dijkstra::Parents;
use std::alloc::Allocator;
use std::hash::Hash;

/// Names, each with the name before it on a cheapest path to it, and what that path costs.
pub type NameParents<'p, N, C, A> = Vec<(&'p N, (&'p N, C)), A>;

/// The names of the numbers of a map of parents.
fn named<'p, 'e, N, C, A, B>(
    alloc: B,
    list: &EdgeList<'e, N, C, A>,
    other: &'p N,
    parents: &Parents<usize, C, B>,
) -> Result<NameParents<'p, N, C, B>, PathError>
where
    'e: 'p,
    N: Eq + Hash,
    C: Cost,
    A: Allocator,
    B: Allocator + Copy,
    ensures names { IfOk result (λ named. entries_in named.items ≡ filter_map (name_entry N.eq list.now other.now (get nat_eq parents.now)) (range_with_len 0 (length (names_of N.eq list.now)))) }
    ensures refused { IfErr result (λ e. e ≡ PathError.OutOfMemory) }
{
    let mut named = Vec::new(alloc);
    for number in 0..list.len() {
        if let Some((parent, cost)) = parents.get(&number) {
            let name = name_or(list, other, number);
            let before = name_or(list, other, *parent);
            named.push((name, (before, *cost)))?;
        }
    }
    Ok(named)
}

/// All names in reach of `from`, save those that equal it, each once, in the order of the numbers of the
/// list: with the name before it on a cheapest path from `from`, and with what that path costs.
///
/// Who follows names that stand before others meets no name twice and ends at `from`. Which of several
/// names before it is named is open. Where several edges lead from one name to another, a step costs
/// what the cheapest of them costs. From a name that the list does not have, nothing is in reach but
/// names that equal it.
///
/// # Errors
///
/// - `CostOverflow`: only where a cheapest path to some name and one step more, by the cheapest of the
///   parallel edges, cost more than `C` can hold.
/// - `OutOfMemory`: a request for memory was refused.
///
/// The algorithm is that of `dijkstra_all` over the numbers of the names: `from` is looked up, and no
/// name is hashed or compared after that.
pub fn dijkstra_all<'p, 'e, N, C, A, B>(
    alloc: B,
    list: &EdgeList<'e, N, C, A>,
    from: &'p N,
) -> Result<NameParents<'p, N, C, B>, PathError>
where
    'e: 'p,
    N: Eq + Hash,
    C: Cost,
    A: Allocator,
    B: Allocator + Copy,
    ensures cheapest { IfOk result (λ parents. IsCheapestMap N.eq (edges_from N.eq C.value list.now) from.now C.value (entry_of N.eq (entries_in parents.items))) }
    ensures once { IfOk result (λ parents. NoRepeats N.eq (map (λ entry. entry.0) (entries_in parents.items))) }
    ensures overflow { result ≡ Err PathError.CostOverflow → CostOverflows N.eq (edges_from N.eq C.value list.now) (from.now ∷ []) (λ _. false) C.fits }
    ensures errors { IfErr result (λ e. (e ≡ PathError.OutOfMemory) ⊎ (e ≡ PathError.CostOverflow)) }
{
    let start = number_or_next(list, from);
    let parents = pf_table_searches::dijkstra_all(alloc, list, start)?;
    named(alloc, list, from, &parents)
}

/// The names that a search by rising cost has found where it comes to the name `to`, save those that equal
/// `from`, each once, in the order of the numbers of the list, with the name before it and a cost; and `to`
/// as the list has it, or `None` where it is not in reach.
///
/// Exactly the names to which a step leads from a name before `to` have an entry, save `from`. It names the
/// least cost that a name before `to`, at its cheapest cost, and one step give, and such a name before it.
/// An entry that costs no more than `to` is that of a cheapest path; one that costs more need not be.
///
/// # Errors
///
/// - `CostOverflow`: only where a cheapest path to some name and one step more, by the cheapest of the
///   parallel edges, cost more than `C` can hold, and `to` is no cheaper than that name.
/// - `OutOfMemory`: a request for memory was refused.
///
/// The algorithm is that of `dijkstra_partial` over the numbers of the names: `from` and `to` are looked up,
/// and no name is hashed or compared after that, save that `from` is compared with `to` where the list has no
/// such name as `to`.
pub fn dijkstra_partial<'p, 'e, N, C, A, B>(
    alloc: B,
    list: &EdgeList<'e, N, C, A>,
    from: &'p N,
    to: &N,
) -> Result<(NameParents<'p, N, C, B>, Option<&'p N>), PathError>
where
    'e: 'p,
    N: Eq + Hash,
    C: Cost,
    A: Allocator,
    B: Allocator + Copy,
    ensures partial { IfOk result (λ found. IsPartialMap N.eq (edges_from N.eq C.value list.now) from.now C.value (entry_of N.eq (entries_in found.0.items)) (λ x. N.eq x to.now) (option_map (λ name. name.now) found.1)) }
    ensures once { IfOk result (λ found. NoRepeats N.eq (map (λ entry. entry.0) (entries_in found.0.items))) }
    ensures overflow { result ≡ Err PathError.CostOverflow → CostOverflows N.eq (edges_from N.eq C.value list.now) (from.now ∷ []) (λ x. N.eq x to.now) C.fits }
    ensures errors { IfErr result (λ e. (e ≡ PathError.OutOfMemory) ⊎ (e ≡ PathError.CostOverflow)) }
{
    let start = number_or_next(list, from);
    let goal = goal_of(list, from, to);
    let (parents, stop) = pf_table_searches::dijkstra_partial(alloc, list, start, goal)?;
    let named = named(alloc, list, from, &parents)?;
    let stop = match stop {
        Some(number) => Some(name_or(list, from, number)),
        None => None,
    };
    Ok((named, stop))
}
