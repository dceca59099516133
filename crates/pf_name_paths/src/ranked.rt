//! The k cheapest paths between names.

ghost use Rattle.std.specs.Prelude.{◌≡◌, ◌⊎◌, ◌≤◌, [], ◌∷◌, Err, IfOk, IfErr, get_or, map};
ghost use Rattle.pf_base.specs.Edges.{CostOverflows};
ghost use Rattle.pf_edge_lists.specs.EdgeLists.{edges_from, names_of};
ghost use Rattle.pf_name_paths.specs.NamedPaths.{named_paths_in};
ghost use Rattle.pf_yen.specs.CleanPaths.{PathOverflows};
ghost use Rattle.pf_yen.specs.KCheapest.{IsKCheapest, paths_in};

use pf_base::{Cost, PathError};
use pf_edge_lists::EdgeList;
use pf_name_numbers::names::names_along;
use pf_name_numbers::numbers::{goal_of, number_or_next};
use std::alloc::Allocator;
use std::hash::Hash;

/// The paths of names that these paths of numbers stand for, with their costs.
fn named<'p, 'e, N, C, A, B>(
    alloc: B,
    list: &EdgeList<'e, N, C, A>,
    other: &'p N,
    paths: &[(Vec<usize, B>, C)],
) -> Result<Vec<(Vec<&'p N, B>, C), B>, PathError>
where
    'e: 'p,
    N: Eq + Hash,
    C: Cost,
    A: Allocator,
    B: Allocator + Copy,
    ensures names { IfOk result (λ named. named_paths_in named.items ≡ map (λ p. (map (λ number. get_or (names_of N.eq list.now) number other.now) p.0, p.1)) (paths_in paths.now)) }
    ensures refused { IfErr result (λ e. e ≡ PathError.OutOfMemory) }
{
    let mut named = Vec::with_capacity(alloc, paths.len())?;
    for path in paths {
        let names = names_along(alloc, list, other, &path.0)?;
        named.push((names, path.1))?;
    }
    Ok(named)
}

/// The `k` cheapest clean paths from the name `from` to the name `to`, or all where there are fewer,
/// each once, with its cost: by rising cost, and of equal cost by rising number of names. No clean path
/// that is not answered costs less than one that is.
///
/// A clean path goes along the edges of the list, contains no name twice, and only its last name equals
/// `to`. Where `from` equals `to`, it is the only one; where `k` is 0, none is answered. Which of several
/// paths of one cost are answered is open, and so is the order of those of one cost and one number of
/// names. Where several edges lead from one name to another, a step costs what the cheapest of them
/// costs. A name that stands in no edge is a node without edges.
///
/// The paths lend their names. Of a name that the list does not have, a reference to `from` itself is
/// the path.
///
/// # Errors
///
/// - `CostOverflow`: only where `k` is above 0 and a path from `from`, in which no name stands twice
///   and none equals `to`, and one step more, by the cheapest of the parallel edges, cost more than `C`
///   can hold; where `k` is 1, also only where a cheapest path to some name and one step more cost more
///   than `C` can hold and `to` is no cheaper than that name.
/// - `OutOfMemory`: a request for memory was refused.
///
/// The algorithm is that of the function `yen` over the numbers of the names: `from` and `to` are looked
/// up, and no name is hashed or compared after that, save that `from` is compared with `to` where the list
/// has no such name as `to`.
pub fn yen<'p, 'e, N, C, A, B>(
    alloc: B,
    list: &EdgeList<'e, N, C, A>,
    from: &'p N,
    to: &N,
    k: usize,
) -> Result<Vec<(Vec<&'p N, B>, C), B>, PathError>
where
    'e: 'p,
    N: Eq + Hash,
    C: Cost,
    A: Allocator,
    B: Allocator + Copy,
    ensures cheapest { IfOk result (λ paths. IsKCheapest N.eq (edges_from N.eq C.value list.now) from.now (λ x. N.eq x to.now) C.value k (named_paths_in paths.items)) }
    ensures overflow { result ≡ Err PathError.CostOverflow → PathOverflows N.eq (edges_from N.eq C.value list.now) from.now (λ x. N.eq x to.now) C.fits }
    ensures first_overflow { result ≡ Err PathError.CostOverflow → k ≡ 1 → CostOverflows N.eq (edges_from N.eq C.value list.now) (from.now ∷ []) (λ x. N.eq x to.now) C.fits }
    ensures some_asked { result ≡ Err PathError.CostOverflow → 1 ≤ k }
    ensures errors { IfErr result (λ e. (e ≡ PathError.OutOfMemory) ⊎ (e ≡ PathError.CostOverflow)) }
{
    let start = number_or_next(list, from);
    let goal = goal_of(list, from, to);
    let paths = pf_table_paths::yen(alloc, list, start, goal, k)?;
    named(alloc, list, from, &paths)
}
