//! Callers over long chains and rings of numbers. Each number leads to the next lower one; on a ring 0
//! leads back up.

ghost use Rattle.std.specs.Prelude.{◌≡◌, ◌∷◌, []};
ghost use Rattle.test_hostile_use.specs.Chains.{next_lower, next_higher};

use crate::cheapest::{CostCall, Found, cheapest};
use crate::cycles::{Cycles, cycles_by};
use crate::plain::{Lists, PlainCall, plain};
use pf_base::PathError;
use pf_both_ends::{bfs_bidirectional, dijkstra_bidirectional};
use pf_components::connected_components::{SetIn, connected_components};
use pf_node_refs::NodeRefs;
use std::alloc::Global;

/// The number after a number, where `back` comes after 0.
fn lower(node: usize, back: usize) -> usize
    ensures { result ≡ next_lower back node }
{
    if node == 0 { back } else { node - 1 }
}

/// The number before a number, where `last` comes after 0.
fn higher(node: usize, last: usize) -> usize
    ensures { result ≡ next_higher last node }
{
    if node < last { node + 1 } else { 0 }
}

/// A cheapest path from `last` to 0, as a call answers it, where `back` comes after 0 and each step
/// costs 1. The estimate is the number itself, which is just what remains.
pub fn cheapest_in_ring(
    alloc: Global,
    call: CostCall,
    last: usize,
    back: usize,
) -> Found<usize, usize> {
    cheapest(
        alloc,
        call,
        &last,
        &0,
        |n: &usize| -> [(usize, usize); 1]
            ensures { result ≡ (next_lower back n.now, 1) ∷ [] }
        { [(lower(*n, back), 1)] },
        |n| *n,
        |n| *n == 0,
    )
}

/// The same by `dijkstra_bidirectional`, where `last` comes after 0.
pub fn cheapest_between_in_ring(alloc: Global, last: usize) -> Found<usize, usize> {
    dijkstra_bidirectional(
        alloc,
        &last,
        &0,
        |n: &usize| -> [(usize, usize); 1]
            ensures { result ≡ (next_lower last n.now, 1) ∷ [] }
        { [(lower(*n, last), 1)] },
        |n: &usize| -> [(usize, usize); 1]
            ensures { result ≡ (next_higher last n.now, 1) ∷ [] }
        { [(higher(*n, last), 1)] },
    )
}

/// What a call without costs answers from `last`, for a search to 0, where `back` comes after 0. Where
/// that is 0 itself, the numbers are a chain.
pub fn plain_in_ring(alloc: Global, call: PlainCall, last: usize, back: usize) -> Lists<usize> {
    let starts = NodeRefs::from_one(alloc, &last)?;
    plain(
        alloc,
        call,
        last,
        &starts,
        |n: &usize| -> [usize; 1]
            ensures { result ≡ next_lower back n.now ∷ [] }
        { [lower(*n, back)] },
        |n| *n == 0,
    )
}

/// A path with fewest edges from `last` to 0 by `bfs_bidirectional`, where `last` comes after 0.
pub fn fewest_between_in_ring(alloc: Global, last: usize) -> Result<Option<Vec<usize>>, PathError> {
    let starts = NodeRefs::from_one(alloc, &last)?;
    let ends = NodeRefs::from_one(alloc, &0)?;
    bfs_bidirectional(
        alloc,
        &starts,
        &ends,
        |n: &usize| -> [usize; 1]
            ensures { result ≡ next_lower last n.now ∷ [] }
        { [lower(*n, last)] },
        |n: &usize| -> [usize; 1]
            ensures { result ≡ next_higher last n.now ∷ [] }
        { [higher(*n, last)] },
    )
}

/// The sets of numbers around some starts, each of which has the next lower one beside it.
pub fn sets_in_chain(
    alloc: Global,
    starts: &[usize],
) -> Result<Vec<SetIn<usize, Global>>, PathError> {
    connected_components(alloc, starts, |n| n.saturating_sub(1)..*n)
}

/// The cycle that steps from `start` lead to, where `back` comes after 0, by each of the four calls.
pub fn cycles_in_ring(start: usize, back: usize) -> Cycles<usize> {
    cycles_by(start, |n| lower(n, back))
}
