//! Callers over lists of edges (from, to, cost) between letters.

ghost use Rattle.std.specs.Prelude.{◌≤ℤ◌, All, IsTrue, pos};

use crate::cheapest::{CostCall, Found, cheapest};
use crate::letter::Letter;
use crate::plain::{Lists, PlainCall, plain};
use pf_base::{Cost, PathError};
use pf_both_ends::{bfs_bidirectional, dijkstra_bidirectional};
use pf_components::connected_components::{SetIn, connected_components};
use pf_node_refs::NodeRefs;
use pf_orders::directed::topological_sort::topological_sort_into_groups;
use std::alloc::Global;
use test_edge_lists::{edges_from, edges_to, nodes_after, nodes_before};

/// An edge between letters, at a cost.
pub type Edge<C> = (Letter, Letter, C);

/// Whether the cost is not less than nothing.
fn is_from_zero<C: Cost>(cost: C) -> bool
    ensures { IsTrue result → pos 0 ≤ℤ C.value cost }
{
    C::zero() <= cost
}

/// Whether no edge costs less than nothing.
fn are_from_zero<C: Cost>(edges: &[Edge<C>]) -> bool
    ensures { IsTrue result → All (λ e. pos 0 ≤ℤ C.value e.2) edges.now }
{
    edges.iter().all(|edge| is_from_zero(edge.2))
}

/// A cheapest path from one letter to another, as a call answers it. Costs below nothing are refused
/// as negative capacities are.
pub fn cheapest_in_list<C: Cost>(
    alloc: Global,
    call: CostCall,
    edges: &[Edge<C>],
    from: Letter,
    to: Letter,
) -> Found<Letter, C> {
    if !are_from_zero(edges) {
        return Err(PathError::NegativeCapacity);
    }
    cheapest(
        alloc,
        call,
        &from,
        &to,
        |n| edges_from(edges, *n),
        |_n| C::zero(),
        |n| *n == to,
    )
}

/// The same by `dijkstra_bidirectional`.
pub fn cheapest_between_in_list<C: Cost>(
    alloc: Global,
    edges: &[Edge<C>],
    from: Letter,
    to: Letter,
) -> Found<Letter, C> {
    if !are_from_zero(edges) {
        return Err(PathError::NegativeCapacity);
    }
    dijkstra_bidirectional(
        alloc,
        &from,
        &to,
        |n| edges_from(edges, *n),
        |n| edges_to(edges, *n),
    )
}

/// What a call without costs answers from one letter, for a search to another one.
pub fn plain_in_list(
    alloc: Global,
    call: PlainCall,
    edges: &[Edge<u8>],
    from: Letter,
    to: Letter,
) -> Lists<Letter> {
    let starts = NodeRefs::from_one(alloc, &from)?;
    plain(
        alloc,
        call,
        from,
        &starts,
        |n| nodes_after(edges, *n),
        |n| *n == to,
    )
}

/// A path with fewest edges from one letter to another, by `bfs_bidirectional`.
pub fn fewest_between_in_list(
    alloc: Global,
    edges: &[Edge<u8>],
    from: Letter,
    to: Letter,
) -> Result<Option<Vec<Letter>>, PathError> {
    let starts = NodeRefs::from_one(alloc, &from)?;
    let ends = NodeRefs::from_one(alloc, &to)?;
    bfs_bidirectional(
        alloc,
        &starts,
        &ends,
        |n| nodes_after(edges, *n),
        |n| nodes_before(edges, *n),
    )
}

/// Groups of letters by depth, or those that are found and the letters that are in none.
pub type Groups = Result<Vec<Vec<Letter>>, (Vec<Vec<Letter>>, Vec<Letter>)>;

/// The letters in groups by depth.
pub fn groups_in_list(
    alloc: Global,
    edges: &[Edge<u8>],
    letters: &[Letter],
) -> Result<Groups, PathError> {
    topological_sort_into_groups(alloc, letters, |n| nodes_after(edges, *n))
}

/// The sets of letters around some starts that edges from them join.
pub fn sets_in_list(
    alloc: Global,
    edges: &[Edge<u8>],
    starts: &[Letter],
) -> Result<Vec<SetIn<Letter, Global>>, PathError> {
    connected_components(alloc, starts, |n| nodes_after(edges, *n))
}
