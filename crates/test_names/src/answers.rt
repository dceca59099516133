//! The lists that the tests search, and each call with its only right answer.

use crate::guided::{is_guided, is_met};
use crate::walks::{is_breadth, is_by_cost, is_preorder, is_ranked};
use pf_base::PathError;
use pf_edge_lists::EdgeList;
use pf_name_orders::{
    strongly_connected_component, strongly_connected_components, topological_sort,
    topological_sort_into_groups,
};
use pf_name_paths::yen;
use pf_name_searches::{NameParents, bfs_loop, dfs, dijkstra_all, dijkstra_partial, iddfs};
use std::alloc::Global;
use test_allocator::Refusing;

/// The heap that refuses growths.
pub type Heap<'h> = &'h Refusing<Global>;

/// A list of edges over such a heap.
pub type Places<'r, 'h> = EdgeList<'r, &'r str, u32, Heap<'h>>;

/// An edge: two places, and what it costs.
pub type Edge = (&'static str, &'static str, u32);

/// Edges between four places, of which the first three are on cycles.
pub const ROUND: &[Edge] = &[
    ("a", "b", 1),
    ("a", "c", 9),
    ("b", "c", 5),
    ("b", "d", 1),
    ("c", "a", 0),
];

/// A place that stands in no edge of `IN_ORDER`.
pub const ALONE: &[&str] = &["f"];

/// Edges between three places, without a cycle.
pub const IN_ORDER: &[Edge] = &[("a", "b", 1), ("a", "c", 1), ("b", "c", 1)];

/// A call by name.
#[derive(Clone, Copy, Debug)]
pub enum Call {
    /// `yen`.
    Ranked,
    /// `dijkstra_all`.
    Parents,
    /// `dijkstra_partial`.
    PartOfParents,
    /// `dfs`.
    Depth,
    /// `iddfs`.
    Deepened,
    /// `bfs_loop`.
    Loop,
    /// `bfs_bidirectional`.
    Levels,
    /// `dijkstra_bidirectional`.
    Meeting,
    /// `astar`.
    Estimated,
    /// `fringe`.
    Fringe,
    /// `idastar`.
    EstimatedDepth,
    /// `astar_bag_collect`.
    EstimatedAll,
    /// `astar_bag`.
    EstimatedWays,
    /// `strongly_connected_component`.
    Component,
    /// `strongly_connected_components`.
    Components,
    /// `topological_sort`, of edges without a cycle.
    Order,
    /// The same, of edges with one.
    Ring,
    /// `topological_sort_into_groups`, of edges without a cycle.
    Groups,
    /// The same, of edges with one.
    RingGroups,
    /// `bfs_reach`.
    BreadthWalk,
    /// `dfs_reach`.
    PreorderWalk,
    /// `dijkstra_reach`.
    CostWalk,
    /// `yen_paths`.
    RankedWalk,
}

impl Call {
    /// The list that the call goes over: places by themselves, and edges.
    pub fn list(self) -> (&'static [&'static str], &'static [Edge]) {
        match self {
            Call::Order | Call::Groups => (ALONE, IN_ORDER),
            _ => (&[], ROUND),
        }
    }
}

/// Whether these are the places of these names.
pub fn are_places(places: &[&&str], names: &[&str]) -> bool {
    places.iter().copied().eq(names)
}

/// Whether the answer is this path, or that there is none where no name is given.
pub fn is_path(
    found: Result<Option<Vec<&&str, Heap<'_>>>, PathError>,
    names: &[&str],
) -> Result<bool, PathError> {
    match &found? {
        Some(places) => Ok(are_places(places, names)),
        None => Ok(names.is_empty()),
    }
}

/// Whether the answer is both paths from `a` to `c`.
fn are_ranked(
    found: Result<Vec<(Vec<&&str, Heap<'_>>, u32), Heap<'_>>, PathError>,
) -> Result<bool, PathError> {
    let paths = found?;
    let is_first =
        matches!(paths.first(), Some((places, 6)) if are_places(places, &["a", "b", "c"]));
    let is_second = matches!(paths.last(), Some((places, 9)) if are_places(places, &["a", "c"]));
    Ok(paths.len() == 2 && is_first && is_second)
}

/// Whether the answer is the parents that are known from `a` where `b` is found.
fn are_parents_so_far(
    found: Result<(NameParents<'_, &str, u32, Heap<'_>>, Option<&&str>), PathError>,
) -> Result<bool, PathError> {
    let (parents, stop) = found?;
    Ok(parents.len() == 2 && matches!(stop, Some(place) if *place == "b"))
}

/// Whether the answer is the parents and costs of `b`, `c` and `d`.
fn are_parents(
    found: Result<NameParents<'_, &str, u32, Heap<'_>>, PathError>,
) -> Result<bool, PathError> {
    let parents = found?;
    let right: &[(&str, &str, u32)] = &[("b", "a", 1), ("c", "b", 6), ("d", "b", 2)];
    for (entry, (name, parent, cost)) in parents.iter().zip(right) {
        if *entry.0 != *name || *entry.1.0 != *parent || entry.1.1 != *cost {
            return Ok(false);
        }
    }
    Ok(parents.len() == 3)
}

/// Whether the places are put in their only order, but for the one that stands in no edge.
fn is_order<'h>(
    heap: Heap<'h>,
    found: Result<Result<Vec<&&str, Heap<'h>>, &&str>, PathError>,
) -> Result<bool, PathError> {
    let found = found?;
    let Ok(order) = &found else {
        return Ok(false);
    };
    let mut places = Vec::new(heap);
    for place in order {
        if **place != "f" {
            places.push(*place)?;
        }
    }
    Ok(order.len() == 4 && are_places(&places, &["a", "b", "c"]))
}

/// Whether a place on a cycle is named.
fn is_on_ring(
    found: Result<Result<Vec<&&str, Heap<'_>>, &&str>, PathError>,
) -> Result<bool, PathError> {
    let found = found?;
    Ok(matches!(&found, Err(place) if **place != "d"))
}

/// Places in groups, or such groups and the places that have none.
type Groups<'p, 'h> = Result<
    Vec<Vec<&'p &'p str, Heap<'h>>, Heap<'h>>,
    (
        Vec<Vec<&'p &'p str, Heap<'h>>, Heap<'h>>,
        Vec<&'p &'p str, Heap<'h>>,
    ),
>;

/// Whether the places are put in their only groups.
fn are_groups(found: Result<Groups<'_, '_>, PathError>) -> Result<bool, PathError> {
    let found = found?;
    let Ok(groups) = &found else {
        return Ok(false);
    };
    let is_first = matches!(groups.first(), Some(group) if group.len() == 2);
    let is_last = matches!(groups.last(), Some(group) if are_places(group, &["c"]));
    Ok(groups.len() == 3 && is_first && is_last)
}

/// Whether all four places have no group.
fn have_no_groups(found: Result<Groups<'_, '_>, PathError>) -> Result<bool, PathError> {
    let found = found?;
    Ok(matches!(&found, Err((none, left)) if none.is_empty() && left.len() == 4))
}

/// Whether the components are `d` alone, and behind it the other three.
fn are_components(
    found: Result<Vec<Vec<&&str, Heap<'_>>, Heap<'_>>, PathError>,
) -> Result<bool, PathError> {
    let components = found?;
    let is_first = matches!(components.first(), Some(places) if are_places(places, &["d"]));
    let is_last = matches!(components.last(), Some(places) if places.len() == 3);
    Ok(components.len() == 2 && is_first && is_last)
}

/// Whether a call answers the only right answer.
pub fn is_right<'h>(
    heap: Heap<'h>,
    places: &Places<'static, 'h>,
    call: Call,
) -> Result<bool, PathError> {
    match call {
        Call::Ranked => are_ranked(yen(heap, places, &"a", &"c", 3)),
        Call::Parents => are_parents(dijkstra_all(heap, places, &"a")),
        Call::PartOfParents => are_parents_so_far(dijkstra_partial(heap, places, &"a", &"b")),
        Call::Depth => is_path(dfs(heap, places, &"a", &"d"), &["a", "b", "d"]),
        Call::Deepened => is_path(iddfs(heap, places, &"a", &"d"), &["a", "b", "d"]),
        Call::Loop => is_path(bfs_loop(heap, places, &"b"), &["b", "c", "a", "b"]),
        Call::Levels | Call::Meeting => is_met(heap, places, call),
        Call::Estimated
        | Call::Fringe
        | Call::EstimatedDepth
        | Call::EstimatedAll
        | Call::EstimatedWays => is_guided(heap, places, call),
        Call::BreadthWalk => is_breadth(heap, places),
        Call::PreorderWalk => is_preorder(heap, places),
        Call::CostWalk => is_by_cost(heap, places),
        Call::RankedWalk => is_ranked(heap, places),
        Call::Component => Ok(strongly_connected_component(heap, places, &"c")?.len() == 3),
        Call::Components => are_components(strongly_connected_components(heap, places)),
        Call::Order => is_order(heap, topological_sort(heap, places)),
        Call::Ring => is_on_ring(topological_sort(heap, places)),
        Call::Groups => are_groups(topological_sort_into_groups(heap, places)),
        Call::RingGroups => have_no_groups(topological_sort_into_groups(heap, places)),
    }
}
