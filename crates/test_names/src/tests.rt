//! Each call at a concrete type, and names that stand nowhere.

use crate::answers::{Call, Heap, Places, ROUND, are_places, is_path, is_right};
use crate::guided::{are_guided_alone, are_met_alone};
use pf_base::PathError;
use pf_edge_lists::EdgeList;
use pf_name_orders::strongly_connected_component;
use pf_name_paths::yen;
use pf_name_searches::{bfs_loop, dfs, dijkstra_all, iddfs};
use std::alloc::Global;
use test_allocator::Refusing;

/// Each call.
pub const CALLS: &[Call] = &[
    Call::Ranked,
    Call::Parents,
    Call::PartOfParents,
    Call::Depth,
    Call::Deepened,
    Call::Loop,
    Call::Levels,
    Call::Meeting,
    Call::Estimated,
    Call::Fringe,
    Call::EstimatedDepth,
    Call::EstimatedAll,
    Call::EstimatedWays,
    Call::Component,
    Call::Components,
    Call::Order,
    Call::Ring,
    Call::Groups,
    Call::RingGroups,
    Call::BreadthWalk,
    Call::PreorderWalk,
    Call::CostWalk,
    Call::RankedWalk,
];

/// How a call ends whose growths are refused from this number on, so many of them, or nothing where its list
/// could not be made.
pub fn run(heap: Heap<'_>, call: Call, after: u64, count: u64) -> Option<Result<bool, PathError>> {
    let (alone, edges) = call.list();
    match &EdgeList::with_names(heap, alone, edges) {
        Ok(places) => {
            heap.refuse(after, count);
            Some(is_right(heap, places, call))
        }
        Err(_) => None,
    }
}

#[test]
fn calls_by_name(rt: HostRuntime) {
    for call in CALLS {
        let heap = Refusing::new(rt.alloc());
        assert!(rt;
            matches!(run(&heap, *call, 0, 0), Some(Ok(true))),
            "{call:?}"
        );
    }
}

/// Whether `yen` answers that the name itself is the only path to it, and that no path leads from or to
/// a name that stands nowhere.
fn are_ways_alone(heap: Heap<'_>, round: &Places<'_, '_>) -> Result<bool, PathError> {
    let itself = yen(heap, round, &"z", &"z", 2)?;
    let is_itself = matches!(itself.first(), Some((places, 0)) if are_places(places, &["z"]));
    let from = yen(heap, round, &"z", &"a", 2)?;
    let to = yen(heap, round, &"a", &"z", 2)?;
    let none = yen(heap, round, &"a", &"c", 0)?;
    Ok(is_itself && itself.len() == 1 && from.is_empty() && to.is_empty() && none.is_empty())
}

/// Whether the other calls answer likewise.
fn are_searches_alone(heap: Heap<'_>, round: &Places<'_, '_>) -> Result<bool, PathError> {
    let component = strongly_connected_component(heap, round, &"z")?;
    Ok(
        are_places(&component, &["z"])
            && is_path(dfs(heap, round, &"z", &"z"), &["z"])?
            && is_path(dfs(heap, round, &"y", &"z"), &[])?
            && is_path(dfs(heap, round, &"a", &"z"), &[])?
            && is_path(iddfs(heap, round, &"z", &"z"), &["z"])?
            && is_path(iddfs(heap, round, &"z", &"a"), &[])?
            && is_path(bfs_loop(heap, round, &"z"), &[])?
            && is_path(bfs_loop(heap, round, &"d"), &[])?
            && dijkstra_all(heap, round, &"z")?.is_empty(),
    )
}

/// Whether names that stand nowhere are nodes without edges.
fn are_alone(ample: Global) -> bool {
    let heap = Refusing::new(ample);
    match &EdgeList::new(&heap, ROUND) {
        Ok(round) => {
            matches!(are_ways_alone(&heap, round), Ok(true))
                && matches!(are_searches_alone(&heap, round), Ok(true))
                && matches!(are_met_alone(&heap, round), Ok(true))
                && matches!(are_guided_alone(&heap, round), Ok(true))
        }
        Err(_) => false,
    }
}

#[test]
fn names_that_stand_nowhere(rt: HostRuntime) {
    assert!(rt; are_alone(rt.alloc()));
}
