//! Chains in tables, of a million numbers but for `iddfs`: no call goes as deep in the machine as the
//! graph is.

use crate::tests::depth::{
    LAST, fall, fall_to_zero, have_lengths, is_path_down, is_way_down, numbers_to,
};
use crate::walks::{all_of, first_of, up_to};
use pf_adjacency::BothWays;
use pf_base::PathError;
use pf_node_refs::NodeRefs;
use pf_table_both_ends::{bfs_bidirectional, dijkstra_bidirectional};
use pf_table_breadth::bfs;
use pf_table_estimates::{
    EstimatedGraph, Estimates, astar, astar_bag, astar_bag_collect, fringe, idastar,
};
use pf_table_orders::{
    strongly_connected_component, strongly_connected_components, topological_sort,
    topological_sort_into_groups,
};
use pf_table_paths::{yen, yen_paths};
use pf_table_searches::{
    bfs_loop, bfs_reach, dfs, dfs_reach, dijkstra_all, dijkstra_partial, dijkstra_reach, iddfs,
};
use pf_tables::{CompactRows, Graph, dijkstra};
use std::alloc::Global;

/// The last number for `iddfs`, which goes along the chain once for each length of its path: its time
/// grows as the square of the depth.
const SHORT_LAST: usize = 30_000;

/// The edges of the numbers from 0 to `last`, where memory is left: 0 has none, and each other one has
/// one to the next lower one, at cost 1.
fn edges_down(alloc: Global, last: usize) -> Option<Vec<(usize, usize)>> {
    let mut edges = Vec::new(alloc);
    for number in 0..last {
        edges.push((number, 1)).ok()?;
    }
    Some(edges)
}

/// Where the edges of each number from 0 to `last` begin and where the last one ends, where 0 has none
/// and each other number has one.
fn offsets_to(alloc: Global, last: usize) -> Option<Vec<usize>> {
    let mut offsets = vec![in alloc; 0usize].ok()?;
    for number in 0..=last {
        offsets.push(number).ok()?;
    }
    Some(offsets)
}

/// Whether the answer is an order of the numbers down to 0.
fn is_order_down(order: Result<Result<Vec<usize>, usize>, PathError>) -> bool {
    matches!(&order, Ok(Ok(numbers)) if fall_to_zero(numbers))
}

/// Groups by depth, or those that are found and the numbers that are in none.
type Groups = Result<Vec<Vec<usize>>, (Vec<Vec<usize>>, Vec<usize>)>;

/// Whether the answer is groups of one number each, the last number first.
fn are_groups_down(answer: Result<Groups, PathError>) -> bool {
    let Ok(Ok(groups)) = &answer else {
        return false;
    };
    let mut left = groups.len();
    for group in groups {
        left = left.saturating_sub(1);
        if group.as_slice() != [left].as_slice() {
            return false;
        }
    }
    groups.len() == LAST + 1
}

/// Whether there is a path, and it leads from `SHORT_LAST` down to 0.
fn is_short_path_down(found: Result<Option<Vec<usize>>, PathError>) -> bool {
    matches!(&found, Ok(Some(path)) if path.len() == SHORT_LAST + 1 && fall(path, SHORT_LAST))
}

/// Whether a walk gives the numbers down to 0.
fn is_walk_down(found: Result<Vec<usize>, PathError>) -> bool {
    matches!(&found, Ok(numbers) if fall_to_zero(numbers))
}

/// Whether one path is listed, which leads down to 0 at a cost of 1 for each step.
fn is_only_way_down(found: Result<Vec<(Vec<usize>, usize)>, PathError>) -> bool {
    let Ok(paths) = &found else {
        return false;
    };
    matches!(paths.first(), Some((path, price)) if paths.len() == 1 && fall_to_zero(path) && *price == LAST)
}

/// Whether the searches without costs, the walks, the orders and the components find the chain.
fn is_gone_down<G: Graph<usize>>(alloc: Global, graph: &G) -> Result<bool, PathError> {
    let starts = NodeRefs::from_one(alloc, &LAST)?;
    let numbers = numbers_to(alloc, LAST).ok_or(PathError::OutOfMemory)?;
    Ok(
        is_path_down(bfs(alloc, graph, LAST, 0))
            && is_path_down(dfs(alloc, graph, LAST, 0))
            && bfs_loop(alloc, graph, &starts)?.is_none()
            && is_walk_down(all_of(alloc, bfs_reach(alloc, graph, LAST)))
            && is_walk_down(all_of(alloc, dfs_reach(alloc, graph, LAST)))
            && is_order_down(topological_sort(alloc, graph, &[LAST]))
            && are_groups_down(topological_sort_into_groups(alloc, graph, &numbers))
            && strongly_connected_component(alloc, graph, LAST)?.len() == 1
            && have_lengths(
                strongly_connected_components(alloc, graph, &[LAST]),
                LAST + 1,
                1,
            ),
    )
}

/// Whether the searches by cost and the ranked paths find it.
fn is_cheapest_down<G: Graph<usize>>(alloc: Global, graph: &G) -> Result<bool, PathError> {
    let parents = dijkstra_all(alloc, graph, LAST)?;
    let (part, goal) = dijkstra_partial(alloc, graph, LAST, 0)?;
    let first = first_of(yen_paths(alloc, graph, LAST, 0));
    let both = BothWays::new(alloc, graph)?;
    Ok(
        is_way_down(dijkstra(alloc, graph, LAST, 0))
            && parents.len() == LAST
            && part.len() == LAST
            && goal == Some(0)
            && is_way_down(up_to(alloc, dijkstra_reach(alloc, graph, LAST), &0))
            && is_way_down(first)
            && is_only_way_down(yen(alloc, graph, LAST, 0, 1))
            && is_path_down(bfs_bidirectional(alloc, &both, LAST, 0))
            && is_way_down(dijkstra_bidirectional(alloc, &both, LAST, 0)),
    )
}

/// Whether the searches that estimates lead find it.
fn is_led_down<E: EstimatedGraph<usize>>(alloc: Global, estimates: &E) -> Result<bool, PathError> {
    let Some((paths, price)) = astar_bag(alloc, estimates, LAST)? else {
        return Ok(false);
    };
    let Some((gathered, _)) = astar_bag_collect(alloc, estimates, LAST)? else {
        return Ok(false);
    };
    Ok(
        is_way_down(astar(alloc, estimates, LAST))
            && is_way_down(fringe(alloc, estimates, LAST))
            && is_way_down(idastar(alloc, estimates, LAST))
            && price == LAST
            && is_path_down(first_of(Ok(paths)))
            && matches!(gathered.first(), Some(path) if fall_to_zero(path)),
    )
}

#[test]
fn tables(rt: HostRuntime) {
    let alloc = rt.alloc();
    let offsets = offsets_to(alloc, LAST).expect(&rt, "memory");
    let edges = edges_down(alloc, LAST).expect(&rt, "memory");
    let graph = CompactRows::new(&offsets, edges.as_slice()).expect(&rt, "a graph");
    assert!(rt; matches!(is_gone_down(alloc, &graph), Ok(true)));
    assert!(rt; matches!(is_cheapest_down(alloc, &graph), Ok(true)));
    // What remains from each number is the number itself.
    let remaining = numbers_to(alloc, LAST).expect(&rt, "memory");
    let estimates = Estimates::new(&graph, 0, &remaining).expect(&rt, "estimates");
    assert!(rt; matches!(is_led_down(alloc, &estimates), Ok(true)));
}

#[test]
fn deepened_tables(rt: HostRuntime) {
    let alloc = rt.alloc();
    let offsets = offsets_to(alloc, SHORT_LAST).expect(&rt, "memory");
    let edges = edges_down(alloc, SHORT_LAST).expect(&rt, "memory");
    let graph = CompactRows::new(&offsets, edges.as_slice()).expect(&rt, "a graph");
    assert!(rt; is_short_path_down(iddfs(alloc, &graph, SHORT_LAST, 0)));
}
