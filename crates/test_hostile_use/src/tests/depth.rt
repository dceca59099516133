//! Chains and rings of a million numbers: no call goes as deep in the machine as the graph is.

use crate::chained::{
    cheapest_between_in_ring, cheapest_in_ring, cycles_in_ring, fewest_between_in_ring,
    plain_in_ring, sets_in_chain,
};
use crate::cheapest::{COST_CALLS, Found};
use crate::plain::{COMPONENT_CALLS, LIST_CALLS, Lists, PlainCall};
use pf_base::PathError;
use pf_components::connected_components::{
    SetIn, component_index, components, separate_components,
};
use pf_flow::edmonds_karp::{EKFlows, Edge, edmonds_karp_dense, edmonds_karp_sparse};
use pf_graph::undirected::kruskal::{kruskal, kruskal_indices};
use pf_graph::undirected::prim::prim;
use pf_grid::Grid;
use pf_matrix::Matrix;
use std::alloc::Global;

/// The last number.
pub(super) const LAST: usize = 1_000_000;

/// How wide and how high a board of a million positions is.
const SIDE: usize = 1_000;

/// The last number for `iddfs`, which looks through the path once more for each step: its time grows
/// as the third power of the depth.
const SHORT_LAST: usize = 500;

/// Whether the numbers fall by 1 from the last one on, and begin again behind 0.
pub(super) fn fall(numbers: &[usize], last: usize) -> bool {
    let mut wanted = last;
    for number in numbers {
        if *number != wanted {
            return false;
        }
        wanted = if wanted == 0 { last } else { wanted - 1 };
    }
    true
}

/// Whether the numbers fall by 1 from the last one to 0.
pub(super) fn fall_to_zero(numbers: &[usize]) -> bool {
    numbers.len() == LAST + 1 && fall(numbers, LAST)
}

/// Whether there is a path, and it leads down to 0.
pub(super) fn is_path_down(found: Result<Option<Vec<usize>>, PathError>) -> bool {
    matches!(&found, Ok(Some(path)) if fall_to_zero(path))
}

/// Whether there is a path, and it leads down to 0, at a cost of 1 for each step.
pub(super) fn is_way_down(found: Found<usize, usize>) -> bool {
    matches!(&found, Ok(Some((path, price))) if fall_to_zero(path) && *price == LAST)
}

#[test]
fn cheapest_paths(rt: HostRuntime) {
    for (number, call) in COST_CALLS.iter().enumerate() {
        let found = cheapest_in_ring(rt.alloc(), *call, LAST, LAST);
        assert!(rt; is_way_down(found), "call {number}");
    }
    assert!(rt; is_way_down(cheapest_between_in_ring(rt.alloc(), LAST)));
}

/// Whether there is one list, the numbers from `last` down to 0 and then from `last` on again, as
/// many as `length`; or no list, where that is 0.
fn is_list(lists: Lists<usize>, last: usize, length: usize) -> bool {
    match &lists {
        Ok(lists) => match lists.first() {
            Some(list) => lists.len() == 1 && list.len() == length && fall(list, last),
            None => length == 0,
        },
        Err(_) => false,
    }
}

#[test]
fn paths_walks_and_orders(rt: HostRuntime) {
    for (number, call) in LIST_CALLS.iter().enumerate() {
        let last = if matches!(call, PlainCall::Iddfs) {
            SHORT_LAST
        } else {
            LAST
        };
        // How many numbers there are on the chain, whose last number leads to itself, and on the ring.
        let (on_chain, on_ring) = match call {
            PlainCall::Loop => (0, last + 2),
            PlainCall::Order => (0, 0),
            _ => (last + 1, last + 1),
        };
        let lists = plain_in_ring(rt.alloc(), *call, last, 0);
        assert!(rt;
            is_list(lists, last, on_chain),
            "call {number} on the chain"
        );
        let lists = plain_in_ring(rt.alloc(), *call, last, last);
        assert!(rt; is_list(lists, last, on_ring), "call {number} on the ring");
    }
    assert!(rt; is_path_down(fewest_between_in_ring(rt.alloc(), LAST)));
}

/// Whether there are as many lists as `count`, each of as many numbers as `length`.
pub(super) fn have_lengths(lists: Lists<usize>, count: usize, length: usize) -> bool {
    let Ok(lists) = &lists else {
        return false;
    };
    for list in lists {
        if list.len() != length {
            return false;
        }
    }
    lists.len() == count
}

#[test]
fn strong_components(rt: HostRuntime) {
    for (number, call) in COMPONENT_CALLS.iter().enumerate() {
        // How many components there are on the chain, each of one number.
        let count = if matches!(call, PlainCall::Component) {
            1
        } else {
            LAST + 1
        };
        let lists = plain_in_ring(rt.alloc(), *call, LAST, 0);
        assert!(rt; have_lengths(lists, count, 1), "call {number} on the chain");
        let lists = plain_in_ring(rt.alloc(), *call, LAST, LAST);
        assert!(rt;
            have_lengths(lists, 1, LAST + 1),
            "call {number} on the ring"
        );
    }
}

/// The numbers from 0 to `last`, where memory is left.
pub(super) fn numbers_to(alloc: Global, last: usize) -> Option<Vec<usize>> {
    (0..=last).collect(alloc).ok()
}

/// Whether there is one set, of as many numbers as `size`.
fn is_one_set(sets: &[SetIn<usize, Global>], size: usize) -> bool {
    sets.len() == 1 && sets[0].len() == size
}

#[test]
fn sets_and_cycles(rt: HostRuntime) {
    let numbers = numbers_to(rt.alloc(), LAST).expect(&rt, "memory");
    let sets = sets_in_chain(rt.alloc(), &numbers).expect(&rt, "memory");
    assert!(rt; is_one_set(&sets, numbers.len()));
    // Half of the steps and one more lead to the cycle of the numbers below the half.
    let half = LAST / 2;
    let (floyd, brent, near_floyd, near_brent) = cycles_in_ring(LAST, half - 1);
    let exact = Ok((half, half - 1, half + 1));
    assert!(rt; floyd == exact && brent == exact);
    assert!(rt; matches!(near_floyd, Ok((length, _, _)) if length == half));
    assert!(rt; matches!(near_brent, Ok((length, _, _)) if length == half));
}

/// An edge of weight 1 from each number to the next higher one, where memory is left.
fn edges_to(alloc: Global, last: usize) -> Option<Vec<(usize, usize, u32)>> {
    let mut edges = Vec::new(alloc);
    for number in 0..last {
        edges.push((number, number + 1, 1)).ok()?;
    }
    Some(edges)
}

#[test]
fn spanning_edges(rt: HostRuntime) {
    let edges = edges_to(rt.alloc(), LAST).expect(&rt, "memory");
    let chosen = kruskal(rt.alloc(), &edges).expect(&rt, "memory");
    assert!(rt; chosen.count() == LAST);
    let chosen = kruskal_indices(rt.alloc(), LAST + 1, &edges).expect(&rt, "memory");
    assert!(rt; chosen.count() == LAST);
    let tree = prim(rt.alloc(), &edges).expect(&rt, "memory");
    assert!(rt; tree.len() == LAST);
}

/// Groups of each number and the next higher one, where memory is left.
fn pairs_to(alloc: Global, last: usize) -> Option<Vec<Vec<usize>>> {
    let mut groups = Vec::new(alloc);
    for number in 0..last {
        groups.push(vec![in alloc; number, number + 1].ok()?).ok()?;
    }
    Some(groups)
}

/// Whether all these are one number.
fn are_equal(numbers: &[usize]) -> bool {
    let Some(first) = numbers.first() else {
        return true;
    };
    for number in numbers {
        if *number != *first {
            return false;
        }
    }
    true
}

#[test]
fn components_of_groups(rt: HostRuntime) {
    let groups = pairs_to(rt.alloc(), LAST).expect(&rt, "memory");
    let numbered = separate_components(rt.alloc(), &groups).expect(&rt, "memory");
    let (of_number, ids) = numbered;
    assert!(rt; of_number.len() == LAST + 1 && ids.len() == LAST && are_equal(&ids));
    let sets = components(rt.alloc(), &groups).expect(&rt, "memory");
    assert!(rt; is_one_set(&sets, LAST + 1));
    let of_number = component_index(rt.alloc(), &sets).expect(&rt, "memory");
    assert!(rt; of_number.len() == LAST + 1);
}

/// An edge that holds 1 from each number to the next higher one, where memory is left.
fn pipes_to(alloc: Global, last: usize) -> Option<Vec<Edge<usize, i64>>> {
    let mut pipes = Vec::new(alloc);
    for number in 0..last {
        pipes.push(((number, number + 1), 1)).ok()?;
    }
    Some(pipes)
}

/// Whether the flow is 1 on each of so many edges.
fn is_flow_of_one(answer: Result<EKFlows<usize, i64>, PathError>, edges: usize) -> bool {
    matches!(
        &answer,
        Ok((flows, total, cut)) if flows.len() == edges && *total == 1 && cut.len() == 1
    )
}

#[test]
fn flows(rt: HostRuntime) {
    let alloc = rt.alloc();
    let numbers = numbers_to(alloc, LAST).expect(&rt, "memory");
    let pipes = pipes_to(alloc, LAST).expect(&rt, "memory");
    let sparse = edmonds_karp_sparse(alloc, &numbers, &0, &LAST, pipes);
    assert!(rt; is_flow_of_one(sparse, LAST));
    // A dense store has a place for each pair of vertices.
    let numbers = numbers_to(alloc, SIDE - 1).expect(&rt, "memory");
    let pipes = pipes_to(alloc, SIDE - 1).expect(&rt, "memory");
    let dense = edmonds_karp_dense(alloc, &numbers, &0, &(SIDE - 1), pipes);
    assert!(rt; is_flow_of_one(dense, SIDE - 1));
}

/// A test that each position passes.
fn is_any(_position: (usize, usize)) -> bool {
    true
}

#[test]
fn floods(rt: HostRuntime) {
    let alloc = rt.alloc();
    let board = Matrix::new_square(alloc, SIDE, true).expect(&rt, "memory");
    let mut grid = Grid::new(alloc, SIDE, SIDE).expect(&rt, "memory");
    grid.fill();
    let reached = board
        .bfs_reachable((0, 0), false, is_any)
        .expect(&rt, "memory");
    assert!(rt; reached.len() == SIDE * SIDE);
    let reached = board
        .dfs_reachable((0, 0), false, is_any)
        .expect(&rt, "memory");
    assert!(rt; reached.len() == SIDE * SIDE);
    let reached = grid.bfs_reachable((0, 0), is_any).expect(&rt, "memory");
    assert!(rt; reached.len() == SIDE * SIDE);
    let reached = grid.dfs_reachable((0, 0), is_any).expect(&rt, "memory");
    assert!(rt; reached.len() == SIDE * SIDE);
}
