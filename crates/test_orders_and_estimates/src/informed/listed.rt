//! The searches over a list of edges between numbers, with an estimate for each number.

ghost use Rattle.std.specs.Prelude.{◌≡◌, ◌≤◌, ◌+◌, slice_index, IsTrue};
ghost use Rattle.test_orders_and_estimates.specs.Listed.{AreBounds, estimate_of_node};

use crate::informed::seen::{Answer, Heap, Lists, of_path, of_paths, of_steps};
use pf_informed::directed::astar::astar;
use pf_informed::directed::astar_bag::{astar_bag, astar_bag_collect};
use pf_informed::directed::fringe::fringe;
use pf_informed::directed::idastar::idastar;
use std::alloc::Global;
use test_edge_lists::edges_from;

/// An edge: from, to, cost.
pub(crate) type Edge = (usize, usize, u8);

/// A call of the crate.
#[derive(Clone, Copy, Debug)]
pub(crate) enum Call {
    Astar,
    Fringe,
    Idastar,
    /// All paths, gathered.
    Gathered,
    /// All paths, one by one.
    Steps,
}

/// The calls that answer one path.
pub(crate) static ONE_PATH: [Call; 3] = [Call::Astar, Call::Fringe, Call::Idastar];

/// The entry of a number, or 0.
pub(crate) fn entry(list: &[u8], node: usize) -> u8
    ensures { result ≡ slice_index list.now node }
{
    if node < list.len() { list[node] } else { 0 }
}

/// The estimate of a number, but no more than its bound.
fn capped(estimates: &[u8], bounds: &[u8], node: usize) -> u8
    ensures { result ≡ estimate_of_node estimates.now bounds.now node }
{
    entry(estimates, node).min(entry(bounds, node))
}

/// Does the bound fall along the edge by no more than it costs?
fn falls(edge: &Edge, bounds: &[u8]) -> bool
    ensures { IsTrue result → slice_index bounds.now edge.now.0 ≤ edge.now.2 + slice_index bounds.now edge.now.1 }
{
    u16::from(entry(bounds, edge.0)) <= u16::from(edge.2) + u16::from(entry(bounds, edge.1))
}

/// Is the bound of the end 0, and does it fall along no edge by more than that costs?
fn are_bounds(edges: &[Edge], bounds: &[u8], to: usize) -> bool
    ensures { IsTrue result → AreBounds edges.now bounds.now to }
{
    entry(bounds, to) == 0 && edges.iter().all(|edge| falls(edge, bounds))
}

/// Edges, from where to which of two goals a path is searched, and estimates, each no more than its
/// bound.
#[derive(Clone, Copy)]
pub(crate) struct Task<'a> {
    pub(crate) edges: &'a [Edge],
    pub(crate) from: usize,
    pub(crate) goals: (usize, usize),
    pub(crate) estimates: &'a [u8],
    pub(crate) bounds: &'a [u8],
}

/// What a call answers, seen beside the wanted paths.
fn search(heap: Heap<'_>, ample: Global, call: Call, task: &Task<'_>, wanted: Lists<'_>) -> Answer
    requires first { AreBounds task.now.edges.now task.now.bounds.now task.now.goals.0 }
    requires second { AreBounds task.now.edges.now task.now.bounds.now task.now.goals.1 }
{
    let Task {
        edges,
        from,
        goals,
        estimates,
        bounds,
    } = *task;
    let successors = |n: &usize| edges_from(edges, *n);
    let estimate = |n: &usize| capped(estimates, bounds, *n);
    let success = |n: &usize| *n == goals.0 || *n == goals.1;
    match call {
        Call::Astar => of_path(astar(heap, &from, successors, estimate, success), wanted),
        Call::Fringe => of_path(fringe(heap, &from, successors, estimate, success), wanted),
        Call::Idastar => of_path(idastar(heap, &from, successors, estimate, success), wanted),
        Call::Gathered => of_paths(
            astar_bag_collect(heap, &from, successors, estimate, success),
            wanted,
        ),
        Call::Steps => of_steps(
            ample,
            astar_bag(heap, &from, successors, estimate, success),
            wanted,
        ),
    }
}

/// What a call answers, seen beside the wanted paths, or `None` where the bounds are none.
pub(crate) fn searched(
    heap: Heap<'_>,
    ample: Global,
    call: Call,
    task: &Task<'_>,
    wanted: Lists<'_>,
) -> Option<Answer> {
    if are_bounds(task.edges, task.bounds, task.goals.0)
        && are_bounds(task.edges, task.bounds, task.goals.1)
    {
        Some(search(heap, ample, call, task, wanted))
    } else {
        None
    }
}

/// Whether each call that answers one path answers this cost, or none where there is no cost.
pub(crate) fn all_cost(heap: Heap<'_>, ample: Global, task: &Task<'_>, cost: Option<u8>) -> bool {
    for call in &ONE_PATH {
        let is_right = match searched(heap, ample, *call, task, &[]) {
            Some(Ok(Some((found, _, _)))) => cost == Some(found),
            Some(Ok(None)) => cost.is_none(),
            _ => false,
        };
        if !is_right {
            return false;
        }
    }
    true
}
