//! All graphs of three nodes with at most four edges of costs up to 2, against plain programs.

use crate::informed::listed::{Call, Edge, Task, all_cost, entry, searched};
use crate::informed::seen::Lists;
use std::alloc::Global;
use test_allocator::Refusing;

/// What stands for a cost where there is no way.
const NONE: u8 = 9;

/// How many edges there are between three nodes at costs up to 2, and one choice more, of none.
const CHOICES: usize = 28;

/// The edge of a choice. Of no edge it is one from node 2 to itself.
fn edge_of(choice: usize) -> Edge {
    match choice.checked_sub(1) {
        Some(edge) => (edge / 3 % 3, edge / 9 % 3, (edge % 3) as u8),
        None => (2, 2, 0),
    }
}

/// Whether two choices stand in rising order, or are none both.
fn are_rising(low: usize, high: usize) -> bool {
    low < high || low == 0 && high == 0
}

/// The edges of four choices, or `None` where these do not stand in rising order.
fn graph_of(choices: usize) -> Option<[Edge; 4]> {
    let (a, b) = (choices % CHOICES, choices / CHOICES % CHOICES);
    let rest = choices / CHOICES / CHOICES;
    let (c, d) = (rest % CHOICES, rest / CHOICES);
    if are_rising(a, b) && are_rising(b, c) && are_rising(c, d) {
        Some([edge_of(a), edge_of(b), edge_of(c), edge_of(d)])
    } else {
        None
    }
}

/// What the way from each of three nodes to node 2 costs at least, by trying all edges three times.
fn remaining(edges: &[Edge]) -> [u8; 3] {
    let mut costs = [NONE, NONE, 0];
    for _ in 0..3 {
        for edge in edges {
            let through = edge.2.saturating_add(entry(&costs, edge.1));
            if edge.0 < 3 && through < costs[edge.0] {
                costs[edge.0] = through;
            }
        }
    }
    costs
}

/// What the cheapest edge from one node to another costs, or `NONE`.
fn direct(edges: &[Edge], from: usize, to: usize) -> u8 {
    let mut cost = NONE;
    for edge in edges {
        if edge.0 == from && edge.1 == to && edge.2 < cost {
            cost = edge.2;
        }
    }
    cost
}

/// Whether a search answers these paths at this cost, or none where there is no way.
fn are_paths(ample: Global, task: &Task<'_>, paths: Lists<'_>, cost: u8) -> bool {
    let heap = Refusing::new(ample);
    let answer = searched(&heap, ample, Call::Gathered, task, paths);
    if cost < NONE {
        answer == Some(Ok(Some((cost, paths.len(), true))))
    } else {
        answer == Some(Ok(None))
    }
}

/// Whether a search answers the cheaper of two lists of nodes, both where they cost alike, or none
/// where there is no way by either.
fn is_cheaper(
    ample: Global,
    task: &Task<'_>,
    first: (&[usize], u8),
    second: (&[usize], u8),
) -> bool {
    let (nodes, cost) = first;
    let (others, other) = second;
    if cost < other {
        are_paths(ample, task, &[nodes], cost)
    } else if other < cost {
        are_paths(ample, task, &[others], other)
    } else {
        are_paths(ample, task, &[nodes, others], cost)
    }
}

/// Whether the cheapest paths from 0 to 2 are those of a plain program, which tries both clean paths
/// that there can be.
fn paths_to_last(ample: Global, task: &Task<'_>) -> bool {
    let over = direct(task.edges, 0, 1).saturating_add(direct(task.edges, 1, 2));
    is_cheaper(
        ample,
        task,
        (&[0, 2], direct(task.edges, 0, 2)),
        (&[0, 1, 2], over),
    )
}

/// The same from 0 to the first of 1 and 2.
fn paths_to_either(ample: Global, edges: &[Edge]) -> bool {
    let task = Task {
        edges,
        from: 0,
        goals: (1, 2),
        estimates: &[],
        bounds: &[],
    };
    is_cheaper(
        ample,
        &task,
        (&[0, 1], direct(edges, 0, 1)),
        (&[0, 2], direct(edges, 0, 2)),
    )
}

/// Whether the searches from 0 to 2 are right, led by these estimates.
fn agree_by(ample: Global, edges: &[Edge], estimates: &[u8], costs: &[u8; 3]) -> bool {
    let task = Task {
        edges,
        from: 0,
        goals: (2, 2),
        estimates,
        bounds: costs,
    };
    let cost = if costs[0] < NONE {
        Some(costs[0])
    } else {
        None
    };
    all_cost(&Refusing::new(ample), ample, &task, cost) && paths_to_last(ample, &task)
}

/// Whether the three searches and all cheapest paths are right, under every admissible estimate up to 2.
fn agree(ample: Global, edges: &[Edge]) -> bool {
    let costs = remaining(edges);
    for choice in 0..9u8 {
        let estimates = [choice % 3, choice / 3];
        if estimates[0] <= costs[0]
            && estimates[1] <= costs[1]
            && !agree_by(ample, edges, &estimates, &costs)
        {
            return false;
        }
    }
    paths_to_either(ample, edges)
}

#[test]
fn small_graphs_agree_with_plain_programs(rt: HostRuntime) {
    for choices in 0..CHOICES * CHOICES * CHOICES * CHOICES {
        if let Some(edges) = graph_of(choices) {
            assert!(rt; agree(rt.alloc(), &edges), "choices {choices}");
        }
    }
}
