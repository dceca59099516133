//! Rows: a call over a list of edges, and what it has to answer, with ample memory and with each
//! growth refused in turn.

use pf_base::{PathError, Tally};
use pf_orders::directed::strongly_connected_components::{
    strongly_connected_component, strongly_connected_components, strongly_connected_components_from,
};
use pf_orders::directed::topological_sort::{
    topological_sort, topological_sort_into_groups, topological_sort_tallied,
};
use std::alloc::Global;
use std::cell::Cell;
use std::process::Abort;
use test_allocator::Refusing;
use test_edge_lists::nodes_after;

/// Edges, each from a node to a node.
type Edges<'a> = &'a [(usize, usize)];

/// Nodes in lists.
type Lists<'a> = &'a [&'a [usize]];

/// An allocator that may refuse.
type Heap<'a> = &'a Refusing<Global>;

/// Answered lists of nodes.
type Found<'a> = Vec<Vec<usize, Heap<'a>>, Heap<'a>>;

/// A call over a list of edges.
#[derive(Clone, Copy)]
enum Call<'a> {
    /// The components in reach of these nodes.
    Components(&'a [usize]),
    /// The components in reach of this node.
    From(usize),
    /// The component of this node.
    One(usize),
    /// An order of the nodes in reach of these ones.
    Order(&'a [usize]),
    /// The same, with a tally of what is asked.
    TalliedOrder(&'a [usize]),
    /// The groups of these nodes by depth.
    Groups(&'a [usize]),
}

/// A call over a list of edges, the lists that it has to answer, each component and each group in any
/// order, and the nodes that are left: those without a depth, or those of which one is answered as on
/// a cycle.
type Row<'a> = (Edges<'a>, Call<'a>, Lists<'a>, &'a [usize]);

/// Two nodes of which the second follows itself.
const TWO: Edges = &[(0, 42), (42, 42)];

/// Eight nodes in four components.
const EIGHT: Edges = &[
    (1, 2),
    (2, 3),
    (3, 1),
    (4, 2),
    (4, 3),
    (4, 5),
    (5, 4),
    (5, 6),
    (6, 3),
    (6, 7),
    (7, 6),
    (8, 5),
    (8, 7),
    (8, 8),
];

/// Each number to the next two, up to 9.
const STEPS: Edges = &[
    (0, 1),
    (0, 2),
    (1, 2),
    (1, 3),
    (2, 3),
    (2, 4),
    (3, 4),
    (3, 5),
    (4, 5),
    (4, 6),
    (5, 6),
    (5, 7),
    (6, 7),
    (6, 8),
    (7, 8),
    (7, 9),
    (8, 9),
];

/// The only order of these steps from 1 and from 5.
const FROM_ONE: &[usize] = &[1, 2, 3, 4, 5, 6, 7, 8, 9];

/// Two nodes before a cycle of two, and one behind it.
const BEHIND_CYCLE: Edges = &[(0, 1), (1, 2), (2, 3), (3, 2), (3, 4)];

/// A node before two others, which lead to one that leads to itself.
const SELF_EDGE: Edges = &[(0, 1), (0, 2), (1, 3), (2, 3), (3, 3)];

/// The worked rows.
const ROWS: &[Row<'static>] = &[
    (TWO, Call::Components(&[0]), &[&[42], &[0]], &[]),
    (TWO, Call::Components(&[]), &[], &[]),
    (&[], Call::Components(&[7, 7]), &[&[7]], &[]),
    (
        EIGHT,
        Call::Components(&[8, 1]),
        &[&[1, 2, 3], &[6, 7], &[4, 5], &[8]],
        &[],
    ),
    (TWO, Call::From(42), &[&[42]], &[]),
    (EIGHT, Call::From(6), &[&[1, 2, 3], &[6, 7]], &[]),
    (
        EIGHT,
        Call::From(8),
        &[&[1, 2, 3], &[6, 7], &[4, 5], &[8]],
        &[],
    ),
    (EIGHT, Call::One(4), &[&[4, 5]], &[]),
    (EIGHT, Call::One(5), &[&[4, 5]], &[]),
    (STEPS, Call::Order(&[5, 1]), &[FROM_ONE], &[]),
    (STEPS, Call::Order(&[]), &[&[]], &[]),
    (&[], Call::Order(&[3, 3]), &[&[3]], &[]),
    (STEPS, Call::TalliedOrder(&[5, 1]), &[FROM_ONE], &[]),
    (SELF_EDGE, Call::TalliedOrder(&[0]), &[], &[3]),
    (SELF_EDGE, Call::Order(&[3]), &[], &[3]),
    (SELF_EDGE, Call::Order(&[0]), &[], &[3]),
    (BEHIND_CYCLE, Call::Order(&[4, 0]), &[], &[2, 3]),
    (
        BEHIND_CYCLE,
        Call::Groups(&[0, 1, 2, 3, 4]),
        &[&[0], &[1]],
        &[2, 3, 4],
    ),
    (
        SELF_EDGE,
        Call::Groups(&[0, 1, 2, 3]),
        &[&[0], &[1, 2]],
        &[3],
    ),
    (STEPS, Call::Groups(&[]), &[], &[]),
];

/// Whether these are the wanted nodes, each once, in any order.
fn are_same(nodes: &[usize], wanted: &[usize]) -> bool {
    for node in wanted {
        if !nodes.contains(node) {
            return false;
        }
    }
    nodes.len() == wanted.len()
}

/// Whether these are the wanted lists, each in any order.
fn are_lists(found: &[Vec<usize, Heap<'_>>], lists: Lists<'_>) -> bool {
    if found.len() != lists.len() {
        return false;
    }
    for number in 0..found.len() {
        if !are_same(&found[number], lists[number]) {
            return false;
        }
    }
    true
}

/// Whether these components are answered.
fn are_components(
    answer: Result<Found<'_>, PathError>,
    lists: Lists<'_>,
) -> Result<bool, PathError> {
    match answer {
        Ok(found) => Ok(are_lists(&found, lists)),
        Err(refusal) => Err(refusal),
    }
}

/// Whether there is one list, of these nodes in any order.
fn is_only(nodes: &[usize], lists: Lists<'_>) -> bool {
    lists.len() == 1 && are_same(nodes, lists[0])
}

/// Whether the one component is answered.
fn is_component(
    answer: Result<Vec<usize, Heap<'_>>, PathError>,
    lists: Lists<'_>,
) -> Result<bool, PathError> {
    match answer {
        Ok(nodes) => Ok(is_only(&nodes, lists)),
        Err(refusal) => Err(refusal),
    }
}

/// Whether there is one list, of these nodes in this order.
fn is_in_order(nodes: &[usize], lists: Lists<'_>) -> bool {
    lists.len() == 1 && nodes == lists[0]
}

/// Whether the one order is answered, or one of the nodes that are left.
fn is_order(
    answer: Result<Result<Vec<usize, Heap<'_>>, usize>, PathError>,
    lists: Lists<'_>,
    left: &[usize],
) -> Result<bool, PathError> {
    match answer {
        Ok(Ok(nodes)) => Ok(is_in_order(&nodes, lists)),
        Ok(Err(node)) => Ok(left.contains(&node)),
        Err(refusal) => Err(refusal),
    }
}

/// Whether these are the wanted groups, and the nodes without a depth, if it is said that there are
/// such, the wanted ones.
fn are_grouped(
    groups: &[Vec<usize, Heap<'_>>],
    nodes: Option<&[usize]>,
    lists: Lists<'_>,
    left: &[usize],
) -> bool {
    let is_left = match nodes {
        Some(nodes) => !nodes.is_empty() && are_same(nodes, left),
        None => left.is_empty(),
    };
    is_left && are_lists(groups, lists)
}

/// Groups by depth, or where a cycle is met, those and the nodes that are left.
type Groups<'a> = Result<Found<'a>, (Found<'a>, Vec<usize, Heap<'a>>)>;

/// Whether these groups are answered, and these nodes are left.
fn are_groups(
    answer: Result<Groups<'_>, PathError>,
    lists: Lists<'_>,
    left: &[usize],
) -> Result<bool, PathError> {
    match answer {
        Ok(Ok(groups)) => Ok(are_grouped(&groups, None, lists, left)),
        Ok(Err((groups, nodes))) => Ok(are_grouped(&groups, Some(&nodes), lists, left)),
        Err(refusal) => Err(refusal),
    }
}

/// Whether the call of a row answers what it has to. Counts how often its function is asked.
fn is_answered(heap: Heap<'_>, row: &Row<'_>, asked: &Cell<u64>) -> Result<bool, PathError> {
    let (edges, call, lists, left) = *row;
    let successors = |n: &usize| {
        asked.set(asked.get().wrapping_add(1));
        nodes_after(edges, *n)
    };
    match call {
        Call::Components(nodes) => {
            are_components(
                strongly_connected_components(heap, nodes, successors),
                lists,
            )
        }
        Call::From(start) => are_components(
            strongly_connected_components_from(heap, &start, successors),
            lists,
        ),
        Call::One(node) => {
            is_component(strongly_connected_component(heap, &node, successors), lists)
        }
        Call::Order(roots) => is_order(topological_sort(heap, roots, successors), lists, left),
        Call::TalliedOrder(roots) => is_order(
            topological_sort_tallied(heap, roots, successors, &mut Tally::new()),
            lists,
            left,
        ),
        Call::Groups(nodes) => are_groups(
            topological_sort_into_groups(heap, nodes, successors),
            lists,
            left,
        ),
    }
}

/// How many growths the call of a row makes, if it answers out of memory where one of these alone is
/// refused, and what it has to where none is.
fn growths_of(ample: Global, row: &Row<'_>) -> Option<u64> {
    let asked = Cell::new(0u64);
    for growth in 0..1_000u64 {
        let heap = Refusing::new(ample);
        heap.refuse(growth, 1);
        let answer = is_answered(&heap, row, &asked);
        if heap.pending() > 0 {
            return if answer == Ok(true) {
                Some(growth)
            } else {
                None
            };
        }
        if answer != Err(PathError::OutOfMemory) {
            return None;
        }
    }
    None
}

#[test]
fn each_growth_is_refused(rt: HostRuntime) {
    let mut growths = 0u64;
    for (number, row) in ROWS.iter().enumerate() {
        let made = growths_of(rt.alloc(), row);
        assert!(rt; made.is_some(), "row {number}");
        growths = growths.saturating_add(made.unwrap_or(0));
    }
    assert!(rt; growths > 100, "the rows make {growths} growths");
}

/// The edges of a chain from 1 to 999, and its nodes in their order and in a mixed one.
type Chain = (Vec<(usize, usize)>, Vec<usize>, Vec<usize>);

/// That chain, where memory is left.
fn chain(alloc: Global) -> Option<Chain> {
    let mut edges = Vec::new(alloc);
    let mut nodes = Vec::new(alloc);
    let mut mixed = Vec::new(alloc);
    for node in 1..999usize {
        edges.push((node, node + 1)).ok()?;
    }
    for step in 0..999usize {
        nodes.push(step + 1).ok()?;
        mixed.push(step * 7 % 999 + 1).ok()?;
    }
    Some((edges, nodes, mixed))
}

#[test]
fn an_order_asks_at_most_once_for_each_node(rt: HostRuntime) {
    let asked = Cell::new(0u64);
    let heap = Refusing::new(rt.alloc());
    let row: Row<'_> = (STEPS, Call::Order(&[5, 1]), &[FROM_ONE], &[]);
    assert!(rt; is_answered(&heap, &row, &asked) == Ok(true) && asked.get() <= 9);
    asked.set(0);
    let (edges, nodes, mixed) = chain(rt.alloc()).expect(&rt, "memory");
    let row: Row<'_> = (&edges, Call::Order(&mixed), &[&nodes], &[]);
    assert!(rt; is_answered(&heap, &row, &asked) == Ok(true) && asked.get() <= 999);
}

#[test]
fn groups_of_nodes_that_lead_to_another_are_refused(rt: HostRuntime) {
    let heap = Refusing::new(rt.alloc());
    let row: Row<'_> = (&[(0, 1)], Call::Groups(&[0]), &[], &[]);
    let answer = is_answered(&heap, &row, &Cell::new(0));
    assert!(rt; answer == Err(PathError::UnknownVertex));
}
