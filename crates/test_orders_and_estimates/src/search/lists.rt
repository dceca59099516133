//! Searches over a list of edges between numbers.

use pf_base::PathError;
use pf_both_ends::dijkstra_bidirectional;
use pf_search::directed::dijkstra::{Parents, dijkstra, dijkstra_all, dijkstra_partial};
use std::alloc::Global;
use std::cell::Cell;
use test_allocator::Refusing;
use test_edge_lists::{edges_from, edges_to};

/// An edge: from, to, cost.
pub type Edge = (usize, usize, u32);

/// An allocator that may refuse.
pub type Heap<'a> = &'a Refusing<Global>;

/// A cheapest path with its cost, where there is one.
pub type Found<'a> = Result<Option<(Vec<usize, Heap<'a>>, u32)>, PathError>;

/// A map of parents, and the node at which the search stopped, where it did.
pub type Mapped<'a> = Result<(Parents<usize, u32, Heap<'a>>, Option<usize>), PathError>;

/// From where a path is searched.
#[derive(Clone, Copy)]
pub enum Search {
    OneEnd,
    BothEnds,
}

/// A cheapest path from a node to a node. Counts how often its functions are asked.
pub fn cheapest<'a>(
    heap: Heap<'a>,
    search: Search,
    edges: &[Edge],
    from: usize,
    to: usize,
    asked: &Cell<u64>,
) -> Found<'a> {
    let successors = |n: &usize| {
        asked.set(asked.get().wrapping_add(1));
        edges_from(edges, *n)
    };
    match search {
        Search::OneEnd => dijkstra(heap, &from, successors, |n| *n == to),
        Search::BothEnds => dijkstra_bidirectional(heap, &from, &to, successors, |n| {
            asked.set(asked.get().wrapping_add(1));
            edges_to(edges, *n)
        }),
    }
}

/// The map of the nodes in reach of a node, or of those before `stop`.
pub fn mapped<'a>(heap: Heap<'a>, edges: &[Edge], from: usize, stop: Option<usize>) -> Mapped<'a> {
    let successors = |n: &usize| edges_from(edges, *n);
    match stop {
        Some(stop) => dijkstra_partial(heap, &from, successors, |n| *n == stop),
        None => match dijkstra_all(heap, &from, successors) {
            Ok(parents) => Ok((parents, None)),
            Err(refusal) => Err(refusal),
        },
    }
}
