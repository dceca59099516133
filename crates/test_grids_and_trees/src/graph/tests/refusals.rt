//! Each growth refused in turn: a call answers that it was out of memory and nothing else, until no
//! request is refused and it answers as it does with ample memory.

use crate::graph::tests::Heap;
use crate::graph::tests::around::are_around_two;
use crate::graph::tests::assignments::{Assignment, Best, is_assigned};
use pf_base::PathError;
use pf_components::connected_components::ConnectedComponents;
use pf_graph::undirected::kruskal::{kruskal, kruskal_indices, spanning_weight};
use pf_graph::undirected::prim::prim;
use std::alloc::Global;
use test_allocator::Refusing;

const EDGES: &[(usize, usize, u32)] = &[(0, 1, 4), (1, 2, 1), (2, 0, 3), (3, 4, 9), (3, 3, 0)];

/// A call that takes memory.
enum Call {
    /// `kruskal_indices` of the five edges.
    Indices,
    /// `kruskal` of them.
    Names,
    /// `spanning_weight` of them.
    Weight,
    /// `prim` of them.
    Tree,
    /// `separate_components` of so many of five groups.
    Separate(usize),
    /// `components` of these groups, and `component_index` of the parts.
    Parts,
    /// `connected_components` around two starts.
    Around,
    /// The making of a table and a search for a best assignment.
    Assign(Assignment<'static>),
}

/// Calls, and how many growths they make at the least.
const CALLS: &[(Call, u64)] = &[
    (Call::Indices, 3),
    (Call::Names, 5),
    (Call::Weight, 5),
    (Call::Tree, 9),
    (Call::Separate(4), 5),
    (Call::Separate(5), 5),
    (Call::Parts, 7),
    (Call::Around, 7),
    (Call::Assign((SQUARE, Best::Greatest, 325, None)), 11),
    (Call::Assign((SQUARE, Best::Least, 270, None)), 12),
];

/// A square of weights.
const SQUARE: &[&[i32]] = &[&[100, 110, 90], &[95, 130, 75], &[95, 140, 65]];

/// Groups of vertices, of which the third is empty and the first, second and fourth are joined.
const GROUPS: &[&[u32]] = &[&[1, 2], &[3, 4], &[], &[1, 4], &[5, 5]];

/// Whether `kruskal` chooses the edges with these weights.
fn are_chosen(heap: Heap<'_>, weights: [u32; 3]) -> Result<bool, PathError> {
    let mut chosen = kruskal(heap, EDGES)?;
    for weight in weights {
        if !matches!(chosen.next(), Some(edge) if edge.2 == weight) {
            return Ok(false);
        }
    }
    Ok(chosen.next().is_none())
}

/// Whether the joined groups get one number, which is below their count, the empty one `usize::MAX`
/// and the fifth another number.
fn are_separated(heap: Heap<'_>, groups: &[Vec<u32>]) -> Result<bool, PathError> {
    let (of_vertex, ids) = ConnectedComponents::<u32>::separate_components(heap, groups)?;
    if ids.len() < 4 || ids.len() != groups.len() || of_vertex.len() != groups.len() {
        return Ok(false);
    }
    let joined = ids[0];
    Ok(
        joined < ids.len()
            && ids[1] == joined
            && ids[2] == usize::MAX
            && ids[3] == joined
            && ids.get(4) != Some(&joined),
    )
}

/// Whether the groups have two parts, of which the vertices 1 to 4 are one.
fn are_parted(heap: Heap<'_>, groups: &[Vec<u32>]) -> Result<bool, PathError> {
    let sets = ConnectedComponents::<u32>::components(heap, groups)?;
    let of_node = ConnectedComponents::<u32>::component_index(heap, &sets)?;
    let first = of_node.get(&1).copied();
    for vertex in 2..5u32 {
        if of_node.get(&vertex).copied() != first {
            return Ok(false);
        }
    }
    Ok(sets.len() == 2 && of_node.len() == 5 && of_node.get(&5).copied() != first)
}

/// Whether a call answers the only right answer.
fn is_right(heap: Heap<'_>, call: &Call, groups: &[Vec<u32>]) -> Result<bool, PathError> {
    match call {
        Call::Indices => {
            Ok(kruskal_indices(heap, 5, EDGES)?.eq([(1, 2, 1), (2, 0, 3), (3, 4, 9)]))
        }
        Call::Names => are_chosen(heap, [1, 3, 9]),
        Call::Weight => Ok(spanning_weight(heap, EDGES)? == 13),
        Call::Tree => Ok(prim(heap, EDGES)?.as_slice() == [(&0, &2, 3), (&2, &1, 1)].as_slice()),
        Call::Separate(count) => match groups.get(..*count) {
            Some(first) => are_separated(heap, first),
            None => Ok(false),
        },
        Call::Parts => are_parted(heap, groups),
        Call::Around => are_around_two(heap),
        Call::Assign(wanted) => is_assigned(heap, wanted),
    }
}

/// How many growths a call makes with ample memory, where each run with one of them refused answers
/// out of memory.
fn growths_of(alloc: Global, call: &Call, groups: &[Vec<u32>]) -> Option<u64> {
    for growth in 0..1_000u64 {
        let heap = Refusing::new(alloc);
        heap.refuse(growth, 1);
        let answer = is_right(&heap, call, groups);
        if heap.pending() > 0 {
            return if answer == Ok(true) {
                Some(growth)
            } else {
                None
            };
        }
        if answer != Err(PathError::OutOfMemory) {
            return None;
        }
    }
    None
}

#[test]
fn calls_refuse_each_growth(rt: HostRuntime) {
    let mut groups = Vec::new(rt.alloc());
    for group in GROUPS {
        let group = group.to_vec(rt.alloc()).expect(&rt, "memory");
        groups.push(group).expect(&rt, "memory");
    }
    for (number, (call, least)) in CALLS.iter().enumerate() {
        let growths = growths_of(rt.alloc(), call, &groups);
        assert!(rt; growths >= Some(*least), "call {number}");
    }
}

#[test]
fn a_made_iterator_takes_no_memory(rt: HostRuntime) {
    let heap = Refusing::new(rt.alloc());
    let mut indices = kruskal_indices(&heap, 5, EDGES).expect(&rt, "memory");
    let mut names = kruskal(&heap, EDGES).expect(&rt, "memory");
    heap.refuse(0, u64::MAX);
    for weight in [1u32, 3, 9] {
        assert!(rt;
            matches!(indices.next(), Some(edge) if edge.2 == weight)
                && matches!(names.next(), Some(edge) if edge.2 == weight)
        );
    }
    assert!(rt; indices.next().is_none() && names.next().is_none());
    assert!(rt; heap.pending() == u64::MAX);
}
