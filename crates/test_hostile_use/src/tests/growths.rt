//! Each growth refused in turn, of calls for which the tests of no other crate do it: a call answers
//! that it was out of memory, until no request is refused and it answers as it does with ample memory.

use crate::table_parents::all_from;
use pathfinding::directed::dijkstra::Parents;
use pathfinding::directed::edmonds_karp::{
    DenseCapacity, EKFlows, Edge, EdmondsKarp, SparseCapacity, edmonds_karp_dense,
    edmonds_karp_sparse,
};
use pathfinding::error::PathError;
use pathfinding::graphs::{
    Rows, bfs_loop, dfs, dijkstra_partial, iddfs, strongly_connected_component,
    strongly_connected_components, topological_sort, topological_sort_into_groups, yen,
};
use pathfinding::matrix::{Matrix, MatrixFormatError};
use pathfinding::noderefs::NodeRefs;
use pathfinding::utils::Tally;
use std::alloc::Global;
use std::process::Abort;
use test_allocator::Refusing;

/// A call that takes memory.
#[derive(Clone, Copy, Debug)]
enum Call {
    /// A call over the table `ROUND`.
    Round(RoundCall),
    /// `topological_sort` over a table.
    Order,
    /// `topological_sort_into_groups` over a table.
    Groups,
    /// `edmonds_karp_dense`.
    DenseFlow,
    /// `edmonds_karp_sparse`.
    SparseFlow,
    /// `from_matrix`, `from_vec`, `augment_tallied`, `flows_from` and `clone` of a dense store.
    DenseStore,
    /// The same of a sparse store.
    SparseStore,
    /// `dfs_reachable` of a matrix, which is made on the way.
    DepthFlood,
}

/// A call over a table of four nodes, of which three are on cycles.
#[derive(Clone, Copy, Debug)]
enum RoundCall {
    /// `dijkstra_all`.
    Parents,
    /// `dijkstra_partial`.
    PartOfParents,
    /// `dfs`.
    Depth,
    /// `iddfs`.
    Deepened,
    /// `bfs_loop`.
    Loop,
    /// `strongly_connected_component`.
    Component,
    /// `strongly_connected_components`.
    Components,
    /// `yen`.
    Ranked,
}

/// Each call, and how many growths it makes at the least.
const CALLS: &[(Call, u64)] = &[
    (Call::Round(RoundCall::Parents), 6),
    (Call::Round(RoundCall::PartOfParents), 6),
    (Call::Round(RoundCall::Depth), 4),
    (Call::Round(RoundCall::Deepened), 3),
    (Call::Round(RoundCall::Loop), 4),
    (Call::Round(RoundCall::Component), 6),
    (Call::Round(RoundCall::Components), 6),
    (Call::Round(RoundCall::Ranked), 6),
    (Call::Order, 4),
    (Call::Groups, 6),
    (Call::DenseFlow, 6),
    (Call::SparseFlow, 6),
    (Call::DenseStore, 8),
    (Call::SparseStore, 8),
    (Call::DepthFlood, 4),
];

/// The edges from four nodes, of which the first three are on cycles.
const ROUND: &[&[(usize, u32)]] = &[&[(1, 1), (2, 9)], &[(2, 5), (3, 1)], &[(0, 0)], &[]];

/// The edges from three nodes, without a cycle.
const IN_ORDER: &[&[(usize, u32)]] = &[&[(1, 1), (2, 1)], &[(2, 1)], &[]];

/// A graph in a table of rows.
type Table<'a> = Rows<'a, &'a [(usize, u32)], u32>;

/// What the calls are asked about, in ample memory.
#[derive(Drop)]
struct Asked<'a> {
    /// The table `ROUND`.
    round: Table<'a>,
    /// The table `IN_ORDER`.
    in_order: Table<'a>,
    /// The node 1.
    starts: NodeRefs<'a, usize>,
}

/// The heap that refuses growths.
type Heap<'h> = &'h Refusing<Global>;

/// Whether the answer is this path.
fn is_path(
    found: Result<Option<Vec<usize, Heap<'_>>>, PathError>,
    path: &[usize],
) -> Result<bool, PathError> {
    let found = found?;
    Ok(matches!(&found, Some(nodes) if nodes.as_slice() == path))
}

/// Whether the answer is all parents in the table `ROUND` from the node 0.
fn are_parents(found: Result<Parents<usize, u32, Heap<'_>>, PathError>) -> Result<bool, PathError> {
    let parents = found?;
    Ok(parents.len() == 3 && parents.get(&2).copied() == Some((1, 6)))
}

/// Whether the answer is the parents that are known in the table `ROUND` at the node 1.
fn are_parents_so_far(
    found: Result<(Parents<usize, u32, Heap<'_>>, Option<usize>), PathError>,
) -> Result<bool, PathError> {
    let (parents, stopped) = found?;
    Ok(parents.get(&2).copied() == Some((0, 9)) && stopped == Some(1))
}

/// Whether the answer is both paths in the table `ROUND` from the node 0 to the node 2.
fn are_ranked(
    found: Result<Vec<(Vec<usize, Heap<'_>>, u32), Heap<'_>>, PathError>,
) -> Result<bool, PathError> {
    let paths = found?;
    let is_first =
        matches!(paths.first(), Some((nodes, 6)) if nodes.as_slice() == [0, 1, 2].as_slice());
    let is_second =
        matches!(paths.last(), Some((nodes, 9)) if nodes.as_slice() == [0, 2].as_slice());
    Ok(paths.len() == 2 && is_first && is_second)
}

/// Whether a call over the table `ROUND` answers the only right answer.
fn is_right_round(
    heap: Heap<'_>,
    graph: &Table<'_>,
    starts: &NodeRefs<'_, usize>,
    call: RoundCall,
) -> Result<bool, PathError> {
    match call {
        RoundCall::Parents => are_parents(all_from(heap, graph, 0)),
        RoundCall::PartOfParents => are_parents_so_far(dijkstra_partial(heap, graph, 0, 1)),
        RoundCall::Depth => is_path(dfs(heap, graph, 0, 3), &[0, 1, 3]),
        RoundCall::Deepened => is_path(iddfs(heap, graph, 0, 3), &[0, 1, 3]),
        RoundCall::Loop => is_path(bfs_loop(heap, graph, starts), &[1, 2, 0, 1]),
        RoundCall::Component => Ok(strongly_connected_component(heap, graph, 2)?.len() == 3),
        RoundCall::Components => Ok(strongly_connected_components(heap, graph, &[0])?.len() == 2),
        RoundCall::Ranked => are_ranked(yen(heap, graph, 0, 2, 3)),
    }
}

/// Whether the nodes of the table `IN_ORDER` are put in their only order.
fn is_in_order(heap: Heap<'_>, graph: &Table<'_>) -> Result<bool, PathError> {
    let order = topological_sort(heap, graph, &[0])?;
    Ok(matches!(&order, Ok(nodes) if nodes.as_slice() == [0, 1, 2].as_slice()))
}

/// Whether the nodes of the table `IN_ORDER` are put in their only groups.
fn is_grouped(heap: Heap<'_>, graph: &Table<'_>) -> Result<bool, PathError> {
    let groups = topological_sort_into_groups(heap, graph, &[2, 1, 0])?;
    Ok(matches!(&groups, Ok(groups) if groups.len() == 3))
}

/// The edges between the vertices 10 to 40, and what they hold.
const PIPES: [Edge<u32, i64>; 5] = [
    ((10, 40), 3),
    ((10, 30), 2),
    ((40, 30), 1),
    ((40, 20), 2),
    ((30, 20), 3),
];

/// The capacities between four vertices, by rows: the same pipes from 0 over 1 and 2 to 3.
const SQUARE: &[i64] = &[0, 3, 2, 0, 0, 0, 1, 2, 0, 0, 0, 3, 0, 0, 0, 0];

/// Whether the answer is a greatest flow and the least cut between the vertices 10 and 20.
fn is_flow(answer: Result<EKFlows<u32, i64, Heap<'_>>, PathError>) -> Result<bool, PathError> {
    let (_, total, cut) = answer?;
    Ok(total == 5 && cut.as_slice() == [((10, 40), 3), ((10, 30), 2)].as_slice())
}

/// Whether stores of the square are made, lent and taken, and the second is filled and copied.
fn is_flowing<'h, S>(heap: Heap<'h>, square: Matrix<i64, Heap<'h>>) -> Result<bool, PathError>
where
    S: EdmondsKarp<i64, Alloc = Heap<'h>> + Clone,
{
    if square.rows() != 4 || square.columns() != 4 {
        return Ok(false);
    }
    if S::from_matrix(heap, 0, 3, &square)?.total_capacity() != 0 {
        return Ok(false);
    }
    let mut store = S::from_matrix(heap, 0, 3, square)?;
    let (_, total, _) = store.augment_tallied(heap, &mut Tally::new())?;
    if total != 5 || store.size() < 4 {
        return Ok(false);
    }
    let ends = store.flows_from(heap, 1)?;
    let copy = store.clone()?;
    Ok(copy.total_capacity() == 5 && ends.as_slice() == [2, 3].as_slice())
}

/// Whether stores of the square are made, and one of them is filled and copied.
fn is_filled<'h, S>(heap: Heap<'h>) -> Result<bool, PathError>
where
    S: EdmondsKarp<i64, Alloc = Heap<'h>> + Clone,
{
    let Ok(square) = Matrix::from_vec(4, 4, Vec::from_slice(heap, SQUARE)?) else {
        return Ok(false);
    };
    let is_flowing = is_flowing::<S>(heap, square)?;
    Ok(is_flowing && S::from_vec(heap, 0, 3, SQUARE)?.total_capacity() == 0)
}

/// A test that each position passes.
fn is_any(_position: (usize, usize)) -> bool {
    true
}

/// How many positions a flood of a matrix of two rows and three columns reaches by a walk in depth.
fn flooded(heap: Heap<'_>) -> Result<usize, MatrixFormatError> {
    let board = Matrix::new(heap, 2, 3, 0u8)?;
    let reached = board.dfs_reachable((0, 0), true, is_any)?;
    Ok(reached.len())
}

/// Whether the flood reaches all positions.
fn is_flooded(heap: Heap<'_>) -> Result<bool, PathError> {
    match flooded(heap) {
        Ok(reached) => Ok(reached == 6),
        Err(MatrixFormatError::OutOfMemory) => Err(PathError::OutOfMemory),
        Err(_) => Ok(false),
    }
}

/// Whether a call answers the only right answer.
fn is_right(heap: Heap<'_>, asked: &Asked<'_>, call: Call) -> Result<bool, PathError> {
    let vertices = [10, 40, 30, 20];
    match call {
        Call::Round(call) => is_right_round(heap, &asked.round, &asked.starts, call),
        Call::Order => is_in_order(heap, &asked.in_order),
        Call::Groups => is_grouped(heap, &asked.in_order),
        Call::DenseFlow => is_flow(edmonds_karp_dense(heap, &vertices, &10, &20, PIPES)),
        Call::SparseFlow => is_flow(edmonds_karp_sparse(heap, &vertices, &10, &20, PIPES)),
        Call::DenseStore => is_filled::<DenseCapacity<i64, Heap<'_>>>(heap),
        Call::SparseStore => is_filled::<SparseCapacity<i64, Heap<'_>>>(heap),
        Call::DepthFlood => is_flooded(heap),
    }
}

/// Runs a call with growth 0, 1, 2, .. refused alone, until a run meets no refusal, and answers how
/// many growths that run made. Each run before it has to answer that it was out of memory.
fn refuse_each_growth(rt: &impl Abort, ample: Global, asked: &Asked<'_>, call: Call) -> u64 {
    for growth in 0..1_000u64 {
        let heap = Refusing::new(ample);
        heap.refuse(growth, 1);
        let answer = is_right(&heap, asked, call);
        if heap.pending() > 0 {
            assert!(rt; matches!(answer, Ok(true)), "{call:?} with no refusal");
            return growth;
        }
        assert!(rt;
            matches!(answer, Err(PathError::OutOfMemory)),
            "{call:?}, growth {growth}"
        );
    }
    panic!(rt; "every run of {call:?} met a refusal")
}

#[test]
fn calls_refuse_each_growth(rt: HostRuntime) {
    let start = 1usize;
    let asked = Asked {
        round: Rows::new(ROUND).expect(&rt, "a graph"),
        in_order: Rows::new(IN_ORDER).expect(&rt, "a graph"),
        starts: NodeRefs::from_one(rt.alloc(), &start).expect(&rt, "memory"),
    };
    for (call, least) in CALLS {
        let growths = refuse_each_growth(&rt, rt.alloc(), &asked, *call);
        assert!(rt; growths >= *least, "{call:?} makes {growths} growths");
    }
}
