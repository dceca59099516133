//! Each growth refused in turn: a call answers out of memory and nothing else, until no request is
//! refused and it answers as it does with ample memory.

use crate::both_ends::fewest_between_in_pairs;
use crate::fewest::{Heap, deepened_in_pairs, fewest_in_pairs};
use crate::list::cheapest_in_list;
use crate::loops::loop_in_pairs;
use crate::tests::answers::{Outcome, cheapest_outcome, path_outcome};
use crate::tests::graphs::ROWS;
use crate::tests::names::{PLACES, ROADS, cheapest_way_outcome, way_outcome};
use crate::tests::routes::{SEVEN, SEVEN_ANSWERS, ended, spelled};
use pathfinding::routes::{Command, RouteError};
use pf_base::PathError;
use pf_edge_lists::{EdgeList, EdgeListError};
use pf_node_refs::NodeRefs;
use pf_table_breadth::bfs;
use pf_tables::{Rows, dijkstra};
use std::alloc::Global;
use std::process::Abort;
use test_allocator::Refusing;

/// A call that takes memory.
#[derive(Clone, Copy)]
enum Call {
    /// A search over edges in a list.
    Search(Search),
    /// `dijkstra` over a table.
    CheapestInTable,
    /// `bfs` over a table.
    FewestInTable,
    /// A list of edges, and what it tells of names.
    EdgeList,
    /// The same of a list of names and edges.
    WithNames,
    /// A cheapest way by name.
    CheapestByName,
    /// A way with fewest edges by name.
    FewestByName,
    /// The same to a name that stands in no edge, from that name.
    AloneByName,
    /// A set of one node, and a clone of it.
    SetOfOne,
    /// A set of many nodes, and a clone of it.
    SetOfMany,
}

/// A search over edges in a list.
#[derive(Clone, Copy)]
enum Search {
    /// `dijkstra`.
    Cheapest,
    /// `bfs`.
    Fewest,
    /// `iddfs`.
    Deepened,
    /// `bfs_bidirectional`.
    BothEnds,
    /// `bfs_loop`.
    Loop,
}

/// Each call by its name, and how many growths it makes at the least.
const CALLS: &[(&str, Call, u64)] = &[
    ("dijkstra", Call::Search(Search::Cheapest), 3),
    ("bfs", Call::Search(Search::Fewest), 3),
    ("iddfs", Call::Search(Search::Deepened), 3),
    ("bfs_bidirectional", Call::Search(Search::BothEnds), 3),
    ("bfs_loop", Call::Search(Search::Loop), 3),
    ("graphs::dijkstra", Call::CheapestInTable, 3),
    ("graphs::bfs", Call::FewestInTable, 3),
    ("EdgeList::new", Call::EdgeList, 7),
    ("EdgeList::with_names", Call::WithNames, 7),
    ("EdgeList::dijkstra", Call::CheapestByName, 3),
    ("EdgeList::bfs", Call::FewestByName, 3),
    ("EdgeList::bfs of a name alone", Call::AloneByName, 1),
    ("NodeRefs::from_one", Call::SetOfOne, 1),
    ("NodeRefs::from_nodes", Call::SetOfMany, 3),
];

/// What the calls are asked about, in ample memory.
#[derive(Drop)]
struct Asked<'a> {
    /// The node 1.
    starts: NodeRefs<'a, u8>,
    /// The node 6.
    ends: NodeRefs<'a, u8>,
    /// The table `ROWS`.
    rows: Rows<'a, &'a [(usize, u32)], u32>,
    /// The list `ROADS`.
    roads: EdgeList<'a, char, u32>,
}

/// A way round, a shorter one, a ring that leads back, and nodes that lead nowhere.
const RINGED: &[(u8, u8)] = &[
    (1, 7),
    (1, 8),
    (1, 9),
    (1, 10),
    (1, 11),
    (1, 12),
    (1, 13),
    (1, 14),
    (1, 15),
    (1, 2),
    (2, 3),
    (3, 1),
    (3, 4),
    (1, 5),
    (5, 4),
    (4, 6),
];

/// The same edges with costs, by which the way round is cheaper.
const PRICED: &[(u8, u8, u32)] = &[
    (1, 7, 1),
    (1, 8, 1),
    (1, 9, 1),
    (1, 10, 1),
    (1, 11, 1),
    (1, 12, 1),
    (1, 13, 1),
    (1, 14, 1),
    (1, 15, 1),
    (1, 2, 1),
    (2, 3, 1),
    (3, 1, 1),
    (3, 4, 1),
    (1, 5, 9),
    (5, 4, 9),
    (4, 6, 1),
];

/// How a search over edges in a list ended.
fn search_outcome(
    heap: Heap<'_>,
    starts: &NodeRefs<'_, u8>,
    ends: &NodeRefs<'_, u8>,
    search: Search,
) -> Outcome {
    let short: Option<&[u8]> = Some(&[1, 5, 4, 6]);
    match search {
        Search::Cheapest => cheapest_outcome(
            cheapest_in_list(heap, PRICED, 1, 6),
            Some((&[1, 2, 3, 4, 6], 4)),
        ),
        Search::Fewest => path_outcome(fewest_in_pairs(heap, RINGED, starts, &[6]), short),
        Search::Deepened => path_outcome(deepened_in_pairs(heap, RINGED, 1, 6), short),
        Search::BothEnds => path_outcome(
            fewest_between_in_pairs(heap, RINGED, starts, ends),
            short,
        ),
        Search::Loop => path_outcome(loop_in_pairs(heap, RINGED, starts), Some(&[1, 2, 3, 1])),
    }
}

/// How the making of names from the list `ROADS` ended.
fn names_outcome(heap: Heap<'_>, list: &EdgeList<'_, char, u32, Heap<'_>>) -> Outcome {
    match list.names_of(heap, &[4, 0]) {
        Ok(Some(names)) => Outcome::of_answer(names.as_slice() == [&'e', &'a'].as_slice()),
        Ok(None) => Outcome::Wrong,
        Err(refusal) => Outcome::of_refusal(refusal),
    }
}

/// How the making of a list ended, and of names from it.
fn list_outcome<'h>(
    heap: Heap<'h>,
    made: Result<EdgeList<'_, char, u32, Heap<'h>>, EdgeListError>,
) -> Outcome {
    match &made {
        Ok(list) => names_outcome(heap, list),
        Err(EdgeListError::OutOfMemory) => Outcome::OutOfMemory,
        Err(_) => Outcome::Wrong,
    }
}

/// Numbers, more than a set has room for at first.
const MANY: &[u32] = &[
    0, 1, 2, 3, 4, 5, 6, 7, 8, 9, 10, 11, 12, 13, 14, 15, 16, 17, 18, 19,
];

/// How the clone of a set of so many nodes ended.
fn copy_outcome(set: &NodeRefs<'_, u32, Heap<'_>>, count: usize) -> Outcome {
    match set.clone() {
        Ok(copy) => Outcome::of_answer(copy == *set && set.len() == count),
        Err(_) => Outcome::OutOfMemory,
    }
}

/// How the making of a set of so many nodes ended, and of a clone of it.
fn set_outcome(made: Result<NodeRefs<'_, u32, Heap<'_>>, PathError>, count: usize) -> Outcome {
    match made {
        Ok(set) => copy_outcome(&set, count),
        Err(refusal) => Outcome::of_refusal(refusal),
    }
}

/// How a call ended. What it is asked about lies in ample memory.
fn outcome_of(heap: Heap<'_>, asked: &Asked<'_>, call: Call) -> Outcome {
    match call {
        Call::Search(search) => search_outcome(heap, &asked.starts, &asked.ends, search),
        Call::CheapestInTable => cheapest_outcome(
            dijkstra(heap, &asked.rows, 0, 4),
            Some((&[0, 1, 3, 4], 11)),
        ),
        Call::FewestInTable => path_outcome(bfs(heap, &asked.rows, 0, 4), Some(&[0, 2, 4])),
        Call::EdgeList => list_outcome(heap, EdgeList::new(heap, ROADS)),
        Call::WithNames => list_outcome(heap, EdgeList::with_names(heap, PLACES, ROADS)),
        Call::CheapestByName => {
            cheapest_way_outcome(
                asked.roads.dijkstra(heap, &'a', &'e'),
                &['a', 'b', 'd', 'e'],
                11,
            )
        }
        Call::FewestByName => way_outcome(asked.roads.bfs(heap, &'a', &'e'), &['a', 'c', 'e']),
        Call::AloneByName => way_outcome(asked.roads.bfs(heap, &'z', &'z'), &['z']),
        Call::SetOfOne => set_outcome(NodeRefs::from_one(heap, &7), 1),
        Call::SetOfMany => set_outcome(NodeRefs::from_nodes(heap, MANY), MANY.len()),
    }
}

/// Runs a call with growth 0, 1, 2, .. refused alone, until a run meets no refusal, and answers how
/// many growths that run made. Each run before it has to answer out of memory.
fn refuse_each_growth(
    rt: &impl Abort,
    ample: Global,
    asked: &Asked<'_>,
    name: &str,
    call: Call,
) -> u64 {
    for growth in 0..100_000u64 {
        let heap = Refusing::new(ample);
        heap.refuse(growth, 1);
        let outcome = outcome_of(&heap, asked, call);
        let is_refused = heap.pending() == 0;
        let want = if is_refused {
            Outcome::OutOfMemory
        } else {
            Outcome::Right
        };
        assert!(rt; outcome == want, "{name}, growth {growth}");
        if !is_refused {
            return growth;
        }
    }
    panic!(rt; "every run met a refusal")
}

/// What the calls are asked about.
fn all_asked(rt: &impl Abort, ample: Global) -> Asked<'static> {
    Asked {
        starts: NodeRefs::from_one(ample, &1).expect(rt, "memory"),
        ends: NodeRefs::from_one(ample, &6).expect(rt, "memory"),
        rows: Rows::new(ROWS).expect(rt, "a graph"),
        roads: EdgeList::new(ample, ROADS).expect(rt, "memory"),
    }
}

#[test]
fn calls_refuse_each_growth(rt: HostRuntime) {
    let asked = all_asked(&rt, rt.alloc());
    for (name, call, least) in CALLS {
        let growths = refuse_each_growth(&rt, rt.alloc(), &asked, name, *call);
        assert!(rt; growths >= *least, "{name} makes {growths} growths");
    }
}

/// How a command over the seven edges ended, for which `answer` is written.
fn run_outcome(heap: Heap<'_>, ample: Global, command: &Command, answer: &[u8]) -> Outcome {
    match ended(heap, ample, command, SEVEN, answer) {
        Ok(is_right) => Outcome::of_answer(is_right),
        Err(RouteError::OutOfMemory) => Outcome::OutOfMemory,
        Err(_) => Outcome::Wrong,
    }
}

/// The same for a command over the seven edges, for which `answer` is written.
fn refuse_each_growth_of_run(
    rt: &impl Abort,
    ample: Global,
    command: &Command,
    answer: &[u8],
) -> u64 {
    for growth in 0..100_000u64 {
        let heap = Refusing::new(ample);
        heap.refuse(growth, 1);
        let outcome = run_outcome(&heap, ample, command, answer);
        if heap.pending() > 0 {
            assert!(rt; outcome == Outcome::Right, "with no refusal");
            return growth;
        }
        assert!(rt; outcome == Outcome::OutOfMemory, "growth {growth}");
    }
    panic!(rt; "every run met a refusal")
}

#[test]
fn run_refuses_each_growth(rt: HostRuntime) {
    for (line, answer) in SEVEN_ANSWERS {
        let command = spelled(rt.alloc(), line).expect(&rt, "a command");
        let growths = refuse_each_growth_of_run(&rt, rt.alloc(), &command, answer);
        assert!(rt; growths > 1, "{line}");
    }
}
