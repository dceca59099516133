//! Searches over states at a concrete type, with ample memory and with each growth refused in turn.

ghost use Rattle.std.specs.Prelude.{IfOk};

use crate::counts::{Count, Counting};
use crate::fewest::Heap;
use crate::tests::answers::Outcome;
use pathfinding::directed::dijkstra::{DijkstraReachableItem, Parents};
use pathfinding::error::PathError;
use pathfinding::states::{
    bfs, bfs_loop, bfs_reach, dfs, dfs_reach, dijkstra, dijkstra_all, dijkstra_partial,
    dijkstra_reach, iddfs,
};
use std::alloc::Global;
use std::process::Abort;
use test_allocator::Refusing;

/// A call over the counts from 1 on.
#[derive(Clone, Copy)]
enum Call {
    /// `bfs` to 8.
    Fewest,
    /// `bfs_loop`.
    Loop,
    /// `dfs` to 8.
    Depth,
    /// `iddfs` to 8.
    Deepened,
    /// `dijkstra` to 8.
    Cheapest,
    /// `dijkstra_all`.
    Parents,
    /// `dijkstra_partial` up to 8.
    PartOfParents,
    /// `bfs_reach`.
    BreadthWalk,
    /// `dfs_reach`.
    Preorder,
    /// `dijkstra_reach`.
    RisingWalk,
}

/// Each call by its name, and how many growths it makes at the least.
const CALLS: &[(&str, Call, u64)] = &[
    ("bfs", Call::Fewest, 3),
    ("bfs_loop", Call::Loop, 3),
    ("dfs", Call::Depth, 3),
    ("iddfs", Call::Deepened, 1),
    ("dijkstra", Call::Cheapest, 3),
    ("dijkstra_all", Call::Parents, 4),
    ("dijkstra_partial", Call::PartOfParents, 4),
    ("bfs_reach", Call::BreadthWalk, 2),
    ("dfs_reach", Call::Preorder, 2),
    ("dijkstra_reach", Call::RisingWalk, 3),
];

/// Whether these counts have these numbers.
fn are_numbered(counts: &[Count], numbers: &[u8]) -> bool {
    if counts.len() != numbers.len() {
        return false;
    }
    for (count, number) in counts.iter().zip(numbers) {
        if count.number != *number {
            return false;
        }
    }
    true
}

/// How a search ended that has to answer the counts of these numbers.
fn path_outcome(
    answer: Result<Option<Vec<Count, Heap<'_>>>, PathError>,
    numbers: &[u8],
) -> Outcome {
    match answer {
        Ok(Some(path)) => Outcome::of_answer(are_numbered(&path, numbers)),
        Ok(None) => Outcome::Wrong,
        Err(refusal) => Outcome::of_refusal(refusal),
    }
}

/// How a search ended that has to answer the counts of these numbers at this cost.
fn cheapest_outcome(
    answer: Result<Option<(Vec<Count, Heap<'_>>, u32)>, PathError>,
    numbers: &[u8],
    cost: u32,
) -> Outcome {
    match answer {
        Ok(Some((path, sum))) => Outcome::of_answer(sum == cost && are_numbered(&path, numbers)),
        Ok(None) => Outcome::Wrong,
        Err(refusal) => Outcome::of_refusal(refusal),
    }
}

/// Whether a map of parents leads to 8 from 4 at a cost of 11, as the cheapest path does.
fn leads_to_eight(parents: &Parents<Count, u32, Heap<'_>>) -> bool {
    parents.get(&Count { number: 8 }) == Some(&(Count { number: 4 }, 11))
}

/// How a search for the parents of all counts ended.
fn parents_outcome(answer: Result<Parents<Count, u32, Heap<'_>>, PathError>) -> Outcome {
    match answer {
        Ok(parents) => Outcome::of_answer(parents.len() == 8 && leads_to_eight(&parents)),
        Err(refusal) => Outcome::of_refusal(refusal),
    }
}

/// How a search for the parents up to 8 ended.
fn part_outcome(
    answer: Result<(Parents<Count, u32, Heap<'_>>, Option<Count>), PathError>,
) -> Outcome {
    match answer {
        Ok((parents, goal)) => {
            let is_goal = matches!(goal, Some(count) if count.number == 8);
            Outcome::of_answer(is_goal && leads_to_eight(&parents))
        }
        Err(refusal) => Outcome::of_refusal(refusal),
    }
}

/// Whether a walk gives the counts of these numbers, and no others.
fn gives<W>(walk: Result<W, PathError>, numbers: &[u8]) -> Result<bool, PathError>
where
    W: Iterator<Item = Result<Count, PathError>>,
    requires { IfOk walk (λ w. W.can_next w) }
{
    let mut wanted = numbers.iter();
    for count in walk?.take(100) {
        if wanted.next() != Some(&count?.number) {
            return Ok(false);
        }
    }
    Ok(wanted.next().is_none())
}

/// How many counts a walk by rising cost gives, and the sum of their costs.
fn totals<W>(walk: Result<W, PathError>) -> Result<(u32, u32), PathError>
where
    W: Iterator<Item = Result<DijkstraReachableItem<Count, u32>, PathError>>,
    requires { IfOk walk (λ w. W.can_next w) }
{
    let mut count = 0u32;
    let mut sum = 0u32;
    for item in walk?.take(100) {
        count = count.saturating_add(1);
        sum = sum.saturating_add(item?.total_cost);
    }
    Ok((count, sum))
}

/// How a walk ended whose answer was read.
fn walk_outcome(answer: Result<bool, PathError>) -> Outcome {
    match answer {
        Ok(is_right) => Outcome::of_answer(is_right),
        Err(refusal) => Outcome::of_refusal(refusal),
    }
}

/// How a walk ended whose counts and costs were added up.
fn totals_outcome(answer: Result<(u32, u32), PathError>) -> Outcome {
    match answer {
        Ok(totals) => Outcome::of_answer(totals == (9, 64)),
        Err(refusal) => Outcome::of_refusal(refusal),
    }
}

/// How a call ended.
fn outcome_of(heap: Heap<'_>, call: Call) -> Outcome {
    let one = Count { number: 1 };
    let eight = Count { number: 8 };
    match call {
        Call::Fewest => path_outcome(bfs(heap, &Counting, &one, &eight), &[1, 2, 4, 8]),
        Call::Loop => path_outcome(bfs_loop(heap, &Counting, &one), &[1, 2, 4, 8, 9, 1]),
        Call::Depth => path_outcome(
            dfs(heap, &Counting, &one, &eight),
            &[1, 2, 3, 4, 5, 6, 7, 8],
        ),
        Call::Deepened => path_outcome(iddfs(heap, &Counting, &one, &eight), &[1, 2, 4, 8]),
        Call::Cheapest => cheapest_outcome(
            dijkstra(heap, &Counting, &one, &eight),
            &[1, 2, 3, 4, 8],
            11,
        ),
        Call::Parents => parents_outcome(dijkstra_all(heap, &Counting, &one)),
        Call::PartOfParents => part_outcome(dijkstra_partial(heap, &Counting, &one, &eight)),
        Call::BreadthWalk => walk_outcome(gives(
            bfs_reach(heap, &Counting, &one),
            &[1, 2, 3, 4, 6, 5, 8, 7, 9],
        )),
        Call::Preorder => walk_outcome(gives(
            dfs_reach(heap, &Counting, &one),
            &[1, 2, 3, 4, 5, 6, 7, 8, 9],
        )),
        Call::RisingWalk => totals_outcome(totals(dijkstra_reach(heap, &Counting, &one))),
    }
}

/// Runs a call with growth 0, 1, 2, .. refused alone, until a run meets no refusal, and answers how
/// many growths that run made. Each run before it has to answer out of memory.
fn refuse_each_growth(rt: &impl Abort, ample: Global, name: &str, call: Call) -> u64 {
    for growth in 0..1_000u64 {
        let heap = Refusing::new(ample);
        heap.refuse(growth, 1);
        let outcome = outcome_of(&heap, call);
        if heap.pending() > 0 {
            assert!(rt; outcome == Outcome::Right, "{name}");
            return growth;
        }
        assert!(rt; outcome == Outcome::OutOfMemory, "{name}, growth {growth}");
    }
    panic!(rt; "every run met a refusal")
}

#[test]
fn calls_answer_and_refuse_each_growth(rt: HostRuntime) {
    for (name, call, least) in CALLS {
        let growths = refuse_each_growth(&rt, rt.alloc(), name, *call);
        assert!(rt; growths >= *least, "{name} makes {growths} growths");
    }
}
