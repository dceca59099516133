//! The worked paths, each growth refused in turn, and small graphs against the plain program.

use crate::yen::listed::{Searches, Steps, Told, place_of, search_list};
use crate::yen::plain::{Edge, Path, clean_paths};
use pf_base::PathError;
use std::alloc::{AllocError, Global};
use std::process::Abort;
use test_allocator::Refusing;

/// A list of edges, and what is to be answered from 0.
struct Row<'a> {
    edges: &'a [Edge],
    goals: (usize, usize),
    /// What the calls of `next` tell: a cost, a refusal or `None`.
    told: &'a [Option<Result<u8, PathError>>],
    /// How many paths are asked for.
    k: usize,
    /// How many are gathered, or why none are.
    gathered: Result<usize, PathError>,
    /// Those of them that are not open, with their costs.
    paths: &'a [(&'a [usize], u8)],
}

/// Five clean paths from 0 to 5, two of which cost the same.
const FIVE_PATHS: &[Edge] = &[
    (0, 1, 1),
    (0, 2, 2),
    (1, 3, 1),
    (1, 4, 1),
    (3, 5, 1),
    (3, 6, 4),
    (6, 5, 4),
    (2, 5, 2),
    (4, 5, 2),
    (4, 7, 1),
    (7, 5, 2),
];

/// Two edges lead from 1 to 2.
const PARALLEL: &[Edge] = &[(0, 1, 1), (1, 3, 1), (1, 2, 1), (1, 2, 3), (2, 3, 1)];

/// Three of the clean paths from 0 to 5 cost 8.
const ROADS: &[Edge] = &[
    (0, 1, 3),
    (0, 2, 2),
    (1, 3, 4),
    (2, 1, 1),
    (2, 3, 2),
    (2, 4, 3),
    (3, 4, 2),
    (3, 5, 1),
    (4, 5, 2),
];

/// The way from 0 to 1 over 2 costs more than fits.
const DEAR: &[Edge] = &[(0, 1, 1), (0, 2, 200), (2, 1, 100)];

/// The way from 0 to 1 over 3 costs more than fits, and leaves the second path.
const DEAR_BEHIND: &[Edge] = &[(0, 1, 1), (0, 2, 2), (2, 1, 0), (2, 3, 200), (3, 1, 100)];

/// A cycle that the goal 6 is not behind.
const CYCLE: &[Edge] = &[
    (0, 1, 3),
    (0, 2, 2),
    (1, 3, 4),
    (2, 1, 1),
    (2, 3, 2),
    (2, 4, 3),
    (3, 4, 2),
    (3, 1, 1),
    (4, 2, 2),
];

/// One step from 0 to 5, and a way of four steps more.
const LONGER: &[Edge] = &[
    (0, 1, 1),
    (0, 5, 1),
    (1, 2, 1),
    (2, 3, 1),
    (3, 4, 1),
    (3, 5, 1),
    (4, 5, 1),
];

/// Two nodes between 0 and 3, each of which leads to the other.
const BETWEEN: &[Edge] = &[
    (0, 1, 1),
    (0, 2, 1),
    (0, 3, 1),
    (1, 2, 1),
    (1, 3, 1),
    (2, 1, 1),
    (2, 3, 1),
];

/// Two ways from 0 to 3 that cost the same.
const EQUAL: &[Edge] = &[(0, 1, 1), (0, 2, 1), (1, 3, 1), (2, 3, 1)];

/// The worked paths.
static ROWS: [Row<'static>; 14] = [
    Row {
        edges: FIVE_PATHS,
        goals: (5, 5),
        told: &[
            Some(Ok(3)),
            Some(Ok(4)),
            Some(Ok(4)),
            Some(Ok(5)),
            Some(Ok(10)),
            None,
            None,
        ],
        k: 4,
        gathered: Ok(4),
        paths: &[
            (&[0, 1, 3, 5], 3),
            (&[0, 2, 5], 4),
            (&[0, 1, 4, 5], 4),
            (&[0, 1, 4, 7, 5], 5),
        ],
    },
    Row {
        edges: PARALLEL,
        goals: (3, 3),
        told: &[Some(Ok(2))],
        k: 2,
        gathered: Ok(2),
        paths: &[(&[0, 1, 3], 2), (&[0, 1, 2, 3], 3)],
    },
    Row {
        edges: PARALLEL,
        goals: (3, 3),
        told: &[Some(Ok(2)), Some(Ok(3)), None],
        k: 3,
        gathered: Ok(2),
        paths: &[(&[0, 1, 3], 2), (&[0, 1, 2, 3], 3)],
    },
    Row {
        edges: PARALLEL,
        goals: (3, 3),
        told: &[],
        k: 0,
        gathered: Ok(0),
        paths: &[],
    },
    Row {
        edges: ROADS,
        goals: (5, 5),
        told: &[
            Some(Ok(5)),
            Some(Ok(7)),
            Some(Ok(8)),
            Some(Ok(8)),
            Some(Ok(8)),
            Some(Ok(11)),
            Some(Ok(11)),
            None,
        ],
        k: 3,
        gathered: Ok(3),
        paths: &[(&[0, 2, 3, 5], 5), (&[0, 2, 4, 5], 7)],
    },
    Row {
        edges: FIVE_PATHS,
        goals: (5, 0),
        told: &[Some(Ok(0)), None],
        k: 4,
        gathered: Ok(1),
        paths: &[(&[0], 0)],
    },
    Row {
        edges: CYCLE,
        goals: (6, 6),
        told: &[None],
        k: 2,
        gathered: Ok(0),
        paths: &[],
    },
    Row {
        edges: &[(0, 0, 1)],
        goals: (0, 0),
        told: &[Some(Ok(0)), None],
        k: 2,
        gathered: Ok(1),
        paths: &[(&[0], 0)],
    },
    Row {
        edges: LONGER,
        goals: (5, 5),
        told: &[Some(Ok(1)), Some(Ok(4)), Some(Ok(5)), None],
        k: 3,
        gathered: Ok(3),
        paths: &[
            (&[0, 5], 1),
            (&[0, 1, 2, 3, 5], 4),
            (&[0, 1, 2, 3, 4, 5], 5),
        ],
    },
    Row {
        edges: BETWEEN,
        goals: (3, 3),
        told: &[Some(Ok(1))],
        k: usize::MAX,
        gathered: Ok(5),
        paths: &[
            (&[0, 3], 1),
            (&[0, 1, 3], 2),
            (&[0, 2, 3], 2),
            (&[0, 1, 2, 3], 3),
            (&[0, 2, 1, 3], 3),
        ],
    },
    Row {
        edges: EQUAL,
        goals: (3, 3),
        told: &[Some(Ok(2)), Some(Ok(2)), None],
        k: 2,
        gathered: Ok(2),
        paths: &[(&[0, 1, 3], 2), (&[0, 2, 3], 2)],
    },
    Row {
        edges: DEAR,
        goals: (1, 1),
        told: &[
            Some(Ok(1)),
            Some(Err(PathError::CostOverflow)),
            None,
            Some(Err(PathError::CostOverflow)),
            None,
        ],
        k: 1,
        gathered: Ok(1),
        paths: &[(&[0, 1], 1)],
    },
    Row {
        edges: DEAR,
        goals: (1, 1),
        told: &[Some(Ok(1))],
        k: 2,
        gathered: Err(PathError::CostOverflow),
        paths: &[],
    },
    // The second path is given before what leaves it is searched.
    Row {
        edges: DEAR_BEHIND,
        goals: (1, 1),
        told: &[
            Some(Ok(1)),
            Some(Ok(2)),
            Some(Err(PathError::CostOverflow)),
            None,
            Some(Err(PathError::CostOverflow)),
        ],
        k: 2,
        gathered: Ok(2),
        paths: &[(&[0, 1], 1), (&[0, 2, 1], 2)],
    },
];

/// What the path at a place costs.
fn cost_at(all: &[Path], place: usize) -> Option<u8> {
    match all.get(place) {
        Some(path) => Some(path.cost),
        None => None,
    }
}

/// How many paths are told, if each of them stands in the list of all, none comes twice, and none that
/// is left out costs less than one of them.
fn count_of(steps: &Steps, all: &[Path]) -> Option<usize> {
    let mut is_told = [false; 8];
    let mut count = 0usize;
    for step in steps {
        if let Some(Ok(place)) = step {
            let cost = cost_at(all, *place);
            if cost.is_none() || cost != cost_at(all, count) || *place >= 8 || is_told[*place] {
                return None;
            }
            is_told[*place] = true;
            count = count.saturating_add(1);
        }
    }
    Some(count)
}

/// Whether so many paths are gathered, the cheapest, and those of one cost by rising number of nodes.
fn are_gathered(steps: &Steps, count: usize, all: &[Path]) -> bool {
    let (mut cost, mut length) = (0u8, 0usize);
    for step in steps {
        if let Some(Ok(place)) = step
            && let Some(path) = all.get(*place)
        {
            if path.cost == cost && path.length < length {
                return false;
            }
            (cost, length) = (path.cost, path.length);
        }
    }
    count_of(steps, all) == Some(count)
}

/// What a call of `next` tells, with the cost of its path.
fn cost_of(step: Told, all: &[Path]) -> Option<Result<u8, PathError>> {
    match step? {
        Ok(place) => Some(Ok(cost_at(all, place)?)),
        Err(refusal) => Some(Err(refusal)),
    }
}

/// Whether the calls of `next` tell what the row says, as far as it says it.
fn are_told(steps: &Steps, row: &Row<'_>, all: &[Path]) -> bool {
    for (call, told) in row.told.iter().enumerate() {
        if call >= 8 || cost_of(steps[call], all) != *told {
            return false;
        }
    }
    count_of(steps, all).is_some()
}

/// Whether the paths of the row are among the gathered ones.
fn have_paths(steps: &Steps, row: &Row<'_>, all: &[Path]) -> bool {
    for (nodes, cost) in row.paths {
        if !steps.contains(&Some(Ok(place_of(nodes, *cost, all)))) {
            return false;
        }
    }
    true
}

/// Whether what the searches answer is what the row says.
fn are_answers(searches: Searches, row: &Row<'_>, all: &[Path]) -> bool {
    let (walked, gathered) = searches;
    let is_walked = match walked {
        Ok(steps) => are_told(&steps, row, all),
        Err(_) => false,
    };
    let is_gathered = match (gathered, row.gathered) {
        (Ok(steps), Ok(count)) => are_gathered(&steps, count, all) && have_paths(&steps, row, all),
        (Err(refusal), Err(wanted)) => refusal == wanted,
        _ => false,
    };
    is_walked && is_gathered
}

/// Whether the searches answer what the row says.
fn is_answered(ample: Global, row: &Row<'_>) -> bool {
    match clean_paths(ample, row.edges, row.goals) {
        Ok(all) => {
            let heap = Refusing::new(ample);
            let searches = search_list(&heap, row.edges, row.goals, row.k, &all);
            are_answers(searches, row, &all)
        }
        Err(_) => false,
    }
}

#[test]
fn searches_answer_the_worked_paths(rt: HostRuntime) {
    for (number, row) in ROWS.iter().enumerate() {
        assert!(rt; is_answered(rt.alloc(), row), "row {number}");
    }
}

/// How many refusals for want of memory a walk tells that gives all paths all the same and then none.
fn refusals_in(steps: &Steps, all: &[Path]) -> Option<u64> {
    let mut refusals = 0u64;
    for step in steps {
        if *step == Some(Err(PathError::OutOfMemory)) {
            refusals = refusals.saturating_add(1);
        }
    }
    if count_of(steps, all) == Some(all.len()) && steps[7].is_none() {
        Some(refusals)
    } else {
        None
    }
}

/// How many refusals for want of memory the two searches tell, if all else that they answer is right.
fn refusals_of(searches: Searches, all: &[Path]) -> Option<u64> {
    let (walked, gathered) = searches;
    let told = match walked {
        Ok(steps) => refusals_in(&steps, all)?,
        Err(PathError::OutOfMemory) => 1,
        Err(_) => return None,
    };
    let is_gathered = match gathered {
        Ok(steps) => are_gathered(&steps, 4, all),
        Err(PathError::OutOfMemory) => return told.checked_add(1),
        Err(_) => false,
    };
    if is_gathered { Some(told) } else { None }
}

/// How many growths the searches make, if just one refusal is told where one of these alone is refused,
/// and none where none is.
fn growths_of(ample: Global, all: &[Path]) -> Option<u64> {
    for growth in 0..1_000u64 {
        let heap = Refusing::new(ample);
        heap.refuse(growth, 1);
        let told = refusals_of(search_list(&heap, FIVE_PATHS, (5, 5), 4, all), all);
        if heap.pending() > 0 {
            return if told == Some(0) { Some(growth) } else { None };
        }
        if told != Some(1) {
            return None;
        }
    }
    None
}

#[test]
fn searches_refuse_each_growth(rt: HostRuntime) {
    let all = clean_paths(rt.alloc(), FIVE_PATHS, (5, 5)).expect(&rt, "memory for paths");
    let growths = growths_of(rt.alloc(), &all);
    assert!(rt; matches!(growths, Some(41..)), "{growths:?}");
}

/// The pairs of nodes, at first those whose edges can lie on a clean path from 0 to 3.
static PAIRS: [(usize, usize); 16] = [
    (0, 1),
    (0, 2),
    (0, 3),
    (1, 2),
    (1, 3),
    (2, 1),
    (2, 3),
    (0, 0),
    (1, 0),
    (1, 1),
    (2, 0),
    (2, 2),
    (3, 0),
    (3, 1),
    (3, 2),
    (3, 3),
];

/// The edges of a set, which is given by its bits: three for each pair, one for each cost.
fn edges_in(alloc: Global, set: u64) -> Result<Vec<Edge>, AllocError> {
    let mut edges = Vec::new(alloc);
    for number in 0..48usize {
        if (set >> number) & 1 == 1 {
            let (from, to) = PAIRS[number / 3];
            edges.push((from, to, (number % 3) as u8))?;
        }
    }
    Ok(edges)
}

/// Whether the walk gives all clean paths and then none, and the other search the first `k` of them.
fn are_all(searches: Searches, k: usize, all: &[Path]) -> bool {
    match searches {
        (Ok(steps), Ok(gathered)) => {
            count_of(&steps, all) == Some(all.len())
                && steps.get(all.len()) == Some(&None)
                && are_gathered(&gathered, all.len().min(k), all)
        }
        _ => false,
    }
}

/// Whether the searches from 0 answer what the plain program does.
fn agree(ample: Global, edges: &[Edge], goals: (usize, usize)) -> bool {
    match clean_paths(ample, edges, goals) {
        Ok(all) => {
            let heap = Refusing::new(ample);
            let k = edges.len() / 2;
            are_all(search_list(&heap, edges, goals, k, &all), k, &all)
        }
        Err(_) => false,
    }
}

/// The same in a set of edges.
fn agree_in(ample: Global, set: u64, goals: (usize, usize)) -> bool {
    match edges_in(ample, set) {
        Ok(edges) => agree(ample, &edges, goals),
        Err(_) => false,
    }
}

/// All sets of at most six of the 21 edges that can lie on a clean path from 0 to 3.
#[test]
fn graphs_of_edges_on_paths_agree(rt: HostRuntime) {
    let mut graphs = 0u32;
    for set in 0..1u64 << 21 {
        if set.count_ones() <= 6 {
            for goal in [1, 3] {
                assert!(rt; agree_in(rt.alloc(), set, (3, goal)), "set {set}, {goal}");
            }
            graphs = graphs.saturating_add(1);
        }
    }
    assert!(rt; graphs == 82_160);
}

/// The set of at most six edges whose numbers are digits of `code` to the base 48.
fn set_of(code: u64) -> u64 {
    let mut set = 0u64;
    let mut rest = code;
    for _ in 0..6 {
        set |= 1u64 << (rest % 48);
        rest /= 48;
    }
    set
}

/// Sets of at most six of all 48 edges, in even steps through the lists of six: edges to the start,
/// from a goal and from a node to itself are among them.
#[test]
fn graphs_of_any_edges_agree(rt: HostRuntime) {
    for graph in 0..17_000u64 {
        let set = set_of(graph * 719_503);
        assert!(rt; agree_in(rt.alloc(), set, (3, 2)), "set {set}");
    }
}
