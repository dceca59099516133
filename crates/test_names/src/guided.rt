//! Searches from both ends, and searches that estimates lead.

use crate::answers::{Call, Heap, Places, ROUND, are_places, is_path};
use crate::walks::Seen;
use pf_adjacency::BothWays;
use pf_base::PathError;
use pf_edge_lists::EdgeList;
use pf_name_both_ends::{bfs_bidirectional, dijkstra_bidirectional};
use pf_name_estimates::{
    NameEstimateError, NameEstimates, astar, astar_bag, astar_bag_collect, fringe, idastar,
};
use std::alloc::{AllocError, Global};

/// At most what remains from a place to `c`: the last number for `a` counts, and `z` stands nowhere.
const REMAINING: &[(&str, u32)] = &[("a", 9), ("b", 5), ("d", 4), ("z", 70), ("a", 6)];

/// Estimates over such a heap.
type Guides<'l, 'h> = NameEstimates<'l, 'static, &'static str, u32, Heap<'h>, Heap<'h>>;

/// Whether the answer is the cheapest path from `a` to `c`.
fn is_cheapest(
    found: Result<Option<(Vec<&&str, Heap<'_>>, u32)>, PathError>,
) -> Result<bool, PathError> {
    let found = found?;
    Ok(matches!(&found, Some((places, 6)) if are_places(places, &["a", "b", "c"])))
}

/// Whether the answer is the cheapest path from `a` to `c`, which is the only one.
fn is_only_cheapest(
    found: Result<Option<(Vec<Vec<&&str, Heap<'_>>, Heap<'_>>, u32)>, PathError>,
) -> Result<bool, PathError> {
    let found = found?;
    let Some((paths, 6)) = &found else {
        return Ok(false);
    };
    let is_first = matches!(paths.first(), Some(places) if are_places(places, &["a", "b", "c"]));
    Ok(paths.len() == 1 && is_first)
}

/// Whether the cheapest path alone comes of a clone, also behind a step that is refused.
fn is_only_way<'h>(heap: Heap<'h>, estimates: &Guides<'_, 'h>) -> Result<bool, PathError> {
    let Some((made, cost)) = astar_bag(heap, estimates, &"a")? else {
        return Ok(false);
    };
    let mut paths = made.clone()?;
    let mut seen = Seen::new(&["b"]);
    for _ in 0..2 {
        for step in paths.by_ref() {
            match &step {
                Ok(path) => {
                    if let Some(place) = path.get(1) {
                        seen.note(Ok(**place));
                    }
                }
                Err(refusal) => seen.note(Err(*refusal)),
            }
        }
        paths.resume();
    }
    Ok(seen.answer()? && cost == 6)
}

/// Whether a search from both ends answers the only right answer.
pub fn is_met<'h>(heap: Heap<'h>, places: &Places<'_, 'h>, call: Call) -> Result<bool, PathError> {
    let both = BothWays::new(heap, places)?;
    match call {
        Call::Levels => is_path(bfs_bidirectional(heap, &both, &"a", &"d"), &["a", "b", "d"]),
        _ => is_cheapest(dijkstra_bidirectional(heap, &both, &"a", &"c")),
    }
}

/// Whether a search by these estimates answers the only right answer.
fn is_led<'h>(heap: Heap<'h>, estimates: &Guides<'_, 'h>, call: Call) -> Result<bool, PathError> {
    match call {
        Call::Estimated => is_cheapest(astar(heap, estimates, &"a")),
        Call::Fringe => is_cheapest(fringe(heap, estimates, &"a")),
        Call::EstimatedDepth => is_cheapest(idastar(heap, estimates, &"a")),
        Call::EstimatedWays => is_only_way(heap, estimates),
        _ => is_only_cheapest(astar_bag_collect(heap, estimates, &"a")),
    }
}

/// Whether a search that estimates lead answers the only right answer.
pub fn is_guided<'h>(
    heap: Heap<'h>,
    places: &Places<'static, 'h>,
    call: Call,
) -> Result<bool, PathError> {
    match &NameEstimates::new(heap, places, &"c", REMAINING) {
        Ok(estimates) => is_led(heap, estimates, call),
        Err(NameEstimateError::OutOfMemory) => Err(PathError::OutOfMemory),
        Err(_) => Ok(false),
    }
}

/// Whether searches from both ends answer that a name that stands nowhere is a node without edges.
pub fn are_met_alone(heap: Heap<'_>, round: &Places<'_, '_>) -> Result<bool, PathError> {
    let both = BothWays::new(heap, round)?;
    let itself = dijkstra_bidirectional(heap, &both, &"z", &"z")?;
    let is_itself = matches!(&itself, Some((places, 0)) if are_places(places, &["z"]));
    Ok(
        is_itself
            && dijkstra_bidirectional(heap, &both, &"a", &"z")?.is_none()
            && is_path(bfs_bidirectional(heap, &both, &"y", &"z"), &[])?
            && is_path(bfs_bidirectional(heap, &both, &"z", &"a"), &[])?,
    )
}

/// Whether searches that estimates lead answer likewise.
pub fn are_guided_alone(heap: Heap<'_>, round: &Places<'static, '_>) -> Result<bool, PathError> {
    let Ok(estimates) = NameEstimates::new(heap, round, &"z", &[("z", 3)]) else {
        return Ok(false);
    };
    let itself = astar(heap, &estimates, &"z")?;
    let is_itself = matches!(&itself, Some((places, 0)) if are_places(places, &["z"]));
    Ok(is_itself && idastar(heap, &estimates, &"y")?.is_none())
}

/// Whether these numbers are refused, with this text.
fn is_refused(
    ample: Global,
    round: &EdgeList<'static, &'static str, u32>,
    numbers: &[(&'static str, u32)],
    text: &str,
) -> Result<bool, AllocError> {
    match &NameEstimates::new(ample, round, &"c", numbers) {
        Ok(_) => Ok(false),
        Err(fault) => Ok(format!(in ample; "{fault}")?.as_str() == text),
    }
}

/// Whether numbers that are no estimates are refused by name.
fn are_refused(ample: Global) -> Result<bool, AllocError> {
    let Ok(round) = EdgeList::new(ample, ROUND) else {
        return Ok(false);
    };
    Ok(
        is_refused(
            ample,
            &round,
            &[("b", 6)],
            "the estimate of b is above the edge to c and what remains behind it",
        )? && is_refused(
            ample,
            &round,
            &[("c", 0), ("c", 1)],
            "the estimate of c, the goal, is above 0",
        )?,
    )
}

#[test]
fn faults_of_estimates(rt: HostRuntime) {
    assert!(rt; matches!(are_refused(rt.alloc()), Ok(true)));
}
