//! What is printed of a result. One that is not the last is dropped at once; a walk is gone through
//! at each call.

use crate::error::BenchError;
use crate::repeats::Outcome;
use pf_base::PathError;
use pf_search::directed::dijkstra::{DijkstraReachableItem, Parents};
use std::alloc::Global;
use std::collections::BTreeSet;
use std::hash::Hash;

/// The number of edges of a path.
pub fn edges_of<N: Drop>(found: Result<Option<Vec<N>>, PathError>, is_last: bool) -> Outcome {
    match &found {
        Ok(Some(path)) if is_last => Ok(Some((path.len() as u64).saturating_sub(1))),
        Ok(_) => Ok(None),
        Err(fault) => Err(BenchError::Path(*fault)),
    }
}

/// What a path costs.
pub fn cost_of<P: Drop>(found: Result<Option<(P, u32)>, PathError>, is_last: bool) -> Outcome {
    match &found {
        Ok(Some(path)) if is_last => Ok(Some(u64::from(path.1))),
        Ok(_) => Ok(None),
        Err(fault) => Err(BenchError::Path(*fault)),
    }
}

/// How many there are.
pub fn count_of<T: Drop>(listed: Result<Vec<T>, PathError>, is_last: bool) -> Outcome {
    match &listed {
        Ok(items) if is_last => Ok(Some(items.len() as u64)),
        Ok(_) => Ok(None),
        Err(fault) => Err(BenchError::Path(*fault)),
    }
}

/// What the paths of a map cost in all.
pub fn map_costs_of<N: Eq + Hash + Drop>(
    mapped: Result<Parents<N, u32, Global>, PathError>,
    is_last: bool,
) -> Outcome {
    match &mapped {
        Ok(parents) if is_last => {
            let mut sum = 0u64;
            for (_, cost) in parents.values() {
                sum = sum.saturating_add(u64::from(*cost));
            }
            Ok(Some(sum))
        }
        Ok(_) => Ok(None),
        Err(fault) => Err(BenchError::Path(*fault)),
    }
}

/// How many nodes a walk gives.
pub fn nodes_of<N: Drop, W>(walk: W) -> Outcome
where
    W: Iterator<Item = Result<N, PathError>> + Drop,
    requires { W.can_next walk }
{
    let mut count = 0u64;
    for node in walk.take(usize::MAX) {
        let _node = node?;
        count = count.saturating_add(1);
    }
    Ok(Some(count))
}

/// The sum of the costs of all nodes that a walk gives.
pub fn walk_costs_of<N: Drop, W>(walk: W) -> Outcome
where
    W: Iterator<Item = Result<DijkstraReachableItem<N, u32>, PathError>> + Drop,
    requires { W.can_next walk }
{
    let mut sum = 0u64;
    for item in walk.take(usize::MAX) {
        sum = sum.saturating_add(u64::from(item?.total_cost));
    }
    Ok(Some(sum))
}

/// How many positions a flood reached.
pub fn size_of<E>(flooded: Result<BTreeSet<(usize, usize)>, E>, is_last: bool) -> Outcome
where
    BenchError: From<E>,
{
    let reached = flooded?;
    if is_last {
        Ok(Some(reached.len() as u64))
    } else {
        Ok(None)
    }
}
