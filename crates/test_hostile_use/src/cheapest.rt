//! The calls that answer a cheapest path, behind one function.

ghost use Rattle.std.specs.Prelude.{◌∷◌, [], ℤ, List, Bool, IfOk};
ghost use Rattle.std.specs.HashMap.{get};
ghost use Rattle.pf_base.specs.Answers.{IsLawfulClone};
ghost use Rattle.pf_informed.specs.Estimates.{IsInformedSearch};
ghost use Rattle.pf_search.specs.Parents.{MeetsNoneTwice};

use crate::walks::{first_of, up_to};
use pf_base::{Cost, EdgeFunction, NodeTest, PathError};
use pf_informed::directed::astar::{astar, astar_bag_collect};
use pf_informed::directed::fringe::fringe;
use pf_informed::directed::idastar::idastar;
use pf_informed::functions::EstimateFunction;
use pf_search::directed::dijkstra::{
    Parents, build_path, dijkstra, dijkstra_all, dijkstra_partial, dijkstra_reach,
};
use pf_yen::directed::yen::{yen, yen_paths};
use std::alloc::Global;
use std::hash::Hash;

/// A call that answers a cheapest path, or paths or costs that have one among them.
#[derive(Clone, Copy)]
pub enum CostCall {
    /// `dijkstra`.
    Dijkstra,
    /// `dijkstra_all`, and `build_path` in its map.
    All,
    /// `dijkstra_partial`, and `build_path` in its map.
    Partial,
    /// `dijkstra_reach`, up to the goal.
    Reach,
    /// `astar`.
    Astar,
    /// `fringe`.
    Fringe,
    /// `idastar`.
    Idastar,
    /// One of the paths of `astar_bag_collect`.
    Bag,
    /// The first path of `yen`.
    Yen,
    /// The first path of `yen_paths`.
    YenPaths,
}

/// Each of the calls.
pub const COST_CALLS: &[CostCall] = &[
    CostCall::Dijkstra,
    CostCall::All,
    CostCall::Partial,
    CostCall::Reach,
    CostCall::Astar,
    CostCall::Fringe,
    CostCall::Idastar,
    CostCall::Bag,
    CostCall::Yen,
    CostCall::YenPaths,
];

/// A path with its cost, if there is one.
pub type Found<N, C> = Result<Option<(Vec<N>, C)>, PathError>;

/// The path that a map of parents has for a node, with its cost; `None` where it has no entry.
fn along<N, C>(alloc: Global, parents: &Parents<N, C, Global>, node: &N) -> Found<N, C>
where
    N: Eq + Hash + Copy,
    C: Copy,
    requires clones { IsLawfulClone N.eq N.is_clone }
    requires no_ring { MeetsNoneTwice N.eq (get N.eq parents.now) node.now }
{
    let Some(entry) = parents.get(node).copied() else {
        return Ok(None);
    };
    let path = build_path(alloc, node, parents)?;
    Ok(Some((path, entry.1)))
}

/// The path that the map of `dijkstra_all` has for the goal.
fn along_all<N, C>(
    alloc: Global,
    parents: Result<Parents<N, C, Global>, PathError>,
    goal: &N,
) -> Found<N, C>
where
    N: Eq + Hash + Copy,
    C: Copy,
    requires clones { IsLawfulClone N.eq N.is_clone }
    requires no_ring { IfOk parents (λ p. MeetsNoneTwice N.eq (get N.eq p) goal.now) }
{
    let parents = parents?;
    along(alloc, &parents, goal)
}

/// The path that the map of `dijkstra_partial` has for the node at which it stopped.
fn along_partial<N, C>(
    alloc: Global,
    found: Result<(Parents<N, C, Global>, Option<N>), PathError>,
) -> Found<N, C>
where
    N: Eq + Hash + Copy,
    C: Copy,
    requires clones { IsLawfulClone N.eq N.is_clone }
    requires no_ring { IfOk found (λ f. (n : N) → MeetsNoneTwice N.eq (get N.eq f.0) n) }
{
    let (parents, stopped) = found?;
    match stopped {
        Some(node) => along(alloc, &parents, &node),
        None => Ok(None),
    }
}

/// One of the paths that were gathered, with their cost.
fn one_of<N: Copy, C: Copy>(found: Result<Option<(Vec<Vec<N>>, C)>, PathError>) -> Found<N, C> {
    let Some((mut paths, cost)) = found? else {
        return Ok(None);
    };
    match paths.pop() {
        Some(path) => Ok(Some((path, cost))),
        None => Ok(None),
    }
}

/// The last of the paths that were listed.
fn last_of<N: Copy, C: Copy>(found: Result<Vec<(Vec<N>, C)>, PathError>) -> Found<N, C> {
    let mut paths = found?;
    Ok(paths.pop())
}

/// A cheapest path from `start` to a node that passes `success`, which is `goal` alone, as a call
/// answers it.
pub fn cheapest<N, C, IN, FN, FH, FS>(
    alloc: Global,
    call: CostCall,
    start: &N,
    goal: &N,
    successors: FN,
    estimate: FH,
    success: FS,
) -> Found<N, C>
where
    N: Eq + Hash + Copy,
    C: Cost,
    IN: IntoIterator<Item = (N, C)>,
    FN: FnMut(&N) -> IN,
    FH: FnMut(&N) -> C,
    FS: FnMut(&N) -> bool,
    requires clones { IsLawfulClone N.eq N.is_clone }
    requires graph { (edges : N → List (N × ℤ)) × (test : N → Bool) × (least : N → ℤ)
        × IsInformedSearch N.eq edges (start.now ∷ []) (⟦<FN as EdgeFunction<N, C>>⟧.answers successors) (⟦<FS as NodeTest<N>>⟧.answers success) (⟦<FH as EstimateFunction<N, C>>⟧.answers estimate) test least }
{
    match call {
        CostCall::Dijkstra => dijkstra(alloc, start, successors, success),
        CostCall::All => along_all(alloc, dijkstra_all(alloc, start, successors), goal),
        CostCall::Partial => {
            along_partial(alloc, dijkstra_partial(alloc, start, successors, success))
        }
        CostCall::Reach => up_to(alloc, dijkstra_reach(alloc, start, successors), goal),
        CostCall::Astar => astar(alloc, start, successors, estimate, success),
        CostCall::Fringe => fringe(alloc, start, successors, estimate, success),
        CostCall::Idastar => idastar(alloc, start, successors, estimate, success),
        CostCall::Bag => one_of(astar_bag_collect(alloc, start, successors, estimate, success)),
        CostCall::Yen => last_of(yen(alloc, start, successors, success, 1)),
        CostCall::YenPaths => first_of(yen_paths(alloc, start, successors, success)),
    }
}
