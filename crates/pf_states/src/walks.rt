//! The states in reach of a start, one at a time: in breadth order, in preorder, and by rising cost.

ghost use Rattle.std.specs.Prelude.{◌≡◌, [], ◌∷◌, false, Ok, IfOk, IfErr, IsOk};
ghost use Rattle.pf_search.specs.Breadth.{IsBreadthWalk};
ghost use Rattle.pf_search.specs.CheapestFirst.{IsCheapestWalk};
ghost use Rattle.pf_search.specs.DepthWalks.{IsDepthWalk};
ghost use Rattle.pf_state_spaces.specs.StateSpaces.{edges_by, successors_by, SpaceListsEdges, SpaceListsSuccessors};

use pf_base::{Cost, PathError};
use pf_search::directed::bfs::BfsReachable;
use pf_search::directed::dfs::DfsReachable;
use pf_search::directed::dijkstra::DijkstraReachable;
use pf_state_spaces::{Exact, Neighbours, StateSpace};
use std::alloc::Allocator;
use std::hash::Hash;

/// A walk over the states in reach of `start`, lazily, in breadth order: each state once, after all that
/// fewer moves lead to. What the moves cost plays no part.
///
/// This call takes no memory.
///
/// # Errors
///
/// This call answers `Ok`. A step is `Err(OutOfMemory)` where a request for memory was refused; the walk
/// then answers `None` until `resume` is called, and tries the same step again.
///
/// The algorithm is that of `bfs`.
pub fn bfs_reach<'a, N, C, S, A>(
    alloc: A,
    space: &'a S,
    start: &N,
) -> Result<BfsReachable<N, Neighbours<'a, N, C, S>, A>, PathError>
where
    N: Exact + Hash + Drop,
    C: Cost,
    S: StateSpace<N, C>,
    A: Allocator + Copy,
    ensures begins { result ≡ Ok (record { given = []; waiting = start.now ∷ []; refused = false; successors = space.now }) }
    ensures graph { IfOk result (IsBreadthWalk N.eq (SpaceListsSuccessors S.moves) (successors_by (S.moves space.now)) start.now) }
{
    BfsReachable::new(alloc, *start, Neighbours::new(space))
}

/// A walk over the states in reach of `start`, lazily, in the order in which a recursive depth-first
/// search first meets them (preorder): each state once, the moves of a state in the order of their
/// places. What the moves cost plays no part.
///
/// This call takes no memory.
///
/// # Errors
///
/// As of `bfs_reach`.
///
/// The order is that of depth-first search (R. Tarjan, "Depth-first search and linear graph algorithms",
/// 1972).
pub fn dfs_reach<'a, N, C, S, A>(
    alloc: A,
    space: &'a S,
    start: &N,
) -> Result<DfsReachable<N, Neighbours<'a, N, C, S>, A>, PathError>
where
    N: Exact + Hash + Drop,
    C: Cost,
    S: StateSpace<N, C>,
    A: Allocator + Copy,
    ensures ready { IfOk result (λ walk. walk.refused ≡ false) }
    ensures graph { IfOk result (IsDepthWalk N.eq (SpaceListsSuccessors S.moves) (successors_by (S.moves space.now)) start.now []) }
    ensures good { IsOk result }
{
    DfsReachable::new(alloc, *start, Neighbours::new(space))
}

/// A walk over the states in reach of `start`, lazily, by rising cost: each state once, with what a
/// cheapest path to it costs and the state before it on such a path.
///
/// # Errors
///
/// `OutOfMemory`: a request for memory was refused. A step is `Err` where memory was refused, or a sum of
/// costs does not fit, as in `dijkstra_all`; the walk then answers `None` until `resume` is called, and
/// tries the same step again.
///
/// The algorithm is that of `dijkstra`.
pub fn dijkstra_reach<'a, N, C, S, A>(
    alloc: A,
    space: &'a S,
    start: &N,
) -> Result<DijkstraReachable<N, C, Neighbours<'a, N, C, S>, A>, PathError>
where
    N: Exact + Hash + Drop,
    C: Cost,
    S: StateSpace<N, C>,
    A: Allocator + Copy,
    ensures begins { IfOk result (λ walk. (walk.given ≡ []) × (walk.refused ≡ false) × (walk.successors ≡ space.now)) }
    ensures graph { IfOk result (IsCheapestWalk N.eq C.value (edges_by (S.moves space.now) C.value) start.now (SpaceListsEdges S.moves C.value)) }
    ensures refused { IfErr result (λ e. e ≡ PathError.OutOfMemory) }
{
    DijkstraReachable::new(alloc, start, Neighbours::new(space))
}
