//! Searches on a graph of numbered nodes.

ghost use Rattle.std.specs.Prelude.{◌≡◌, ◌⊎◌, ◌<◌, IfOk, IfErr, MatchOption};
ghost use Rattle.pf_routes.specs.Internal.Numbers.{AreCheapestNumberedPaths, HasNoNumberedWalk, HasNumberedOverflow, HasNumberedPathOverflow, IsCheapestNumberedPath, IsFewestEdgesNumberedPath};
ghost use Rattle.pf_yen.specs.KCheapest.{paths_in};

use pf_adjacency::AdjacencyList;
use pf_base::PathError;
use pf_route_io::error::RouteError;
use pf_table_breadth::bfs;
use pf_table_paths::yen;
use pf_tables::dijkstra;
use std::alloc::Allocator;

/// A cheapest path between two numbers, and its cost.
pub(crate) fn cheapest_path<A: Allocator + Copy>(
    alloc: A,
    graph: &AdjacencyList<u64, A>,
    from: usize,
    to: usize,
) -> Result<Option<(Vec<usize, A>, u64)>, RouteError>
    ensures ok { IfOk result (λ answer. MatchOption answer (HasNoNumberedWalk graph.now from to)
        (λ found. IsCheapestNumberedPath graph.now from to found.0.items found.1)) }
    ensures err { IfErr result (λ e. (e ≡ RouteError.OutOfMemory) ⊎ ((e ≡ RouteError.CostOverflow) × HasNumberedOverflow graph.now from to)) }
{
    match dijkstra(alloc, graph, from, to) {
        Ok(answer) => Ok(answer),
        Err(PathError::CostOverflow) => Err(RouteError::CostOverflow),
        Err(_) => Err(RouteError::OutOfMemory),
    }
}

/// A path with fewest edges between two numbers. The costs are not used.
pub(crate) fn fewest_edges_path<A: Allocator + Copy>(
    alloc: A,
    graph: &AdjacencyList<u64, A>,
    from: usize,
    to: usize,
) -> Result<Option<Vec<usize, A>>, RouteError>
    ensures ok { IfOk result (λ answer. MatchOption answer (HasNoNumberedWalk graph.now from to)
        (λ path. IsFewestEdgesNumberedPath graph.now from to path.items)) }
    ensures err { IfErr result (λ e. e ≡ RouteError.OutOfMemory) }
{
    // There is no other error than out of memory.
    match bfs(alloc, graph, from, to) {
        Ok(answer) => Ok(answer),
        Err(_) => Err(RouteError::OutOfMemory),
    }
}

/// The cheapest clean paths between two numbers, at most `count` of them, with their costs.
pub(crate) fn cheapest_paths<A: Allocator + Copy>(
    alloc: A,
    graph: &AdjacencyList<u64, A>,
    from: usize,
    to: usize,
    count: usize,
) -> Result<Vec<(Vec<usize, A>, u64), A>, RouteError>
    ensures ok { IfOk result (λ paths. AreCheapestNumberedPaths graph.now from to count (paths_in paths.items)) }
    ensures err { IfErr result (λ e. (e ≡ RouteError.OutOfMemory) ⊎ ((e ≡ RouteError.CostOverflow) × (0 < count) × HasNumberedPathOverflow graph.now from to × (count ≡ 1 → HasNumberedOverflow graph.now from to))) }
{
    match yen(alloc, graph, from, to, count) {
        Ok(paths) => Ok(paths),
        Err(PathError::CostOverflow) => Err(RouteError::CostOverflow),
        Err(_) => Err(RouteError::OutOfMemory),
    }
}
