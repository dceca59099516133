//! The k cheapest paths.

ghost use Rattle.std.specs.Prelude.{◌≡◌, ◌⊎◌, ◌≤◌, [], ◌∷◌, Err, IfOk, IfErr, nat_eq};
ghost use Rattle.pf_base.specs.Edges.{CostOverflows};
ghost use Rattle.pf_tables.specs.Graphs.{graph_of};
ghost use Rattle.pf_yen.specs.CleanPaths.{PathOverflows};
ghost use Rattle.pf_yen.specs.KCheapest.{IsKCheapest, paths_in};

use crate::walk::walk_of;
use pf_base::{Cost, PathError};
use pf_tables::{Goals, Graph};
use pf_yen::directed::k_cheapest::k_cheapest_of;
use std::alloc::Allocator;

/// The `k` cheapest clean paths from the node `from` to goals, or all where there are fewer, each once,
/// with its cost: by rising cost, and of equal cost by rising number of nodes. No clean path that is
/// not answered costs less than one that is.
///
/// A clean path contains no node twice, and only its last node is a goal. Where `from` is a goal, it is
/// the only one; where `k` is 0, none is answered. Which of several paths of one cost are answered is
/// open, and so is the order of those of one cost and one number of nodes. A number that is no node of
/// the graph has no edges.
///
/// # Errors
///
/// - `CostOverflow`: only where `k` is above 0 and a path from `from`, in which no node stands twice
///   and none is a goal, and one step more, by the cheapest of the parallel edges, cost more than `C`
///   can hold; where `k` is 1, also only where a cheapest path to some node and one step more cost more
///   than `C` can hold and no goal is cheaper than that node.
/// - `OutOfMemory`: a request for memory was refused.
///
/// The nodes that are found are numbered in a table of 32-bit numbers, one for each node of the graph, so
/// that nothing is hashed.
///
/// The algorithm is Yen's (J. Y. Yen, "Finding the k shortest loopless paths in a network", 1971), with
/// Lawler's division (E. L. Lawler, 1972).
pub fn yen<C, G, T, A>(
    alloc: A,
    graph: &G,
    from: usize,
    goals: T,
    k: usize,
) -> Result<Vec<(Vec<usize, A>, C), A>, PathError>
where
    C: Cost,
    G: Graph<C>,
    T: Goals + Copy,
    A: Allocator + Copy,
    ensures cheapest { IfOk result (λ paths. IsKCheapest nat_eq (graph_of C.value (G.size graph.now) (G.places graph.now)) from (T.passes goals) C.value k (paths_in paths.items)) }
    ensures overflow { result ≡ Err PathError.CostOverflow → PathOverflows nat_eq (graph_of C.value (G.size graph.now) (G.places graph.now)) from (T.passes goals) C.fits }
    ensures first_overflow { result ≡ Err PathError.CostOverflow → k ≡ 1 → CostOverflows nat_eq (graph_of C.value (G.size graph.now) (G.places graph.now)) (from ∷ []) (T.passes goals) C.fits }
    ensures some_asked { result ≡ Err PathError.CostOverflow → 1 ≤ k }
    ensures errors { IfErr result (λ e. (e ≡ PathError.OutOfMemory) ⊎ (e ≡ PathError.CostOverflow)) }
{
    let walk = walk_of(alloc, graph, from, goals)?;
    k_cheapest_of(alloc, walk, k)
}
