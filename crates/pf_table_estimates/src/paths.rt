//! All cheapest paths, led by estimates.

ghost use Rattle.std.specs.Prelude.{◌≡◌, ◌⊎◌, [], ◌∷◌, false, ⊤, Err, IfOk, IfErr, MatchOption, nat_eq};
ghost use Rattle.pf_informed.specs.CheapestPaths.{AreCheapestCleanPathsOrNone, lists_in};
ghost use Rattle.pf_informed.specs.Estimates.{MayOverflow};
ghost use Rattle.pf_tables.specs.Graphs.{graph_of};

use crate::guide::{Guide, begin};
use pf_base::{Cost, PathError};
use pf_estimated_graphs::EstimatedGraph;
use pf_informed::directed::astar_bag::AstarSolutionBy;
use pf_informed::discovered::{astar_bag_collect_of, astar_bag_of};
use pf_table_functions::table_nodes::TableNodes;
use std::alloc::{Allocator, Global};

/// All cheapest paths of a table, each as a `Result`, once: made by `astar_bag`.
pub type AstarSolution<A = Global> = AstarSolutionBy<TableNodes<A>, A>;

/// All cheapest paths from the node `from` to goals, with their cost, or `None` exactly where no walk
/// leads from it to a goal. They are given one at a time, each once.
///
/// The graph and the goals are those of the estimates. A number that is no node of the graph has no
/// edges. No node before the last of a path is a goal. In which order the paths come is open.
///
/// # Errors
///
/// - `CostOverflow`: only where the cost of some path from `from`, in which no node stands twice, and
///   the estimate of its last node do not fit `C` together, and no walk to a goal has a cost that fits.
/// - `OutOfMemory`: a request for memory was refused.
///
/// The algorithm is A* (P. E. Hart, N. J. Nilsson, B. Raphael, "A formal basis for the heuristic
/// determination of minimum cost paths", 1968), followed by a walk back along all steps that keep the
/// least costs. Nothing is hashed.
pub fn astar_bag<C, E, A>(
    alloc: A,
    estimates: &E,
    from: usize,
) -> Result<Option<(AstarSolution<A>, C)>, PathError>
where
    C: Cost,
    E: EstimatedGraph<C>,
    A: Allocator + Copy,
    ensures all { IfOk result (AreCheapestCleanPathsOrNone nat_eq (graph_of C.value (E.size estimates.now) (E.places estimates.now)) (from ∷ []) (E.passes estimates.now) (λ paths. paths.left) C.value) }
    ensures ready { IfOk result (λ answer. MatchOption answer ⊤ (λ found. found.0.refused ≡ false)) }
    ensures overflow { result ≡ Err PathError.CostOverflow → MayOverflow nat_eq (graph_of C.value (E.size estimates.now) (E.places estimates.now)) (from ∷ []) (E.passes estimates.now) (E.estimates estimates.now) C.fits }
    ensures errors { IfErr result (λ e. (e ≡ PathError.OutOfMemory) ⊎ (e ≡ PathError.CostOverflow)) }
{
    let graph = begin(alloc, estimates, from)?;
    astar_bag_of(alloc, graph, Guide::new(estimates))
}

/// All cheapest paths of `astar_bag`, gathered.
///
/// # Errors
///
/// Those of `astar_bag`.
pub fn astar_bag_collect<C, E, A>(
    alloc: A,
    estimates: &E,
    from: usize,
) -> Result<Option<(Vec<Vec<usize, A>, A>, C)>, PathError>
where
    C: Cost,
    E: EstimatedGraph<C>,
    A: Allocator + Copy,
    ensures all { IfOk result (AreCheapestCleanPathsOrNone nat_eq (graph_of C.value (E.size estimates.now) (E.places estimates.now)) (from ∷ []) (E.passes estimates.now) (λ paths. lists_in paths.items) C.value) }
    ensures overflow { result ≡ Err PathError.CostOverflow → MayOverflow nat_eq (graph_of C.value (E.size estimates.now) (E.places estimates.now)) (from ∷ []) (E.passes estimates.now) (E.estimates estimates.now) C.fits }
    ensures errors { IfErr result (λ e. (e ≡ PathError.OutOfMemory) ⊎ (e ≡ PathError.CostOverflow)) }
{
    let graph = begin(alloc, estimates, from)?;
    astar_bag_collect_of(alloc, graph, Guide::new(estimates))
}
