//! A cheapest path, led by estimates.

ghost use Rattle.std.specs.Prelude.{◌≡◌, ◌⊎◌, [], ◌∷◌, Err, IfOk, IfErr, nat_eq};
ghost use Rattle.pf_base.specs.Edges.{IsCheapestOrNone};
ghost use Rattle.pf_informed.specs.Estimates.{MayOverflow};
ghost use Rattle.pf_tables.specs.Graphs.{graph_of};

use crate::guide::{Guide, begin};
use pf_base::{Cost, PathError};
use pf_estimated_graphs::EstimatedGraph;
use pf_informed::discovered::{astar_of, fringe_of, idastar_of};
use std::alloc::Allocator;

/// A cheapest path from the node `from` to a goal, with its cost, or `None` exactly where no walk leads
/// from it to a goal.
///
/// The graph and the goals are those of the estimates. A number that is no node of the graph has no
/// edges. The path contains no node twice. Which of several such paths is answered is open.
///
/// # Errors
///
/// - `CostOverflow`: only where the cost of some path from `from`, in which no node stands twice, and
///   the estimate of its last node do not fit `C` together, and no walk to a goal has a cost that fits.
/// - `OutOfMemory`: a request for memory was refused.
///
/// The algorithm is A* (P. E. Hart, N. J. Nilsson, B. Raphael, "A formal basis for the heuristic
/// determination of minimum cost paths", 1968), with the queue of `astar` over functions. No edges are
/// read twice, and nothing is hashed.
pub fn astar<C, E, A>(
    alloc: A,
    estimates: &E,
    from: usize,
) -> Result<Option<(Vec<usize, A>, C)>, PathError>
where
    C: Cost,
    E: EstimatedGraph<C>,
    A: Allocator + Copy,
    ensures best { IfOk result (IsCheapestOrNone nat_eq (graph_of C.value (E.size estimates.now) (E.places estimates.now)) (from ∷ []) (E.passes estimates.now) C.value) }
    ensures overflow { result ≡ Err PathError.CostOverflow → MayOverflow nat_eq (graph_of C.value (E.size estimates.now) (E.places estimates.now)) (from ∷ []) (E.passes estimates.now) (E.estimates estimates.now) C.fits }
    ensures errors { IfErr result (λ e. (e ≡ PathError.OutOfMemory) ⊎ (e ≡ PathError.CostOverflow)) }
{
    let graph = begin(alloc, estimates, from)?;
    astar_of(alloc, graph, Guide::new(estimates))
}

/// A cheapest path from the node `from` to a goal, with its cost, or `None` exactly where no walk leads
/// from it to a goal, as `astar`.
///
/// # Errors
///
/// - `CostOverflow`: only where the cost of some path from `from`, in which no node stands twice, and
///   the estimate of its last node do not fit `C` together, and no walk to a goal has a cost that fits.
/// - `OutOfMemory`: a request for memory was refused.
///
/// The algorithm is fringe search (Y. Björnsson, M. Enzenberger, R. C. Holte, J. Schaeffer, "Fringe
/// search: beating A* at pathfinding on game maps", 2005). Nothing is hashed.
pub fn fringe<C, E, A>(
    alloc: A,
    estimates: &E,
    from: usize,
) -> Result<Option<(Vec<usize, A>, C)>, PathError>
where
    C: Cost,
    E: EstimatedGraph<C>,
    A: Allocator + Copy,
    ensures best { IfOk result (IsCheapestOrNone nat_eq (graph_of C.value (E.size estimates.now) (E.places estimates.now)) (from ∷ []) (E.passes estimates.now) C.value) }
    ensures overflow { result ≡ Err PathError.CostOverflow → MayOverflow nat_eq (graph_of C.value (E.size estimates.now) (E.places estimates.now)) (from ∷ []) (E.passes estimates.now) (E.estimates estimates.now) C.fits }
    ensures errors { IfErr result (λ e. (e ≡ PathError.OutOfMemory) ⊎ (e ≡ PathError.CostOverflow)) }
{
    let graph = begin(alloc, estimates, from)?;
    fringe_of(alloc, graph, Guide::new(estimates))
}

/// A cheapest path from the node `from` to a goal, with its cost, or `None` exactly where no walk leads
/// from it to a goal, as `astar`.
///
/// # Errors
///
/// - `CostOverflow`: only where the cost of some path from `from`, in which no node stands twice, and
///   the estimate of its last node do not fit `C` together, and no walk to a goal has a cost that fits.
/// - `OutOfMemory`: a request for memory was refused.
///
/// The algorithm is IDA* (R. E. Korf, "Depth-first iterative-deepening: an optimal admissible tree
/// search", 1985). Its time is of the order of the number of paths whose sums the limits admit.
/// Nothing is hashed.
pub fn idastar<C, E, A>(
    alloc: A,
    estimates: &E,
    from: usize,
) -> Result<Option<(Vec<usize, A>, C)>, PathError>
where
    C: Cost,
    E: EstimatedGraph<C>,
    A: Allocator + Copy,
    ensures best { IfOk result (IsCheapestOrNone nat_eq (graph_of C.value (E.size estimates.now) (E.places estimates.now)) (from ∷ []) (E.passes estimates.now) C.value) }
    ensures overflow { result ≡ Err PathError.CostOverflow → MayOverflow nat_eq (graph_of C.value (E.size estimates.now) (E.places estimates.now)) (from ∷ []) (E.passes estimates.now) (E.estimates estimates.now) C.fits }
    ensures errors { IfErr result (λ e. (e ≡ PathError.OutOfMemory) ⊎ (e ≡ PathError.CostOverflow)) }
{
    let graph = begin(alloc, estimates, from)?;
    idastar_of(alloc, graph, Guide::new(estimates))
}
