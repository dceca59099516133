//! A cheapest path between names, led by estimates.

ghost use Rattle.std.specs.Prelude.{◌≡◌, ◌⊎◌, [], ◌∷◌, Err, IfOk, IfErr, MatchOption};
ghost use Rattle.pf_base.specs.Edges.{IsCheapestGoalPath, IsSuccessor};
ghost use Rattle.pf_base.specs.NodeRefs.{nodes_of};
ghost use Rattle.pf_base.specs.Walks.{HasNoGoalWalk};
ghost use Rattle.pf_edge_lists.specs.EdgeLists.{edges_from};
ghost use Rattle.pf_estimated_names.specs.EstimatesByName.{estimate_of};
ghost use Rattle.pf_informed.specs.Estimates.{MayOverflow};

use pf_base::{Cost, PathError};
use pf_estimated_names::NameEstimates;
use pf_name_numbers::numbers::number_or_next;
use pf_name_numbers::paths::named_found;
use std::alloc::Allocator;
use std::hash::Hash;

/// A cheapest path from the name `from` to the name that the estimates are for, with its cost, or `None`
/// exactly where no walk along the edges of their list leads there.
///
/// The path lends its names, and contains no name twice; which of several cheapest paths is answered is
/// open. Where several edges lead from one name to another, a step costs what the cheapest of them costs.
/// A name that stands in no edge is a node without edges: where `from` is one, and equals the name that is
/// looked for, the path is `from` alone, at no cost.
///
/// # Errors
///
/// - `CostOverflow`: only where the cost of some path from `from`, in which no name stands twice, and
///   the estimate of its last name do not fit `C` together, and no walk to the name that is looked for
///   has a cost that fits.
/// - `OutOfMemory`: a request for memory was refused.
///
/// The algorithm is that of `astar` over the numbers of the names (P. E. Hart, N. J. Nilsson, B. Raphael,
/// "A formal basis for the heuristic determination of minimum cost paths", 1968): `from` and the name that
/// is looked for are looked up, and no name is hashed or compared after that, save that the two are
/// compared where the list has no such name as the latter.
pub fn astar<'p, 'e, N, C, A, B, D>(
    alloc: D,
    estimates: &NameEstimates<'_, 'e, N, C, A, B>,
    from: &'p N,
) -> Result<Option<(Vec<&'p N, D>, C)>, PathError>
where
    'e: 'p,
    N: Eq + Hash,
    C: Cost,
    A: Allocator,
    B: Allocator,
    D: Allocator + Copy,
    ensures best { IfOk result (λ answer. MatchOption answer
        (HasNoGoalWalk N.eq (IsSuccessor N.eq (edges_from N.eq C.value estimates.now.list)) (from.now ∷ []) (λ x. N.eq x estimates.now.to))
        (λ found. IsCheapestGoalPath N.eq (edges_from N.eq C.value estimates.now.list) (from.now ∷ []) (λ x. N.eq x estimates.now.to) (nodes_of found.0.items) (C.value found.1))) }
    ensures overflow { result ≡ Err PathError.CostOverflow → MayOverflow N.eq (edges_from N.eq C.value estimates.now.list) (from.now ∷ []) (λ x. N.eq x estimates.now.to) (estimate_of N.eq C.value estimates.now) C.fits }
    ensures errors { IfErr result (λ e. (e ≡ PathError.OutOfMemory) ⊎ (e ≡ PathError.CostOverflow)) }
{
    let list = estimates.list();
    let start = number_or_next(list, from);
    let found = pf_table_estimates::astar(alloc, &estimates.guide(from), start)?;
    named_found(alloc, list, from, found)
}

/// A cheapest path from the name `from` to the name that the estimates are for, with its cost, or `None`
/// exactly where no walk along the edges of their list leads there, as `astar`.
///
/// # Errors
///
/// - `CostOverflow`: only where the cost of some path from `from`, in which no name stands twice, and
///   the estimate of its last name do not fit `C` together, and no walk to the name that is looked for
///   has a cost that fits.
/// - `OutOfMemory`: a request for memory was refused.
///
/// The algorithm is fringe search over the numbers of the names (Y. Björnsson, M. Enzenberger, R. C.
/// Holte, J. Schaeffer, "Fringe search: beating A* at pathfinding on game maps", 2005).
pub fn fringe<'p, 'e, N, C, A, B, D>(
    alloc: D,
    estimates: &NameEstimates<'_, 'e, N, C, A, B>,
    from: &'p N,
) -> Result<Option<(Vec<&'p N, D>, C)>, PathError>
where
    'e: 'p,
    N: Eq + Hash,
    C: Cost,
    A: Allocator,
    B: Allocator,
    D: Allocator + Copy,
    ensures best { IfOk result (λ answer. MatchOption answer
        (HasNoGoalWalk N.eq (IsSuccessor N.eq (edges_from N.eq C.value estimates.now.list)) (from.now ∷ []) (λ x. N.eq x estimates.now.to))
        (λ found. IsCheapestGoalPath N.eq (edges_from N.eq C.value estimates.now.list) (from.now ∷ []) (λ x. N.eq x estimates.now.to) (nodes_of found.0.items) (C.value found.1))) }
    ensures overflow { result ≡ Err PathError.CostOverflow → MayOverflow N.eq (edges_from N.eq C.value estimates.now.list) (from.now ∷ []) (λ x. N.eq x estimates.now.to) (estimate_of N.eq C.value estimates.now) C.fits }
    ensures errors { IfErr result (λ e. (e ≡ PathError.OutOfMemory) ⊎ (e ≡ PathError.CostOverflow)) }
{
    let list = estimates.list();
    let start = number_or_next(list, from);
    let found = pf_table_estimates::fringe(alloc, &estimates.guide(from), start)?;
    named_found(alloc, list, from, found)
}

/// A cheapest path from the name `from` to the name that the estimates are for, with its cost, or `None`
/// exactly where no walk along the edges of their list leads there, as `astar`.
///
/// # Errors
///
/// - `CostOverflow`: only where the cost of some path from `from`, in which no name stands twice, and
///   the estimate of its last name do not fit `C` together, and no walk to the name that is looked for
///   has a cost that fits.
/// - `OutOfMemory`: a request for memory was refused.
///
/// The algorithm is IDA* over the numbers of the names (R. E. Korf, "Depth-first iterative-deepening: an
/// optimal admissible tree search", 1985). Its time is of the order of the number of paths whose sums the
/// limits admit.
pub fn idastar<'p, 'e, N, C, A, B, D>(
    alloc: D,
    estimates: &NameEstimates<'_, 'e, N, C, A, B>,
    from: &'p N,
) -> Result<Option<(Vec<&'p N, D>, C)>, PathError>
where
    'e: 'p,
    N: Eq + Hash,
    C: Cost,
    A: Allocator,
    B: Allocator,
    D: Allocator + Copy,
    ensures best { IfOk result (λ answer. MatchOption answer
        (HasNoGoalWalk N.eq (IsSuccessor N.eq (edges_from N.eq C.value estimates.now.list)) (from.now ∷ []) (λ x. N.eq x estimates.now.to))
        (λ found. IsCheapestGoalPath N.eq (edges_from N.eq C.value estimates.now.list) (from.now ∷ []) (λ x. N.eq x estimates.now.to) (nodes_of found.0.items) (C.value found.1))) }
    ensures overflow { result ≡ Err PathError.CostOverflow → MayOverflow N.eq (edges_from N.eq C.value estimates.now.list) (from.now ∷ []) (λ x. N.eq x estimates.now.to) (estimate_of N.eq C.value estimates.now) C.fits }
    ensures errors { IfErr result (λ e. (e ≡ PathError.OutOfMemory) ⊎ (e ≡ PathError.CostOverflow)) }
{
    let list = estimates.list();
    let start = number_or_next(list, from);
    let found = pf_table_estimates::idastar(alloc, &estimates.guide(from), start)?;
    named_found(alloc, list, from, found)
}
