//! All cheapest paths between names, led by estimates.

ghost use Rattle.std.specs.Prelude.{◌≡◌, ◌⊎◌, [], ◌∷◌, Err, IfOk, IfErr};
ghost use Rattle.pf_edge_lists.specs.EdgeLists.{edges_from};
ghost use Rattle.pf_estimated_names.specs.EstimatesByName.{estimate_of};
ghost use Rattle.pf_informed.specs.CheapestPaths.{AreCheapestCleanPathsOrNone};
ghost use Rattle.pf_informed.specs.Estimates.{MayOverflow};
ghost use Rattle.pf_name_numbers.specs.Numbered.{named_lists_in};

use pf_base::{Cost, PathError};
use pf_estimated_names::NameEstimates;
use pf_name_numbers::numbers::number_or_next;
use pf_name_numbers::paths::named_paths;
use std::alloc::Allocator;
use std::hash::Hash;

/// All cheapest paths from the name `from` to the name that the estimates are for, each once, with their
/// cost, or `None` exactly where no walk along the edges of their list leads there.
///
/// The paths lend their names. No name stands twice in a path, and none before the last equals the name
/// that is looked for. In which order the paths come is open. A name that stands in no edge is a node
/// without edges.
///
/// # Errors
///
/// - `CostOverflow`: only where the cost of some path from `from`, in which no name stands twice, and
///   the estimate of its last name do not fit `C` together, and no walk to the name that is looked for
///   has a cost that fits.
/// - `OutOfMemory`: a request for memory was refused.
///
/// The algorithm is that of `astar_bag_collect` over the numbers of the names.
pub fn astar_bag_collect<'p, 'e, N, C, A, B, D>(
    alloc: D,
    estimates: &NameEstimates<'_, 'e, N, C, A, B>,
    from: &'p N,
) -> Result<Option<(Vec<Vec<&'p N, D>, D>, C)>, PathError>
where
    'e: 'p,
    N: Eq + Hash,
    C: Cost,
    A: Allocator,
    B: Allocator,
    D: Allocator + Copy,
    ensures all { IfOk result (AreCheapestCleanPathsOrNone N.eq (edges_from N.eq C.value estimates.now.list) (from.now ∷ []) (λ x. N.eq x estimates.now.to) (λ paths. named_lists_in paths.items) C.value) }
    ensures overflow { result ≡ Err PathError.CostOverflow → MayOverflow N.eq (edges_from N.eq C.value estimates.now.list) (from.now ∷ []) (λ x. N.eq x estimates.now.to) (estimate_of N.eq C.value estimates.now) C.fits }
    ensures errors { IfErr result (λ e. (e ≡ PathError.OutOfMemory) ⊎ (e ≡ PathError.CostOverflow)) }
{
    let list = estimates.list();
    let start = number_or_next(list, from);
    let found = pf_table_estimates::astar_bag_collect(alloc, &estimates.guide(from), start)?;
    let Some((paths, cost)) = found else {
        return Ok(None);
    };
    let named = named_paths(alloc, list, from, &paths)?;
    Ok(Some((named, cost)))
}
