//! All cheapest paths between names, one at a time.

ghost use Rattle.std.specs.Prelude.{◌≡◌, ◌⊎◌, [], ◌∷◌, ⊤, false, Err, IfOk, IfErr, MatchOption};
ghost use Rattle.std.specs.Iterator.{at_most};
ghost use Rattle.pf_edge_lists.specs.EdgeLists.{edges_from};
ghost use Rattle.pf_estimated_names.specs.EstimatesByName.{estimate_of};
ghost use Rattle.pf_informed.specs.CheapestPaths.{AreCheapestCleanPathsOrNone, most_items};
ghost use Rattle.pf_informed.specs.Estimates.{MayOverflow};
ghost use Rattle.pf_name_estimates.specs.CheapestPathsByName.{PathsStepByName};

use crate::steps::{copy_of, name_numbers, next_numbers};
use pf_base::{Cost, PathError};
use pf_edge_lists::EdgeList;
use pf_estimated_names::NameEstimates;
use pf_name_numbers::numbers::number_or_next;
use std::alloc::{AllocError, Allocator, Global};
use std::hash::Hash;
use std::marker::Model;

/// All cheapest paths between two names, each as a `Result`, once: made by `astar_bag`.
#[derive(Drop)]
pub struct AstarSolution<
    'l,
    'p,
    'e,
    N: Eq + Hash,
    C: Cost,
    A: Allocator = Global,
    D: Allocator + Copy = Global,
> {
    alloc: D,
    list: &'l EdgeList<'e, N, C, A>,
    from: &'p N,
    paths: pf_table_estimates::AstarSolution<D>,
    /// The numbers of a path that could not be named yet.
    waiting: Option<Vec<usize, D>>,
    refused: bool,
}

impl<'l, 'p, 'e, N: Eq + Hash, C: Cost, A: Allocator, D: Allocator + Copy> Model
    for AstarSolution<'l, 'p, 'e, N, C, A, D> {
    ghost use Rattle.std.specs.Prelude.{◌≡◌, true, get_or};
    ghost use Rattle.pf_edge_lists.specs.EdgeLists.{names_of};
    ghost use Rattle.pf_informed.specs.CheapestPaths.{PathsToCome};
    ghost use Rattle.pf_name_estimates.specs.CheapestPathsByName.{paths_by_name};

    ghost Value = { PathsToCome N };

    ghost view = { λ s. paths_by_name (λ number. get_or (names_of N.eq s.list.now) number s.from.now) s.waiting s.paths s.refused };

    ghost invariant = { λ s. s.paths.refused ≡ true → s.refused ≡ true };
}

/// A clone has the same paths to come, in the same order; it was refused where the original was, and is
/// at its end where the original is. The only error is a refused request for memory.
impl<'l, 'p, 'e, N, C, A, D> Clone for AstarSolution<'l, 'p, 'e, N, C, A, D>
where
    N: Eq + Hash,
    C: Cost,
    A: Allocator,
    D: Allocator + Copy,
{
    ghost is_clone = { λ s t. t ≡ s };

    fn clone(&self) -> Result<Self, AllocError> {
        let paths = self.paths.clone()?;
        let waiting = copy_of(&self.waiting)?;
        Ok(AstarSolution {
            alloc: self.alloc,
            list: self.list,
            from: self.from,
            paths,
            waiting,
            refused: self.refused,
        })
    }
}

impl<'l, 'p, 'e, N, C, A, D> Iterator for AstarSolution<'l, 'p, 'e, N, C, A, D>
where
    'e: 'p,
    N: Eq + Hash,
    C: Cost,
    A: Allocator,
    D: Allocator + Copy,
{
    type Item = Result<Vec<&'p N, D>, PathError>;

    ghost next_gives = { PathsStepByName };

    ghost remaining = { λ s. at_most (most_items s) };

    fn next(&mut self) -> Option<Result<Vec<&'p N, D>, PathError>> {
        if self.refused {
            return None;
        }
        let numbers = next_numbers(&mut self.paths, &mut self.waiting);
        let named = name_numbers(self.alloc, self.list, self.from, &mut self.waiting, numbers);
        self.refused = named.is_err();
        named.transpose()
    }
}

impl<'l, 'p, 'e, N, C, A, D> AstarSolution<'l, 'p, 'e, N, C, A, D>
where
    N: Eq + Hash,
    C: Cost,
    A: Allocator,
    D: Allocator + Copy,
{
    /// Lets the next call of `next` try again the step that was refused. Where no step was refused
    /// since the last call of `resume`, this changes nothing.
    pub fn resume(&mut self)
        ensures { self.new ≡ record self.old { refused = false } }
    {
        self.paths.resume();
        self.refused = false;
    }
}

/// All cheapest paths from the name `from` to the name that the estimates are for, with their cost, or
/// `None` exactly where no walk along the edges of their list leads there. They are given one at a time,
/// each once.
///
/// The paths lend their names. No name stands twice in a path, and none before the last equals the name
/// that is looked for. In which order the paths come is open. A name that stands in no edge is a node
/// without edges; of a name that the list does not have, a reference to `from` itself is the path.
///
/// # Errors
///
/// - `CostOverflow`: only where the cost of some path from `from`, in which no name stands twice, and
///   the estimate of its last name do not fit `C` together, and no walk to the name that is looked for
///   has a cost that fits.
/// - `OutOfMemory`: a request for memory was refused. A step of the iterator that is refused leaves the
///   paths to come as they were; the iterator then answers `None` until `resume` is called, and tries
///   the same step again. Where no path is left, `None` comes for good, though with cycles that cost
///   nothing a step before the first such `None` can be refused still.
///
/// The algorithm is that of `astar_bag` over the numbers of the names: `from` and the name that is looked
/// for are looked up, and no name is hashed or compared after that, save that the two are compared where
/// the list has no such name as the latter.
pub fn astar_bag<'l, 'p, 'e, N, C, A, B, D>(
    alloc: D,
    estimates: &NameEstimates<'l, 'e, N, C, A, B>,
    from: &'p N,
) -> Result<Option<(AstarSolution<'l, 'p, 'e, N, C, A, D>, C)>, PathError>
where
    'e: 'p,
    N: Eq + Hash,
    C: Cost,
    A: Allocator,
    B: Allocator,
    D: Allocator + Copy,
    ensures all { IfOk result (AreCheapestCleanPathsOrNone N.eq (edges_from N.eq C.value estimates.now.list) (from.now ∷ []) (λ x. N.eq x estimates.now.to) (λ paths. paths.left) C.value) }
    ensures ready { IfOk result (λ answer. MatchOption answer ⊤ (λ found. found.0.refused ≡ false)) }
    ensures overflow { result ≡ Err PathError.CostOverflow → MayOverflow N.eq (edges_from N.eq C.value estimates.now.list) (from.now ∷ []) (λ x. N.eq x estimates.now.to) (estimate_of N.eq C.value estimates.now) C.fits }
    ensures errors { IfErr result (λ e. (e ≡ PathError.OutOfMemory) ⊎ (e ≡ PathError.CostOverflow)) }
{
    let list = estimates.list();
    let start = number_or_next(list, from);
    let found = pf_table_estimates::astar_bag(alloc, &estimates.guide(from), start)?;
    let Some((paths, cost)) = found else {
        return Ok(None);
    };
    let solution = AstarSolution {
        alloc,
        list,
        from,
        paths,
        waiting: None,
        refused: false,
    };
    Ok(Some((solution, cost)))
}
