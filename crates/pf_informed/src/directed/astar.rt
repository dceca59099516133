//! Cheapest paths, led by an estimate of the cost that remains.

ghost use Rattle.std.specs.Prelude.{◌≡◌, ◌⊎◌, ℤ, Bool, [], ◌∷◌, Err, IfOk, IfErr, length};
ghost use Rattle.pf_base.specs.Edges.{IsCheapestOrNone};
ghost use Rattle.pf_base.specs.Answers.{IsLawfulClone};
ghost use Rattle.pf_core.specs.Nodes.{NodeGraph};
ghost use Rattle.pf_informed.specs.Estimates.{AnswersInformedSearch, MayOverflow, OfInformedSearch};
ghost use Rattle.pf_informed.specs.Internal.Led.{IsLed, IsNew, OfLedSearch};

pub use crate::directed::astar_bag::{AstarSolution, astar_bag, astar_bag_collect};
use crate::discovered::astar_of;
use crate::functions::EstimateFunction;
use crate::queue::take_least;
use crate::search::Search;
use crate::turns::{begin, path_found, turn};
use pf_base::{Cost, EdgeFunction, NodeTest, PathError};
use pf_core::numbered::GoalGraph;
use pf_discovery::discovery::{Discovery, clone_of};
use pf_discovery::numbering::Numbering;
use pf_discovery::source::{EdgeSource, Weighted};
use pf_discovery::tested::{Tested, TestedBy};
use std::alloc::Allocator;
use std::hash::Hash;

/// Searches from the only node that was found, with nothing known of it yet.
pub(crate) fn search_on<N, M, C, S, T, H, A>(
    alloc: A,
    graph: &mut TestedBy<M, S, T>,
    estimate: &mut H,
    search: &mut Search<C, A>,
) -> Result<Option<(Vec<N, A>, C)>, PathError>
where
    N: Eq + Clone + Drop,
    M: Numbering<Node = N>,
    C: Cost,
    S: EdgeSource<N, C>,
    T: NodeTest<N>,
    H: EstimateFunction<N, C>,
    A: Allocator + Copy,
    requires clones { IsLawfulClone N.eq N.is_clone }
    requires one { length (M.keys graph.old.discovery.nodes) ≡ 1 }
    requires new { IsNew search.old }
    requires graph { (g : NodeGraph N) × (test : N → Bool) × (least : N → ℤ)
        × IsLed M.keys N.eq C.value S.answers T.answers H.answers g test least graph.old estimate.old search.old.estimates.items }

    ensures best { OfLedSearch M.keys N.eq C.value S.answers T.answers H.answers graph.old estimate.old search.old.estimates.items (λ start edges test least.
        IfOk result (IsCheapestOrNone N.eq edges (start ∷ []) test C.value)) }

    ensures overflow { OfLedSearch M.keys N.eq C.value S.answers T.answers H.answers graph.old estimate.old search.old.estimates.items (λ start edges test least.
        result ≡ Err PathError.CostOverflow → MayOverflow N.eq edges (start ∷ []) test least C.fits) }

    ensures errors { IfErr result (λ e. (e ≡ PathError.OutOfMemory) ⊎ (e ≡ PathError.CostOverflow)) }
{
    begin(graph, estimate, search)?;
    'turns: while let Some(taken) = take_least(
        &search.labels,
        &search.estimates,
        &mut search.queue,
    ) {
        if graph.is_goal(taken.number) {
            return path_found(alloc, graph, search, taken.number, taken.cost);
        }
        turn(graph, estimate, search, taken.number)?;
    }
    search.no_path()
}

/// A cheapest path from `start` to a node that passes `success`, with its cost, or `None` exactly where
/// no walk leads from `start` to such a node.
///
/// `successors` lists the edges of a node, each as the node that it leads to and its cost; where
/// several edges lead to one node, a step costs what the cheapest of them costs. `estimate` says what
/// the way from a node to a node that passes costs at least: it is never negative, and never above the
/// cost of any walk from the node to one that passes. It need not be consistent, and may be any number
/// from zero up where no walk leads to a node that passes. The three functions answer alike for equal
/// nodes at every call and are asked of nodes in reach of `start` alone, and no cost in reach may be
/// negative. The path begins with a clone of `start` and contains no node twice. Which of several such
/// paths is answered is open.
///
/// `pf_search/CALLING.md` has the lemmas by which a caller proves the clause `graph`.
///
/// # Errors
///
/// - `CostOverflow`: only where the cost of some path from `start`, in which no node stands twice, and
///   the estimate of its last node do not fit `C` together, and no walk to a node that passes has a
///   cost that fits.
/// - `OutOfMemory`: a request for memory was refused.
///
/// The algorithm is A* (P. E. Hart, N. J. Nilsson, B. Raphael, "A formal basis for the heuristic
/// determination of minimum cost paths", 1968), with a queue that is sorted only as far as it is read
/// (G. Navarro and R. Paredes, "On sorting, heaps, and minimum spanning trees", 2010). Of the nodes that
/// wait, one whose cost and estimate have the least sum comes first. Of equal sums, those that were
/// found while this sum was the least come first, the last one before the others; where more than 1,024
/// others wait with it, those of the greatest cost come before the rest. So where all costs are alike, as
/// on a board, little more than one way is opened. A node whose cost falls is opened again, so that
/// `successors` may be asked of it again; with a consistent estimate that does not happen. `estimate` is
/// asked once for each node that is found.
pub fn astar<N, C, IN, FN, FH, FS, A>(
    alloc: A,
    start: &N,
    successors: FN,
    estimate: FH,
    success: FS,
) -> Result<Option<(Vec<N, A>, C)>, PathError>
where
    N: Eq + Hash + Clone + Drop,
    C: Cost,
    IN: IntoIterator<Item = (N, C)>,
    FN: FnMut(&N) -> IN,
    FH: FnMut(&N) -> C,
    FS: FnMut(&N) -> bool,
    A: Allocator + Copy,
    requires clones { IsLawfulClone N.eq N.is_clone }
    requires graph { AnswersInformedSearch N.eq (start.now ∷ [])
        (⟦<FN as EdgeFunction<N, C>>⟧.answers successors) (⟦<FS as NodeTest<N>>⟧.answers success) (⟦<FH as EstimateFunction<N, C>>⟧.answers estimate) }

    ensures best { OfInformedSearch N.eq (start.now ∷ [])
        (⟦<FN as EdgeFunction<N, C>>⟧.answers successors) (⟦<FS as NodeTest<N>>⟧.answers success) (⟦<FH as EstimateFunction<N, C>>⟧.answers estimate) (λ edges test least.
        IfOk result (IsCheapestOrNone N.eq edges (start.now ∷ []) test C.value)) }

    ensures overflow { OfInformedSearch N.eq (start.now ∷ [])
        (⟦<FN as EdgeFunction<N, C>>⟧.answers successors) (⟦<FS as NodeTest<N>>⟧.answers success) (⟦<FH as EstimateFunction<N, C>>⟧.answers estimate) (λ edges test least.
        result ≡ Err PathError.CostOverflow → MayOverflow N.eq edges (start.now ∷ []) test least C.fits) }

    ensures errors { IfErr result (λ e. (e ≡ PathError.OutOfMemory) ⊎ (e ≡ PathError.CostOverflow)) }
{
    let discovery = Discovery {
        nodes: clone_of(alloc, start)?,
        source: Weighted {
            function: successors,
        },
    };
    astar_of(alloc, Tested { discovery, success }, estimate)
}
