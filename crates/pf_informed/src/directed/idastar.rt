//! Cheapest paths by limits on cost and estimate that grow.

ghost use Rattle.std.specs.Prelude.{◌≡◌, ◌⊎◌, [], ◌∷◌, Err, IfOk, IfErr};
ghost use Rattle.pf_base.specs.Edges.{IsCheapestOrNone};
ghost use Rattle.pf_base.specs.Answers.{IsLawfulClone};
ghost use Rattle.pf_informed.specs.Estimates.{AnswersInformedSearch, MayOverflow, OfInformedSearch};
ghost use Rattle.pf_informed.specs.Internal.Rows.{AnswersKnownSearch, found_in, IsTabled, KeepsNone, OfKnownSearch};

use crate::directed::idastar::known::Known;
use crate::directed::idastar::round::{Round, look_through};
use crate::discovered::idastar_of;
use crate::estimates::ask;
use crate::functions::EstimateFunction;
use pf_base::{Cost, EdgeFunction, NodeTest, PathError};
use pf_discovery::discovery::{Discovery, clone_of};
use pf_discovery::numbering::Numbering;
use pf_discovery::source::{EdgeSource, Weighted};
use pf_discovery::tested::Tested;
use std::alloc::Allocator;
use std::hash::Hash;

mod cheapest_row;
pub(crate) mod known;
mod round;

/// Searches from the only node that was found, with nothing known of it yet.
pub(crate) fn search_on<N, M, C, S, T, H, A>(
    alloc: A,
    known: &mut Known<M, C, S, T, H, A>,
) -> Result<Option<(Vec<N, A>, C)>, PathError>
where
    N: Eq + Clone + Drop,
    M: Numbering<Node = N>,
    C: Cost,
    S: EdgeSource<N, C>,
    T: NodeTest<N>,
    H: EstimateFunction<N, C>,
    A: Allocator + Copy,
    requires clones { IsLawfulClone N.eq N.is_clone }
    requires one { found_in M.keys known.old ≡ 1 }
    requires unasked { known.old.estimates.items ≡ [] }
    requires table { IsTabled M.keys known.old }
    requires unopened { KeepsNone known.old.rows.spans.items }
    requires graph { AnswersKnownSearch M.keys N.eq C.value S.answers T.answers H.answers known.old }

    ensures best { OfKnownSearch M.keys N.eq C.value S.answers T.answers H.answers known.old (λ start edges test least.
        IfOk result (IsCheapestOrNone N.eq edges (start ∷ []) test C.value)) }

    ensures overflow { OfKnownSearch M.keys N.eq C.value S.answers T.answers H.answers known.old (λ start edges test least.
        result ≡ Err PathError.CostOverflow → MayOverflow N.eq edges (start ∷ []) test least C.fits) }

    ensures errors { IfErr result (λ e. (e ≡ PathError.OutOfMemory) ⊎ (e ≡ PathError.CostOverflow)) }
{
    ask(
        &known.graph.discovery.nodes,
        &mut known.estimate,
        &mut known.estimates,
    )?;
    let mut limit = known.estimates[0];
    'limits: loop {
        match look_through(alloc, known, limit)? {
            Round::Found { numbers, cost } => {
                let nodes = known.graph.nodes_at(alloc, &numbers)?;
                return Ok(Some((nodes, cost)));
            }
            Round::Missed { least, past } => {
                let Some(least) = least else {
                    if past {
                        return Err(PathError::CostOverflow);
                    }
                    return Ok(None);
                };
                least.known();
                limit = least;
            }
        }
    }
}

/// A cheapest path from `start` to a node that passes `success`, with its cost, or `None` exactly where
/// no walk leads from `start` to such a node.
///
/// `successors` lists the edges of a node, each as the node that it leads to and its cost; where
/// several edges lead to one node, a step costs what the cheapest of them costs. `estimate` says what
/// the way from a node to a node that passes costs at least: it is never negative, and never above the
/// cost of any walk from the node to one that passes. It need not be consistent, and may be any number
/// from zero up where no walk leads to a node that passes. The three functions answer alike for equal
/// nodes at every call and are asked of nodes in reach of `start` alone, again for each way that comes
/// to a node, and no cost in reach may be negative. The path begins with a clone of `start` and contains
/// no node twice. Which of several such paths is answered is open.
///
/// `pf_search/CALLING.md` has the lemmas by which a caller proves the clause `graph`.
///
/// # Errors
///
/// - `CostOverflow`: only where the cost of some path from `start`, in which no node stands twice, and
///   the estimate of its last node do not fit `C` together, and no walk to a node that passes has a
///   cost that fits.
/// - `OutOfMemory`: a request for memory was refused.
///
/// The algorithm is iterative deepening A* (R. E. Korf, "Depth-first iterative-deepening: an optimal
/// admissible tree search", 1985): the paths from `start` whose costs and estimates stay within a limit
/// are looked through depth first, and the least sum that was cut off is the next limit. The way is kept
/// as a set in order, and no node of it is entered again. Its time is of the order of the number of these
/// paths. Memory is taken for the nodes on the way and those that a step from them leads to alone, since
/// a node is forgotten when the way goes back from it.
pub fn idastar<N, C, IN, FN, FH, FS, A>(
    alloc: A,
    start: &N,
    successors: FN,
    estimate: FH,
    success: FS,
) -> Result<Option<(Vec<N, A>, C)>, PathError>
where
    N: Eq + Hash + Clone + Drop,
    C: Cost,
    IN: IntoIterator<Item = (N, C)>,
    FN: FnMut(&N) -> IN,
    FH: FnMut(&N) -> C,
    FS: FnMut(&N) -> bool,
    A: Allocator + Copy,
    requires clones { IsLawfulClone N.eq N.is_clone }
    requires graph { AnswersInformedSearch N.eq (start.now ∷ [])
        (⟦<FN as EdgeFunction<N, C>>⟧.answers successors) (⟦<FS as NodeTest<N>>⟧.answers success) (⟦<FH as EstimateFunction<N, C>>⟧.answers estimate) }

    ensures best { OfInformedSearch N.eq (start.now ∷ [])
        (⟦<FN as EdgeFunction<N, C>>⟧.answers successors) (⟦<FS as NodeTest<N>>⟧.answers success) (⟦<FH as EstimateFunction<N, C>>⟧.answers estimate) (λ edges test least.
        IfOk result (IsCheapestOrNone N.eq edges (start.now ∷ []) test C.value)) }

    ensures overflow { OfInformedSearch N.eq (start.now ∷ [])
        (⟦<FN as EdgeFunction<N, C>>⟧.answers successors) (⟦<FS as NodeTest<N>>⟧.answers success) (⟦<FH as EstimateFunction<N, C>>⟧.answers estimate) (λ edges test least.
        result ≡ Err PathError.CostOverflow → MayOverflow N.eq edges (start.now ∷ []) test least C.fits) }

    ensures errors { IfErr result (λ e. (e ≡ PathError.OutOfMemory) ⊎ (e ≡ PathError.CostOverflow)) }
{
    let discovery = Discovery {
        nodes: clone_of(alloc, start)?,
        source: Weighted {
            function: successors,
        },
    };
    idastar_of(alloc, Tested { discovery, success }, estimate)
}
