//! Cheapest paths (Dijkstra 1959).

ghost use Rattle.std.specs.Prelude.{◌≡◌, ◌⊎◌, ◌≤◌, ◌-◌, List, [], ◌∷◌, Bool, ℤ, Err, IfOk, IfErr, length};
ghost use Rattle.pf_base.specs.Walks.{IsAtMostNumberOf};
ghost use Rattle.pf_base.specs.Edges.{InReach, HasNoNegativeCost, AnswersWeightedSearch, OfWeightedSearch, IsCheapestOrNone, CostOverflows};
ghost use Rattle.pf_base.specs.Answers.{IsLawfulClone};
ghost use Rattle.pf_search.specs.Internal.Begun.{HasBegun, OfBegun};

pub use crate::directed::build_path::{Parents, build_path};
pub use crate::directed::dijkstra_all::{dijkstra_all, dijkstra_partial};
pub use crate::directed::dijkstra_reach::{
    DijkstraReachable, DijkstraReachableBy, DijkstraReachableItem, dijkstra_reach,
};
use pf_base::{Cost, EdgeFunction, NodeTest, PathError, Tally};
use pf_core::dijkstra::cheapest_path;
use pf_discovery::discovery::{Discovery, clone_of};
use pf_discovery::numbering::Numbering;
use pf_discovery::source::{EdgeSource, Weighted};
use pf_discovery::tested::{Tested, TestedBy};
use std::alloc::Allocator;
use std::hash::Hash;

/// A cheapest path from the only node that was found, with its cost and one tick of `tally` for each
/// node whose successors are asked for.
fn path_tallied<N, M, C, S, T, A>(
    alloc: A,
    graph: &mut TestedBy<M, S, T>,
    tally: &mut Tally,
) -> Result<Option<(Vec<N, A>, C)>, PathError>
where
    N: Eq + Clone + Drop,
    M: Numbering<Node = N>,
    C: Cost,
    S: EdgeSource<N, C>,
    T: NodeTest<N>,
    A: Allocator + Copy,
    requires clones { IsLawfulClone N.eq N.is_clone }
    requires one { length (M.keys graph.old.discovery.nodes) ≡ 1 }
    requires graph { HasBegun N.eq M.keys S.answers T.answers graph.old }

    ensures best { OfBegun N.eq M.keys S.answers T.answers graph.old (λ edges start test. HasNoNegativeCost N.eq edges (start ∷ [])
        → IfOk result (IsCheapestOrNone N.eq edges (start ∷ []) test C.value)) }

    ensures overflow { OfBegun N.eq M.keys S.answers T.answers graph.old (λ edges start test. HasNoNegativeCost N.eq edges (start ∷ [])
        → result ≡ Err PathError.CostOverflow → CostOverflows N.eq edges (start ∷ []) test C.fits) }

    ensures asked { OfBegun N.eq M.keys S.answers T.answers graph.old (λ edges start test.
        IsAtMostNumberOf N.eq (InReach N.eq edges (start ∷ [])) (tally.new - tally.old)) }

    ensures ticked { tally.old ≤ tally.new }

    ensures errors { IfErr result (λ e. (e ≡ PathError.OutOfMemory) ⊎ (e ≡ PathError.CostOverflow)) }
{
    match cheapest_path(alloc, graph, 0, tally)? {
        None => Ok(None),
        Some((numbers, cost)) => {
            let path = graph.nodes_at(alloc, &numbers)?;
            Ok(Some((path, cost)))
        }
    }
}

/// A cheapest path from `start` to a node that passes `success`, with its cost, or `None` exactly
/// where no walk leads from `start` to such a node.
///
/// `successors` lists the edges of a node, each as the node that it leads to and its cost; where
/// several edges lead to one node, a step costs what the cheapest of them costs. It must answer alike
/// for equal nodes at every call, and no cost in reach of `start` may be negative; `success` must
/// answer alike too. Both are asked of nodes in reach alone. The path is a list of clones of nodes,
/// from `start` on, and contains no node twice. Which of several cheapest paths is answered is open.
///
/// `pf_search/CALLING.md` has the lemmas by which a caller proves the clause `graph`.
///
/// # Errors
///
/// - `CostOverflow`: only where a cheapest path to some node and one step more, by the cheapest of the
///   parallel edges, cost more than `C` can hold, and no node that passes is cheaper than that node.
/// - `OutOfMemory`: a request for memory was refused.
///
/// The algorithm is Dijkstra's (E. W. Dijkstra, "A note on two problems in connexion with graphs",
/// 1959), with a queue that is sorted only as far as it is read (G. Navarro and R. Paredes, "On
/// sorting, heaps, and minimum spanning trees", 2010): over n nodes and m edges in reach it takes time
/// of the order of (n + m) log (n + m), save on costs that are chosen against it. `successors` is asked at most once for each node in reach; no clause can count the
/// calls of a function, so that this is so is to be read in `search_to_goal`.
pub fn dijkstra<N, C, IN, FN, FS, A>(
    alloc: A,
    start: &N,
    successors: FN,
    success: FS,
) -> Result<Option<(Vec<N, A>, C)>, PathError>
where
    N: Eq + Hash + Clone + Drop,
    C: Cost,
    IN: IntoIterator<Item = (N, C)>,
    FN: FnMut(&N) -> IN,
    FS: FnMut(&N) -> bool,
    A: Allocator + Copy,
    requires clones { IsLawfulClone N.eq N.is_clone }
    requires graph { AnswersWeightedSearch N.eq (start.now ∷ []) (⟦<FN as EdgeFunction<N, C>>⟧.answers successors) (⟦<FS as NodeTest<N>>⟧.answers success) }

    ensures best { OfWeightedSearch N.eq (start.now ∷ []) (⟦<FN as EdgeFunction<N, C>>⟧.answers successors) (⟦<FS as NodeTest<N>>⟧.answers success) (λ edges test.
        IfOk result (IsCheapestOrNone N.eq edges (start.now ∷ []) test C.value)) }

    ensures overflow { OfWeightedSearch N.eq (start.now ∷ []) (⟦<FN as EdgeFunction<N, C>>⟧.answers successors) (⟦<FS as NodeTest<N>>⟧.answers success) (λ edges test.
        result ≡ Err PathError.CostOverflow → CostOverflows N.eq edges (start.now ∷ []) test C.fits) }

    ensures errors { IfErr result (λ e. (e ≡ PathError.OutOfMemory) ⊎ (e ≡ PathError.CostOverflow)) }
{
    let mut tally = Tally::new();
    dijkstra_tallied(alloc, start, successors, success, &mut tally)
}

/// The same as `dijkstra`, with one tick of `tally` for each node whose successors are asked for: at
/// most as many as there are nodes in reach of `start`.
///
/// `pf_search/CALLING.md` has the lemmas by which a caller proves the clause `graph`.
///
/// # Errors
///
/// As those of `dijkstra`.
pub fn dijkstra_tallied<N, C, IN, FN, FS, A>(
    alloc: A,
    start: &N,
    successors: FN,
    success: FS,
    tally: &mut Tally,
) -> Result<Option<(Vec<N, A>, C)>, PathError>
where
    N: Eq + Hash + Clone + Drop,
    C: Cost,
    IN: IntoIterator<Item = (N, C)>,
    FN: FnMut(&N) -> IN,
    FS: FnMut(&N) -> bool,
    A: Allocator + Copy,
    requires clones { IsLawfulClone N.eq N.is_clone }
    requires graph { AnswersWeightedSearch N.eq (start.now ∷ []) (⟦<FN as EdgeFunction<N, C>>⟧.answers successors) (⟦<FS as NodeTest<N>>⟧.answers success) }

    ensures best { OfWeightedSearch N.eq (start.now ∷ []) (⟦<FN as EdgeFunction<N, C>>⟧.answers successors) (⟦<FS as NodeTest<N>>⟧.answers success) (λ edges test.
        IfOk result (IsCheapestOrNone N.eq edges (start.now ∷ []) test C.value)) }

    ensures overflow { OfWeightedSearch N.eq (start.now ∷ []) (⟦<FN as EdgeFunction<N, C>>⟧.answers successors) (⟦<FS as NodeTest<N>>⟧.answers success) (λ edges test.
        result ≡ Err PathError.CostOverflow → CostOverflows N.eq edges (start.now ∷ []) test C.fits) }

    ensures asked { (edges : N → List (N × ℤ)) (test : N → Bool)
        → ⟦<FN as EdgeFunction<N, C>>⟧.answers successors (InReach N.eq edges (start.now ∷ [])) edges
        → ⟦<FS as NodeTest<N>>⟧.answers success (InReach N.eq edges (start.now ∷ [])) test
        → IsAtMostNumberOf N.eq (InReach N.eq edges (start.now ∷ [])) (tally.new - tally.old) }

    ensures ticked { tally.old ≤ tally.new }

    ensures errors { IfErr result (λ e. (e ≡ PathError.OutOfMemory) ⊎ (e ≡ PathError.CostOverflow)) }
{
    let discovery = Discovery {
        nodes: clone_of(alloc, start)?,
        source: Weighted {
            function: successors,
        },
    };
    path_tallied(alloc, &mut Tested { discovery, success }, tally)
}
