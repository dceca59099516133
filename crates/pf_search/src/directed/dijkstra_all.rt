//! Cheapest paths to all nodes in reach of a start, or to those up to a node at which the search stops.

ghost use Rattle.std.specs.Prelude.{◌≡◌, ◌⊎◌, [], ◌∷◌, Err, false, IfOk, IfErr};
ghost use Rattle.std.specs.HashMap.{get};
ghost use Rattle.pf_base.specs.Answers.{IsLawfulClone};
ghost use Rattle.pf_base.specs.Edges.{AnswersWeightedGraph, OfWeightedGraph, AnswersWeightedSearch, OfWeightedSearch, CostOverflows};
ghost use Rattle.pf_search.specs.Parents.{IsCheapestMap, IsPartialMap};

use crate::directed::build_path::Parents;
use crate::discovered::partial_map;
use pf_base::{Cost, EdgeFunction, NodeTest, PathError};
use pf_discovery::discovery::{Discovery, clone_of};
use pf_discovery::source::Weighted;
use pf_discovery::tested::Tested;
use std::alloc::Allocator;
use std::hash::Hash;

/// The parents and the cheapest costs of all nodes in reach of `start`, save the start.
///
/// Exactly the other nodes in reach have an entry: what a cheapest path from the start to the node
/// costs, and a parent, whose own cheapest cost and one step to the node give that. Who follows parents
/// from an entry meets no node twice and ends at the start, as `build_path` does. Nodes are clones.
/// Which of several cheapest parents is named is open.
///
/// `successors` lists the edges of a node, each as the node that it leads to and its cost; where
/// several edges lead to one node, a step costs what the cheapest of them costs. It must answer alike
/// for equal nodes at every call, and no cost in reach of `start` may be negative. It is asked of
/// nodes in reach alone.
///
/// `pf_search/CALLING.md` has the lemmas by which a caller proves the clause `graph`.
///
/// # Errors
///
/// - `CostOverflow`: only where a cheapest path to some node and one step more, by the cheapest of the
///   parallel edges, cost more than `C` can hold.
/// - `OutOfMemory`: a request for memory was refused.
///
/// The algorithm is Dijkstra's (E. W. Dijkstra, "A note on two problems in connexion with graphs",
/// 1959), with a queue that is sorted only as far as it is read.
pub fn dijkstra_all<N, C, IN, FN, A>(
    alloc: A,
    start: &N,
    successors: FN,
) -> Result<Parents<N, C, A>, PathError>
where
    N: Eq + Hash + Clone + Drop,
    C: Cost,
    IN: IntoIterator<Item = (N, C)>,
    FN: FnMut(&N) -> IN,
    A: Allocator + Copy,
    requires clones { IsLawfulClone N.eq N.is_clone }
    requires graph { AnswersWeightedGraph N.eq (start.now ∷ []) (⟦<FN as EdgeFunction<N, C>>⟧.answers successors) }

    ensures cheapest { OfWeightedGraph N.eq (start.now ∷ []) (⟦<FN as EdgeFunction<N, C>>⟧.answers successors) (λ edges.
        IfOk result (λ parents. IsCheapestMap N.eq edges start.now C.value (get N.eq parents))) }

    ensures overflow { OfWeightedGraph N.eq (start.now ∷ []) (⟦<FN as EdgeFunction<N, C>>⟧.answers successors) (λ edges.
        result ≡ Err PathError.CostOverflow → CostOverflows N.eq edges (start.now ∷ []) (λ _. false) C.fits) }

    ensures errors { IfErr result (λ e. (e ≡ PathError.OutOfMemory) ⊎ (e ≡ PathError.CostOverflow)) }
{
    let (parents, _) = dijkstra_partial(alloc, start, successors, |_: &N| false)?;
    Ok(parents)
}

/// The parents and costs of the nodes that a search by rising cost has found where it comes to the
/// first node that `stop` takes, and that node, or `None` where no node in reach is taken.
///
/// `stop` is asked of nodes by rising cost, the start first. Exactly the nodes to which a step leads
/// from a node before the stopping one have an entry, save the start. It names the least cost that a
/// node before the stopping one, at its cheapest cost, and one step give, and such a node as the
/// parent. An entry that costs no more than the stopping node is that of a cheapest path; one that
/// costs more need not be. Who follows parents from an entry meets no node twice and ends at the
/// start. Nodes are clones. The order of nodes of one cost, and which of several parents is named, is
/// open.
///
/// `successors` is as for `dijkstra_all`. `stop` must answer alike for equal nodes at every call, and
/// is asked of nodes in reach alone.
///
/// `pf_search/CALLING.md` has the lemmas by which a caller proves the clause `graph`.
///
/// # Errors
///
/// - `CostOverflow`: only where a cheapest path to some node and one step more, by the cheapest of the
///   parallel edges, cost more than `C` can hold, and no node that `stop` takes is cheaper than that
///   node.
/// - `OutOfMemory`: a request for memory was refused.
///
/// The algorithm is Dijkstra's (E. W. Dijkstra, "A note on two problems in connexion with graphs",
/// 1959), with a queue that is sorted only as far as it is read.
pub fn dijkstra_partial<N, C, IN, FN, FS, A>(
    alloc: A,
    start: &N,
    successors: FN,
    stop: FS,
) -> Result<(Parents<N, C, A>, Option<N>), PathError>
where
    N: Eq + Hash + Clone + Drop,
    C: Cost,
    IN: IntoIterator<Item = (N, C)>,
    FN: FnMut(&N) -> IN,
    FS: FnMut(&N) -> bool,
    A: Allocator + Copy,
    requires clones { IsLawfulClone N.eq N.is_clone }
    requires graph { AnswersWeightedSearch N.eq (start.now ∷ []) (⟦<FN as EdgeFunction<N, C>>⟧.answers successors) (⟦<FS as NodeTest<N>>⟧.answers stop) }

    ensures partial { OfWeightedSearch N.eq (start.now ∷ []) (⟦<FN as EdgeFunction<N, C>>⟧.answers successors) (⟦<FS as NodeTest<N>>⟧.answers stop) (λ edges test.
        IfOk result (λ found. IsPartialMap N.eq edges start.now C.value (get N.eq found.0) test found.1)) }

    ensures overflow { OfWeightedSearch N.eq (start.now ∷ []) (⟦<FN as EdgeFunction<N, C>>⟧.answers successors) (⟦<FS as NodeTest<N>>⟧.answers stop) (λ edges test.
        result ≡ Err PathError.CostOverflow → CostOverflows N.eq edges (start.now ∷ []) test C.fits) }

    ensures errors { IfErr result (λ e. (e ≡ PathError.OutOfMemory) ⊎ (e ≡ PathError.CostOverflow)) }
{
    let discovery = Discovery {
        nodes: clone_of(alloc, start)?,
        source: Weighted {
            function: successors,
        },
    };
    let mut graph = Tested {
        discovery,
        success: stop,
    };
    partial_map(alloc, &mut graph)
}
