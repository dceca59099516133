//! Topological orders.

ghost use Rattle.std.specs.Prelude.{◌≡◌, ◌≤◌, ◌-◌, List, IfOk, IfErr};
ghost use Rattle.pf_base.specs.Answers.{IsLawfulClone};
ghost use Rattle.pf_base.specs.Successors.{HasSuccessor};
ghost use Rattle.pf_base.specs.Walks.{IsReachable, IsAtMostNumberOf};
ghost use Rattle.pf_orders.specs.TopologicalOrders.{IsTopologicalOrder, IsOnCycle};

mod groups;

use crate::discovered::order_in;
use crate::nodes::nodes_of;
pub use groups::topological_sort_into_groups;
use pf_base::{PathError, SuccessorFunction, Tally};
use pf_discovery::discovery::Discovery;
use pf_discovery::source::Unweighted;
use std::alloc::Allocator;
use std::hash::Hash;

/// All nodes in reach of the `roots`, each once, in an order in which every edge leads forward; or, in
/// the inner `Err`, a node in reach of the roots that lies on a cycle: a walk of at least one step leads
/// from it to itself.
///
/// `successors` lists the nodes that follow a node. It must answer alike for equal nodes at every call,
/// and is asked of nodes in reach of the roots alone. An edge from a node to itself is a cycle. The nodes
/// are clones. Which of several orders is answered is open. With no roots the order is empty.
///
/// `pf_search/CALLING.md` has the lemmas by which a caller proves the clause `graph`.
///
/// # Errors
///
/// `OutOfMemory`: a request for memory was refused.
///
/// The algorithm is depth-first search (R. Tarjan, "Edge-disjoint spanning trees and depth-first search",
/// 1976), with a stack of its own: its time is of the order of the number of nodes and edges in reach.
/// `successors` is asked at most once for each node in reach; no clause can count the calls of a function,
/// so that this is so is to be read in `Sorting::walk_on`.
pub fn topological_sort<N, IN, FN, A>(
    alloc: A,
    roots: &[N],
    successors: FN,
) -> Result<Result<Vec<N, A>, N>, PathError>
where
    N: Eq + Hash + Clone + Drop,
    IN: IntoIterator<Item = N>,
    FN: FnMut(&N) -> IN,
    A: Allocator + Copy,
    requires clones { IsLawfulClone N.eq N.is_clone }
    requires graph { (next : N → List N) × ⟦<FN as SuccessorFunction<N>>⟧.answers successors (IsReachable N.eq (HasSuccessor N.eq next) roots.now) next }

    ensures order { (next : N → List N) → ⟦<FN as SuccessorFunction<N>>⟧.answers successors (IsReachable N.eq (HasSuccessor N.eq next) roots.now) next
        → IfOk result (λ answer. IfOk answer (λ order. IsTopologicalOrder N.eq next (IsReachable N.eq (HasSuccessor N.eq next) roots.now) order.items)) }

    ensures cycle { (next : N → List N) → ⟦<FN as SuccessorFunction<N>>⟧.answers successors (IsReachable N.eq (HasSuccessor N.eq next) roots.now) next
        → IfOk result (λ answer. IfErr answer (λ node. IsReachable N.eq (HasSuccessor N.eq next) roots.now node × IsOnCycle N.eq next node)) }

    ensures errors { IfErr result (λ e. e ≡ PathError.OutOfMemory) }
{
    let mut tally = Tally::new();
    topological_sort_tallied(alloc, roots, successors, &mut tally)
}

/// The same as `topological_sort`, with one tick of `tally` for each node whose successors are asked
/// for: at most as many as there are nodes in reach of the roots, also where memory is refused.
///
/// `pf_search/CALLING.md` has the lemmas by which a caller proves the clause `graph`.
///
/// # Errors
///
/// As those of `topological_sort`.
pub fn topological_sort_tallied<N, IN, FN, A>(
    alloc: A,
    roots: &[N],
    successors: FN,
    tally: &mut Tally,
) -> Result<Result<Vec<N, A>, N>, PathError>
where
    N: Eq + Hash + Clone + Drop,
    IN: IntoIterator<Item = N>,
    FN: FnMut(&N) -> IN,
    A: Allocator + Copy,
    requires clones { IsLawfulClone N.eq N.is_clone }
    requires graph { (next : N → List N) × ⟦<FN as SuccessorFunction<N>>⟧.answers successors (IsReachable N.eq (HasSuccessor N.eq next) roots.now) next }

    ensures order { (next : N → List N) → ⟦<FN as SuccessorFunction<N>>⟧.answers successors (IsReachable N.eq (HasSuccessor N.eq next) roots.now) next
        → IfOk result (λ answer. IfOk answer (λ order. IsTopologicalOrder N.eq next (IsReachable N.eq (HasSuccessor N.eq next) roots.now) order.items)) }

    ensures cycle { (next : N → List N) → ⟦<FN as SuccessorFunction<N>>⟧.answers successors (IsReachable N.eq (HasSuccessor N.eq next) roots.now) next
        → IfOk result (λ answer. IfErr answer (λ node. IsReachable N.eq (HasSuccessor N.eq next) roots.now node × IsOnCycle N.eq next node)) }

    ensures asked { (next : N → List N) → ⟦<FN as SuccessorFunction<N>>⟧.answers successors (IsReachable N.eq (HasSuccessor N.eq next) roots.now) next
        → IsAtMostNumberOf N.eq (IsReachable N.eq (HasSuccessor N.eq next) roots.now) (tally.new - tally.old) }

    ensures ticked { tally.old ≤ tally.new }

    ensures errors { IfErr result (λ e. e ≡ PathError.OutOfMemory) }
{
    let mut graph = Discovery {
        nodes: nodes_of(alloc, roots)?,
        source: Unweighted {
            function: successors,
        },
    };
    order_in(alloc, &mut graph, tally)
}
