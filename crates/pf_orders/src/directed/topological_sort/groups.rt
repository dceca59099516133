//! Nodes in groups by depth.

ghost use Rattle.std.specs.Prelude.{◌≡◌, ◌⊎◌, [], List, ℕ, Err, IfOk, IfErr};
ghost use Rattle.pf_base.specs.Answers.{IsLawfulClone};
ghost use Rattle.pf_base.specs.Successors.{HasSuccessor};
ghost use Rattle.pf_base.specs.Walks.{HasNode, IsReachable};
ghost use Rattle.pf_orders.specs.GroupDepths.{AreClosed, HasDepth, AreDepthGroups, HaveNoDepth};

use crate::discovered::groups_in;
use crate::nodes::nodes_of;
use pf_base::{PathError, SuccessorFunction};
use pf_discovery::discovery::Discovery;
use pf_discovery::source::Unweighted;
use std::alloc::Allocator;
use std::hash::Hash;

/// The nodes in groups: group k has exactly those whose longest incoming walk from one of the nodes has
/// k steps, each once, and no group is empty. Where some nodes have no longest incoming walk, since a
/// cycle leads to them, the inner `Err` has the groups of the others, and these nodes, each once.
///
/// `successors` lists the nodes that follow a node. It must answer alike for equal nodes at every call,
/// and is asked of `nodes` alone, once of each. An edge from a node to itself is a cycle. The nodes are
/// clones; their order in a group is open. No nodes give no groups.
///
/// `pf_search/CALLING.md` has the lemmas by which a caller proves the clause `graph`.
///
/// # Errors
///
/// - `UnknownVertex`: exactly where an answer holds a node that is not one of `nodes`; this is tested
///   before anything else.
/// - `OutOfMemory`: a request for memory was refused.
///
/// The algorithm takes away nodes without predecessors, a round at a time (A. B. Kahn, "Topological
/// sorting of large networks", 1962): its time is of the order of the number of nodes and edges.
pub fn topological_sort_into_groups<N, IN, FN, A>(
    alloc: A,
    nodes: &[N],
    successors: FN,
) -> Result<Result<Vec<Vec<N, A>, A>, (Vec<Vec<N, A>, A>, Vec<N, A>)>, PathError>
where
    N: Eq + Hash + Clone + Drop,
    IN: IntoIterator<Item = N>,
    FN: FnMut(&N) -> IN,
    A: Allocator + Copy,
    requires clones { IsLawfulClone N.eq N.is_clone }
    requires graph { (next : N → List N) × ⟦<FN as SuccessorFunction<N>>⟧.answers successors (IsReachable N.eq (HasSuccessor N.eq next) nodes.now) next }

    ensures groups { (next : N → List N) → ⟦<FN as SuccessorFunction<N>>⟧.answers successors (IsReachable N.eq (HasSuccessor N.eq next) nodes.now) next
        → IfOk result (λ answer. IfOk answer (λ groups. AreDepthGroups N.eq next nodes.now groups.items
        × ((x : N) → HasNode N.eq nodes.now x → (k : ℕ) × HasDepth N.eq next nodes.now x k))) }

    ensures cycle { (next : N → List N) → ⟦<FN as SuccessorFunction<N>>⟧.answers successors (IsReachable N.eq (HasSuccessor N.eq next) nodes.now) next
        → IfOk result (λ answer. IfErr answer (λ both. AreDepthGroups N.eq next nodes.now both.0.items
        × HaveNoDepth N.eq next nodes.now both.1.items × ¬ (both.1.items ≡ []))) }

    ensures closed { (next : N → List N) → ⟦<FN as SuccessorFunction<N>>⟧.answers successors (IsReachable N.eq (HasSuccessor N.eq next) nodes.now) next
        → IfOk result (λ answer. AreClosed N.eq next nodes.now) }

    ensures unknown { (next : N → List N) → ⟦<FN as SuccessorFunction<N>>⟧.answers successors (IsReachable N.eq (HasSuccessor N.eq next) nodes.now) next
        → result ≡ Err PathError.UnknownVertex
        → (x : N) × (y : N) × HasNode N.eq nodes.now x × HasSuccessor N.eq next x y × ¬ (HasNode N.eq nodes.now y) }

    ensures errors { IfErr result (λ e. (e ≡ PathError.OutOfMemory) ⊎ (e ≡ PathError.UnknownVertex)) }
{
    let mut graph = Discovery {
        nodes: nodes_of(alloc, nodes)?,
        source: Unweighted {
            function: successors,
        },
    };
    groups_in(alloc, &mut graph)
}
