//! Strongly connected components.

ghost use Rattle.std.specs.Prelude.{◌≡◌, ◌∷◌, [], List, IfOk, IfErr};
ghost use Rattle.pf_base.specs.Answers.{IsLawfulClone};
ghost use Rattle.pf_base.specs.Successors.{HasSuccessor};
ghost use Rattle.pf_base.specs.Walks.{IsReachable};
ghost use Rattle.pf_orders.specs.StrongComponents.{IsStrongComponentOf, AreStrongComponents, lists_of};

use crate::discovered::{component_of, components_of};
use crate::nodes::nodes_of;
use pf_base::{PathError, SuccessorFunction};
use pf_discovery::discovery::{Discovery, clone_of};
use pf_discovery::source::Unweighted;
use std::alloc::Allocator;
use std::hash::Hash;

/// The strong components of all nodes in reach of the start: each node in reach once, in the component
/// of those that it reaches and that reach it, and each component behind every other that it reaches.
///
/// `successors` lists the nodes that follow a node. It must answer alike for equal nodes at every
/// call, and is asked of nodes in reach of the start alone. The nodes are clones; their order in a
/// component is open.
///
/// `pf_search/CALLING.md` has the lemmas by which a caller proves the clause `graph`.
///
/// # Errors
///
/// `OutOfMemory`: a request for memory was refused.
///
/// The algorithm is the path-based one (H. N. Gabow, "Path-based depth-first search for strong and
/// biconnected components", 2000): its time is of the order of the number of nodes and edges in reach.
pub fn strongly_connected_components_from<N, IN, FN, A>(
    alloc: A,
    start: &N,
    successors: FN,
) -> Result<Vec<Vec<N, A>, A>, PathError>
where
    N: Eq + Hash + Clone + Drop,
    IN: IntoIterator<Item = N>,
    FN: FnMut(&N) -> IN,
    A: Allocator + Copy,
    requires clones { IsLawfulClone N.eq N.is_clone }
    requires graph { (next : N → List N) × ⟦<FN as SuccessorFunction<N>>⟧.answers successors (IsReachable N.eq (HasSuccessor N.eq next) (start.now ∷ [])) next }

    ensures components { (next : N → List N) → ⟦<FN as SuccessorFunction<N>>⟧.answers successors (IsReachable N.eq (HasSuccessor N.eq next) (start.now ∷ [])) next
        → IfOk result (λ components. AreStrongComponents N.eq next (start.now ∷ []) (lists_of components.items)) }

    ensures errors { IfErr result (λ e. e ≡ PathError.OutOfMemory) }
{
    let graph = Discovery {
        nodes: clone_of(alloc, start)?,
        source: Unweighted {
            function: successors,
        },
    };
    components_of(alloc, graph)
}

/// The strong component of a node: all nodes that it reaches and that reach it, each once.
///
/// `successors` lists the nodes that follow a node. It must answer alike for equal nodes at every
/// call, and is asked of nodes in reach of the node alone. The nodes are clones, in open order; the
/// node itself is among them.
///
/// `pf_search/CALLING.md` has the lemmas by which a caller proves the clause `graph`.
///
/// # Errors
///
/// `OutOfMemory`: a request for memory was refused.
///
/// All nodes in reach are searched (see `strongly_connected_components_from`): the component of the
/// node is the last one.
pub fn strongly_connected_component<N, IN, FN, A>(
    alloc: A,
    node: &N,
    successors: FN,
) -> Result<Vec<N, A>, PathError>
where
    N: Eq + Hash + Clone + Drop,
    IN: IntoIterator<Item = N>,
    FN: FnMut(&N) -> IN,
    A: Allocator + Copy,
    requires clones { IsLawfulClone N.eq N.is_clone }
    requires graph { (next : N → List N) × ⟦<FN as SuccessorFunction<N>>⟧.answers successors (IsReachable N.eq (HasSuccessor N.eq next) (node.now ∷ [])) next }

    ensures component { (next : N → List N) → ⟦<FN as SuccessorFunction<N>>⟧.answers successors (IsReachable N.eq (HasSuccessor N.eq next) (node.now ∷ [])) next
        → IfOk result (λ component. IsStrongComponentOf N.eq next node.now component.items) }

    ensures errors { IfErr result (λ e. e ≡ PathError.OutOfMemory) }
{
    let graph = Discovery {
        nodes: clone_of(alloc, node)?,
        source: Unweighted {
            function: successors,
        },
    };
    component_of(alloc, graph)
}

/// The strong components of all nodes in reach of the given ones: each node in reach once, in the
/// component of those that it reaches and that reach it, and each component behind every other that it
/// reaches.
///
/// `successors` lists the nodes that follow a node. It must answer alike for equal nodes at every
/// call, and is asked of nodes in reach of the given ones alone. The given nodes may repeat; the answer
/// holds clones, and the order of the nodes in a component is open. With no nodes there is no
/// component.
///
/// `pf_search/CALLING.md` has the lemmas by which a caller proves the clause `graph`.
///
/// # Errors
///
/// `OutOfMemory`: a request for memory was refused.
///
/// The algorithm is that of `strongly_connected_components_from`.
pub fn strongly_connected_components<N, IN, FN, A>(
    alloc: A,
    nodes: &[N],
    successors: FN,
) -> Result<Vec<Vec<N, A>, A>, PathError>
where
    N: Eq + Hash + Clone + Drop,
    IN: IntoIterator<Item = N>,
    FN: FnMut(&N) -> IN,
    A: Allocator + Copy,
    requires clones { IsLawfulClone N.eq N.is_clone }
    requires graph { (next : N → List N) × ⟦<FN as SuccessorFunction<N>>⟧.answers successors (IsReachable N.eq (HasSuccessor N.eq next) nodes.now) next }

    ensures components { (next : N → List N) → ⟦<FN as SuccessorFunction<N>>⟧.answers successors (IsReachable N.eq (HasSuccessor N.eq next) nodes.now) next
        → IfOk result (λ components. AreStrongComponents N.eq next nodes.now (lists_of components.items)) }

    ensures errors { IfErr result (λ e. e ≡ PathError.OutOfMemory) }
{
    let graph = Discovery {
        nodes: nodes_of(alloc, nodes)?,
        source: Unweighted {
            function: successors,
        },
    };
    components_of(alloc, graph)
}
