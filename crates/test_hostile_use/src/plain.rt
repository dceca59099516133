//! The calls over graphs without costs, behind one function.

ghost use Rattle.std.specs.Prelude.{◌≡◌, ◌∷◌, [], List, Bool};
ghost use Rattle.std.specs.Mem.{FitsInMemory};
ghost use Rattle.pf_base.specs.Answers.{IsLawfulClone};
ghost use Rattle.pf_base.specs.Successors.{IsUnweightedSearch};

use crate::walks::all_of;
use pf_base::{NodeTest, PathError, SuccessorFunction};
use pf_node_refs::NodeRefs;
use pf_orders::directed::strongly_connected_components::{
    strongly_connected_component, strongly_connected_components, strongly_connected_components_from,
};
use pf_orders::directed::topological_sort::topological_sort;
use pf_search::directed::bfs::{bfs, bfs_loop, bfs_reach};
use pf_search::directed::dfs::{dfs, dfs_reach};
use pf_search::directed::iddfs::iddfs;
use std::alloc::Global;
use std::hash::Hash;

/// A call from one node.
#[derive(Clone, Copy)]
pub enum PlainCall {
    /// `bfs`.
    Bfs,
    /// `bfs_loop`.
    Loop,
    /// `bfs_reach`.
    BreadthWalk,
    /// `dfs`.
    Dfs,
    /// `dfs_reach`.
    DepthWalk,
    /// `iddfs`.
    Iddfs,
    /// `topological_sort`.
    Order,
    /// `strongly_connected_component`.
    Component,
    /// `strongly_connected_components_from`.
    ComponentsFrom,
    /// `strongly_connected_components`.
    Components,
}

/// The calls that answer one list, whose order is known where each node has one successor at most.
pub const LIST_CALLS: &[PlainCall] = &[
    PlainCall::Bfs,
    PlainCall::Loop,
    PlainCall::BreadthWalk,
    PlainCall::Dfs,
    PlainCall::DepthWalk,
    PlainCall::Iddfs,
    PlainCall::Order,
];

/// The calls that answer components.
pub const COMPONENT_CALLS: &[PlainCall] = &[
    PlainCall::Component,
    PlainCall::ComponentsFrom,
    PlainCall::Components,
];

/// Lists of nodes: one path, walk, order or component, or several components; none where there is no
/// such path or order.
pub type Lists<N> = Result<Vec<Vec<N>>, PathError>;

/// The list in a list.
fn alone<N: Copy>(alloc: Global, list: Result<Vec<N>, PathError>) -> Lists<N> {
    let mut lists = Vec::new(alloc);
    lists.push(list?)?;
    Ok(lists)
}

/// The list, if there is one, in a list.
fn alone_or_none<N: Copy>(alloc: Global, list: Result<Option<Vec<N>>, PathError>) -> Lists<N> {
    match list? {
        Some(list) => alone(alloc, Ok(list)),
        None => Ok(Vec::new(alloc)),
    }
}

/// The order, if there is one, in a list.
fn order_or_none<N: Copy>(alloc: Global, order: Result<Result<Vec<N>, N>, PathError>) -> Lists<N> {
    match order? {
        Ok(order) => alone(alloc, Ok(order)),
        Err(_) => Ok(Vec::new(alloc)),
    }
}

/// What a call from a node answers, of which `starts` is the set. The searches go to a node that
/// passes `success`.
pub fn plain<N, IN, FN, FS>(
    alloc: Global,
    call: PlainCall,
    start: N,
    starts: &NodeRefs<'_, N>,
    successors: FN,
    success: FS,
) -> Lists<N>
where
    N: Eq + Hash + Copy,
    IN: IntoIterator<Item = N>,
    FN: FnMut(&N) -> IN,
    FS: FnMut(&N) -> bool,
    requires clones { IsLawfulClone N.eq N.is_clone }
    requires room { FitsInMemory N.row }
    requires one { starts.now ≡ start ∷ [] }
    requires graph { (next : N → List N) × (test : N → Bool)
        × IsUnweightedSearch N.eq next (start ∷ []) (⟦<FN as SuccessorFunction<N>>⟧.answers successors) (⟦<FS as NodeTest<N>>⟧.answers success) test }
{
    match call {
        PlainCall::Bfs => alone_or_none(alloc, bfs(alloc, starts, successors, success)),
        PlainCall::Loop => alone_or_none(alloc, bfs_loop(alloc, starts, successors)),
        PlainCall::BreadthWalk => alone(alloc, all_of(alloc, bfs_reach(alloc, start, successors))),
        PlainCall::Dfs => alone_or_none(alloc, dfs(alloc, start, successors, success)),
        PlainCall::DepthWalk => alone(alloc, all_of(alloc, dfs_reach(alloc, start, successors))),
        PlainCall::Iddfs => alone_or_none(alloc, iddfs(alloc, start, successors, success)),
        PlainCall::Order => order_or_none(alloc, topological_sort(alloc, &[start], successors)),
        PlainCall::Component => {
            alone(
                alloc,
                strongly_connected_component(alloc, &start, successors),
            )
        }
        PlainCall::ComponentsFrom => strongly_connected_components_from(alloc, &start, successors),
        PlainCall::Components => strongly_connected_components(alloc, &[start], successors),
    }
}
