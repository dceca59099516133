//! Connected components: groups of vertices, joined where they share vertices.
//!
//! The groups, numbered in order, are kept in disjoint sets by union and find (Galler and Fischer
//! 1964).

ghost use Rattle.std.specs.Prelude.{◌≡◌, List, Some, if◌then◌else◌, IfOk, IfErr, OnOk};
ghost use Rattle.std.specs.HashMap.{get};
ghost use Rattle.std.specs.HashSet.{contains};
ghost use Rattle.pf_base.specs.Answers.{IsLawfulClone};
ghost use Rattle.pf_base.specs.Walks.{HasNode};
ghost use Rattle.pf_base.specs.declared.error.PathError.TheVariants.{OutOfMemory};
ghost use Rattle.pf_components.specs.Components.{AreIdentified, MapsVertices, MapsToGreatest, IsComponents, IsComponentsAround};
ghost use Rattle.pf_components.specs.Internal.DisjointSets.{AreRowsOf};

use crate::around::groups_around;
use crate::disjoint_sets::{map_nodes, unite_groups};
pub use crate::node_sets::SetIn;
use crate::node_sets::{collect_nodes, collect_sets};
use pf_base::{PathError, SuccessorFunction};
use pf_union_find::rows::Rows;
use std::alloc::Allocator;
use std::collections::{HashMap, HashSet};
use std::hash::{BuildHasher, BuildHasherDefault, FoldHasher, Hash};
use std::marker::PhantomData;

/// A map whose memory is of the allocator `A`, with the standard hasher.
pub type MapIn<K, V, A> = HashMap<K, V, BuildHasherDefault<FoldHasher>, A>;

/// An identifier for each vertex, and for each group in order.
///
/// Vertices in one group are connected, and equal vertices are one. The identifier of a group is
/// below the number of groups, and two groups have the same one exactly where a chain of shared
/// vertices joins them; an empty group has `usize::MAX`. The map has exactly the vertices, each with
/// the identifier of its groups. The only error is `OutOfMemory`.
pub fn separate_components<'a, N, A, B>(
    alloc: A,
    groups: &'a [Vec<N, B>],
) -> Result<(MapIn<&'a N, usize, A>, Vec<usize, A>), PathError>
where
    N: Eq + Hash,
    A: Allocator + Copy,
    B: Allocator,
    ensures identified { IfOk result (λ r. AreIdentified N.eq groups.now r.1.items) }
    ensures mapped { IfOk result (λ r. MapsVertices N.eq groups.now r.1.items r.0) }
    ensures refused { IfErr result (λ e. e ≡ OutOfMemory) }
{
    let united = unite_groups(alloc, groups)?;
    let of_vertex = map_nodes(alloc, united.nodes.as_slice(), &united.first, &united.ids)?;
    Ok((of_vertex, united.ids))
}

/// Puts the nodes of a set into the map, with the index of the set.
fn index_nodes<N, S, A, B>(
    of_node: &mut MapIn<N, usize, A>,
    index: usize,
    nodes: &HashSet<N, S, B>,
) -> Result<(), PathError>
where
    N: Eq + Hash + Clone,
    S: BuildHasher,
    A: Allocator + Clone,
    B: Allocator,
    requires clones { IsLawfulClone N.eq N.is_clone }
    ensures indexed { OnOk result ((x : N) → get N.eq of_node.new x ≡ (if contains N.eq nodes.now x then Some index else get N.eq of_node.old x)) }
    ensures refused { IfErr result (λ e. e ≡ OutOfMemory) }
{
    for node in nodes {
        of_node.insert(node.clone()?, index)?;
    }
    Ok(())
}

/// The index of the set that a node is in, for all nodes of the sets.
///
/// The map has exactly the nodes of the sets, as keys that are equal to them. A node in several sets
/// has the greatest of their indices. A clone of a node must be equal to it. The only error is
/// `OutOfMemory`.
pub fn component_index<N, S, A, B>(
    alloc: A,
    components: &[HashSet<N, S, B>],
) -> Result<MapIn<N, usize, A>, PathError>
where
    N: Eq + Hash + Clone,
    S: BuildHasher,
    A: Allocator + Copy,
    B: Allocator,
    requires clones { IsLawfulClone N.eq N.is_clone }
    ensures greatest { IfOk result (MapsToGreatest N.eq components.now) }
    ensures refused { IfErr result (λ e. e ≡ OutOfMemory) }
{
    let mut of_node = HashMap::new(alloc);
    for (index, nodes) in components.iter().enumerate() {
        index_nodes(&mut of_node, index, nodes)?;
    }
    Ok(of_node)
}

/// The vertices of each disjoint set of groups, in rows. What numbers them is given back before the
/// sets take their memory.
fn node_rows<'a, N, A, B>(alloc: A, groups: &'a [Vec<N, B>]) -> Result<Rows<&'a N, A>, PathError>
where
    N: Eq + Hash,
    A: Allocator + Copy,
    B: Allocator,
    ensures rows { IfOk result (AreRowsOf N.eq groups.now) }
    ensures refused { IfErr result (λ e. e ≡ OutOfMemory) }
{
    let united = unite_groups(alloc, groups)?;
    collect_nodes(alloc, united.nodes.as_slice(), &united.first, &united.ids)
}

/// The sets of vertices that chains of groups with shared vertices join.
///
/// Each set has exactly the vertices of the groups that such chains join, as nodes that are equal to
/// them, and each vertex is in one set; empty groups give none. The order of the sets is open. A clone
/// of a vertex must be equal to it. The only error is `OutOfMemory`.
pub fn components<N, A, B>(alloc: A, groups: &[Vec<N, B>]) -> Result<Vec<SetIn<N, A>, A>, PathError>
where
    N: Eq + Hash + Clone,
    A: Allocator + Copy,
    B: Allocator,
    requires clones { IsLawfulClone N.eq N.is_clone }
    ensures components { IfOk result (λ sets. IsComponents N.eq groups.now sets.items) }
    ensures refused { IfErr result (λ e. e ≡ OutOfMemory) }
{
    let rows = node_rows(alloc, groups)?;
    collect_sets(alloc, &rows)
}

/// The sets of nodes that are connected around some starts.
///
/// Each start is connected with the nodes that `adjacent` lists for it, and all that is connected with
/// one node is connected. Each set has exactly the nodes of one such class, as nodes that are equal to
/// them, and each start and each node that is listed for one is in one set. `adjacent` must answer
/// alike for equal nodes at every call, and is called on the starts alone, once on each: what it would
/// list for other nodes connects nothing. The order of the sets is open. A clone of a node must be
/// equal to it. The only error is `OutOfMemory`.
///
/// `pf_search/CALLING.md` has the lemmas by which a caller proves the clause `graph`.
pub fn connected_components<N, IN, FN, A>(
    alloc: A,
    starts: &[N],
    adjacent: FN,
) -> Result<Vec<SetIn<N, A>, A>, PathError>
where
    N: Eq + Hash + Clone,
    IN: IntoIterator<Item = N>,
    FN: FnMut(&N) -> IN,
    A: Allocator + Copy,
    requires clones { IsLawfulClone N.eq N.is_clone }
    requires graph { (next : N → List N) × ⟦<FN as SuccessorFunction<N>>⟧.answers adjacent (HasNode N.eq starts.now) next }
    ensures components { IfOk result (λ sets. (next : N → List N) → ⟦<FN as SuccessorFunction<N>>⟧.answers adjacent (HasNode N.eq starts.now) next
        → IsComponentsAround N.eq next starts.now sets.items) }
    ensures refused { IfErr result (λ e. e ≡ OutOfMemory) }
{
    let groups = groups_around(alloc, starts, adjacent)?;
    components(alloc, &groups)
}

/// The calls of this module as associated functions of the type of nodes.
pub struct ConnectedComponents<N> {
    nodes: PhantomData<N>,
}

impl<N: Eq + Hash> ConnectedComponents<N> {
    /// As the function `separate_components`.
    pub fn separate_components<'a, A, B>(
        alloc: A,
        groups: &'a [Vec<N, B>],
    ) -> Result<(MapIn<&'a N, usize, A>, Vec<usize, A>), PathError>
    where
        A: Allocator + Copy,
        B: Allocator,
        ensures identified { IfOk result (λ r. AreIdentified N.eq groups.now r.1.items) }
        ensures mapped { IfOk result (λ r. MapsVertices N.eq groups.now r.1.items r.0) }
        ensures refused { IfErr result (λ e. e ≡ OutOfMemory) }
    {
        separate_components(alloc, groups)
    }

    /// As the function `components`.
    pub fn components<A, B>(
        alloc: A,
        groups: &[Vec<N, B>],
    ) -> Result<Vec<SetIn<N, A>, A>, PathError>
    where
        N: Clone,
        A: Allocator + Copy,
        B: Allocator,
        requires clones { IsLawfulClone N.eq N.is_clone }
        ensures components { IfOk result (λ sets. IsComponents N.eq groups.now sets.items) }
        ensures refused { IfErr result (λ e. e ≡ OutOfMemory) }
    {
        components(alloc, groups)
    }

    /// As the function `connected_components`.
    pub fn connected_components<IN, FN, A>(
        alloc: A,
        starts: &[N],
        adjacent: FN,
    ) -> Result<Vec<SetIn<N, A>, A>, PathError>
    where
        N: Clone,
        IN: IntoIterator<Item = N>,
        FN: FnMut(&N) -> IN,
        A: Allocator + Copy,
        requires clones { IsLawfulClone N.eq N.is_clone }
        requires graph { (next : N → List N) × ⟦<FN as SuccessorFunction<N>>⟧.answers adjacent (HasNode N.eq starts.now) next }
        ensures components { IfOk result (λ sets. (next : N → List N) → ⟦<FN as SuccessorFunction<N>>⟧.answers adjacent (HasNode N.eq starts.now) next
            → IsComponentsAround N.eq next starts.now sets.items) }
        ensures refused { IfErr result (λ e. e ≡ OutOfMemory) }
    {
        connected_components(alloc, starts, adjacent)
    }

    /// As the function `component_index`.
    pub fn component_index<S, A, B>(
        alloc: A,
        components: &[HashSet<N, S, B>],
    ) -> Result<MapIn<N, usize, A>, PathError>
    where
        N: Clone,
        S: BuildHasher,
        A: Allocator + Copy,
        B: Allocator,
        requires clones { IsLawfulClone N.eq N.is_clone }
        ensures greatest { IfOk result (MapsToGreatest N.eq components.now) }
        ensures refused { IfErr result (λ e. e ≡ OutOfMemory) }
    {
        component_index(alloc, components)
    }
}
