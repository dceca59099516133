//! Disjoint sets of groups of vertices: groups that share vertices are in one set.

ghost use Rattle.std.specs.Prelude.{◌≡◌, ◌<◌, ◌≤◌, ◌∷◌, ◌++◌, [], ℕ, List, All, length, map, IfOk, IfErr, OnOk};
ghost use Rattle.pf_base.specs.declared.error.PathError.TheVariants.{OutOfMemory};
ghost use Rattle.pf_components.specs.Internal.DisjointSets.{IsGathered, IsIdOf, Identifies, AreDisjointSets, MapsByFirst, pair_with, pairs_from};
ghost use Rattle.pf_union_find.specs.UnionFind.{IsSound, IsLabelling};

use indexmap::IndexSet;
use pf_base::PathError;
use pf_union_find::Nodes;
use pf_union_find::union_find::{find, make_sets, unite};
use pf_union_find::vertex_number::VertexNumber;
use std::alloc::Allocator;
use std::collections::HashMap;
use std::hash::{BuildHasherDefault, FoldHasher, Hash};

/// Notes that a group has a node: its set is united with those of the groups that have the node too.
fn gather_node<'a, N, V, A>(
    nodes: &mut Nodes<'a, N, A>,
    first: &mut Vec<usize, A>,
    parents: &mut [V],
    group: usize,
    node: &'a N,
) -> Result<(), PathError>
where
    N: Eq + Hash,
    V: VertexNumber,
    A: Allocator,
    requires gathered { (pairs : List (ℕ × N)) × IsGathered N.eq pairs nodes.old.keys first.old.items (map V.stands_for parents.old) }
    requires inside { group < length parents.old }
    requires fit { length parents.old ≤ V.bound }
    ensures gathered { OnOk result ((pairs : List (ℕ × N)) → IsGathered N.eq pairs nodes.old.keys first.old.items (map V.stands_for parents.old)
        → IsGathered N.eq (pairs ++ (group, node.now) ∷ []) nodes.new.keys first.new.items (map V.stands_for parents.new)) }
    ensures refused { IfErr result (λ e. e ≡ OutOfMemory) }
{
    let (number, added) = nodes.insert_full(node)?;
    if added {
        first.push(group)?;
    } else {
        unite(parents, group, first[number]);
    }
    Ok(())
}

/// Notes that a group has some nodes.
fn gather_group<'a, N, V, A>(
    nodes: &mut Nodes<'a, N, A>,
    first: &mut Vec<usize, A>,
    parents: &mut [V],
    group: usize,
    members: &'a [N],
) -> Result<(), PathError>
where
    N: Eq + Hash,
    V: VertexNumber,
    A: Allocator,
    requires gathered { (pairs : List (ℕ × N)) × IsGathered N.eq pairs nodes.old.keys first.old.items (map V.stands_for parents.old) }
    requires inside { group < length parents.old }
    requires fit { length parents.old ≤ V.bound }
    ensures gathered { OnOk result ((pairs : List (ℕ × N)) → IsGathered N.eq pairs nodes.old.keys first.old.items (map V.stands_for parents.old)
        → IsGathered N.eq (pairs ++ map (pair_with group) members.now) nodes.new.keys first.new.items (map V.stands_for parents.new)) }
    ensures refused { IfErr result (λ e. e ≡ OutOfMemory) }
{
    for node in members {
        gather_node(nodes, first, parents, group, node)?;
    }
    Ok(())
}

/// Notes the nodes of all groups.
fn gather<'a, N, V, A, B>(
    nodes: &mut Nodes<'a, N, A>,
    first: &mut Vec<usize, A>,
    parents: &mut [V],
    groups: &'a [Vec<N, B>],
) -> Result<(), PathError>
where
    N: Eq + Hash,
    V: VertexNumber,
    A: Allocator,
    B: Allocator,
    requires none { IsGathered N.eq [] nodes.old.keys first.old.items (map V.stands_for parents.old) }
    requires inside { length parents.old ≡ length groups.now }
    requires fit { length parents.old ≤ V.bound }
    ensures gathered { OnOk result (IsGathered N.eq (pairs_from 0 groups.now) nodes.new.keys first.new.items (map V.stands_for parents.new)) }
    ensures refused { IfErr result (λ e. e ≡ OutOfMemory) }
{
    for (group, members) in groups.iter().enumerate() {
        gather_group(nodes, first, parents, group, members)?;
    }
    Ok(())
}

/// The identifier of a group: the root of its set, or `usize::MAX` where it has no members.
fn identifier<N, V: VertexNumber>(parents: &mut [V], group: usize, members: &[N]) -> usize
    requires sound { IsSound (map V.stands_for parents.old) }
    requires inside { group < length parents.old }
    ensures sound { IsSound (map V.stands_for parents.new) }
    ensures labels { (label : ℕ → ℕ) → IsLabelling label (map V.stands_for parents.old) → IsLabelling label (map V.stands_for parents.new) × IsIdOf label (length parents.old) group members.now result }
{
    if members.is_empty() {
        usize::MAX
    } else {
        find(parents, group)
    }
}

/// The identifiers of the groups.
fn identify<N, V, A, B>(
    alloc: A,
    parents: &mut [V],
    groups: &[Vec<N, B>],
) -> Result<Vec<usize, A>, PathError>
where
    V: VertexNumber,
    A: Allocator,
    B: Allocator,
    requires sound { IsSound (map V.stands_for parents.old) }
    requires len { length parents.old ≡ length groups.now }
    ensures len { IfOk result (λ ids. length ids.items ≡ length groups.now) }
    ensures identified { IfOk result (λ ids. (label : ℕ → ℕ) → IsLabelling label (map V.stands_for parents.old) → Identifies label (length groups.now) groups.now ids.items) }
    ensures refused { IfErr result (λ e. e ≡ OutOfMemory) }
{
    let mut ids = Vec::with_capacity(alloc, groups.len())?;
    for (group, members) in groups.iter().enumerate() {
        let id = identifier(parents, group, members);
        ids.push(id)?;
    }
    Ok(ids)
}

/// The nodes of groups, the first group that each node stands in, and the identifiers of the groups.
#[derive(Drop)]
pub struct DisjointSets<'a, N: Eq + Hash, A: Allocator> {
    pub nodes: Nodes<'a, N, A>,
    pub first: Vec<usize, A>,
    pub ids: Vec<usize, A>,
}

/// Unites the groups that share vertices.
pub fn unite_groups<'a, N, A, B>(
    alloc: A,
    groups: &'a [Vec<N, B>],
) -> Result<DisjointSets<'a, N, A>, PathError>
where
    N: Eq + Hash,
    A: Allocator + Copy,
    B: Allocator,
    ensures united { IfOk result (λ united. AreDisjointSets N.eq groups.now united.nodes.keys united.first.items united.ids.items) }
    ensures refused { IfErr result (λ e. e ≡ OutOfMemory) }
{
    let mut nodes = IndexSet::new(alloc);
    let mut first = Vec::new(alloc);
    let ids = gather_and_identify(alloc, &mut nodes, &mut first, groups)?;
    Ok(DisjointSets { nodes, first, ids })
}

/// Notes the nodes of all groups, and answers the identifiers of the groups. The groups are numbered by
/// the type `V`.
fn gather_by<'a, N, V, A, B>(
    alloc: A,
    nodes: &mut Nodes<'a, N, A>,
    first: &mut Vec<usize, A>,
    groups: &'a [Vec<N, B>],
) -> Result<Vec<usize, A>, PathError>
where
    N: Eq + Hash,
    V: VertexNumber + Drop,
    A: Allocator + Copy,
    B: Allocator,
    requires none { (nodes.old.keys ≡ []) × (first.old.items ≡ []) }
    requires fit { length groups.now ≤ V.bound }
    ensures united { IfOk result (λ ids. AreDisjointSets N.eq groups.now nodes.new.keys first.new.items ids.items) }
    ensures refused { IfErr result (λ e. e ≡ OutOfMemory) }
{
    let mut sets = make_sets::<V, A>(alloc, groups.len())?;
    let parents = sets.as_mut_slice();
    gather(nodes, first, parents, groups)?;
    identify(alloc, parents, groups)
}

/// The same, by numbers of 32 bits where these serve.
fn gather_and_identify<'a, N, A, B>(
    alloc: A,
    nodes: &mut Nodes<'a, N, A>,
    first: &mut Vec<usize, A>,
    groups: &'a [Vec<N, B>],
) -> Result<Vec<usize, A>, PathError>
where
    N: Eq + Hash,
    A: Allocator + Copy,
    B: Allocator,
    requires none { (nodes.old.keys ≡ []) × (first.old.items ≡ []) }
    ensures united { IfOk result (λ ids. AreDisjointSets N.eq groups.now nodes.new.keys first.new.items ids.items) }
    ensures refused { IfErr result (λ e. e ≡ OutOfMemory) }
{
    if groups.len() <= u32::MAX as usize {
        gather_by::<N, u32, A, B>(alloc, nodes, first, groups)
    } else {
        gather_by::<N, usize, A, B>(alloc, nodes, first, groups)
    }
}

/// A map from each node to the identifier of its first group.
pub fn map_nodes<'a, N, A>(
    alloc: A,
    nodes: &[&'a N],
    first: &[usize],
    ids: &[usize],
) -> Result<HashMap<&'a N, usize, BuildHasherDefault<FoldHasher>, A>, PathError>
where
    N: Eq + Hash,
    A: Allocator + Clone,
    requires len { length first.now ≡ length nodes.now }
    requires inside { All (λ group. group < length ids.now) first.now }
    ensures maps { IfOk result (MapsByFirst N.eq nodes.now first.now ids.now) }
    ensures refused { IfErr result (λ e. e ≡ OutOfMemory) }
{
    let mut of_node = HashMap::with_capacity(alloc, nodes.len())?;
    for (place, group) in first.iter().enumerate() {
        of_node.insert(nodes[place], ids[*group])?;
    }
    Ok(of_node)
}
