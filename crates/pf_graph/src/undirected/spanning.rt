//! A forest of edges between numbered vertices that is least under every weight bound.

ghost use Rattle.std.specs.Prelude.{◌≡◌, ◌↔◌, ◌≤◌, ℕ, Contains, IfOk, IfErr, IsTrue, map, nat_eq, length};
ghost use Rattle.std.specs.List.Sorted.{IsSorted};
ghost use Rattle.pf_base.specs.declared.error.PathError.TheVariants.{OutOfMemory};
ghost use Rattle.pf_base.specs.Answers.{IsLawfulClone};
ghost use Rattle.pf_graph.specs.Spanning.{IsForest, IsLeastUnderEveryBound, AreChosenFrom, AreBelow};
ghost use Rattle.pf_graph.specs.Internal.Spanning.SpanningSteps.{HoldsCopies, placed};
ghost use Rattle.pf_union_find.specs.UnionFind.{IsSound, IsLabelling};

use pf_base::PathError;
use pf_union_find::union_find::{make_sets, unite};
use pf_union_find::vertex_number::VertexNumber;
use std::alloc::Allocator;
use std::marker::PhantomData;

/// Whether both ends of each edge are below `count`.
pub fn are_below<C>(count: usize, edges: &[(usize, usize, C)]) -> bool
    ensures { IsTrue result ↔ AreBelow count edges.now }
{
    edges.iter().all(|edge| edge.0 < count && edge.1 < count)
}

/// Copies of the edges, with clones of their weights.
fn copies_of<V, C, A>(alloc: A, edges: &[(usize, usize, C)]) -> Result<Vec<(V, V, C), A>, PathError>
where
    V: VertexNumber,
    C: Clone,
    A: Allocator,
    requires fit { AreBelow V.bound edges.now }
    ensures copies { IfOk result (λ copies. HoldsCopies C.is_clone edges.now (placed V.stands_for copies.items)) }
    ensures refused { IfErr result (λ e. e ≡ OutOfMemory) }
{
    let mut copies = Vec::with_capacity(alloc, edges.len())?;
    for edge in edges {
        copies.push((V::of(edge.0), V::of(edge.1), edge.2.clone()?))?;
    }
    Ok(copies)
}

/// The edges of `sorted` whose ends no edges before them join. The sets of their ends are united.
fn choose_edges<V, C, A>(
    alloc: A,
    parents: &mut [V],
    sorted: Vec<(V, V, C), A>,
) -> Result<Vec<(usize, usize, C), A>, PathError>
where
    V: VertexNumber + Drop,
    C: Ord + Drop,
    A: Allocator,
    requires sound { IsSound (map V.stands_for parents.old) }
    requires singletons { IsLabelling (λ x. x) (map V.stands_for parents.old) }
    requires fit { length parents.old ≤ V.bound }
    requires below { AreBelow (length parents.old) (placed V.stands_for sorted.items) }
    requires sorted { IsSorted (λ e f. C.cmp e.2 f.2) (placed V.stands_for sorted.items) }
    ensures forest { IfOk result (λ chosen. IsForest nat_eq chosen.items) }
    ensures least { IfOk result (λ chosen. IsLeastUnderEveryBound nat_eq C.cmp (placed V.stands_for sorted.items) chosen.items) }
    ensures given { IfOk result (λ chosen. (e : ℕ × ℕ × C) → Contains chosen.items e → Contains (placed V.stands_for sorted.items) e) }
    ensures sorted { IfOk result (λ chosen. IsSorted (λ e f. C.cmp e.2 f.2) chosen.items) }
    ensures refused { IfErr result (λ e. e ≡ OutOfMemory) }
{
    let mut chosen = Vec::with_capacity(alloc, parents.len().min(sorted.len()))?;
    'edges: for edge in sorted {
        let (one, other) = (edge.0.vertex(), edge.1.vertex());
        if unite(parents, one, other) {
            chosen.push((one, other, edge.2))?;
        }
    }
    Ok(chosen)
}

/// The edges, taken by rising weight, whose ends no edges taken before them join (Kruskal 1956).
pub fn spanning_forest<V, C, A>(
    alloc: A,
    number_of_nodes: usize,
    mut edges: Vec<(V, V, C), A>,
) -> Result<Vec<(usize, usize, C), A>, PathError>
where
    V: VertexNumber + Drop,
    C: Ord + Drop,
    A: Allocator + Copy,
    requires fit { number_of_nodes ≤ V.bound }
    requires below { AreBelow number_of_nodes (placed V.stands_for edges.items) }
    ensures forest { IfOk result (λ chosen. IsForest nat_eq chosen.items) }
    ensures least { IfOk result (λ chosen. IsLeastUnderEveryBound nat_eq C.cmp (placed V.stands_for edges.items) chosen.items) }
    ensures given { IfOk result (λ chosen. (e : ℕ × ℕ × C) → Contains chosen.items e → Contains (placed V.stands_for edges.items) e) }
    ensures sorted { IfOk result (λ chosen. IsSorted (λ e f. C.cmp e.2 f.2) chosen.items) }
    ensures refused { IfErr result (λ e. e ≡ OutOfMemory) }
{
    edges.sort_unstable_by(|one, other| one.2.cmp(&other.2));
    let mut parents = make_sets::<V, A>(alloc, number_of_nodes)?;
    choose_edges(alloc, &mut parents, edges)
}

/// The same of edges that others own, with clones of their weights, over numbers of the type `V`.
fn forest_of_copies<V, C, A>(
    alloc: A,
    number_of_nodes: usize,
    edges: &[(usize, usize, C)],
    _number: PhantomData<V>,
) -> Result<Vec<(usize, usize, C), A>, PathError>
where
    V: VertexNumber + Drop,
    C: Clone + Ord + Drop,
    A: Allocator + Copy,
    requires clones { IsLawfulClone C.eq C.is_clone }
    requires below { AreBelow number_of_nodes edges.now }
    requires fit { number_of_nodes ≤ V.bound }
    ensures forest { IfOk result (λ chosen. IsForest nat_eq chosen.items) }
    ensures least { IfOk result (λ chosen. IsLeastUnderEveryBound nat_eq C.cmp edges.now chosen.items) }
    ensures as_written { IfOk result (λ chosen. AreChosenFrom C.is_clone edges.now chosen.items) }
    ensures sorted { IfOk result (λ chosen. IsSorted (λ e f. C.cmp e.2 f.2) chosen.items) }
    ensures refused { IfErr result (λ e. e ≡ OutOfMemory) }
{
    let copies = copies_of::<V, C, A>(alloc, edges)?;
    spanning_forest(alloc, number_of_nodes, copies)
}

/// A least spanning forest of edges that others own, with clones of their weights.
pub fn least_forest<C, A>(
    alloc: A,
    number_of_nodes: usize,
    edges: &[(usize, usize, C)],
) -> Result<Vec<(usize, usize, C), A>, PathError>
where
    C: Clone + Ord + Drop,
    A: Allocator + Copy,
    requires clones { IsLawfulClone C.eq C.is_clone }
    requires below { AreBelow number_of_nodes edges.now }
    ensures forest { IfOk result (λ chosen. IsForest nat_eq chosen.items) }
    ensures least { IfOk result (λ chosen. IsLeastUnderEveryBound nat_eq C.cmp edges.now chosen.items) }
    ensures as_written { IfOk result (λ chosen. AreChosenFrom C.is_clone edges.now chosen.items) }
    ensures sorted { IfOk result (λ chosen. IsSorted (λ e f. C.cmp e.2 f.2) chosen.items) }
    ensures refused { IfErr result (λ e. e ≡ OutOfMemory) }
{
    // Edges are sorted as they stand, so that smaller copies are moved faster.
    if number_of_nodes <= u32::MAX as usize {
        forest_of_copies(alloc, number_of_nodes, edges, PhantomData::<u32>)
    } else {
        forest_of_copies(alloc, number_of_nodes, edges, PhantomData::<usize>)
    }
}
