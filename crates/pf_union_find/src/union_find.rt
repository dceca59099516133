//! Disjoint sets of numbered vertices (Galler and Fischer 1964): each vertex has a parent, and the root
//! of a set is its least vertex. Path halving alone keeps the mean cost of a step logarithmic (Tarjan
//! and van Leeuwen 1984), so that no size or rank is kept beside the parents. Only the maker takes
//! memory.

ghost use Rattle.std.specs.Prelude.{◌≡◌, ◌≢◌, ◌<◌, ◌≤◌, ℕ, length, map, IfOk, IfErr, MatchBool};
ghost use Rattle.pf_union_find.specs.UnionFind.{IsSound, IsLabelling, IsRoot, Merges};
ghost use Rattle.pf_base.specs.declared.error.PathError.TheVariants.{OutOfMemory};

use crate::vertex_number::VertexNumber;
use pf_base::PathError;
use std::alloc::Allocator;

/// The parents of as many vertices as `count`, each a set of its own.
pub fn make_sets<V, A>(alloc: A, count: usize) -> Result<Vec<V, A>, PathError>
where
    V: VertexNumber + Drop,
    A: Allocator,
    requires fit { count ≤ V.bound }
    ensures sound { IfOk result (λ parents. IsSound (map V.stands_for parents.items)) }
    ensures len { IfOk result (λ parents. length parents.items ≡ count) }
    ensures labels { IfOk result (λ parents. IsLabelling (λ x. x) (map V.stands_for parents.items)) }
    ensures refused { IfErr result (λ e. e ≡ OutOfMemory) }
{
    let mut parents = Vec::with_capacity(alloc, count)?;
    for vertex in 0..count {
        parents.push(V::of(vertex))?;
    }
    Ok(parents)
}

/// The root of the set of `start`. Each second vertex on the way to it gets its grandparent as parent.
pub fn find<V: VertexNumber>(parents: &mut [V], start: usize) -> usize
    requires sound { IsSound (map V.stands_for parents.old) }
    requires inside { start < length parents.old }
    ensures sound { IsSound (map V.stands_for parents.new) }
    ensures inside { result < length parents.new }
    ensures root { IsRoot (map V.stands_for parents.new) result }
    ensures roots { (x : ℕ) → IsRoot (map V.stands_for parents.old) x → IsRoot (map V.stands_for parents.new) x }
    ensures labels { (label : ℕ → ℕ) → IsLabelling label (map V.stands_for parents.old) → IsLabelling label (map V.stands_for parents.new) × (result ≡ label start) }
{
    let mut node = start;
    'climb: while parents[node].vertex() != node {
        let grandparent = parents[parents[node].vertex()];
        parents[node] = grandparent;
        node = grandparent.vertex();
    }
    node
}

/// Unites the sets of two vertices, the greater root below the less. Answers whether they were two.
pub fn unite<V: VertexNumber>(parents: &mut [V], one: usize, other: usize) -> bool
    requires sound { IsSound (map V.stands_for parents.old) }
    requires inside { (one < length parents.old) × (other < length parents.old) }
    requires fit { length parents.old ≤ V.bound }
    ensures sound { IsSound (map V.stands_for parents.new) }
    ensures labels { (label : ℕ → ℕ) → IsLabelling label (map V.stands_for parents.old) → (after : ℕ → ℕ) × IsLabelling after (map V.stands_for parents.new)
        × MatchBool result ((label one ≢ label other) × Merges label one other after) ((label one ≡ label other) × ((x : ℕ) → after x ≡ label x)) }
{
    let first = find(parents, one);
    let second = find(parents, other);
    if first == second {
        return false;
    }
    if first < second {
        parents[second] = V::of(first);
    } else {
        parents[first] = V::of(second);
    }
    true
}
