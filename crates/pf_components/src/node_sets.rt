//! The nodes of each disjoint set of groups, in a set of their own.

ghost use Rattle.std.specs.Prelude.{◌≡◌, ◌<◌, ◌↔◌, ◌==◌, ℕ, Some, All, Contains, true, count_by, length, slice_get, slice_index, IfOk, IfErr};
ghost use Rattle.std.specs.Borrow.{Bor};
ghost use Rattle.std.specs.HashSet.{contains};
ghost use Rattle.pf_base.specs.Answers.{IsLawfulClone};
ghost use Rattle.pf_base.specs.declared.error.PathError.TheVariants.{OutOfMemory};
ghost use Rattle.pf_union_find.specs.Rows.{row_count};
ghost use Rattle.pf_components.specs.Internal.DisjointSets.{AreNumbered, HaveRows, HaveSets};

use pf_base::PathError;
use pf_base::filled::filled;
use pf_union_find::rows::Rows;
use std::alloc::Allocator;
use std::collections::HashSet;
use std::hash::{BuildHasherDefault, FoldHasher, Hash};

/// A set whose memory is of the allocator `A`, with the standard hasher.
pub type SetIn<N, A> = HashSet<N, BuildHasherDefault<FoldHasher>, A>;

/// How many nodes belong to the disjoint set of each identifier.
fn count_nodes<A: Allocator>(
    alloc: A,
    first: &[usize],
    ids: &[usize],
) -> Result<Vec<usize, A>, PathError>
    requires inside { All (λ group. group < length ids.now) first.now }
    requires below { All (λ group. (id : ℕ) → slice_get ids.now group ≡ Some id → id < length ids.now) first.now }
    ensures len { IfOk result (λ counts. length counts.items ≡ length ids.now) }
    ensures counted { IfOk result (λ counts. (id : ℕ) → id < length ids.now → slice_index counts.items id ≡ count_by (λ group. slice_index ids.now group == id) first.now) }
    ensures refused { IfErr result (λ e. e ≡ OutOfMemory) }
{
    let mut counts = filled(alloc, ids.len(), 0usize)?;
    for group in first {
        counts[ids[*group]] += 1;
    }
    Ok(counts)
}

/// The numbers of the disjoint sets that have nodes, in the order of their identifiers, each in the place
/// of its count; and the counts by these numbers.
fn number_sets<A: Allocator>(
    alloc: A,
    mut counts: Vec<usize, A>,
) -> Result<(Vec<usize, A>, Vec<usize, A>), PathError>
    ensures wide { IfOk result (λ r. length r.0.items ≡ length counts.items) }
    ensures numbered { IfOk result (λ r. AreNumbered counts.items r.0.items r.1.items) }
    ensures refused { IfErr result (λ e. e ≡ OutOfMemory) }
{
    let mut sizes = Vec::new(alloc);
    for id in 0..counts.len() {
        let count = counts[id];
        if count > 0 {
            counts[id] = sizes.len();
            sizes.push(count)?;
        }
    }
    Ok((counts, sizes))
}

/// The nodes of each disjoint set in a row of their own, where there are nodes.
///
/// A node belongs to the disjoint set of its first group, whose identifier `ids` has. The rows are laid
/// out at once, so that each set is made with the room that it needs, and is complete before the next
/// one is begun.
fn lay_out<'a, N, A>(
    alloc: A,
    nodes: &[&'a N],
    any: &'a N,
    first: &[usize],
    ids: &[usize],
) -> Result<Rows<&'a N, A>, PathError>
where
    A: Allocator + Copy,
    requires len { length first.now ≡ length nodes.now }
    requires inside { All (λ group. group < length ids.now) first.now }
    requires below { All (λ group. (id : ℕ) → slice_get ids.now group ≡ Some id → id < length ids.now) first.now }
    ensures collected { IfOk result (HaveRows nodes.now first.now ids.now) }
    ensures refused { IfErr result (λ e. e ≡ OutOfMemory) }
{
    let counts = count_nodes(alloc, first, ids)?;
    let (numbers, sizes) = number_sets(alloc, counts)?;
    let mut rows = Rows::new(alloc, &sizes, any)?;
    for (number, group) in first.iter().enumerate() {
        rows.put(numbers[ids[*group]], nodes[number]);
    }
    Ok(rows)
}

/// The same, also where there are no nodes.
pub fn collect_nodes<'a, N, A>(
    alloc: A,
    nodes: &[&'a N],
    first: &[usize],
    ids: &[usize],
) -> Result<Rows<&'a N, A>, PathError>
where
    A: Allocator + Copy,
    requires len { length first.now ≡ length nodes.now }
    requires inside { All (λ group. group < length ids.now) first.now }
    requires below { All (λ group. (id : ℕ) → slice_get ids.now group ≡ Some id → id < length ids.now) first.now }
    ensures collected { IfOk result (HaveRows nodes.now first.now ids.now) }
    ensures refused { IfErr result (λ e. e ≡ OutOfMemory) }
{
    match nodes.first() {
        Some(any) => lay_out(alloc, nodes, *any, first, ids),
        None => Rows::none(alloc),
    }
}

/// The set of clones of some nodes.
fn set_of<N, A>(alloc: A, nodes: &[&N]) -> Result<SetIn<N, A>, PathError>
where
    N: Eq + Hash + Clone,
    A: Allocator + Copy,
    requires clones { IsLawfulClone N.eq N.is_clone }
    ensures members { IfOk result (λ set. (x : N) → (contains N.eq set x ≡ true) ↔ ((m : Bor N) × Contains nodes.now m × (N.eq m.now x ≡ true))) }
    ensures refused { IfErr result (λ e. e ≡ OutOfMemory) }
{
    let mut set = HashSet::with_capacity(alloc, nodes.len())?;
    for node in nodes {
        set.insert((*node).clone()?)?;
    }
    Ok(set)
}

/// For each row a set of clones of its nodes.
pub fn collect_sets<N, A>(alloc: A, rows: &Rows<&N, A>) -> Result<Vec<SetIn<N, A>, A>, PathError>
where
    N: Eq + Hash + Clone,
    A: Allocator + Copy,
    requires clones { IsLawfulClone N.eq N.is_clone }
    ensures len { IfOk result (λ sets. length sets.items ≡ row_count rows.now) }
    ensures collected { IfOk result (λ sets. HaveSets N.eq (contains N.eq) rows.now sets.items) }
    ensures refused { IfErr result (λ e. e ≡ OutOfMemory) }
{
    let mut sets = Vec::with_capacity(alloc, rows.len())?;
    for row in 0..rows.len() {
        sets.push(set_of(alloc, rows.row(row))?)?;
    }
    Ok(sets)
}
