//! Greatest flows between vertices with names.

ghost use Rattle.std.specs.Prelude.{◌≡◌, ◌⊎◌, ◌<◌, ◌++◌, ◌∷◌, [], List, true, length, pos, OnOk, IfOk, IfErr};
ghost use Rattle.std.specs.Iterator.{IsFiniteIterable};
ghost use Rattle.pf_base.specs.declared.error.PathError.TheVariants.{OutOfMemory, UnknownVertex};
ghost use Rattle.pf_residual.specs.Networks.{KeepsShape, HasCapacities, IsFresh, capacity_sum};
ghost use Rattle.pf_residual.specs.Internal.HeldEdges.{HoldsEdges, HoldsGivenEdges};
ghost use Rattle.pf_base.specs.Places.{number_of};
ghost use Rattle.pf_residual.specs.NamedNetworks.{names_of, IsKnown, IsFirstRefused, GivenEdges, AreEdgesRefused, IsAnsweredFor, IsRefusedFor};
ghost use Rattle.pf_residual.specs.Internal.Filling.{IsUnused};

use crate::dense_capacity::DenseCapacity;
use crate::edmonds_karp::{EKFlows, Edge, EdmondsKarp};
use crate::makers::put_capacity;
use crate::sparse_capacity::SparseCapacity;
use pf_base::{PathError, SignedCost};
use pf_residual::names::{Names, known_number, name_answer, names_among};
use pf_residual::store::FlowStore;
use std::alloc::Allocator;
use std::hash::Hash;

/// Edges between vertices with names, each with a capacity, that are given in turn: every iterable of
/// them. Contracts speak of edges by it, and no caller has to name it.
pub trait NamedEdges<N, C> {
    // The vertices with these names, and these edges.
    ghost given: { List N → Self → GivenEdges N C };

    /// Does nothing: a trait with a ghost member has a function.
    fn as_named_edges(&self);
}

impl<N, C, IC> NamedEdges<N, C> for IC
where
    N: Eq,
    C: SignedCost,
    IC: IntoIterator<Item = Edge<N, C>>,
{
    ghost given = { λ names edges. record { eq = N.eq; value = C.value; fits = C.fits; names = names; Edges = IC.IntoIter; becomes = IC.into_iter_gives edges; steps = IC.IntoIter.next_gives } };

    fn as_named_edges(&self) {}
}

/// Puts the capacity of an edge in the place of that of its pair of vertices. Given is the sum of all
/// capacities before, and answered that after.
fn put_edge<N, C, S, A>(
    store: &mut S,
    names: &Names<N, A>,
    sum: C,
    edge: Edge<N, C>,
) -> Result<C, PathError>
where
    N: Eq + Hash + Copy,
    C: SignedCost,
    S: FlowStore<C>,
    A: Allocator + Copy,
    requires unused { IsUnused C.fits (S.network store.old) }
    requires sum { C.value sum ≡ capacity_sum (S.network store.old) }
    requires vertices { (S.network store.old).vertices ≡ length names.now.keys }
    ensures unused { OnOk result (IsUnused C.fits (S.network store.new)) }
    ensures sum { IfOk result (λ sum. C.value sum ≡ capacity_sum (S.network store.new)) }
    ensures shape { OnOk result (KeepsShape (S.network store.old) (S.network store.new)) }
    ensures held { OnOk result ((edges : List ((N × N) × C)) → HoldsEdges N.eq C.value names.now.keys C.fits edges (S.network store.old)
        → HoldsEdges N.eq C.value names.now.keys C.fits (edges ++ edge ∷ []) (S.network store.new)) }
    ensures refused { IfErr result (λ e. (e ≡ OutOfMemory) ⊎ ((edges : List ((N × N) × C)) → HoldsEdges N.eq C.value names.now.keys C.fits edges (S.network store.old)
        → IsFirstRefused N.eq C.value names.now.keys C.fits edges edge e)) }
{
    let ((from, to), capacity) = edge;
    let from = known_number(names, &from)?;
    let to = known_number(names, &to)?;
    put_capacity(store, sum, from, to, capacity)
}

/// Puts capacities of edges in turn into a store that has none.
fn put_edges<N, C, S, A, IC>(
    store: &mut S,
    names: &Names<N, A>,
    capacities: IC,
) -> Result<(), PathError>
where
    N: Eq + Hash + Copy,
    C: SignedCost,
    S: FlowStore<C>,
    A: Allocator + Copy,
    IC: IntoIterator<Item = Edge<N, C>>,
    requires ends { IsFiniteIterable IC.into_iter_gives IC.IntoIter.can_next IC.IntoIter.remaining capacities }
    requires unused { IsUnused C.fits (S.network store.old) }
    requires none { HasCapacities (λ a b. pos 0) (S.network store.old) }
    requires vertices { (S.network store.old).vertices ≡ length names.now.keys }
    ensures unused { OnOk result (IsUnused C.fits (S.network store.new)) }
    ensures shape { OnOk result (KeepsShape (S.network store.old) (S.network store.new)) }
    ensures held { OnOk result (HoldsGivenEdges (⟦<IC as NamedEdges<N, C>>⟧.given names.now.keys capacities) (S.network store.new)) }
    ensures refused { IfErr result (λ e. (e ≡ OutOfMemory) ⊎ AreEdgesRefused (⟦<IC as NamedEdges<N, C>>⟧.given names.now.keys capacities) e) }
{
    let mut sum = C::zero();
    'edges: for edge in capacities {
        sum = put_edge(store, names, sum, edge)?;
    }
    Ok(())
}

/// Puts the capacities of the edges into a store that has none, and answers a greatest flow in it
/// and a least cut, with the names of the vertices.
fn flows_of<N, C, IC, EK>(
    alloc: EK::Alloc,
    store: &mut EK,
    names: &Names<N, EK::Alloc>,
    capacities: IC,
) -> Result<EKFlows<N, C, EK::Alloc>, PathError>
where
    N: Eq + Hash + Copy,
    C: SignedCost,
    IC: IntoIterator<Item = Edge<N, C>>,
    EK: EdmondsKarp<C>,
    requires ends { IsFiniteIterable IC.into_iter_gives IC.IntoIter.can_next IC.IntoIter.remaining capacities }
    requires unused { IsUnused C.fits (EK.network store.old) }
    requires none { HasCapacities (λ a b. pos 0) (EK.network store.old) }
    requires vertices { (EK.network store.old).vertices ≡ length names.now.keys }
    requires details { (EK.network store.old).details ≡ true }
    ensures answer { IfOk result (λ answer. (source sink : N)
        → IsFresh (length names.now.keys) (number_of N.eq names.now.keys source) (number_of N.eq names.now.keys sink) (EK.network store.old)
        → IsAnsweredFor (⟦<IC as NamedEdges<N, C>>⟧.given names.now.keys capacities) source sink answer) }
    ensures refused { IfErr result (λ e. (e ≡ OutOfMemory) ⊎ AreEdgesRefused (⟦<IC as NamedEdges<N, C>>⟧.given names.now.keys capacities) e) }
{
    put_edges(store, names, capacities)?;
    let answer = store.augment(alloc)?;
    name_answer(alloc, names.as_slice(), &answer)
}

/// A store for the vertices with these names, without capacities.
fn store_between<N, C, EK>(
    alloc: EK::Alloc,
    names: &Names<N, EK::Alloc>,
    source: &N,
    sink: &N,
) -> Result<EK, PathError>
where
    N: Eq + Hash,
    C: SignedCost,
    EK: EdmondsKarp<C>,
    ensures source { OnOk result (IsKnown N.eq names.now.keys source.now) }
    ensures sink { OnOk result (IsKnown N.eq names.now.keys sink.now) }
    ensures fresh { IfOk result (λ store. IsFresh (length names.now.keys) (number_of N.eq names.now.keys source.now) (number_of N.eq names.now.keys sink.now) (EK.network store)) }
    ensures unused { IfOk result (λ store. IsUnused C.fits (EK.network store)) }
    ensures none { IfOk result (λ store. HasCapacities (λ a b. pos 0) (EK.network store)) }
    ensures refused { IfErr result (λ e. (e ≡ OutOfMemory) ⊎ ((e ≡ UnknownVertex) × ((¬ (IsKnown N.eq names.now.keys source.now)) ⊎ (¬ (IsKnown N.eq names.now.keys sink.now))))) }
{
    let from = known_number(names, source)?;
    let to = known_number(names, sink)?;
    EK::new(alloc, names.len(), from, to)
}

/// As `edmonds_karp`, for the names of the vertices.
fn flows_among<N, C, IC, EK>(
    alloc: EK::Alloc,
    names: &Names<N, EK::Alloc>,
    source: &N,
    sink: &N,
    capacities: IC,
) -> Result<EKFlows<N, C, EK::Alloc>, PathError>
where
    N: Eq + Hash + Copy,
    C: SignedCost,
    IC: IntoIterator<Item = Edge<N, C>> + Drop,
    EK: EdmondsKarp<C>,
    requires ends { IsFiniteIterable IC.into_iter_gives IC.IntoIter.can_next IC.IntoIter.remaining capacities }
    ensures source { OnOk result (IsKnown N.eq names.now.keys source.now) }
    ensures sink { OnOk result (IsKnown N.eq names.now.keys sink.now) }
    ensures answer { IfOk result (IsAnsweredFor (⟦<IC as NamedEdges<N, C>>⟧.given names.now.keys capacities) source.now sink.now) }
    ensures refused { IfErr result (IsRefusedFor (⟦<IC as NamedEdges<N, C>>⟧.given names.now.keys capacities) source.now sink.now) }
{
    let mut store: EK = store_between(alloc, names, source, sink)?;
    flows_of(alloc, &mut store, names, capacities)
}

/// A greatest flow from a source to a sink, and a least cut, in a store that is made for it.
///
/// The vertices are numbered by their first standing in `vertices`; equal vertices are one. The
/// capacity of a pair of vertices is that of its last edge, and zero where it has none. Answered are
/// the flows above zero, the total and the edges of a least cut, as by `augment`, flows and cut by
/// rising pair of numbers, with the vertices as they first stand in `vertices`. Where source and sink
/// are one vertex, there is no flow and no cut.
///
/// Flow is added along shortest paths (J. Edmonds, R. M. Karp, "Theoretical improvements in
/// algorithmic efficiency for network flow problems", 1972), in phases of paths of one length
/// (E. A. Dinic, "Algorithm for solution of a problem of maximum flow in networks with power
/// estimation", 1970).
///
/// # Errors
///
/// `UnknownVertex` where source or sink is not among the vertices. Then edge by edge, at the first one
/// that gives cause: `UnknownVertex` where one of its ends is not among the vertices, else
/// `NegativeCapacity` where its capacity is below zero, else `CostOverflow` where the sum of all
/// capacities with it does not fit. `OutOfMemory` may come in the place of any answer. Edges behind
/// the one that is refused are not asked for.
pub fn edmonds_karp<N, C, IC, EK>(
    alloc: EK::Alloc,
    vertices: &[N],
    source: &N,
    sink: &N,
    capacities: IC,
) -> Result<EKFlows<N, C, EK::Alloc>, PathError>
where
    N: Eq + Hash + Copy,
    C: SignedCost,
    IC: IntoIterator<Item = Edge<N, C>> + Drop,
    EK: EdmondsKarp<C>,
    requires ends { IsFiniteIterable IC.into_iter_gives IC.IntoIter.can_next IC.IntoIter.remaining capacities }
    ensures source { OnOk result (IsKnown N.eq (names_of N.eq vertices.now) source.now) }
    ensures sink { OnOk result (IsKnown N.eq (names_of N.eq vertices.now) sink.now) }
    ensures answer { IfOk result (IsAnsweredFor (⟦<IC as NamedEdges<N, C>>⟧.given (names_of N.eq vertices.now) capacities) source.now sink.now) }
    ensures refused { IfErr result (IsRefusedFor (⟦<IC as NamedEdges<N, C>>⟧.given (names_of N.eq vertices.now) capacities) source.now sink.now) }
{
    let names = names_among(alloc, vertices)?;
    flows_among::<N, C, IC, EK>(alloc, &names, source, sink, capacities)
}

/// As `edmonds_karp`, in a `DenseCapacity`.
pub fn edmonds_karp_dense<N, C, IC, A>(
    alloc: A,
    vertices: &[N],
    source: &N,
    sink: &N,
    capacities: IC,
) -> Result<EKFlows<N, C, A>, PathError>
where
    N: Eq + Hash + Copy,
    C: SignedCost,
    IC: IntoIterator<Item = Edge<N, C>> + Drop,
    A: Allocator + Copy,
    requires ends { IsFiniteIterable IC.into_iter_gives IC.IntoIter.can_next IC.IntoIter.remaining capacities }
    ensures source { OnOk result (IsKnown N.eq (names_of N.eq vertices.now) source.now) }
    ensures sink { OnOk result (IsKnown N.eq (names_of N.eq vertices.now) sink.now) }
    ensures answer { IfOk result (IsAnsweredFor (⟦<IC as NamedEdges<N, C>>⟧.given (names_of N.eq vertices.now) capacities) source.now sink.now) }
    ensures refused { IfErr result (IsRefusedFor (⟦<IC as NamedEdges<N, C>>⟧.given (names_of N.eq vertices.now) capacities) source.now sink.now) }
{
    edmonds_karp::<N, C, IC, DenseCapacity<C, A>>(alloc, vertices, source, sink, capacities)
}

/// As `edmonds_karp`, in a `SparseCapacity`.
pub fn edmonds_karp_sparse<N, C, IC, A>(
    alloc: A,
    vertices: &[N],
    source: &N,
    sink: &N,
    capacities: IC,
) -> Result<EKFlows<N, C, A>, PathError>
where
    N: Eq + Hash + Copy,
    C: SignedCost,
    IC: IntoIterator<Item = Edge<N, C>> + Drop,
    A: Allocator + Copy,
    requires ends { IsFiniteIterable IC.into_iter_gives IC.IntoIter.can_next IC.IntoIter.remaining capacities }
    ensures source { OnOk result (IsKnown N.eq (names_of N.eq vertices.now) source.now) }
    ensures sink { OnOk result (IsKnown N.eq (names_of N.eq vertices.now) sink.now) }
    ensures answer { IfOk result (IsAnsweredFor (⟦<IC as NamedEdges<N, C>>⟧.given (names_of N.eq vertices.now) capacities) source.now sink.now) }
    ensures refused { IfErr result (IsRefusedFor (⟦<IC as NamedEdges<N, C>>⟧.given (names_of N.eq vertices.now) capacities) source.now sink.now) }
{
    edmonds_karp::<N, C, IC, SparseCapacity<C, A>>(alloc, vertices, source, sink, capacities)
}
