//! A store that keeps for each vertex a vector of edges.

ghost use Rattle.std.specs.Prelude.{◌≡◌, ◌<◌, pos, length, IfOk, IfErr};
ghost use Rattle.pf_base.specs.declared.error.PathError.TheVariants.{OutOfMemory};
ghost use Rattle.std.specs.Option.{ForSome};
ghost use Rattle.pf_residual.specs.Flows.{IsAntisymmetric};
ghost use Rattle.pf_residual.specs.Networks.{IsNetwork, IsFresh, HasCapacities};
ghost use Rattle.pf_residual.specs.SparseStores.{IsSameStore, rows_flow, rows_network};
ghost use Rattle.pf_residual.specs.Internal.SparseTables.{AreRows, AreEmpty, rows_sum};
ghost use Rattle.std.proofs.Props.{props};
ghost use Rattle.pf_residual.specs.Internal.SparseLaws.{rows_law};
ghost use Rattle.pf_flow.specs.Internal.SparseProps.{Rises-prop};

use crate::edmonds_karp::{Edge, EdmondsKarp};
use crate::makers::put_all;
use pf_base::{PathError, SignedCost};
use pf_residual::sparse_row::{Row, flow_ends, list_residual_ends, residual_ends};
use pf_residual::store::FlowStore;
use std::alloc::{AllocError, Allocator, Global};

/// A store that keeps for each vertex its edges, sorted by the other end. It takes memory for the
/// pairs that have room.
#[derive(Debug, Drop)]
pub struct SparseCapacity<C: SignedCost, A: Allocator = Global> {
    rows: Vec<Row<C, A>, A>,
    source: usize,
    sink: usize,
    total: C,
    details: bool,
    // What is left of all capacities, added up, where it is known.
    sum: Option<C>,
    // the rows are those of a network
    ghost stored: { AreRows source sink rows.items } by { Prim.hlevel (props, Rises-prop) },
    // the flow is antisymmetric
    ghost opposite: { IsAntisymmetric (rows_flow C.value rows.items) },
    // the sum is theirs
    ghost summed: { ForSome sum (λ z. C.value z ≡ rows_sum C.value rows.items) },
}

/// As many rows without edges as `size`. The only error is `OutOfMemory`.
fn empty_rows<C: Drop, A: Allocator + Copy>(
    alloc: A,
    size: usize,
) -> Result<Vec<Row<C, A>, A>, PathError>
    ensures len { IfOk result (λ rows. length rows.items ≡ size) }
    ensures empty { IfOk result (λ rows. AreEmpty rows.items) }
    ensures refused { IfErr result (λ e. e ≡ OutOfMemory) }
{
    let mut rows = Vec::with_capacity(alloc, size)?;
    for _ in 0..size {
        rows.push(Row::new(alloc))?;
    }
    Ok(rows)
}

/// Do the edges run between the same two vertices?
fn have_same_ends<C>(edge: &Edge<usize, C>, other: &Edge<usize, C>) -> bool {
    let ((from, to), (first, second)) = (edge.0, other.0);
    from == first && to == second || from == second && to == first
}

/// For each vertex how many of the edges have it for an end. Edges of one pair count once where they
/// stand one behind the other.
fn counts_of<C, A: Allocator + Copy>(
    alloc: A,
    size: usize,
    edges: &[Edge<usize, C>],
) -> Result<Vec<usize, A>, PathError>
    ensures len { IfOk result (λ counts. length counts.items ≡ size) }
    ensures refused { IfErr result (λ e. e ≡ OutOfMemory) }
{
    let mut counts = Vec::new(alloc);
    counts.resize(size, 0usize)?;
    'edges: for (place, edge) in edges.iter().enumerate() {
        let (from, to) = edge.0;
        let is_counted = place > 0 && have_same_ends(edge, &edges[place - 1]);
        if !is_counted && from < size && to < size {
            counts[from] = counts[from].saturating_add(1);
            counts[to] = counts[to].saturating_add(1);
        }
    }
    Ok(counts)
}

/// As many rows without edges as `size`, with room for those that the edges are put into. The only
/// error is `OutOfMemory`.
fn rows_with_room<C: SignedCost, A: Allocator + Copy>(
    alloc: A,
    size: usize,
    edges: &[Edge<usize, C>],
) -> Result<Vec<Row<C, A>, A>, PathError>
    ensures len { IfOk result (λ rows. length rows.items ≡ size) }
    ensures empty { IfOk result (λ rows. AreEmpty rows.items) }
    ensures refused { IfErr result (λ e. e ≡ OutOfMemory) }
{
    let counts = counts_of(alloc, size, edges)?;
    let mut rows = Vec::with_capacity(alloc, size)?;
    'rows: for count in &counts {
        rows.push(Row::with_room(alloc, *count)?)?;
    }
    Ok(rows)
}

/// A store with rows that have no edges.
fn store_of<C: SignedCost, A: Allocator + Copy>(
    rows: Vec<Row<C, A>, A>,
    source: usize,
    sink: usize,
) -> SparseCapacity<C, A>
    requires empty { AreEmpty rows.items }
    requires source { source < length rows.items }
    requires sink { sink < length rows.items }
    ensures fresh { IsFresh (length rows.items) source sink (⟦<SparseCapacity<C, A> as FlowStore<C>>⟧.network result) }
    ensures capacities { HasCapacities (λ a b. pos 0) (⟦<SparseCapacity<C, A> as FlowStore<C>>⟧.network result) }
    ensures network { IsNetwork C.fits (⟦<SparseCapacity<C, A> as FlowStore<C>>⟧.network result) }
{
    SparseCapacity {
        rows,
        source,
        sink,
        total: C::zero(),
        details: true,
        sum: None,
    }
}

impl<C: SignedCost, A: Allocator + Copy> FlowStore<C> for SparseCapacity<C, A> {
    ghost network = { λ s. rows_network C.value s.rows.items s.source s.sink (C.value s.total) s.details };

    fn size(&self) -> usize {
        self.rows.len()
    }

    fn source(&self) -> usize {
        self.source
    }

    fn sink(&self) -> usize {
        self.sink
    }

    fn flow(&self, from: usize, to: usize) -> C {
        self.rows[from].flow(to)
    }

    fn residual_capacity(&self, from: usize, to: usize) -> C {
        self.rows[from].residual(to, 0)
    }

    fn residual_capacity_near(&self, from: usize, to: usize, place: usize) -> C {
        self.rows[from].residual(to, place)
    }

    fn residual_successors<B: Allocator + Copy>(
        &self,
        alloc: B,
        from: usize,
    ) -> Result<Vec<(usize, C), B>, PathError> {
        residual_ends(alloc, self.rows[from].edges())
    }

    fn list_residual<B: Allocator + Copy>(
        &self,
        from: usize,
        ends: &mut Vec<(usize, usize), B>,
    ) -> Result<(), PathError> {
        list_residual_ends(self.rows[from].edges(), ends)
    }

    fn flows_from<B: Allocator + Copy>(
        &self,
        alloc: B,
        from: usize,
    ) -> Result<Vec<usize, B>, PathError> {
        flow_ends(alloc, self.rows[from].edges())
    }

    fn total_capacity(&self) -> C {
        self.total
    }

    fn has_details(&self) -> bool {
        self.details
    }

    fn omit_details(&mut self) {
        self.details = false;
    }

    fn make_room(&mut self, from: usize, to: usize) -> Result<(), PathError> {
        if self.rows[from].has(to) {
            return Ok(());
        }
        self.sum = None;
        self.rows[from].insert(to)?;
        if from == to {
            return Ok(());
        }
        if let Err(refusal) = self.rows[to].insert(from) {
            self.rows[from].remove(to);
            return Err(refusal);
        }
        Ok(())
    }

    fn add_flow(&mut self, from: usize, to: usize, amount: C) {
        self.add_flow_near(from, to, 0, amount);
    }

    fn add_flow_near(&mut self, from: usize, to: usize, place: usize, amount: C) {
        self.sum = None;
        self.rows[from].carry(to, place, amount);
        self.rows[to].take_back(from, amount);
    }

    fn add_residual_capacity(&mut self, from: usize, to: usize, amount: C) {
        self.sum = None;
        self.rows[from].add_residual(to, amount);
    }

    fn known_sum(&self) -> Option<C> {
        self.sum
    }

    fn note_sum(&mut self, sum: C) {
        self.sum = Some(sum);
    }

    fn set_total_capacity(&mut self, total: C) {
        self.total = total;
    }

    ghost network_law = { λ s. rows_law C.value s.rows.items s.source s.sink (C.value s.total) s.details s.stored s.opposite };
}

impl<C: SignedCost, A: Allocator + Copy> EdmondsKarp<C> for SparseCapacity<C, A> {
    type Alloc = A;

    fn new(alloc: A, size: usize, source: usize, sink: usize) -> Result<Self, PathError> {
        let rows = empty_rows(alloc, size)?;
        Ok(store_of(rows, source, sink))
    }

    fn from_edges(
        alloc: A,
        size: usize,
        source: usize,
        sink: usize,
        edges: &[Edge<usize, C>],
    ) -> Result<Self, PathError> {
        if source >= size || sink >= size {
            return Err(PathError::UnknownVertex);
        }
        let rows = rows_with_room(alloc, size, edges)?;
        let mut store = store_of(rows, source, sink);
        put_all(&mut store, edges)?;
        Ok(store)
    }
}

/// A clone holds the same network.
impl<C: SignedCost, A: Allocator + Copy> Clone for SparseCapacity<C, A> {
    ghost is_clone = { λ s t. IsSameStore s.rows.items s.source s.sink s.total s.details t.rows.items t.source t.sink t.total t.details };

    fn clone(&self) -> Result<Self, AllocError> {
        let rows = Vec::from_clones(*self.rows.allocator(), self.rows.as_slice())?;
        Ok(SparseCapacity {
            rows,
            source: self.source,
            sink: self.sink,
            total: self.total,
            details: self.details,
            sum: None,
        })
    }
}
