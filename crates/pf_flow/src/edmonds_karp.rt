//! Greatest flows and least cuts under changing capacities.

ghost use Rattle.std.specs.Prelude.{◌≡◌, ◌≤◌, ◌<◌, ◌+◌, ◌≤ℤ◌, pos, OnOk, OnErr, IfOk, IfErr};
ghost use Rattle.pf_base.specs.declared.error.PathError.TheVariants.{OutOfMemory};
ghost use Rattle.pf_residual.specs.Flows.{Same};
ghost use Rattle.pf_residual.specs.Networks.{Network, path_bound, capacity_sum, Agrees, KeepsCapacities, ChangesCapacity, IsNetwork, IsFresh, HasCapacities, HasCutOfTotal};
ghost use Rattle.pf_residual.specs.Listings.{ListsFlows, IsFlowAnswer};
ghost use Rattle.pf_residual.specs.Capacities.{square_table, matrix_table, edge_table, AreSquare, OfSide, FallsByExcess, AreRefused, AreTaken, AreEdgesFaulty, IsChangeRefused};

use crate::augmenting::augment_flow;
pub use crate::by_names::{edmonds_karp, edmonds_karp_dense, edmonds_karp_sparse};
use crate::changes::change_capacity;
pub use crate::dense_capacity::DenseCapacity;
use crate::listings::list_flows;
use crate::makers::{fill, put_all};
pub use crate::sparse_capacity::SparseCapacity;
pub use crate::tables::{IntoMatrix, IntoVec};
use pf_base::{PathError, SignedCost, Tally};
use pf_matrix::Matrix;
pub use pf_residual::names::{EKFlows, Edge};
pub use pf_residual::store::FlowStore;
use pf_residual::sums::sum_of_capacities;
use std::alloc::Allocator;

/// Greatest flows from a source to a sink under capacities that change, over any `FlowStore`.
///
/// Of a store that `new`, `from_matrix`, `from_vec` or `from_edges` made it holds that the flow is
/// feasible, that its value is the total and not below zero, that there is no flow where source and sink
/// are one, that no capacity is below zero, and that the sum of all capacities fits their type. Each
/// other call of this trait asks that, and those that change the store keep it, also where they are
/// refused. The calls of `FlowStore` do not ask it, and its updates need not keep it. A capacity is the
/// residual capacity of a pair of vertices and its flow.
pub trait EdmondsKarp<C: SignedCost>: FlowStore<C> {
    /// The allocator of the store's tables.
    type Alloc: Allocator + Copy;

    /// A store of so many vertices without capacities. Flows and cuts are listed.
    ///
    /// # Errors
    ///
    /// The only error is `OutOfMemory`.
    fn new(alloc: Self::Alloc, size: usize, source: usize, sink: usize) -> Result<Self, PathError>
        requires source { source < size }
        requires sink { sink < size }
        ensures fresh { IfOk result (λ s. IsFresh size source sink (Self.network s)) }
        ensures capacities { IfOk result (λ s. HasCapacities (λ a b. pos 0) (Self.network s)) }
        ensures network { IfOk result (λ s. IsNetwork C.fits (Self.network s)) }
        ensures refused { IfErr result (λ e. e ≡ OutOfMemory) };

    /// A store with the capacities of a square matrix, without flow: the value at row `a` and column
    /// `b` is the capacity from `a` to `b`. A matrix that is taken with the allocator of the store is
    /// not copied, and a dense store keeps its values in place; one that is lent is copied.
    ///
    /// # Errors
    ///
    /// `NegativeCapacity` exactly where a capacity is below zero, else `CostOverflow` exactly where
    /// the sum of all capacities does not fit. `OutOfMemory` may come in the place of any answer. A
    /// matrix that was taken is dropped then.
    fn from_matrix<M: IntoMatrix<C, Self::Alloc>>(
        alloc: Self::Alloc,
        source: usize,
        sink: usize,
        capacities: M,
    ) -> Result<Self, PathError>
        requires square { (M.table capacities).rows ≡ (M.table capacities).columns }
        requires source { source < (M.table capacities).rows }
        requires sink { sink < (M.table capacities).rows }
        ensures fresh { IfOk result (λ s. IsFresh (M.table capacities).rows source sink (Self.network s)) }
        ensures capacities { IfOk result (λ s. HasCapacities (matrix_table C.value (M.table capacities)) (Self.network s)) }
        ensures network { IfOk result (λ s. IsNetwork C.fits (Self.network s)) }
        ensures refused { IfErr result (AreRefused C.fits (M.table capacities).rows (matrix_table C.value (M.table capacities))) }
    {
        let capacities = capacities.into_matrix(alloc)?;
        let mut store = Self::new(alloc, capacities.rows(), source, sink)?;
        fill(&mut store, capacities.as_slice())?;
        Ok(store)
    }

    /// As `from_matrix`, for the capacities of a square by rows: a vector that is taken, or a slice
    /// that is lent.
    ///
    /// # Errors
    ///
    /// As those of `from_matrix`.
    fn from_vec<V: IntoVec<C, Self::Alloc>>(
        alloc: Self::Alloc,
        source: usize,
        sink: usize,
        capacities: V,
    ) -> Result<Self, PathError>
        requires square { AreSquare (V.values capacities) }
        requires source { OfSide (V.values capacities) (λ side. source < side) }
        requires sink { OfSide (V.values capacities) (λ side. sink < side) }
        ensures fresh { IfOk result (λ s. OfSide (V.values capacities) (λ side. IsFresh side source sink (Self.network s))) }
        ensures capacities { IfOk result (λ s. OfSide (V.values capacities) (λ side. HasCapacities (square_table C.value side (V.values capacities)) (Self.network s))) }
        ensures network { IfOk result (λ s. IsNetwork C.fits (Self.network s)) }
        ensures refused { IfErr result (λ e. OfSide (V.values capacities) (λ side. AreRefused C.fits side (square_table C.value side (V.values capacities)) e)) }
    {
        let Ok(square) = Matrix::square_from_vec(capacities.into_vec(alloc)?) else {
            unreachable!()
        };
        Self::from_matrix(alloc, source, sink, square)
    }

    /// A store of so many vertices with the capacities of edges between them, without flow. Of several
    /// edges from one vertex to another the last one counts, and a pair without an edge has the
    /// capacity zero. Flows and cuts are listed.
    ///
    /// # Errors
    ///
    /// `UnknownVertex` where source or sink is not below `size`. Then edge by edge, at the first one
    /// that gives cause: `UnknownVertex` where one of its ends is not below `size`, else
    /// `NegativeCapacity` where its capacity is below zero, else `CostOverflow` where the sum of all
    /// capacities with it does not fit. `OutOfMemory` may come in the place of any answer.
    fn from_edges(
        alloc: Self::Alloc,
        size: usize,
        source: usize,
        sink: usize,
        edges: &[Edge<usize, C>],
    ) -> Result<Self, PathError>
        ensures fresh { IfOk result (λ s. IsFresh size source sink (Self.network s)) }
        ensures taken { OnOk result (AreTaken C.value C.fits size (λ a b. pos 0) edges.now) }
        ensures capacities { IfOk result (λ s. HasCapacities (edge_table C.value edges.now) (Self.network s)) }
        ensures network { IfOk result (λ s. IsNetwork C.fits (Self.network s)) }
        ensures refused { IfErr result (AreEdgesFaulty C.value C.fits size source sink edges.now) }
    {
        if source >= size || sink >= size {
            return Err(PathError::UnknownVertex);
        }
        let mut store = Self::new(alloc, size, source, sink)?;
        put_all(&mut store, edges)?;
        Ok(store)
    }

    /// The flows above zero, by rising pair of vertices.
    ///
    /// # Errors
    ///
    /// The only error is `OutOfMemory`.
    fn flows<A: Allocator + Copy>(&self, alloc: A) -> Result<Vec<Edge<usize, C>, A>, PathError>
        requires { IsNetwork C.fits (Self.network self.now) }
        ensures listed { IfOk result (λ flows. ListsFlows C.value (Self.network self.now) flows.items) }
        ensures refused { IfErr result (λ e. e ≡ OutOfMemory) }
    {
        list_flows(self, alloc)
    }

    /// The sum of all capacities.
    fn capacity_sum(&self) -> C
        requires { IsNetwork C.fits (Self.network self.now) }
        ensures { C.value result ≡ capacity_sum (Self.network self.now) }
    {
        sum_of_capacities(self)
    }

    /// Changes one capacity. A capacity that is not below the flow leaves every flow; below it flow
    /// is taken back, and the total falls by at most the excess of the flow over the capacity.
    ///
    /// # Errors
    ///
    /// `NegativeCapacity` exactly where the capacity is below zero, else `CostOverflow` exactly where
    /// the sum of all capacities after the change does not fit. `OutOfMemory` may come in the place
    /// of any answer. A refused change changes nothing.
    fn set_capacity<A: Allocator + Copy>(
        &mut self,
        alloc: A,
        from: usize,
        to: usize,
        capacity: C,
    ) -> Result<(), PathError>
        requires network { IsNetwork C.fits (Self.network self.old) }
        requires from { from < (Self.network self.old).vertices }
        requires to { to < (Self.network self.old).vertices }
        ensures network { IsNetwork C.fits (Self.network self.new) }
        ensures changed { OnOk result (ChangesCapacity from to (C.value capacity) (Self.network self.old) (Self.network self.new)) }
        ensures kept { OnOk result ((Self.network self.old).flow from to ≤ℤ C.value capacity → Same (Self.network self.old).flow (Self.network self.new).flow) }
        ensures total { OnOk result ((Self.network self.new).total ≤ℤ (Self.network self.old).total) }
        ensures excess { OnOk result (FallsByExcess from to (C.value capacity) (Self.network self.old) (Self.network self.new)) }
        ensures unchanged { OnErr result (Agrees (Self.network self.old) (Self.network self.new)) }
        ensures refused { IfErr result (IsChangeRefused C.fits (Self.network self.old) from to (C.value capacity)) }
    {
        change_capacity(self, alloc, from, to, capacity)
    }

    /// Makes the flow a greatest one, with one tick for each path that flow is added along.
    ///
    /// It is `augment`. Flow is added along at most as many paths as the number of vertices times the
    /// number of ordered pairs with capacity in either direction. The tally never falls.
    fn augment_tallied<A: Allocator + Copy>(
        &mut self,
        alloc: A,
        tally: &mut Tally,
    ) -> Result<EKFlows<usize, C, A>, PathError>
        requires { IsNetwork C.fits (Self.network self.old) }
        ensures network { IsNetwork C.fits (Self.network self.new) }
        ensures kept { KeepsCapacities (Self.network self.old) (Self.network self.new) }
        ensures total { (Self.network self.old).total ≤ℤ (Self.network self.new).total }
        ensures cut { OnOk result (HasCutOfTotal (Self.network self.new)) }
        ensures answer { IfOk result (IsFlowAnswer C.value (Self.network self.new)) }
        ensures refused { IfErr result (λ e. e ≡ OutOfMemory) }
        ensures ticked { tally.old ≤ tally.new }
        ensures paths { tally.new ≤ tally.old + path_bound (Self.network self.old) }
    {
        augment_flow(self, alloc, tally)
    }

    /// Makes the flow a greatest one, and answers the flows above zero, the total, and the edges of a
    /// least cut, flows and edges by rising pair of vertices.
    ///
    /// The total is the capacity of a least cut, the least that changes so far allow. The edges are
    /// all pairs with capacity that leave the smallest source side of a least cut. After
    /// `omit_details` both lists are empty. Where source and sink are one, there is no flow and no cut.
    ///
    /// Flow is added along shortest paths (J. Edmonds, R. M. Karp, "Theoretical improvements in
    /// algorithmic efficiency for network flow problems", 1972), in phases of paths of one length
    /// (E. A. Dinic, "Algorithm for solution of a problem of maximum flow in networks with power
    /// estimation", 1970).
    ///
    /// # Errors
    ///
    /// The only error is `OutOfMemory`; then all capacities are as before, the flow is feasible, and its
    /// total is no less than before.
    fn augment<A: Allocator + Copy>(&mut self, alloc: A) -> Result<EKFlows<usize, C, A>, PathError>
        requires { IsNetwork C.fits (Self.network self.old) }
        ensures network { IsNetwork C.fits (Self.network self.new) }
        ensures kept { KeepsCapacities (Self.network self.old) (Self.network self.new) }
        ensures total { (Self.network self.old).total ≤ℤ (Self.network self.new).total }
        ensures cut { OnOk result (HasCutOfTotal (Self.network self.new)) }
        ensures answer { IfOk result (IsFlowAnswer C.value (Self.network self.new)) }
        ensures refused { IfErr result (λ e. e ≡ OutOfMemory) }
    {
        augment_flow(self, alloc, &mut Tally::new())
    }
}
