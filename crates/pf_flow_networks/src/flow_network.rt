//! Networks of vertices with names, whose capacities change.

ghost use Rattle.std.specs.Prelude.{◌≡◌, ◌⊎◌, ◌≤ℤ◌, pos, length, OnOk, OnErr, IfOk, IfErr};
ghost use Rattle.pf_base.specs.declared.error.PathError.TheVariants.{OutOfMemory, UnknownVertex};
ghost use Rattle.pf_base.specs.Costs.{LiesBetween};
ghost use Rattle.pf_base.specs.Places.{number_of};
ghost use Rattle.pf_residual.specs.Capacities.{FallsByExcess};
ghost use Rattle.pf_residual.specs.Flows.{Same};
ghost use Rattle.pf_residual.specs.NamedNetworks.{IsKnown, names_of};
ghost use Rattle.pf_residual.specs.Networks.{HasCapacities, HasCutOfTotal, IsFresh, IsNetwork, capacity_sum};
ghost use Rattle.pf_flow_networks.specs.NamedFlows.{AgreesByName, AreVertices, IsNamedFlowAnswer, IsSetRefused, IsUnknown, KeepsNamedCapacities, ListsNamedFlows, SetsCapacity, flow_between, left_between, named, vertex_of};
ghost use Rattle.pf_flow_networks.specs.Internal.Whole.{IsWhole};

use pf_base::{PathError, SignedCost};
use pf_flow::edmonds_karp::{EKFlows, Edge, EdmondsKarp, SparseCapacity};
use pf_residual::names::{Names, known_number, name_answer, name_edges, names_among};
use std::hash::Hash;

/// A network of vertices with names, whose capacities change, with a flow from its source to its sink.
///
/// The vertices are numbered by their first standing in the list that the network is made of; equal
/// vertices are one. The flow is feasible after each call, also where the call is refused, and a
/// greatest one after `augment`. Capacities and flows are kept in a store, a `SparseCapacity` or another
/// one. A contract sees the names and what the store shows of their numbers (`named`).
#[derive(Drop)]
pub struct FlowNetwork<N: Eq + Hash, C: SignedCost, S: EdmondsKarp<C> = SparseCapacity<C>> {
    names: Names<N, S::Alloc>,
    store: S,
    // each vertex has a name, what the store asks holds of it, and flows and cuts are listed
    ghost whole: { IsWhole (LiesBetween (C.value C.least) (C.value C.greatest)) (named names.keys (S.network store)) },
}

impl<N: Eq + Hash + Copy, C: SignedCost, S: EdmondsKarp<C>> FlowNetwork<N, C, S> {
    /// A network of these vertices, without capacities.
    ///
    /// # Errors
    ///
    /// `UnknownVertex` exactly where source or sink is not among the vertices. `OutOfMemory` may come in
    /// the place of any answer.
    pub fn new(alloc: S::Alloc, vertices: &[N], source: &N, sink: &N) -> Result<Self, PathError>
        ensures names { IfOk result (λ s. s.names.keys ≡ names_of N.eq vertices.now) }
        ensures source { OnOk result (IsKnown N.eq (names_of N.eq vertices.now) source.now) }
        ensures sink { OnOk result (IsKnown N.eq (names_of N.eq vertices.now) sink.now) }
        ensures fresh { IfOk result (λ s. IsFresh (length s.names.keys) (number_of N.eq s.names.keys source.now) (number_of N.eq s.names.keys sink.now) (S.network s.store)) }
        ensures capacities { IfOk result (λ s. HasCapacities (λ a b. pos 0) (S.network s.store)) }
        ensures network { IfOk result (λ s. IsNetwork C.fits (S.network s.store)) }
        ensures refused { IfErr result (λ e. (e ≡ OutOfMemory) ⊎ ((e ≡ UnknownVertex) × ((¬ (IsKnown N.eq (names_of N.eq vertices.now) source.now)) ⊎ (¬ (IsKnown N.eq (names_of N.eq vertices.now) sink.now))))) }
    {
        let names = names_among(alloc, vertices)?;
        let from = known_number(&names, source)?;
        let to = known_number(&names, sink)?;
        let store = S::new(alloc, names.len(), from, to)?;
        Ok(FlowNetwork { names, store })
    }

    /// Changes the capacity from one vertex to another. A capacity that is not below the flow leaves
    /// every flow; below it flow is taken back, and the total falls by at most the excess of the flow
    /// over the capacity.
    ///
    /// # Errors
    ///
    /// `UnknownVertex` exactly where one of the names is not that of a vertex, else `NegativeCapacity`
    /// exactly where the capacity is below zero, else `CostOverflow` exactly where the sum of all
    /// capacities after the change does not fit. `OutOfMemory` may come in the place of any answer but
    /// `UnknownVertex`. A refused change changes nothing.
    pub fn set_capacity(
        &mut self,
        alloc: S::Alloc,
        from: &N,
        to: &N,
        capacity: C,
    ) -> Result<(), PathError>
        ensures network { IsNetwork C.fits (S.network self.new.store) }
        ensures vertices { OnOk result (AreVertices N.eq (named self.old.names.keys (S.network self.old.store)) from.now to.now) }
        ensures changed { OnOk result (SetsCapacity N.eq from.now to.now (C.value capacity) (named self.old.names.keys (S.network self.old.store)) (named self.new.names.keys (S.network self.new.store))) }
        ensures kept { OnOk result (flow_between N.eq (named self.old.names.keys (S.network self.old.store)) from.now to.now ≤ℤ C.value capacity → Same (S.network self.old.store).flow (S.network self.new.store).flow) }
        ensures total { OnOk result ((S.network self.new.store).total ≤ℤ (S.network self.old.store).total) }
        ensures excess { OnOk result (FallsByExcess (vertex_of N.eq (named self.old.names.keys (S.network self.old.store)) from.now) (vertex_of N.eq (named self.old.names.keys (S.network self.old.store)) to.now) (C.value capacity) (S.network self.old.store) (S.network self.new.store)) }
        ensures unchanged { OnErr result (AgreesByName (named self.old.names.keys (S.network self.old.store)) (named self.new.names.keys (S.network self.new.store))) }
        ensures refused { IfErr result (IsSetRefused N.eq C.fits (named self.old.names.keys (S.network self.old.store)) from.now to.now (C.value capacity)) }
    {
        let from = known_number(&self.names, from)?;
        let to = known_number(&self.names, to)?;
        self.store.set_capacity(alloc, from, to, capacity)
    }

    /// Makes the flow a greatest one, and answers the flows above zero, the total, and the edges of a
    /// least cut, flows and edges by rising pair of numbers, with the names of the vertices.
    ///
    /// The total is the capacity of a least cut, the least that changes so far allow. The edges are
    /// all pairs with capacity that leave the smallest source side of a least cut. Where source and
    /// sink are one, there is no flow and no cut. The algorithm is that of `EdmondsKarp::augment`.
    ///
    /// # Errors
    ///
    /// The only error is `OutOfMemory`; then all capacities are as before, the total is no less than
    /// before, and a second call goes on.
    pub fn augment(&mut self, alloc: S::Alloc) -> Result<EKFlows<N, C, S::Alloc>, PathError>
        ensures network { IsNetwork C.fits (S.network self.new.store) }
        ensures kept { KeepsNamedCapacities (named self.old.names.keys (S.network self.old.store)) (named self.new.names.keys (S.network self.new.store)) }
        ensures total { (S.network self.old.store).total ≤ℤ (S.network self.new.store).total }
        ensures cut { OnOk result (HasCutOfTotal (S.network self.new.store)) }
        ensures answer { IfOk result (IsNamedFlowAnswer C.value (named self.new.names.keys (S.network self.new.store))) }
        ensures refused { IfErr result (λ e. e ≡ OutOfMemory) }
    {
        let answer = self.store.augment(alloc)?;
        name_answer(alloc, self.names.as_slice(), &answer)
    }

    /// The flows above zero, by rising pair of numbers, with the names of the vertices.
    ///
    /// # Errors
    ///
    /// The only error is `OutOfMemory`.
    pub fn flows(&self, alloc: S::Alloc) -> Result<Vec<Edge<N, C>, S::Alloc>, PathError>
        ensures listed { IfOk result (λ flows. ListsNamedFlows C.value (named self.now.names.keys (S.network self.now.store)) flows.items) }
        ensures refused { IfErr result (λ e. e ≡ OutOfMemory) }
    {
        let flows = self.store.flows(alloc)?;
        name_edges(alloc, self.names.as_slice(), &flows)
    }

    /// The flow from one vertex to another.
    ///
    /// # Errors
    ///
    /// `UnknownVertex` exactly where one of the names is not that of a vertex.
    pub fn flow(&self, from: &N, to: &N) -> Result<C, PathError>
        ensures flow { IfOk result (λ flow. C.value flow ≡ flow_between N.eq (named self.now.names.keys (S.network self.now.store)) from.now to.now) }
        ensures vertices { OnOk result (AreVertices N.eq (named self.now.names.keys (S.network self.now.store)) from.now to.now) }
        ensures refused { IfErr result (λ e. (e ≡ UnknownVertex) × IsUnknown N.eq (named self.now.names.keys (S.network self.now.store)) from.now to.now) }
    {
        let from = known_number(&self.names, from)?;
        let to = known_number(&self.names, to)?;
        Ok(self.store.flow(from, to))
    }

    /// What is left of the capacity from one vertex to another. The capacity is this and the flow.
    ///
    /// # Errors
    ///
    /// `UnknownVertex` exactly where one of the names is not that of a vertex.
    pub fn residual_capacity(&self, from: &N, to: &N) -> Result<C, PathError>
        ensures left { IfOk result (λ left. C.value left ≡ left_between N.eq (named self.now.names.keys (S.network self.now.store)) from.now to.now) }
        ensures vertices { OnOk result (AreVertices N.eq (named self.now.names.keys (S.network self.now.store)) from.now to.now) }
        ensures refused { IfErr result (λ e. (e ≡ UnknownVertex) × IsUnknown N.eq (named self.now.names.keys (S.network self.now.store)) from.now to.now) }
    {
        let from = known_number(&self.names, from)?;
        let to = known_number(&self.names, to)?;
        Ok(self.store.residual_capacity(from, to))
    }

    /// The total of the flow.
    pub fn total(&self) -> C
        ensures { C.value result ≡ (S.network self.now.store).total }
    {
        self.store.total_capacity()
    }

    /// The sum of all capacities.
    pub fn capacity_sum(&self) -> C
        ensures { C.value result ≡ capacity_sum (S.network self.now.store) }
    {
        self.store.capacity_sum()
    }

    /// The vertices, each once, in the order of their numbers.
    pub fn names(&self) -> &[N]
        ensures { result.now ≡ self.now.names.keys }
    {
        self.names.as_slice()
    }
}
