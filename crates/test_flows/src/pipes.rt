//! A caller whose capacities change: pipes between places, over either store.

ghost use Rattle.std.specs.Prelude.{◌≡◌, IfOk, IfErr, OnOk, OnErr, FitsSigned};
ghost use Rattle.std.specs.Int.{w64};
ghost use Rattle.pf_base.specs.declared.error.PathError.TheVariants.{OutOfMemory};
ghost use Rattle.pf_flow.specs.Networks.{Agrees, ChangesCapacity, HasCutOfTotal, IsNetwork, KeepsCapacities, capacity_sum, without_details};
ghost use Rattle.pf_flow.specs.Listings.{ListsFlows};

use pf_base::PathError;
use pf_flow::edmonds_karp::{EKFlows, Edge, EdmondsKarp};
use std::alloc::Allocator;

/// Pipes between places, each with a capacity that may change.
#[derive(Drop)]
pub struct Pipes<S: EdmondsKarp<i64>> {
    store: S,
    // what each call of the store asks and keeps
    ghost network: { IsNetwork (FitsSigned w64) (S.network store) },
}

impl<S: EdmondsKarp<i64>> Pipes<S> {
    /// So many places, and no pipes.
    ///
    /// # Errors
    ///
    /// `UnknownVertex` where source or sink is not a place; `OutOfMemory`.
    pub fn new(
        alloc: S::Alloc,
        places: usize,
        source: usize,
        sink: usize,
    ) -> Result<Self, PathError> {
        if source >= places || sink >= places {
            return Err(PathError::UnknownVertex);
        }
        Ok(Pipes {
            store: S::new(alloc, places, source, sink)?,
        })
    }

    /// Changes the capacity of the pipe from one place to another.
    ///
    /// # Errors
    ///
    /// `UnknownVertex` where an end is not a place, and those of `set_capacity`.
    pub fn set<A: Allocator + Copy>(
        &mut self,
        alloc: A,
        from: usize,
        to: usize,
        capacity: i64,
    ) -> Result<(), PathError>
        ensures changed { OnOk result (ChangesCapacity from to capacity (S.network self.old.store) (S.network self.new.store)) }
        ensures unchanged { OnErr result (Agrees (S.network self.old.store) (S.network self.new.store)) }
    {
        if from >= self.store.size() || to >= self.store.size() {
            return Err(PathError::UnknownVertex);
        }
        self.store.set_capacity(alloc, from, to, capacity)
    }

    /// Makes the flow a greatest one.
    ///
    /// # Errors
    ///
    /// The only error is `OutOfMemory`.
    pub fn fill<A: Allocator + Copy>(
        &mut self,
        alloc: A,
    ) -> Result<EKFlows<usize, i64, A>, PathError>
        ensures kept { KeepsCapacities (S.network self.old.store) (S.network self.new.store) }
        ensures total { IfOk result (λ answer. answer.1 ≡ (S.network self.new.store).total) }
        ensures cut { OnOk result (HasCutOfTotal (S.network self.new.store)) }
        ensures refused { IfErr result (λ e. e ≡ OutOfMemory) }
    {
        self.store.augment(alloc)
    }

    /// The flows above zero.
    ///
    /// # Errors
    ///
    /// The only error is `OutOfMemory`.
    pub fn flows<A: Allocator + Copy>(
        &self,
        alloc: A,
    ) -> Result<Vec<Edge<usize, i64>, A>, PathError>
        ensures listed { IfOk result (λ flows. ListsFlows (λ z. z) (S.network self.now.store) flows.items) }
    {
        self.store.flows(alloc)
    }

    /// The flow and what is left of the capacity from one place to another, if both are places.
    pub fn pipe(&self, from: usize, to: usize) -> Option<(i64, i64)> {
        if from >= self.store.size() || to >= self.store.size() {
            return None;
        }
        let flow = self.store.flow(from, to);
        Some((flow, self.store.residual_capacity(from, to)))
    }

    /// The places to which something is left of the capacity from a place, each with it.
    ///
    /// # Errors
    ///
    /// `UnknownVertex` where it is not a place; `OutOfMemory`.
    pub fn left_from<A: Allocator + Copy>(
        &self,
        alloc: A,
        from: usize,
    ) -> Result<Vec<(usize, i64), A>, PathError> {
        if from >= self.store.size() {
            return Err(PathError::UnknownVertex);
        }
        self.store.residual_successors(alloc, from)
    }

    /// The sum of all capacities.
    pub fn sum(&self) -> i64
        ensures { result ≡ capacity_sum (S.network self.now.store) }
    {
        self.store.capacity_sum()
    }

    /// The total of the flow.
    pub fn total(&self) -> i64
        ensures { result ≡ (S.network self.now.store).total }
    {
        self.store.total_capacity()
    }

    /// From now on `fill` lists neither flows nor cuts.
    pub fn be_brief(&mut self)
        ensures { Agrees (without_details (S.network self.old.store)) (S.network self.new.store) }
    {
        self.store.omit_details();
    }
}
