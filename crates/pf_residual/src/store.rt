//! What a store of flows has to offer.

ghost use Rattle.std.specs.Prelude.{◌≡◌, ◌≢◌, map, ◌<◌, ◌+ℤ◌, ◌-ℤ◌, pos, ◌<ℤ◌, true, OnOk, IfOk, IfErr, IfSome};
ghost use Rattle.pf_base.specs.declared.error.PathError.TheVariants.{OutOfMemory};
ghost use Rattle.pf_residual.specs.Flows.{pair_sum};
ghost use Rattle.pf_residual.specs.Networks.{Network, IsStored, Agrees, with_flow, with_residual, with_total, without_details};
ghost use Rattle.pf_residual.specs.Listings.{ListsNumbers, ListsVertices};

use pf_base::{PathError, SignedCost};
use std::alloc::Allocator;

/// A store of residual capacities and flows, for those who write one: what is done with it is
/// `EdmondsKarp`.
///
/// A contract sees it as `Self.network`: a number of vertices, a source, a sink, the residual
/// capacity and the flow of each ordered pair of vertices, a total, the mark whether flows and cuts
/// are listed, and which pairs have room. With a pair its reverse has room, each pair with residual
/// capacity or flow has it, and the flows of a pair and of its reverse add up to zero. Every call that
/// is refused is refused with `OutOfMemory`.
pub trait FlowStore<C: SignedCost>: Sized + Drop {
    // What the store holds.
    ghost network: { Self → Network };

    /// The number of vertices.
    fn size(&self) -> usize
        ensures { result ≡ (network self.now).vertices };

    /// The source.
    fn source(&self) -> usize
        ensures { result ≡ (network self.now).source };

    /// The sink.
    fn sink(&self) -> usize
        ensures { result ≡ (network self.now).sink };

    /// The flow from one vertex to another.
    fn flow(&self, from: usize, to: usize) -> C
        requires from { from < (network self.now).vertices }
        requires to { to < (network self.now).vertices }
        ensures { C.value result ≡ (network self.now).flow from to };

    /// What is left of the capacity from one vertex to another.
    fn residual_capacity(&self, from: usize, to: usize) -> C
        requires from { from < (network self.now).vertices }
        requires to { to < (network self.now).vertices }
        ensures { C.value result ≡ (network self.now).residual from to };

    /// The vertices to which a vertex has residual capacity above zero, each with it, in rising order.
    fn residual_successors<A: Allocator + Copy>(
        &self,
        alloc: A,
        from: usize,
    ) -> Result<Vec<(usize, C), A>, PathError>
        requires { from < (network self.now).vertices }
        ensures listed { IfOk result (λ ends. ListsNumbers C.value (network self.now).vertices ((network self.now).residual from) ends.items) }
        ensures refused { IfErr result (λ e. e ≡ OutOfMemory) };

    /// Lists the vertices to which a vertex has residual capacity above zero, in rising order, in the
    /// place of what was listed before. Beside each stands a number by which the store finds the pair
    /// again: where to look first.
    ///
    /// A store need not look anywhere first: then the list is that of `residual_successors`.
    fn list_residual<A: Allocator + Copy>(
        &self,
        from: usize,
        ends: &mut Vec<(usize, usize), A>,
    ) -> Result<(), PathError>
        requires { from < (network self.now).vertices }
        ensures listed { OnOk result (ListsVertices (network self.now).vertices (λ to. pos 0 <ℤ (network self.now).residual from to) (map (λ end. end.0) ends.new.items)) }
        ensures refused { IfErr result (λ e. e ≡ OutOfMemory) }
    {
        ends.clear();
        let successors = self.residual_successors(*ends.allocator(), from)?;
        for successor in &successors {
            ends.push((successor.0, 0))?;
        }
        Ok(())
    }

    /// The same as `residual_capacity`, for a pair that is likely to be found by this number.
    fn residual_capacity_near(&self, from: usize, to: usize, _place: usize) -> C
        requires from { from < (network self.now).vertices }
        requires to { to < (network self.now).vertices }
        ensures { C.value result ≡ (network self.now).residual from to }
    {
        self.residual_capacity(from, to)
    }

    /// The vertices to which there is flow above zero from a vertex, in rising order.
    fn flows_from<A: Allocator + Copy>(
        &self,
        alloc: A,
        from: usize,
    ) -> Result<Vec<usize, A>, PathError>
        requires { from < (network self.now).vertices }
        ensures listed { IfOk result (λ ends. ListsVertices (network self.now).vertices (λ to. pos 0 <ℤ (network self.now).flow from to) ends.items) }
        ensures refused { IfErr result (λ e. e ≡ OutOfMemory) };

    /// The total of the flow.
    fn total_capacity(&self) -> C
        ensures { C.value result ≡ (network self.now).total };

    /// Are flows and cuts listed?
    fn has_details(&self) -> bool
        ensures { result ≡ (network self.now).details };

    /// From now on neither flows nor cuts are listed.
    fn omit_details(&mut self)
        ensures { Agrees (without_details (network self.old)) (network self.new) };

    /// Gives room to a pair of vertices and to its reverse, so that updates of the two take no memory.
    ///
    /// # Errors
    ///
    /// The only error is `OutOfMemory`. No table changes, and no room is taken away.
    fn make_room(&mut self, from: usize, to: usize) -> Result<(), PathError>
        requires from { from < (network self.old).vertices }
        requires to { to < (network self.old).vertices }
        ensures same { Agrees (network self.old) (network self.new) }
        ensures room { OnOk result ((network self.new).room from to ≡ true) }
        ensures refused { IfErr result (λ e. e ≡ OutOfMemory) };

    /// Adds to the flow from one vertex to another and takes as much from the residual capacity; for
    /// the reverse it is the other way round.
    fn add_flow(&mut self, from: usize, to: usize, amount: C)
        requires room { (network self.old).room from to ≡ true }
        requires apart { from ≢ to }
        requires flow { C.fits ((network self.old).flow from to +ℤ C.value amount) }
        requires flow_back { C.fits ((network self.old).flow to from -ℤ C.value amount) }
        requires residual { C.fits ((network self.old).residual from to -ℤ C.value amount) }
        requires residual_back { C.fits ((network self.old).residual to from +ℤ C.value amount) }
        ensures { Agrees (with_flow from to (C.value amount) (network self.old)) (network self.new) };

    /// The same as `add_flow`, for a pair that is likely to be found by this number.
    fn add_flow_near(&mut self, from: usize, to: usize, _place: usize, amount: C)
        requires room { (network self.old).room from to ≡ true }
        requires apart { from ≢ to }
        requires flow { C.fits ((network self.old).flow from to +ℤ C.value amount) }
        requires flow_back { C.fits ((network self.old).flow to from -ℤ C.value amount) }
        requires residual { C.fits ((network self.old).residual from to -ℤ C.value amount) }
        requires residual_back { C.fits ((network self.old).residual to from +ℤ C.value amount) }
        ensures { Agrees (with_flow from to (C.value amount) (network self.old)) (network self.new) }
    {
        self.add_flow(from, to, amount);
    }

    /// Adds to the residual capacity from one vertex to another.
    fn add_residual_capacity(&mut self, from: usize, to: usize, amount: C)
        requires room { (network self.old).room from to ≡ true }
        requires fits { C.fits ((network self.old).residual from to +ℤ C.value amount) }
        ensures { Agrees (with_residual from to (C.value amount) (network self.old)) (network self.new) };

    /// Sets the total.
    fn set_total_capacity(&mut self, total: C)
        ensures { Agrees (with_total (C.value total) (network self.old)) (network self.new) };

    /// The sum of what is left of all capacities, where the store knows it.
    ///
    /// A store need not know it: then each change of a capacity goes over all pairs with residual
    /// capacity.
    fn known_sum(&self) -> Option<C>
        ensures { IfSome result (λ sum. C.value sum ≡ pair_sum (network self.now).vertices (network self.now).residual) }
    {
        None
    }

    /// Tells the store the sum of what is left of all capacities, which it may know until a table
    /// changes.
    fn note_sum(&mut self, _sum: C)
        requires { C.value _sum ≡ pair_sum (network self.old).vertices (network self.old).residual }
        ensures { Agrees (network self.old) (network self.new) }
    {}

    // Source and sink are vertices, which pairs have room is as it should be, and the flow is antisymmetric.
    ghost network_law: { (s : Self) → IsStored (network s) };
}
