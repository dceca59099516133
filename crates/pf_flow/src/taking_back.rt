//! Flow that is taken back off an edge, to the source and from the sink, or round cycles.

ghost use Rattle.std.specs.Prelude.{◌≡◌, ◌≢◌, ◌<◌, ◌≤ℤ◌, ◌<ℤ◌, ◌-ℤ◌, ℕ, pos, Some, OnOk, OnErr, IfOk, IfErr, slice_get};
ghost use Rattle.pf_base.specs.declared.error.PathError.TheVariants.{OutOfMemory};
ghost use Rattle.pf_residual.specs.declared.cancelling.arcs.Arc.{Arc};
ghost use Rattle.pf_residual.specs.Flows.{Same};
ghost use Rattle.pf_residual.specs.Networks.{Network, Agrees, KeepsCapacities, IsNetwork};
ghost use Rattle.pf_residual.specs.Internal.Balances.{IsBalanced};
ghost use Rattle.pf_residual.specs.Internal.Cancelling.{HasAmount};
ghost use Rattle.pf_residual.specs.Internal.Settled.{HoldFlows, IsPlan, IsSettled, AreFlowing, moved};
ghost use Rattle.pf_flow.specs.Internal.Changes.{Carries, IsTakenBack};

use crate::listings::list_flows;
use pf_base::{PathError, SignedCost};
use pf_residual::cancelling::arcs::Arc;
use pf_residual::cancelling::cancel;
use pf_residual::store::FlowStore;
use std::alloc::Allocator;

/// Arcs, and for each its amount.
type Amounts<C, A> = (Vec<Arc, A>, Vec<C, A>);

/// The flows above zero.
fn flowing<C, S, A>(store: &S, alloc: A) -> Result<Amounts<C, A>, PathError>
where
    C: SignedCost,
    S: FlowStore<C>,
    A: Allocator + Copy,
    requires { IsNetwork C.fits (S.network store.now) }
    ensures flows { IfOk result (λ flowing. HoldFlows C.value (S.network store.now) flowing.0.items flowing.1.items) }
    ensures refused { IfErr result (λ e. e ≡ OutOfMemory) }
{
    let flows = list_flows(store, alloc)?;
    let mut ends = Vec::new(alloc);
    let mut amounts = Vec::new(alloc);
    'flows: for flow in &flows {
        let (from, to) = flow.0;
        ends.push(Arc { from, to })?;
        amounts.push(flow.1)?;
    }
    Ok((ends, amounts))
}

/// The number of an arc that is one of the list.
fn number_of(ends: &[Arc], from: usize, to: usize) -> usize
    requires listed { (k : ℕ) × (e : Arc) × (slice_get ends.now k ≡ Some e) × (e.from ≡ from) × (e.to ≡ to) }
    ensures number { (e : Arc) × (slice_get ends.now result ≡ Some e) × (e.from ≡ from) × (e.to ≡ to) }
{
    let mut number = 0;
    'arcs: while ends[number].from != from || ends[number].to != to {
        number += 1;
    }
    number
}

/// Lowers the flow of an arc to an amount.
fn lower_flow<C, S>(store: &mut S, arc: Arc, amount: C)
where
    C: SignedCost,
    S: FlowStore<C>,
    requires balanced { IsBalanced C.fits (S.network store.old) }
    requires carries { Carries (C.value amount) arc (S.network store.old) }
    ensures balanced { IsBalanced C.fits (S.network store.new) }
    ensures kept { KeepsCapacities (S.network store.old) (S.network store.new) }
    ensures moved { Same (moved (S.network store.old).flow arc.to arc.from ((S.network store.old).flow arc.from arc.to -ℤ C.value amount)) (S.network store.new).flow }
    ensures total { (S.network store.new).total ≡ (S.network store.old).total }
{
    let excess = store.flow(arc.from, arc.to).minus(amount);
    store.add_flow(arc.to, arc.from, excess);
}

/// Lowers the flow of the first arcs to their amounts.
fn lower_flows<C, S>(store: &mut S, ends: &[Arc], amounts: &[C], count: usize)
where
    C: SignedCost,
    S: FlowStore<C>,
    requires balanced { IsBalanced C.fits (S.network store.old) }
    requires flowing { AreFlowing C.value count ends.now amounts.now (S.network store.old) }
    ensures balanced { IsBalanced C.fits (S.network store.new) }
    ensures settled { IsSettled C.value count ends.now amounts.now (S.network store.old) (S.network store.new) }
{
    'arcs: for number in 0..count {
        lower_flow(store, ends[number], amounts[number]);
    }
}

/// Takes flow back off an arc, by a plan over all flows, the last arc of which leads from the sink
/// back to the source with the total.
fn take_back_by<C, S, A>(
    store: &mut S,
    alloc: A,
    ends: &[Arc],
    amounts: &mut [C],
    through: usize,
    excess: C,
) -> Result<(), PathError>
where
    C: SignedCost,
    S: FlowStore<C>,
    A: Allocator + Copy,
    requires network { IsNetwork C.fits (S.network store.old) }
    requires apart { (S.network store.old).source ≢ (S.network store.old).sink }
    requires plan { (count : ℕ) × IsPlan C.value count ends.now amounts.old (S.network store.old) × (through < count) }
    requires some { pos 0 <ℤ C.value excess }
    requires enough { HasAmount C.value amounts.old through (λ z. C.value excess ≤ℤ z) }
    ensures network { IsNetwork C.fits (S.network store.new) }
    ensures taken { OnOk result ((e : Arc) → slice_get ends.now through ≡ Some e → IsTakenBack e.from e.to (C.value excess) (S.network store.old) (S.network store.new)) }
    ensures unchanged { OnErr result (Agrees (S.network store.old) (S.network store.new)) }
    ensures refused { IfErr result (λ e. e ≡ OutOfMemory) }
{
    let count = ends.len() - 1;
    cancel(alloc, store.size(), ends, amounts, through, excess)?;
    lower_flows(store, ends, amounts, count);
    store.set_total_capacity(amounts[count]);
    Ok(())
}

/// Takes flow back off an edge, so that the total falls by no more.
pub fn take_back<C, S, A>(
    store: &mut S,
    alloc: A,
    from: usize,
    to: usize,
    excess: C,
) -> Result<(), PathError>
where
    C: SignedCost,
    S: FlowStore<C>,
    A: Allocator + Copy,
    requires network { IsNetwork C.fits (S.network store.old) }
    requires from { from < (S.network store.old).vertices }
    requires to { to < (S.network store.old).vertices }
    requires some { pos 0 <ℤ C.value excess }
    requires most { C.value excess ≤ℤ (S.network store.old).flow from to }
    ensures network { IsNetwork C.fits (S.network store.new) }
    ensures taken { OnOk result (IsTakenBack from to (C.value excess) (S.network store.old) (S.network store.new)) }
    ensures unchanged { OnErr result (Agrees (S.network store.old) (S.network store.new)) }
    ensures refused { IfErr result (λ e. e ≡ OutOfMemory) }
{
    let (mut ends, mut amounts) = flowing(store, alloc)?;
    let through = number_of(&ends, from, to);
    // What reaches the sink is as if it went on to the source, so that all flow runs round cycles.
    ends.push(Arc {
        from: store.sink(),
        to: store.source(),
    })?;
    amounts.push(store.total_capacity())?;
    take_back_by(store, alloc, &ends, &mut amounts, through, excess)
}
