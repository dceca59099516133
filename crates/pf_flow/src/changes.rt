//! Changes of a capacity.

ghost use Rattle.std.specs.Prelude.{◌≡◌, ◌<◌, ◌≤ℤ◌, pos, true, OnOk, OnErr, IfOk, IfErr};
ghost use Rattle.num_traits.specs.Laws.{Checks};
ghost use Rattle.pf_residual.specs.Flows.{replaced, pair_sum};
ghost use Rattle.pf_base.specs.declared.error.PathError.TheVariants.{OutOfMemory};
ghost use Rattle.pf_residual.specs.Networks.{Network, Agrees, IsNetwork, capacity, capacity_sum};
ghost use Rattle.pf_residual.specs.Capacities.{IsChangeRefused};
ghost use Rattle.pf_flow.specs.Internal.Changes.{IsPlanned, IsLoweredTo, SetsCapacity, IsChanged};

use crate::makers::exchanged;
use crate::taking_back::take_back;
use pf_base::cost::arithmetic::{is_below, plus};
use pf_base::{PathError, SignedCost};
use pf_residual::listed_sums::sum_by_lists;
use pf_residual::store::FlowStore;
use std::alloc::Allocator;

/// The capacity of a pair of vertices.
fn capacity_of<C, S>(store: &S, from: usize, to: usize) -> C
where
    C: SignedCost,
    S: FlowStore<C>,
    requires network { IsNetwork C.fits (S.network store.now) }
    requires from { from < (S.network store.now).vertices }
    requires to { to < (S.network store.now).vertices }
    ensures { C.value result ≡ capacity (S.network store.now) from to }
{
    plus(store.residual_capacity(from, to), store.flow(from, to))
}

/// The sum of all capacities.
fn sum_now<C, S, A>(store: &S, alloc: A) -> Result<C, PathError>
where
    C: SignedCost,
    S: FlowStore<C>,
    A: Allocator + Copy,
    requires { IsNetwork C.fits (S.network store.now) }
    ensures sum { IfOk result (λ sum. C.value sum ≡ capacity_sum (S.network store.now)) }
    ensures refused { IfErr result (λ e. e ≡ OutOfMemory) }
{
    match store.known_sum() {
        Some(sum) => Ok(sum),
        None => sum_by_lists(store, alloc),
    }
}

/// The sum of all capacities once the capacity of a pair is another, if it fits.
fn sum_after<C, S, A>(
    store: &S,
    alloc: A,
    from: usize,
    to: usize,
    old: C,
    number: C,
) -> Result<Option<C>, PathError>
where
    C: SignedCost,
    S: FlowStore<C>,
    A: Allocator + Copy,
    requires network { IsNetwork C.fits (S.network store.now) }
    requires from { from < (S.network store.now).vertices }
    requires to { to < (S.network store.now).vertices }
    requires old { C.value old ≡ capacity (S.network store.now) from to }
    ensures sum { IfOk result (Checks C.value C.fits (pair_sum (S.network store.now).vertices (replaced (capacity (S.network store.now)) from to (C.value number)))) }
    ensures refused { IfErr result (λ e. e ≡ OutOfMemory) }
{
    let sum = sum_now(store, alloc)?;
    Ok(exchanged(sum, old, number))
}

/// The capacity of a pair of vertices, if it may become another, and the sum of all capacities then.
fn plan_change<C, S, A>(
    store: &S,
    alloc: A,
    from: usize,
    to: usize,
    number: C,
) -> Result<(C, C), PathError>
where
    C: SignedCost,
    S: FlowStore<C>,
    A: Allocator + Copy,
    requires network { IsNetwork C.fits (S.network store.now) }
    requires from { from < (S.network store.now).vertices }
    requires to { to < (S.network store.now).vertices }
    ensures planned { IfOk result (λ plan. IsPlanned from to (C.value plan.0) (C.value number) (C.value plan.1) (S.network store.now)) }
    ensures refused { IfErr result (IsChangeRefused C.fits (S.network store.now) from to (C.value number)) }
{
    if is_below(number, C::zero()) {
        return Err(PathError::NegativeCapacity);
    }
    let old = capacity_of(store, from, to);
    let Some(sum) = sum_after(store, alloc, from, to, old, number)? else {
        return Err(PathError::CostOverflow);
    };
    Ok((old, sum))
}

/// Takes back the flow of a pair that is above a number.
fn lower_to<C, S, A>(
    store: &mut S,
    alloc: A,
    from: usize,
    to: usize,
    number: C,
) -> Result<(), PathError>
where
    C: SignedCost,
    S: FlowStore<C>,
    A: Allocator + Copy,
    requires network { IsNetwork C.fits (S.network store.old) }
    requires from { from < (S.network store.old).vertices }
    requires to { to < (S.network store.old).vertices }
    requires low { pos 0 ≤ℤ C.value number }
    ensures network { IsNetwork C.fits (S.network store.new) }
    ensures lowered { OnOk result (IsLoweredTo from to (C.value number) (S.network store.old) (S.network store.new)) }
    ensures unchanged { OnErr result (Agrees (S.network store.old) (S.network store.new)) }
    ensures refused { IfErr result (λ e. e ≡ OutOfMemory) }
{
    let flow = store.flow(from, to);
    if !is_below(number, flow) {
        return Ok(());
    }
    take_back(store, alloc, from, to, flow.minus(number))
}

/// Changes the capacity of a pair that has room, where its flow is not above the new one. Given is the
/// sum of all capacities after that.
fn settle_capacity<C, S>(store: &mut S, from: usize, to: usize, old: C, number: C, sum: C)
where
    C: SignedCost,
    S: FlowStore<C>,
    requires network { IsNetwork C.fits (S.network store.old) }
    requires from { from < (S.network store.old).vertices }
    requires to { to < (S.network store.old).vertices }
    requires room { (S.network store.old).room from to ≡ true }
    requires planned { IsPlanned from to (C.value old) (C.value number) (C.value sum) (S.network store.old) }
    requires flow { (S.network store.old).flow from to ≤ℤ C.value number }
    ensures network { IsNetwork C.fits (S.network store.new) }
    ensures set { SetsCapacity from to (C.value number) (S.network store.old) (S.network store.new) }
{
    number.known();
    sum.known();
    store.add_residual_capacity(from, to, number.minus(old));
    store.note_sum(sum);
}

/// Changes one capacity, and takes back the flow above it.
pub fn change_capacity<C, S, A>(
    store: &mut S,
    alloc: A,
    from: usize,
    to: usize,
    capacity: C,
) -> Result<(), PathError>
where
    C: SignedCost,
    S: FlowStore<C>,
    A: Allocator + Copy,
    requires network { IsNetwork C.fits (S.network store.old) }
    requires from { from < (S.network store.old).vertices }
    requires to { to < (S.network store.old).vertices }
    ensures network { IsNetwork C.fits (S.network store.new) }
    ensures changed { OnOk result (IsChanged from to (C.value capacity) (S.network store.old) (S.network store.new)) }
    ensures unchanged { OnErr result (Agrees (S.network store.old) (S.network store.new)) }
    ensures refused { IfErr result (IsChangeRefused C.fits (S.network store.old) from to (C.value capacity)) }
{
    let (old, sum) = plan_change(store, alloc, from, to, capacity)?;
    store.make_room(from, to)?;
    lower_to(store, alloc, from, to, capacity)?;
    settle_capacity(store, from, to, old, capacity, sum);
    Ok(())
}
