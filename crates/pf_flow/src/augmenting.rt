//! Greatest flows along shortest augmenting paths.

ghost use Rattle.std.specs.Prelude.{◌≡◌, ◌≢◌, ◌≤◌, ◌≤ℤ◌, ◌+◌, OnOk, IfOk, IfErr};
ghost use Rattle.pf_base.specs.declared.error.PathError.TheVariants.{OutOfMemory};
ghost use Rattle.pf_residual.specs.Networks.{Network, path_bound, KeepsCapacities, IsNetwork, HasCutOfTotal};
ghost use Rattle.pf_residual.specs.Listings.{IsFlowAnswer};
ghost use Rattle.pf_residual.specs.Internal.Levels.{IsSinkCutOff};

use crate::cuts::list_cut;
use crate::edmonds_karp::EKFlows;
use crate::levels::Levels;
use crate::listings::list_flows;
use crate::phases::augment_phase;
use pf_base::{PathError, SignedCost, Tally};
use pf_residual::store::FlowStore;
use std::alloc::Allocator;

/// Adds flow along shortest paths, in phases of paths of one length, until none is left. Found are then
/// the levels of the last search, which does not reach the sink.
fn run_phases<C, S, A>(
    store: &mut S,
    alloc: A,
    found: &mut Levels<A>,
    tally: &mut Tally,
) -> Result<(), PathError>
where
    C: SignedCost,
    S: FlowStore<C>,
    A: Allocator + Copy,
    requires network { IsNetwork C.fits (S.network store.old) }
    requires apart { (S.network store.old).source ≢ (S.network store.old).sink }
    ensures network { IsNetwork C.fits (S.network store.new) }
    ensures kept { KeepsCapacities (S.network store.old) (S.network store.new) }
    ensures total { (S.network store.old).total ≤ℤ (S.network store.new).total }
    ensures cut_off { OnOk result (IsSinkCutOff (S.network store.new) found.new.levels.items found.new.parents.items) }
    ensures refused { IfErr result (λ e. e ≡ OutOfMemory) }
    ensures ticked { tally.old ≤ tally.new }
    ensures paths { tally.new ≤ tally.old + path_bound (S.network store.old) }
{
    let size = store.size();
    let sink = store.sink();
    let mut path = Vec::new(alloc);
    path.resize(size, 0)?;
    let mut places = Vec::new(alloc);
    places.resize(size, 0)?;
    found.find(alloc, store)?;
    'phases: while found.levels[sink] < size {
        augment_phase(store, found, &mut path, &mut places, tally);
        found.find(alloc, store)?;
    }
    Ok(())
}

/// The answer for a flow with which no augmenting path is left. Given are the levels of a search that
/// does not reach the sink.
fn list_answer<C, S, A>(
    store: &S,
    alloc: A,
    found: &Levels<A>,
) -> Result<EKFlows<usize, C, A>, PathError>
where
    C: SignedCost,
    S: FlowStore<C>,
    A: Allocator + Copy,
    requires network { IsNetwork C.fits (S.network store.now) }
    requires cut_off { IsSinkCutOff (S.network store.now) found.now.levels.items found.now.parents.items }
    ensures answer { IfOk result (IsFlowAnswer C.value (S.network store.now)) }
    ensures refused { IfErr result (λ e. e ≡ OutOfMemory) }
{
    let total = store.total_capacity();
    if !store.has_details() {
        return Ok((Vec::new(alloc), total, Vec::new(alloc)));
    }
    let flows = list_flows(store, alloc)?;
    let edges = list_cut(alloc, &found.levels, &flows)?;
    Ok((flows, total, edges))
}

/// Makes the flow between two vertices a greatest one. Found are then the levels of the last search.
fn augment_apart<C, S, A>(
    store: &mut S,
    alloc: A,
    found: &mut Levels<A>,
    tally: &mut Tally,
) -> Result<EKFlows<usize, C, A>, PathError>
where
    C: SignedCost,
    S: FlowStore<C>,
    A: Allocator + Copy,
    requires network { IsNetwork C.fits (S.network store.old) }
    requires apart { (S.network store.old).source ≢ (S.network store.old).sink }
    ensures network { IsNetwork C.fits (S.network store.new) }
    ensures kept { KeepsCapacities (S.network store.old) (S.network store.new) }
    ensures total { (S.network store.old).total ≤ℤ (S.network store.new).total }
    ensures cut { OnOk result (HasCutOfTotal (S.network store.new)) }
    ensures answer { IfOk result (IsFlowAnswer C.value (S.network store.new)) }
    ensures refused { IfErr result (λ e. e ≡ OutOfMemory) }
    ensures ticked { tally.old ≤ tally.new }
    ensures paths { tally.new ≤ tally.old + path_bound (S.network store.old) }
{
    run_phases(store, alloc, found, tally)?;
    list_answer(store, alloc, found)
}

/// Makes the flow a greatest one, with one tick for each path that flow is added along.
pub fn augment_flow<C, S, A>(
    store: &mut S,
    alloc: A,
    tally: &mut Tally,
) -> Result<EKFlows<usize, C, A>, PathError>
where
    C: SignedCost,
    S: FlowStore<C>,
    A: Allocator + Copy,
    requires { IsNetwork C.fits (S.network store.old) }
    ensures network { IsNetwork C.fits (S.network store.new) }
    ensures kept { KeepsCapacities (S.network store.old) (S.network store.new) }
    ensures total { (S.network store.old).total ≤ℤ (S.network store.new).total }
    ensures cut { OnOk result (HasCutOfTotal (S.network store.new)) }
    ensures answer { IfOk result (IsFlowAnswer C.value (S.network store.new)) }
    ensures refused { IfErr result (λ e. e ≡ OutOfMemory) }
    ensures ticked { tally.old ≤ tally.new }
    ensures paths { tally.new ≤ tally.old + path_bound (S.network store.old) }
{
    if store.source() == store.sink() {
        return Ok((Vec::new(alloc), store.total_capacity(), Vec::new(alloc)));
    }
    augment_apart(store, alloc, &mut Levels::new(alloc), tally)
}
