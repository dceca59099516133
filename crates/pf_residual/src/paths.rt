//! Flow that is added along a path.

ghost use Rattle.std.specs.Prelude.{◌≡◌, ◌<◌, ◌+◌, ◌≤ℤ◌, ℕ, length, slice_index};
ghost use Rattle.pf_residual.specs.Networks.{Network, IsNetwork, KeepsCapacities};
ghost use Rattle.pf_residual.specs.Internal.AugmentingPaths.{IsAugmentingPath, KeepsLabelling, RaisesPotential};

use crate::store::FlowStore;
use pf_base::SignedCost;
use pf_base::cost::arithmetic::{is_below, plus};

/// The least residual capacity along a path.
fn least_residual<C, S>(store: &S, path: &[usize], places: &[usize]) -> C
where
    C: SignedCost,
    S: FlowStore<C>,
    requires path { IsAugmentingPath (S.network store.now) path.now }
    requires places_len { length places.now ≡ length path.now }
    ensures least { (k : ℕ) → k + 1 < length path.now → C.value result ≤ℤ (S.network store.now).residual (slice_index path.now k) (slice_index path.now (k + 1)) }
    ensures reached { (k : ℕ) × (k + 1 < length path.now) × (C.value result ≡ (S.network store.now).residual (slice_index path.now k) (slice_index path.now (k + 1))) }
{
    let mut least = store.residual_capacity_near(path[0], path[1], places[1]);
    for place in 1..path.len() - 1 {
        let near = places[place + 1];
        let here = store.residual_capacity_near(path[place], path[place + 1], near);
        if is_below(here, least) {
            least = here;
        }
    }
    least
}

/// Adds as much flow along a path from the source to the sink as its pairs have left. Levels that go
/// up along the path stay levels, and their potential rises. Beside each vertex but the first stands a
/// number by which the store is likely to find the pair that leads to it.
pub fn add_along<C, S>(store: &mut S, path: &[usize], places: &[usize])
where
    C: SignedCost,
    S: FlowStore<C>,
    requires network { IsNetwork C.fits (S.network store.old) }
    requires path { IsAugmentingPath (S.network store.old) path.now }
    requires places_len { length places.now ≡ length path.now }
    ensures network { IsNetwork C.fits (S.network store.new) }
    ensures kept { KeepsCapacities (S.network store.old) (S.network store.new) }
    ensures total { (S.network store.old).total ≤ℤ (S.network store.new).total }
    ensures levels { KeepsLabelling path.now (S.network store.old) (S.network store.new) }
    ensures rises { RaisesPotential path.now (S.network store.old) (S.network store.new) }
{
    let amount = least_residual(store, path, places);
    for place in 0..path.len() - 1 {
        store.add_flow_near(path[place], path[place + 1], places[place + 1], amount);
    }
    let total = plus(store.total_capacity(), amount);
    store.set_total_capacity(total);
}
