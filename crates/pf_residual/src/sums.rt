//! The sum of all capacities.

ghost use Rattle.std.specs.Prelude.{◌≡◌, ◌<◌, ◌+ℤ◌};
ghost use Rattle.pf_base.specs.Sums.{sum_to};
ghost use Rattle.pf_residual.specs.Networks.{Network, IsNetwork, capacity_sum};

use crate::store::FlowStore;
use pf_base::SignedCost;
use pf_base::cost::arithmetic::plus;

/// The sum of what is left of the capacities from a vertex, added to that of all vertices before it.
fn add_row<C, S>(store: &S, from: usize, before: C) -> C
where
    C: SignedCost,
    S: FlowStore<C>,
    requires network { IsNetwork C.fits (S.network store.now) }
    requires from { from < (S.network store.now).vertices }
    requires before { C.value before ≡ sum_to (λ a. sum_to ((S.network store.now).residual a) (S.network store.now).vertices) from }
    ensures { C.value result ≡ C.value before +ℤ sum_to ((S.network store.now).residual from) (S.network store.now).vertices }
{
    let mut sum = before;
    'ends: for to in 0..store.size() {
        sum = plus(sum, store.residual_capacity(from, to));
    }
    sum
}

/// The sum of all capacities: that of what is left of them, since the flows of a pair and of its
/// reverse add up to zero.
pub fn sum_of_capacities<C, S>(store: &S) -> C
where
    C: SignedCost,
    S: FlowStore<C>,
    requires { IsNetwork C.fits (S.network store.now) }
    ensures { C.value result ≡ capacity_sum (S.network store.now) }
{
    let mut sum = C::zero();
    'rows: for from in 0..store.size() {
        sum = add_row(store, from, sum);
    }
    sum
}
