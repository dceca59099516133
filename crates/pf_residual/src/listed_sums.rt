//! The sum of all capacities, by lists of what is left of them.

ghost use Rattle.std.specs.Prelude.{◌≡◌, IfOk, IfErr};
ghost use Rattle.pf_base.specs.declared.error.PathError.TheVariants.{OutOfMemory};
ghost use Rattle.pf_residual.specs.Networks.{Network, IsNetwork, capacity_sum};

use crate::store::FlowStore;
use pf_base::cost::arithmetic::plus;
use pf_base::{PathError, SignedCost};
use std::alloc::Allocator;

/// The sum of all capacities, in time of vertices and listed pairs, where `sum_of_capacities` reads
/// every pair.
pub fn sum_by_lists<C, S, A>(store: &S, alloc: A) -> Result<C, PathError>
where
    C: SignedCost,
    S: FlowStore<C>,
    A: Allocator + Copy,
    requires { IsNetwork C.fits (S.network store.now) }
    ensures sum { IfOk result (λ sum. C.value sum ≡ capacity_sum (S.network store.now)) }
    ensures refused { IfErr result (λ e. e ≡ OutOfMemory) }
{
    let mut sum = C::zero();
    'rows: for from in 0..store.size() {
        let ends = store.residual_successors(alloc, from)?;
        'ends: for end in &ends {
            sum = plus(sum, end.1);
        }
    }
    Ok(sum)
}
