//! Lists of flows.

ghost use Rattle.std.specs.Prelude.{◌≡◌, ◌+◌, ◌<◌, ◌<ℤ◌, pos, IfErr, OnOk, IfOk};
ghost use Rattle.pf_base.specs.declared.error.PathError.TheVariants.{OutOfMemory};
ghost use Rattle.pf_residual.specs.Networks.{Network, IsNetwork};
ghost use Rattle.pf_residual.specs.Listings.{ListsFlows, ListsVertices};
ghost use Rattle.pf_residual.specs.Internal.Prefixes.{ListsFlowsBefore};

use crate::edmonds_karp::Edge;
use pf_base::{PathError, SignedCost};
use pf_residual::store::FlowStore;
use std::alloc::Allocator;

/// Puts the flows from a vertex to these ends behind those from the vertices before it.
fn add_flows<C, S, A>(
    store: &S,
    from: usize,
    ends: &[usize],
    flows: &mut Vec<Edge<usize, C>, A>,
) -> Result<(), PathError>
where
    C: SignedCost,
    S: FlowStore<C>,
    A: Allocator + Copy,
    requires from { from < (S.network store.now).vertices }
    requires ends { ListsVertices (S.network store.now).vertices (λ to. pos 0 <ℤ (S.network store.now).flow from to) ends.now }
    requires before { ListsFlowsBefore C.value (S.network store.now) from flows.old.items }
    ensures listed { OnOk result (ListsFlowsBefore C.value (S.network store.now) (from + 1) flows.new.items) }
    ensures refused { IfErr result (λ e. e ≡ OutOfMemory) }
{
    'ends: for to in ends {
        flows.push(((from, *to), store.flow(from, *to)))?;
    }
    Ok(())
}

/// The flows above zero, by rising pair of vertices.
pub fn list_flows<C, S, A>(store: &S, alloc: A) -> Result<Vec<Edge<usize, C>, A>, PathError>
where
    C: SignedCost,
    S: FlowStore<C>,
    A: Allocator + Copy,
    requires { IsNetwork C.fits (S.network store.now) }
    ensures listed { IfOk result (λ flows. ListsFlows C.value (S.network store.now) flows.items) }
    ensures refused { IfErr result (λ e. e ≡ OutOfMemory) }
{
    let mut flows = Vec::new(alloc);
    'rows: for from in 0..store.size() {
        let ends = store.flows_from(alloc, from)?;
        add_flows(store, from, &ends, &mut flows)?;
    }
    Ok(flows)
}
