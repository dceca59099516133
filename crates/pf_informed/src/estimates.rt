//! The estimates of the nodes that were found.

ghost use Rattle.std.specs.Prelude.{◌≡◌, ◌≤◌, ℕ, ℤ, Some, OnOk, IfErr, length, slice_get};
ghost use Rattle.pf_base.specs.Edges.{InReach};
ghost use Rattle.pf_core.specs.Nodes.{NodeGraph};
ghost use Rattle.pf_informed.specs.Internal.Estimated.{IsEstimated};

use crate::functions::EstimateFunction;
use pf_base::{Cost, PathError};
use pf_discovery::numbering::Numbering;
use std::alloc::Allocator;

/// Asks for the estimates of the nodes behind those that were asked for, and keeps them.
pub(crate) fn ask<N, M, C, H, A>(
    nodes: &M,
    estimate: &mut H,
    estimates: &mut Vec<C, A>,
) -> Result<(), PathError>
where
    N: Eq + Drop,
    M: Numbering<Node = N>,
    C: Cost,
    H: EstimateFunction<N, C>,
    A: Allocator,
    requires few { length estimates.old.items ≤ length (M.keys nodes.now) }
    requires graph { (g : NodeGraph N) × (least : N → ℤ) × H.answers estimate.old (InReach N.eq g.edges g.starts) least
        × ((k : ℕ) (x : N) → slice_get (M.keys nodes.now) k ≡ Some x → InReach N.eq g.edges g.starts x) }
    ensures all { OnOk result (length estimates.new.items ≡ length (M.keys nodes.now)) }
    ensures graph { OnOk result ((g : NodeGraph N) (least : N → ℤ) → H.answers estimate.old (InReach N.eq g.edges g.starts) least
        → ((k : ℕ) (x : N) → slice_get (M.keys nodes.now) k ≡ Some x → InReach N.eq g.edges g.starts x)
        → H.answers estimate.new (InReach N.eq g.edges g.starts) least
        × (IsEstimated C.value least (slice_get (M.keys nodes.now)) estimates.old.items → IsEstimated C.value least (slice_get (M.keys nodes.now)) estimates.new.items)) }
    ensures kept { OnOk result ((k : ℕ) (c : C) → slice_get estimates.old.items k ≡ Some c → slice_get estimates.new.items k ≡ Some c) }
    ensures refused { IfErr result (λ e. e ≡ PathError.OutOfMemory) }
{
    let nodes = nodes.as_slice();
    'nodes: for number in estimates.len()..nodes.len() {
        let asked = estimate.estimate(&nodes[number]);
        estimates.push(asked)?;
    }
    Ok(())
}
