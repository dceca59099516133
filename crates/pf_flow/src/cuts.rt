//! Lists of the edges of a cut.

ghost use Rattle.std.specs.Prelude.{◌≡◌, ◌<◌, length, IfOk, IfErr};
ghost use Rattle.std.specs.List.{filter};
ghost use Rattle.pf_base.specs.declared.error.PathError.TheVariants.{OutOfMemory};
ghost use Rattle.pf_residual.specs.Internal.HeldEdges.{RunBelow};
ghost use Rattle.pf_residual.specs.Internal.Levels.{leaves};

use crate::edmonds_karp::Edge;
use pf_base::{PathError, SignedCost};
use std::alloc::Allocator;

/// Does a pair lead from a vertex that was reached to one that was not?
fn leaves_reached(levels: &[usize], from: usize, to: usize) -> bool
    requires from { from < length levels.now }
    requires to { to < length levels.now }
    ensures { result ≡ leaves levels.now from to }
{
    levels[from] < levels.len() && levels[to] >= levels.len()
}

/// The flows that lead from vertices that were reached to vertices that were not. After the last search
/// each of them fills its capacity, so that they are the edges of the cut.
pub fn list_cut<C, A>(
    alloc: A,
    levels: &[usize],
    flows: &[Edge<usize, C>],
) -> Result<Vec<Edge<usize, C>, A>, PathError>
where
    C: SignedCost,
    A: Allocator + Copy,
    requires inside { RunBelow (length levels.now) flows.now }
    ensures edges { IfOk result (λ edges. edges.items ≡ filter (λ e. leaves levels.now e.0.0 e.0.1) flows.now) }
    ensures refused { IfErr result (λ e. e ≡ OutOfMemory) }
{
    let mut edges = Vec::new(alloc);
    for edge in flows {
        let (from, to) = edge.0;
        if leaves_reached(levels, from, to) {
            edges.push(*edge)?;
        }
    }
    Ok(edges)
}
