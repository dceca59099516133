//! The totals that both stores report for one table.

ghost use Rattle.std.specs.Prelude.{◌≡◌, ◌<◌, IfOk};

use pf_base::PathError;
use pf_flow::edmonds_karp::{DenseCapacity, EdmondsKarp, SparseCapacity};
use pf_flow::laws::stores_report_one_total;
use pf_matrix::Matrix;
use std::alloc::Allocator;

/// The total of a greatest flow under these capacities, as a sparse and as a dense store report it.
///
/// # Errors
///
/// Those of `from_matrix`.
pub fn both_totals<A: Allocator + Copy>(
    alloc: A,
    source: usize,
    sink: usize,
    capacities: Matrix<i64, A>,
) -> Result<(i64, i64), PathError>
    requires square { capacities.rows ≡ capacities.columns }
    requires source { source < capacities.rows }
    requires sink { sink < capacities.rows }
    ensures { IfOk result (λ totals. totals.0 ≡ totals.1) }
{
    let mut sparse: SparseCapacity<i64, A> = SparseCapacity::from_matrix(
        alloc,
        source,
        sink,
        &capacities,
    )?;
    let mut dense: DenseCapacity<i64, A> = DenseCapacity::from_matrix(
        alloc, source, sink, capacities,
    )?;
    let (_, sparse_total, _) = sparse.augment(alloc)?;
    let (_, dense_total, _) = dense.augment(alloc)?;
    stores_report_one_total();
    Ok((sparse_total, dense_total))
}
