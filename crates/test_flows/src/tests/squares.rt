//! Stores that are made of a square, with both stores.

ghost use Rattle.std.specs.Prelude.{◌≡◌, length};

use crate::totals::both_totals;
use pf_base::PathError;
use pf_flow::edmonds_karp::{DenseCapacity, EdmondsKarp, FlowStore, SparseCapacity};
use pf_matrix::Matrix;
use std::alloc::Global;

/// Capacities between two vertices, by rows, and why no store is made of them.
const REFUSED: &[([i8; 4], PathError)] = &[
    ([0, 100, 28, 0], PathError::CostOverflow),
    ([0, 100, 100, -1], PathError::NegativeCapacity),
];

/// Whether no store is made of these capacities, for this cause.
fn is_refused<S: EdmondsKarp<i8, Alloc = Global>>(
    alloc: Global,
    capacities: &[i8],
    cause: PathError,
) -> bool
    requires four { length capacities.now ≡ 4 }
{
    matches!(S::from_vec(alloc, 0, 1, capacities), Err(refusal) if refusal == cause)
}

#[test]
fn squares_that_are_refused(rt: HostRuntime) {
    for (capacities, cause) in REFUSED {
        assert!(rt; is_refused::<DenseCapacity<i8>>(rt.alloc(), capacities, *cause));
        assert!(rt; is_refused::<SparseCapacity<i8>>(rt.alloc(), capacities, *cause));
    }
}

/// A pipe from 0 to 1, and one over 2, by rows.
const TWO_WAYS: &[i64] = &[0, 3, 2, 0, 0, 0, 0, 5, 0];

/// The totals that both stores report for `TWO_WAYS`.
fn totals(alloc: Global) -> Result<(i64, i64), PathError> {
    let Ok(square) = Matrix::from_vec(3, 3, Vec::from_slice(alloc, TWO_WAYS)?) else {
        return Err(PathError::OutOfMemory);
    };
    both_totals(alloc, 0, 1, square)
}

#[test]
fn both_stores_report_one_total(rt: HostRuntime) {
    let totals = totals(rt.alloc());
    assert!(rt; matches!(totals, Ok((5, 5))), "{totals:?}");
}

/// Whether a sparse store in 32 bits answers for capacities both ways and round a vertex, and for one of
/// them lowered.
fn is_lowered(alloc: Global) -> Result<bool, PathError> {
    let mut store: SparseCapacity<i32> = SparseCapacity::new(alloc, 4, 0, 3)?;
    store.set_capacity(alloc, 0, 1, 5)?;
    store.set_capacity(alloc, 1, 0, 3)?;
    store.set_capacity(alloc, 1, 3, 4)?;
    store.set_capacity(alloc, 2, 2, 7)?;
    let sum = store.capacity_sum();
    let (flows, total, cut) = store.augment(alloc)?;
    let left = store.residual_successors(alloc, 1)?;
    let back = store.flow(1, 0);
    store.set_capacity(alloc, 0, 1, 2)?;
    let is_filled = flows.as_slice() == [((0, 1), 4), ((1, 3), 4)].as_slice()
        && cut.as_slice() == [((1, 3), 4)].as_slice()
        && left.as_slice() == [(0, 7)].as_slice();
    Ok(
        is_filled
            && (sum, total, back) == (19, 4, -4)
            && (store.total_capacity(), store.flow(1, 3)) == (2, 2),
    )
}

#[test]
fn a_sparse_store_in_32_bits(rt: HostRuntime) {
    assert!(rt; is_lowered(rt.alloc()) == Ok(true));
}
