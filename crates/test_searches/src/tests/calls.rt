//! How often the successors are asked for.

ghost use Rattle.std.specs.Prelude.{◌<◌, All, length};

use crate::tests::answers::is_cheapest;
use crate::tests::kinds::by_rows;
use pf_search::directed::dijkstra::dijkstra;
use std::alloc::Global;
use std::cell::Cell;

/// Whether there is no path from the node 0 to a node that passes no test, and how often the
/// successors were asked for.
fn calls_without_success(alloc: Global, rows: &[&[(usize, u32)]]) -> (bool, u64)
    requires inside { 0 < length rows.now }
    requires in_range { All (λ row. All (λ e. e.0 < length rows.now) row.now) rows.now }
{
    let calls = Cell::new(0u64);
    let answer = dijkstra(
        alloc,
        &0usize,
        |n| {
            calls.set(calls.get().wrapping_add(1));
            rows[*n].iter().copied()
        },
        |_n| false,
    );
    (matches!(&answer, Ok(None)), calls.get())
}

/// The edges s: a5 b1, a: t9, b: a1, of the nodes 0 to 3.
const ROWS: &[&[(usize, u32)]] = &[&[(1, 5), (2, 1)], &[(3, 9)], &[(1, 1)], &[]];

#[test]
fn counted_calls_answer(rt: HostRuntime) {
    // Each node is asked at most once.
    let (is_none, calls) = calls_without_success(rt.alloc(), ROWS);
    assert!(rt; is_none && calls <= 4);
    assert!(rt; is_cheapest(by_rows(rt.alloc(), ROWS), Some((&[0, 2, 1, 3], 11))));
}
