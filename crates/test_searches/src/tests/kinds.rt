//! One caller for each common kind of function that lists edges.

ghost use Rattle.std.specs.Prelude.{◌≡◌, ◌<◌, ◌≤◌, ◌+◌, ◌*◌, ◌%◌, ◌∷◌, [], All, length, not, pos};

use crate::tests::answers::is_cheapest;
use pf_base::{PathError, Tally};
use pf_search::directed::dijkstra::{dijkstra, dijkstra_tallied};
use std::alloc::Global;

/// The answer is an array: of `count` nodes in a ring, the one after a node and its double.
fn by_array(alloc: Global, count: u32, goal: u32) -> Result<Option<(Vec<u32>, u32)>, PathError>
    requires some { 0 < count }
    requires few { count ≤ 100 }
{
    dijkstra(
        alloc,
        &1u32,
        |n: &u32| -> [(u32, u32); 2]
            requires below { n.now < 100 }
            requires some { 0 < count }
            ensures { result ≡ ((n.now + 1) % count, 2) ∷ (n.now * 2 % count, 3) ∷ [] }
        { [((*n + 1) % count, 2), (*n * 2 % count, 3)] },
        |n| *n == goal,
    )
}

/// The answer is a range whose numbers are mapped to edges.
fn by_range(alloc: Global) -> Result<Option<(Vec<u32>, u32)>, PathError> {
    dijkstra(alloc, &3u32, |n| (*n..10).map(|m| (m, 5u32)), |n| *n == 7)
}

/// The answer is a row of a table of slices, without the edges that cost too much.
fn by_filter(
    alloc: Global,
    rows: &[&[(usize, u32)]],
    limit: u32,
) -> Result<Option<(Vec<usize>, u32)>, PathError>
    requires inside { 0 < length rows.now }
    requires in_range { All (λ row. All (λ e. e.0 < length rows.now) row.now) rows.now }
{
    dijkstra(
        alloc,
        &0usize,
        |n| rows[*n].iter().copied().filter(move |e| e.1 < limit),
        |n| *n == 2,
    )
}

/// The answer is a row of a table of slices. The call counts for its contract.
pub fn by_rows(
    alloc: Global,
    rows: &[&[(usize, u32)]],
) -> Result<Option<(Vec<usize>, u32)>, PathError>
    requires inside { 0 < length rows.now }
    requires in_range { All (λ row. All (λ e. e.0 < length rows.now) row.now) rows.now }
{
    dijkstra_tallied(
        alloc,
        &0usize,
        |n| rows[*n].iter().copied(),
        |n| *n == 3,
        &mut Tally::new(),
    )
}

/// Costs are signed, and none is negative.
fn by_signed(alloc: Global) -> Result<Option<(Vec<bool>, i64)>, PathError> {
    dijkstra(
        alloc,
        &false,
        |n: &bool| -> [(bool, i64); 1]
            ensures { result ≡ (not n.now, pos 3) ∷ [] }
        { [(!*n, 3)] },
        |n| *n,
    )
}

/// The function counts its calls in a variable of the caller. Whether the search was answered, and how
/// many calls were counted.
fn by_lent_counter(alloc: Global) -> (bool, u64) {
    let mut calls = 0u64;
    let answer = dijkstra(
        alloc,
        &'a',
        |_n: &char| -> [(char, u8); 1]
            ensures { result ≡ (98, 1) ∷ [] }
        {
            calls = calls.wrapping_add(1);
            [('b', 1)]
        },
        |n| *n == 'c',
    );
    (answer.is_ok(), calls)
}

/// A table of slices.
const ROWS: &[&[(usize, u32)]] = &[&[(2, 9), (1, 3)], &[(2, 4), (0, 0)], &[]];

#[test]
fn answers_by_each_kind_of_function(rt: HostRuntime) {
    let alloc = rt.alloc();
    assert!(rt; is_cheapest(by_array(alloc, 100, 10), Some((&[1, 2, 4, 5, 10], 10))));
    assert!(rt; is_cheapest(by_range(alloc), Some((&[3, 7], 5))));
    assert!(rt; is_cheapest(by_filter(alloc, ROWS, 5), Some((&[0, 1, 2], 7))));
    assert!(rt; is_cheapest(by_signed(alloc), Some((&[false, true], 3))));
    assert!(rt; by_lent_counter(alloc) == (true, 2));
}
