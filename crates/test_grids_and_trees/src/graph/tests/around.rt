//! Components around starts, by a function that counts its calls.

ghost use Rattle.std.specs.Prelude.{◌≡◌, ◌∷◌, ◌%◌, ◌==◌, [], if◌then◌else◌};

use crate::graph::tests::Heap;
use pf_base::PathError;
use pf_components::connected_components::{ConnectedComponents, SetIn};
use std::alloc::Allocator;

/// The sets around 1 and 4, where even numbers have the first four even ones next to them, and odd
/// numbers the first four odd ones, and how often the function was called.
fn around_two(heap: Heap<'_>) -> Result<(Vec<SetIn<u32, Heap<'_>>, Heap<'_>>, u64), PathError> {
    let mut calls = 0u64;
    let sets = ConnectedComponents::<u32>::connected_components(
        heap,
        &[1u32, 4],
        |n: &u32| -> [u32; 4]
            ensures { result ≡ (if n.now % 2 == 0 then 2 ∷ 4 ∷ 6 ∷ 8 ∷ [] else 1 ∷ 3 ∷ 5 ∷ 7 ∷ []) }
        {
            calls = calls.wrapping_add(1);
            if *n % 2 == 0 {
                [2, 4, 6, 8]
            } else {
                [1, 3, 5, 7]
            }
        },
    )?;
    Ok((sets, calls))
}

/// Whether these are the sets of the first four odd and of the first four even numbers.
fn are_odd_and_even<A: Allocator>(odd: &SetIn<u32, A>, even: &SetIn<u32, A>) -> bool {
    for (odd_number, even_number) in [(1, 2), (3, 4), (5, 6), (7, 8)] {
        if !odd.contains(&odd_number) || !even.contains(&even_number) {
            return false;
        }
    }
    odd.len() == 4 && even.len() == 4
}

/// Whether the sets around 1 and 4 are those of the odd and of the even numbers, in either order,
/// by two calls of the function.
pub(super) fn are_around_two(heap: Heap<'_>) -> Result<bool, PathError> {
    let (sets, calls) = around_two(heap)?;
    if calls != 2 || sets.len() != 2 {
        return Ok(false);
    }
    if sets[0].contains(&1) {
        Ok(are_odd_and_even(&sets[0], &sets[1]))
    } else {
        Ok(are_odd_and_even(&sets[1], &sets[0]))
    }
}
