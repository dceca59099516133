//! Costs at the ends of their types, through each call with costs.

use crate::cheapest::{COST_CALLS, CostCall, Found};
use crate::flows::flow_through;
use crate::letter::Letter;
use crate::listed::{Edge, cheapest_between_in_list, cheapest_in_list};
use crate::minutes::Minutes;
use pf_base::{Cost, PathError};
use std::alloc::Global;

const S: Letter = Letter { byte: b's' };

const A: Letter = Letter { byte: b'a' };

const T: Letter = Letter { byte: b't' };

/// The two paths from s to t.
const SHORT: &[Letter] = &[S, T];

const LONG: &[Letter] = &[S, A, T];

/// Whether the answer is one of the two paths at this cost, or is that costs do not fit, where there
/// is none.
fn is_wanted<C: Cost>(found: Found<Letter, C>, cost: Option<C>) -> bool {
    match (&found, cost) {
        (Ok(Some((nodes, price))), Some(cost)) => {
            *price == cost && (nodes.as_slice() == SHORT || nodes.as_slice() == LONG)
        }
        (Err(fault), None) => *fault == PathError::CostOverflow,
        _ => false,
    }
}

/// Whether each of these calls, and `dijkstra_bidirectional`, answers what is wanted from s to t.
fn all_answer<C: Cost>(
    alloc: Global,
    calls: &[CostCall],
    edges: &[Edge<C>],
    cost: Option<C>,
) -> bool {
    for call in calls {
        if !is_wanted(cheapest_in_list(alloc, *call, edges, S, T), cost) {
            return false;
        }
    }
    is_wanted(cheapest_between_in_list(alloc, edges, S, T), cost)
}

/// Edges, and the cost of a cheapest path from s to t, or `None` where it does not fit.
type Row<'a, C> = (&'a [Edge<C>], Option<C>);

const OF_EIGHT_BITS: &[Row<'static, u8>] = &[
    (
        &[(S, A, 255), (A, T, 0), (A, T, 9), (A, S, 0), (A, A, 0)],
        Some(255),
    ),
    (&[(S, A, 255), (A, T, 1)], None),
    (&[(S, A, 250), (A, T, 5)], Some(255)),
    (&[(S, T, 255)], Some(255)),
    (&[(S, A, 128), (A, T, 128)], None),
];

/// A step that does not fit, behind a node that is dearer than the goal.
const BEHIND: &[Edge<u8>] = &[(S, T, 5), (S, A, 255), (A, T, 1)];

/// The calls that do not go on behind the goal: whether the others tell of such a step is open.
const TO_GOAL: &[CostCall] = &[
    CostCall::Dijkstra,
    CostCall::Partial,
    CostCall::Astar,
    CostCall::Fringe,
    CostCall::Idastar,
    CostCall::Bag,
    CostCall::Yen,
    CostCall::YenPaths,
];

#[test]
fn costs_of_eight_bits(rt: HostRuntime) {
    for (row, (edges, cost)) in OF_EIGHT_BITS.iter().enumerate() {
        assert!(rt;
            all_answer(rt.alloc(), COST_CALLS, edges, *cost),
            "row {row}"
        );
    }
    assert!(rt; all_answer(rt.alloc(), TO_GOAL, BEHIND, Some(5)));
}

const OF_128_BITS: &[Row<'static, i128>] = &[
    (
        &[(S, A, 1), (S, T, 9), (A, T, i128::MAX), (A, T, 8)],
        Some(9),
    ),
    (&[(S, A, 0), (A, T, i128::MAX)], Some(i128::MAX)),
    (&[(S, A, 1), (A, T, i128::MAX)], None),
    (&[(S, T, i128::MAX), (T, A, 0)], Some(i128::MAX)),
];

#[test]
fn costs_of_a_hundred_and_twenty_eight_bits(rt: HostRuntime) {
    for (row, (edges, cost)) in OF_128_BITS.iter().enumerate() {
        assert!(rt;
            all_answer(rt.alloc(), COST_CALLS, edges, *cost),
            "row {row}"
        );
    }
}

#[test]
fn costs_of_a_type_of_ones_own(rt: HostRuntime) {
    let last = Minutes { minutes: 1439 };
    assert!(rt; Minutes::least() == Minutes { minutes: 0 } && Minutes::greatest() == last);
    let dear = Minutes { minutes: 1000 };
    for (minutes, cost) in [(439, Some(last)), (440, None)] {
        let edges = [(S, A, dear), (A, T, Minutes { minutes })];
        assert!(rt;
            all_answer(rt.alloc(), COST_CALLS, &edges, cost),
            "{minutes} minutes"
        );
    }
}

/// Whether a flow from s over a to t is 27 by a store where the capacities fit, and is else refused.
fn is_flow_of_27(alloc: Global, is_dense: bool, capacity: i8, fits: bool) -> bool {
    let pipes = [((S, A), 100), ((A, T), capacity)];
    match &flow_through(alloc, is_dense, [S, A, T], &pipes) {
        Ok((_, total, _)) => fits && *total == 27,
        Err(fault) => !fits && *fault == PathError::CostOverflow,
    }
}

#[test]
fn capacities(rt: HostRuntime) {
    // All capacities together come to 127, and then to 128.
    for (capacity, fits) in [(27, true), (28, false)] {
        assert!(rt; is_flow_of_27(rt.alloc(), true, capacity, fits));
        assert!(rt; is_flow_of_27(rt.alloc(), false, capacity, fits));
    }
}
