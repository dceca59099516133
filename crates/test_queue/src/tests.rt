//! Refused memory of a queue with more entries than are sorted at once. That the entries come out by
//! rising cost, and that a refused reservation leaves them, is said by contracts.

use pf_queue::CostQueue;
use std::alloc::{Allocator, Global};
use test_allocator::Refusing;

/// Costs below 1,000, in no order.
fn cost_of(number: u32) -> u32 {
    (number % 1000 * 577 + 91) % 1000
}

/// Puts in an entry for each of so many numbers, if memory suffices.
fn put<A: Allocator>(queue: &mut CostQueue<u32, A>, numbers: u32) -> bool {
    for number in 0..numbers {
        if queue.reserve(1).is_err() {
            return false;
        }
        queue.push(cost_of(number), number);
    }
    true
}

/// Each growth refused alone, until a run meets no refusal, is told: also the one for marks, which
/// come with more entries than are sorted at once.
fn tells_each_refusal(alloc: Global) -> bool {
    for growth in 0..100u64 {
        let heap = Refusing::new(alloc);
        heap.refuse(growth, 1);
        let mut queue = CostQueue::new(&heap);
        let is_whole = put(&mut queue, 200);
        let is_refused = heap.pending() == 0;
        if is_whole == is_refused {
            return false;
        }
        if is_whole {
            return growth > 1;
        }
    }
    false
}

#[test]
fn refusals_are_told(rt: HostRuntime) {
    assert!(rt; tells_each_refusal(rt.alloc()));
}
