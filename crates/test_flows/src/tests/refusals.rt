//! Each growth of each call refused in turn, with both stores.

use crate::pipes::Pipes;
use crate::tests::plain::{Table, VERTICES, set_number};
use crate::tests::rows::{Step, is_done};
use crate::tests::small_networks::is_feasible;
use pf_base::PathError;
use pf_flow::edmonds_karp::{DenseCapacity, EdmondsKarp, SparseCapacity};
use std::alloc::{Allocator, Global};
use test_allocator::Refusing;

/// A greatest flow from source 0 over a 1 and b 2 to sink 3, through all five pairs.
const FILL: Step<'static> = Step::Augment(5, &[((0, 1), 3), ((0, 2), 2)]);

/// What is done before the calls.
const BEFORE: &[Step<'static>] = &[
    Step::Set(0, 1, 3),
    Step::Set(0, 2, 2),
    Step::Set(1, 2, 1),
    Step::Set(1, 3, 2),
    Step::Set(2, 3, 3),
    FILL,
];

/// The flows of that flow.
const FLOWS: Step<'static> = Step::Flows(&[
    ((0, 1), 3),
    ((0, 2), 2),
    ((1, 2), 1),
    ((1, 3), 2),
    ((2, 3), 3),
]);

/// A call whose growths are refused.
struct Refused<'a> {
    /// How many calls of `BEFORE` are made before it.
    before: usize,
    /// The call.
    call: Step<'a>,
    /// What holds before the call and after its refusal.
    kept: Step<'a>,
    /// How many growths it makes at the least in a dense store.
    dense_growths: u64,
    /// The same in a sparse store.
    sparse_growths: u64,
}

const CASES: &[Refused<'static>] = &[
    Refused {
        before: 0,
        call: Step::Set(0, 1, 3),
        kept: Step::Pipe(0, 1, 0, 0),
        dense_growths: 0,
        sparse_growths: 2,
    },
    Refused {
        before: 5,
        call: FILL,
        kept: Step::Sum(11),
        dense_growths: 4,
        sparse_growths: 4,
    },
    Refused {
        before: 6,
        call: FILL,
        kept: FLOWS,
        dense_growths: 1,
        sparse_growths: 1,
    },
    Refused {
        before: 6,
        call: Step::Set(1, 3, 1),
        kept: FLOWS,
        dense_growths: 4,
        sparse_growths: 4,
    },
    Refused {
        before: 6,
        call: FLOWS,
        kept: Step::Total(5),
        dense_growths: 1,
        sparse_growths: 1,
    },
    Refused {
        before: 6,
        call: Step::Left(3, &[(1, 2), (2, 3)]),
        kept: FLOWS,
        dense_growths: 1,
        sparse_growths: 1,
    },
];

/// The capacities after so many calls.
fn capacities(before: usize) -> Table {
    let mut table = [0i64; 16];
    for step in BEFORE.iter().take(before) {
        if let Step::Set(from, to, capacity) = step {
            set_number(&mut table, *from, *to, *capacity);
        }
    }
    table
}

/// Pipes after so many calls.
fn prepared<A: Allocator + Copy, S: EdmondsKarp<i64, Alloc = A>>(
    alloc: A,
    before: usize,
) -> Result<Pipes<S>, PathError> {
    let mut pipes = Pipes::new(alloc, VERTICES, 0, 3)?;
    for step in BEFORE.iter().take(before) {
        is_done(alloc, &mut pipes, step)?;
    }
    Ok(pipes)
}

/// Whether pipes are as a refused call has to leave them, and the call goes through when it is made
/// again.
fn go_on<A: Allocator + Copy, S: EdmondsKarp<i64, Alloc = A>>(
    alloc: A,
    pipes: &mut Pipes<S>,
    refused: &Refused<'_>,
) -> bool {
    is_feasible(pipes, &capacities(refused.before), 3)
        && is_done(alloc, pipes, &refused.kept) == Ok(true)
        && is_done(alloc, pipes, &refused.call) == Ok(true)
}

/// How many growths a call makes, if with each of them refused it answers that it was out of memory,
/// leaves what it should, and ends when it is called again.
fn growths<A: Allocator + Copy, S: EdmondsKarp<i64, Alloc = A>>(
    heap: &Refusing<Global>,
    alloc: A,
    refused: &Refused<'_>,
) -> Option<u64> {
    for growth in 0..1_000u64 {
        heap.refuse(0, 0);
        let Ok(mut pipes) = prepared::<A, S>(alloc, refused.before) else {
            return None;
        };
        heap.refuse(growth, 1);
        let answer = is_done(alloc, &mut pipes, &refused.call);
        if heap.pending() > 0 {
            return if answer == Ok(true) {
                Some(growth)
            } else {
                None
            };
        }
        if answer != Err(PathError::OutOfMemory) || !go_on(alloc, &mut pipes, refused) {
            return None;
        }
    }
    None
}

/// How many growths the making of a store makes, if it is refused with each of them.
fn growths_of_new<A: Allocator + Copy, S: EdmondsKarp<i64, Alloc = A>>(
    heap: &Refusing<Global>,
    alloc: A,
) -> Option<u64> {
    for growth in 0..1_000u64 {
        heap.refuse(growth, 1);
        let is_made = prepared::<A, S>(alloc, 0).is_ok();
        if is_made {
            return if heap.pending() > 0 {
                Some(growth)
            } else {
                None
            };
        }
    }
    None
}

#[test]
fn each_growth_is_refused(rt: HostRuntime) {
    let heap = Refusing::new(rt.alloc());
    for (number, case) in CASES.iter().enumerate() {
        let dense = growths::<_, DenseCapacity<i64, &Refusing<Global>>>(&heap, &heap, case);
        let sparse = growths::<_, SparseCapacity<i64, &Refusing<Global>>>(&heap, &heap, case);
        assert!(rt;
            dense >= Some(case.dense_growths) && sparse >= Some(case.sparse_growths),
            "case {number}"
        );
    }
    assert!(rt;
        growths_of_new::<_, DenseCapacity<i64, &Refusing<Global>>>(&heap, &heap) == Some(2)
    );
    assert!(rt;
        growths_of_new::<_, SparseCapacity<i64, &Refusing<Global>>>(&heap, &heap) == Some(1)
    );
}
