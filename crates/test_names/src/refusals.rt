//! Each growth refused in turn.

use crate::answers::Call;
use crate::tests::{CALLS, run};
use pf_base::PathError;
use std::alloc::Global;
use std::process::Abort;
use test_allocator::Refusing;

/// Runs a call with growth 0, 1, 2, .. refused alone, until a run meets no refusal, and answers how
/// many growths that run made. Each run before it has to answer that it was out of memory.
fn refuse_each_growth(rt: &impl Abort, ample: Global, call: Call) -> u64 {
    for growth in 0..1_000u64 {
        let heap = Refusing::new(ample);
        let answer = run(&heap, call, growth, 1);
        if heap.pending() > 0 {
            assert!(rt;
                matches!(answer, Some(Ok(true))),
                "{call:?} with no refusal"
            );
            return growth;
        }
        assert!(rt;
            matches!(answer, Some(Err(PathError::OutOfMemory))),
            "{call:?}, growth {growth}"
        );
    }
    panic!(rt; "every run of {call:?} met a refusal")
}

#[test]
fn calls_refuse_each_growth(rt: HostRuntime) {
    for call in CALLS {
        let growths = refuse_each_growth(&rt, rt.alloc(), *call);
        assert!(rt; growths >= 2, "{call:?} makes {growths} growths");
    }
}
