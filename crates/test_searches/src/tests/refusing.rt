//! Which requests the allocator for tests refuses.

use std::alloc::Global;
use test_allocator::Refusing;

/// Whether the allocator grants a request.
fn grants(heap: &Refusing<Global>) -> bool {
    Box::new(heap, 1u8).is_ok()
}

/// A request: whether it is granted, and how many are granted and refused after it.
type Request = (bool, u64, u64);

/// How many requests are granted, how many are refused after those, and the requests.
const PLANS: &[(u64, u64, &[Request])] = &[
    (
        2,
        1,
        &[
            (true, 1, 1),
            (true, 0, 1),
            (false, 0, 0),
            (true, 0, 0),
            (true, 0, 0),
        ],
    ),
    (
        1,
        2,
        &[
            (true, 0, 2),
            (false, 0, 1),
            (false, 0, 0),
            (true, 0, 0),
            (true, 0, 0),
        ],
    ),
    (
        0,
        u64::MAX,
        &[(false, 0, u64::MAX - 1), (false, 0, u64::MAX - 2)],
    ),
    (0, 0, &[(true, 0, 0)]),
];

#[test]
fn counts_down_to_the_refusals_and_through_them(rt: HostRuntime) {
    let heap = Refusing::new(rt.alloc());
    assert!(rt; heap.granted() == 0 && heap.pending() == 0 && grants(&heap));
    for (granted, refused, requests) in PLANS {
        heap.refuse(*granted, *refused);
        assert!(rt; heap.granted() == *granted && heap.pending() == *refused);
        for (is_granted, granted, pending) in *requests {
            assert!(rt; grants(&heap) == *is_granted, "{granted}, {pending}");
            assert!(rt; heap.granted() == *granted && heap.pending() == *pending);
        }
    }
}
