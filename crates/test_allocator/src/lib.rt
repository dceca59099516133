//! An allocator for tests: it passes each request on to another allocator, and refuses the ones
//! that the test picks.
//!
//! A test makes a `Refusing` over the allocator of the runtime, says which requests are to be
//! refused, and hands `&heap` to the code under test. A reference to a `Refusing` is an allocator
//! that is `Copy`, so it serves every call that asks for `A: Allocator + Copy`.
//!
//! A request is a call of `allocate`: a growing collection makes one for its new, larger block.
//! Giving memory back is never counted and never refused.
#![tactic(auto)]

use std::alloc::{AllocError, Allocator};
use std::cell::Cell;

/// How many requests are still granted, and how many are refused after those.
pub struct Plan {
    granted: Cell<u64>,
    refused: Cell<u64>,
}

/// An allocator that refuses some requests and passes the others on to `B`.
pub struct Refusing<B: Allocator> {
    inner: B,
    plan: Plan,
}

impl<B: Allocator> Refusing<B> {
    /// An allocator that passes every request on, until `refuse` is called.
    pub fn new(inner: B) -> Refusing<B> {
        let plan = Plan {
            granted: Cell::new(0),
            refused: Cell::new(0),
        };
        Refusing { inner, plan }
    }

    /// Passes the next `after` requests on, refuses the `count` requests after those, and passes
    /// on all that follow. What an earlier call asked for is forgotten.
    ///
    /// `refuse(n, 1)` refuses request `n` alone, counted from 0, and `refuse(0, u64::MAX)` refuses
    /// every one.
    pub fn refuse(&self, after: u64, count: u64) {
        self.plan.granted.set(after);
        self.plan.refused.set(count);
    }

    /// How many requests are still passed on before the first refusal.
    pub fn granted(&self) -> u64 {
        self.plan.granted.get()
    }

    /// How many of the refusals that `refuse` asked for are still to come. It is 0 once all of them
    /// have been met, and after `refuse(n, 1)` it is 1 as long as fewer than `n + 1` requests were
    /// made.
    pub fn pending(&self) -> u64 {
        self.plan.refused.get()
    }
}

impl<B: Allocator> Drop for Refusing<B> {
    fn drop(self) {
        let Self { inner: _, plan } = self;
        let Plan {
            granted: _,
            refused: _,
        } = plan;
    }
}

// Counts the request, and answers whether it is refused.
fn refuses(plan: &Plan) -> bool {
    let granted = plan.granted.get();
    let refused = plan.refused.get();
    if granted > 0 {
        plan.granted.set(granted - 1);
        false
    } else if refused > 0 {
        plan.refused.set(refused - 1);
        true
    } else {
        false
    }
}

unsafe impl<B: Allocator> Allocator for Refusing<B> {
    // A block is the inner allocator's, and goes back to it.
    ghost dealloc_token = { λ heap ty ptr. B.dealloc_token heap.inner ty ptr };

    fn allocate(&self, size: usize, align: usize) -> Result<*mut u8, AllocError> {
        if refuses(&self.plan) {
            return Err(AllocError);
        }
        self.inner.allocate(size, align)
    }

    unsafe fn deallocate(&self, ptr: *mut u8, size: usize, align: usize) {
        self.inner.deallocate(ptr, size, align);
    }
}
