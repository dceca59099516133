//! Calls that take no memory: they answer while every growth is refused.

ghost use Rattle.std.specs.Prelude.{◌≡◌, ◌<◌, IsTrue, FitsSigned, true};
ghost use Rattle.std.specs.Int.{w64};
ghost use Rattle.pf_flow.specs.Networks.{IsNetwork};

use pf_base::PathError;
use pf_flow::edmonds_karp::{DenseCapacity, EdmondsKarp, FlowStore, SparseCapacity};
use std::alloc::{Allocator, Global};
use test_allocator::Refusing;

/// Whether the flow of a pair and what is left of its capacity are these numbers.
fn shows<S: FlowStore<i64>>(store: &S, from: usize, to: usize, flow: i64, left: i64) -> bool
    requires from { from < (S.network store.now).vertices }
    requires to { to < (S.network store.now).vertices }
    ensures flow { IsTrue result → (S.network store.now).flow from to ≡ flow }
    ensures left { IsTrue result → (S.network store.now).residual from to ≡ left }
{
    store.flow(from, to) == flow && store.residual_capacity(from, to) == left
}

/// Whether a store of two vertices, filled through a capacity of 5, answers what it holds.
fn is_read<S: EdmondsKarp<i64>>(store: &S) -> bool
    requires { IsNetwork (FitsSigned w64) (S.network store.now) }
{
    store.size() == 2
        && store.source() == 0
        && store.sink() == 1
        && store.has_details()
        && store.total_capacity() == 5
        && store.capacity_sum() == 5
        && shows(store, 0, 1, 5, 0)
        && shows(store, 1, 0, -5, 5)
}

/// Whether updates of that store change what they should.
fn is_updated<S: EdmondsKarp<i64>>(store: &mut S) -> bool
    requires two { (S.network store.old).vertices ≡ 2 }
    requires room { (S.network store.old).room 1 0 ≡ true }
{
    if !shows(store, 0, 1, 5, 0) || !shows(store, 1, 0, -5, 5) {
        return false;
    }
    store.add_flow(1, 0, 2);
    if !shows(store, 0, 1, 3, 2) || !shows(store, 1, 0, -3, 3) {
        return false;
    }
    store.add_residual_capacity(1, 0, 4);
    store.set_total_capacity(3);
    store.omit_details();
    shows(store, 1, 0, -3, 7) && store.total_capacity() == 3 && !store.has_details()
}

/// Whether calls of a store answer what they should while every growth is refused, and none asks for
/// memory.
fn is_still<A: Allocator + Copy, S: EdmondsKarp<i64, Alloc = A>>(
    heap: &Refusing<Global>,
    alloc: A,
) -> Result<bool, PathError> {
    let mut store = S::new(alloc, 2, 0, 1)?;
    store.set_capacity(alloc, 0, 1, 5)?;
    store.augment(alloc)?;
    store.make_room(1, 0)?;
    heap.refuse(0, u64::MAX);
    let is_answered = is_read(&store) && is_updated(&mut store);
    let is_asked = heap.pending() != u64::MAX;
    heap.refuse(0, 0);
    Ok(is_answered && !is_asked)
}

#[test]
fn calls_take_no_memory(rt: HostRuntime) {
    let heap = Refusing::new(rt.alloc());
    let dense = is_still::<_, DenseCapacity<i64, &Refusing<Global>>>(&heap, &heap);
    let sparse = is_still::<_, SparseCapacity<i64, &Refusing<Global>>>(&heap, &heap);
    assert!(rt; (dense, sparse) == (Ok(true), Ok(true)));
}
