//! How often a store of the caller's own is called.

use pf_base::PathError;
use pf_flow::edmonds_karp::{DenseCapacity, EdmondsKarp, FlowStore};
use pf_matrix::Matrix;
use std::alloc::{Allocator, Global};

/// A store that hands every call on to another one, and counts those of `add_flow`.
#[derive(Drop)]
struct Counting<S: FlowStore<i64>> {
    store: S,
    calls: u64,
}

impl<S: FlowStore<i64>> FlowStore<i64> for Counting<S> {
    ghost network = { λ s. S.network s.store };

    fn size(&self) -> usize {
        self.store.size()
    }

    fn source(&self) -> usize {
        self.store.source()
    }

    fn sink(&self) -> usize {
        self.store.sink()
    }

    fn flow(&self, from: usize, to: usize) -> i64 {
        self.store.flow(from, to)
    }

    fn residual_capacity(&self, from: usize, to: usize) -> i64 {
        self.store.residual_capacity(from, to)
    }

    fn residual_successors<A: Allocator + Copy>(
        &self,
        alloc: A,
        from: usize,
    ) -> Result<Vec<(usize, i64), A>, PathError> {
        self.store.residual_successors(alloc, from)
    }

    fn flows_from<A: Allocator + Copy>(
        &self,
        alloc: A,
        from: usize,
    ) -> Result<Vec<usize, A>, PathError> {
        self.store.flows_from(alloc, from)
    }

    fn total_capacity(&self) -> i64 {
        self.store.total_capacity()
    }

    fn has_details(&self) -> bool {
        self.store.has_details()
    }

    fn omit_details(&mut self) {
        self.store.omit_details();
    }

    fn make_room(&mut self, from: usize, to: usize) -> Result<(), PathError> {
        self.store.make_room(from, to)
    }

    fn add_flow(&mut self, from: usize, to: usize, amount: i64) {
        self.calls = self.calls.wrapping_add(1);
        self.store.add_flow(from, to, amount);
    }

    fn add_residual_capacity(&mut self, from: usize, to: usize, amount: i64) {
        self.store.add_residual_capacity(from, to, amount);
    }

    fn set_total_capacity(&mut self, total: i64) {
        self.store.set_total_capacity(total);
    }

    fn known_sum(&self) -> Option<i64> {
        self.store.known_sum()
    }

    fn note_sum(&mut self, sum: i64) {
        self.store.note_sum(sum);
    }

    ghost network_law = { λ s. S.network_law s.store };
}

impl<S: EdmondsKarp<i64>> EdmondsKarp<i64> for Counting<S> {
    type Alloc = S::Alloc;

    fn new(alloc: S::Alloc, size: usize, source: usize, sink: usize) -> Result<Self, PathError> {
        let store = S::new(alloc, size, source, sink)?;
        Ok(Counting { store, calls: 0 })
    }
}

/// Wide pipes from 0 over 1 and 2 to 3, by rows, and a narrow one from 1 to 2. Paths that go through the
/// narrow one each time, there and back, add 1 each, so that there are 2,000 of them.
const WIDE: &[i64] = &[0, 1000, 1000, 0, 0, 0, 1, 1000, 0, 0, 0, 1000, 0, 0, 0, 0];

/// The total of a greatest flow through `WIDE`, and how often flow was added to a pair.
fn additions(alloc: Global) -> Result<(i64, u64), PathError> {
    let Ok(wide) = Matrix::from_vec(4, 4, Vec::from_slice(alloc, WIDE)?) else {
        return Err(PathError::OutOfMemory);
    };
    let mut store: Counting<DenseCapacity<i64>> = Counting::from_matrix(alloc, 0, 3, wide)?;
    let (_, total, _) = store.augment(alloc)?;
    Ok((total, store.calls))
}

#[test]
fn flow_is_added_to_few_pairs(rt: HostRuntime) {
    let counted = additions(rt.alloc());
    assert!(rt; matches!(counted, Ok((2000, 1..=120))), "{counted:?}");
}
