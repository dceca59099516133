//! What waits: the numbers whose labels are open, the cheapest first.
//!
//! A number stands in the queue once for each label that it was given. Only the entry of its last one
//! settles it, as the cheapest; the others are stale by then, and are passed over.

ghost use Rattle.std.specs.Prelude.{◌≡◌, ◌<◌, ◌≤◌, ◌+ℤ◌, ◌+◌, ◌^◌, ℕ, ◌∷◌, false, IfSome, Contains, IsPermutation, MatchOption, length};
ghost use Rattle.pf_core.specs.declared.labels.Label.{Label};
ghost use Rattle.pf_core.specs.Labels.{by_cost, AllSettled, Lowered, Covers, Stepped, Relaxed};
ghost use Rattle.pf_core.specs.Search.{IsLeast};
ghost use Rattle.pf_core.specs.Queue.{IsQueue, IsFront, IsOpen};

use crate::labels::{Label, improves, is_open};
use crate::slot::Slot;
use pf_base::Cost;
use pf_queue::CostQueue;
use std::alloc::Allocator;

/// The number of an open label that costs least, or `None` where all labels are settled. Entries of
/// settled labels are taken out.
pub fn least_open<C: Cost, A: Allocator>(
    labels: &Vec<Slot<C>, A>,
    queue: &mut CostQueue<C, A>,
) -> Option<usize>
    requires queue { IsQueue C.value labels.now.items queue.old.items }
    ensures queue { IsQueue C.value labels.now.items queue.new.items }
    ensures least { MatchOption result (AllSettled labels.now.items) (λ k. (l : Label C) × IsLeast (by_cost C.value) labels.now.items k l) }
    ensures front { IfSome result (λ k. IsFront k queue.new.front) }
    ensures again { (k : ℕ) → IsFront k queue.old.front → IsOpen labels.now.items k → result ≡ Some k }
{
    'entries: while let Some(entry) = queue.least() {
        let number = entry.1 as usize;
        if is_open(labels, number) {
            return Some(number);
        }
        queue.take_first();
    }
    None
}

/// Puts in an entry, for which there is room.
fn push_entry<C: Cost, A: Allocator>(queue: &mut CostQueue<C, A>, cost: C, number: usize)
    requires few { number < 2 ^ 32 }
    requires room { 0 < queue.old.room }
    ensures added { IsPermutation ((cost, number) ∷ queue.old.items) queue.new.items }
    ensures room { queue.old.room ≤ queue.new.room + 1 }
{
    queue.push(cost, number as u32);
}

/// Puts in the label of the path that goes on from the number `parent`, whose label is `label`, at
/// this cost, if none is there or it costs less than the open one that is there.
fn lower<C: Cost, A: Allocator>(
    labels: &mut Vec<Slot<C>, A>,
    queue: &mut CostQueue<C, A>,
    parent: usize,
    label: &Label<C>,
    next: usize,
    cost: C,
)
    requires room { 0 < queue.old.room }
    requires inside { next < length labels.old.items }
    requires few { length labels.old.items ≤ 2 ^ 32 }
    requires parent { parent < length labels.old.items }
    requires queue { IsQueue C.value labels.old.items queue.old.items }
    ensures queue { IsQueue C.value labels.new.items queue.new.items }
    ensures lowered { Lowered (by_cost C.value) next (record { cost = cost; parent = parent; depth = label.now.depth + 1; settled = false }) labels.old.items labels.new.items }
    ensures room { queue.old.room ≤ queue.new.room + 1 }
{
    if improves(labels, next, cost) {
        push_entry(queue, cost, next);
        labels[next] = Slot::behind(parent, &label.depth, cost);
    }
}

/// Takes one step from the number `parent`, whose label is `label`, where the sum of the costs fits.
fn take_step<C: Cost, A: Allocator>(
    labels: &mut Vec<Slot<C>, A>,
    queue: &mut CostQueue<C, A>,
    parent: usize,
    label: &Label<C>,
    next: usize,
    price: C,
)
    requires room { 0 < queue.old.room }
    requires inside { next < length labels.old.items }
    requires few { length labels.old.items ≤ 2 ^ 32 }
    requires parent { parent < length labels.old.items }
    requires queue { IsQueue C.value labels.old.items queue.old.items }
    ensures queue { IsQueue C.value labels.new.items queue.new.items }
    ensures stepped { Stepped (by_cost C.value) C.value C.fits parent label.now next price labels.old.items labels.new.items }
    ensures room { queue.old.room ≤ queue.new.room + 1 }
{
    if let Some(cost) = label.cost.checked_add(&price) {
        lower(labels, queue, parent, label, next, cost);
    }
}

/// Takes the steps of a row from the number `parent`, whose label is `label`. There is room for the
/// entries.
pub fn relax<C: Cost, A: Allocator>(
    labels: &mut Vec<Slot<C>, A>,
    queue: &mut CostQueue<C, A>,
    parent: usize,
    label: &Label<C>,
    row: &[(usize, C)],
)
    requires room { length row.now ≤ queue.old.room }
    requires inside { (j : ℕ) (c : C) → Contains row.now (j, c) → j < length labels.old.items }
    requires few { length labels.old.items ≤ 2 ^ 32 }
    requires parent { parent < length labels.old.items }
    requires queue { IsQueue C.value labels.old.items queue.old.items }
    ensures queue { IsQueue C.value labels.new.items queue.new.items }
    ensures relaxed { Relaxed (by_cost C.value) C.value parent label.now row.now labels.old.items labels.new.items }
    ensures reached { (j : ℕ) (c : C) → Contains row.now (j, c) → C.fits (C.value label.now.cost +ℤ C.value c) → Covers (by_cost C.value) C.value label.now labels.new.items j c }
{
    'steps: for (next, price) in row {
        take_step(labels, queue, parent, label, *next, *price);
    }
}
