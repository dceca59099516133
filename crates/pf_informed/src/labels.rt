//! Labels that any later step may lower.

ghost use Rattle.std.specs.Prelude.{◌≡◌, ◌<◌, ◌≤◌, ◌≤ℤ◌, ◌<ℤ◌, ◌+ℤ◌, ◌++◌, ◌-◌, ◌^◌, None, Some, OnOk, IfErr, replicate, MatchBool, MatchOption, length, slice_get};
ghost use Rattle.pf_core.specs.declared.labels.Label.{Label};
ghost use Rattle.pf_core.specs.Labels.{HasLabel};
ghost use Rattle.pf_informed.specs.Internal.Waiting.{SumsFit};

use pf_base::{Cost, PathError};
use pf_core::labels::{fill, label_of};
use pf_core::slot::Slot;
use std::alloc::Allocator;

/// The cost of the label of a number, unless it and the estimate are less than `sum` together, which
/// they were once.
pub(crate) fn current_cost<C: Cost, A: Allocator>(
    labels: &Vec<Slot<C>, A>,
    estimates: &Vec<C, A>,
    number: usize,
    sum: C,
) -> Option<C>
    requires labelled { (l : Label C) × HasLabel labels.now.items number l × (h : C) × (slice_get estimates.now.items number ≡ Some h) }
    requires sums { SumsFit C.value C.fits labels.now.items estimates.now.items }
    ensures { MatchOption result
        ((l : Label C) (h : C) → HasLabel labels.now.items number l → slice_get estimates.now.items number ≡ Some h → (C.value l.cost +ℤ C.value h) <ℤ C.value sum)
        (λ cost. ((l : Label C) × HasLabel labels.now.items number l × (cost ≡ l.cost))
        × ((l : Label C) (h : C) → HasLabel labels.now.items number l → slice_get estimates.now.items number ≡ Some h → C.value sum ≤ℤ (C.value l.cost +ℤ C.value h))) }
{
    let label = label_of(labels, number);
    let Some(now) = label.cost.checked_add(&estimates[number]) else {
        unreachable!();
    };
    if now < sum { None } else { Some(label.cost) }
}

/// Would a label of this cost be the first one of the number, or lower than the one that is there?
pub(crate) fn lowers<C: Cost>(labels: &[Slot<C>], number: usize, cost: C) -> bool
    requires { number < length labels.now }
    ensures { MatchBool result
        ((l : Label C) → HasLabel labels.now number l → C.value cost <ℤ C.value l.cost)
        ((l : Label C) × HasLabel labels.now number l × (C.value l.cost ≤ℤ C.value cost)) }
{
    match labels[number].label() {
        Some(label) => cost < label.cost,
        None => true,
    }
}

/// As many nodes as the queue can have, which keeps numbers of 32 bits.
const MOST_QUEUED: usize = 0x1_0000_0000;

/// Makes room for the labels of the nodes that were found, all of which may wait in the queue.
pub(crate) fn make_room<C: Cost, A: Allocator>(
    labels: &mut Vec<Slot<C>, A>,
    found: usize,
) -> Result<(), PathError>
    requires { length labels.old.items ≤ found }
    ensures wider { OnOk result (labels.new.items ≡ labels.old.items ++ replicate (found - length labels.old.items) None) }
    ensures few { OnOk result (found ≤ 2 ^ 32) }
    ensures refused { IfErr result (λ e. e ≡ PathError.OutOfMemory) }
{
    if found > MOST_QUEUED {
        return Err(PathError::OutOfMemory);
    }
    fill(labels, found, Slot::none(C::zero()))
}
