//! What a search by rising cost knows of the nodes that were found: their labels, by number.

ghost use Rattle.std.specs.Prelude.{◌≡◌, ◌<◌, ◌≤◌, ◌<ℤ◌, ◌-◌, ◌^◌, ◌++◌, replicate, ℕ, List, true, false, Some, OnOk, OnErr, IfOk, IfErr, Contains, MatchOption, MatchBool, length, slice_set};
ghost use Rattle.pf_core.specs.declared.labels.Label.{Label};
ghost use Rattle.pf_core.specs.Labels.{HasLabel, by_cost, Climbs, IsChain, IsWithin, Widened};

use crate::depth::Depth;
use crate::slot::Slot;
use pf_base::{Cost, PathError};
use std::alloc::Allocator;

/// What is known of a node: the cost of a path to it, the number before it on that path, how many
/// steps the path has (which contracts alone see), and whether the label is settled, and so will not
/// change. A search stores labels in `Slot`s.
#[derive(Drop)]
pub struct Label<C> {
    pub cost: C,
    pub parent: usize,
    pub depth: Depth,
    pub settled: bool,
}

/// The label of a number that has one.
pub fn label_of<C: Cost, A: Allocator>(labels: &Vec<Slot<C>, A>, number: usize) -> Label<C>
    requires { (l : Label C) × HasLabel labels.now.items number l }
    ensures { HasLabel labels.now.items number result }
{
    match labels[number].label() {
        Some(label) => label,
        None => unreachable!(),
    }
}

/// Settles the label of a number.
pub fn settle<C: Copy, A: Allocator>(labels: &mut Vec<Slot<C>, A>, number: usize)
    requires { (l : Label C) × HasLabel labels.old.items number l }
    ensures { (l : Label C) → HasLabel labels.old.items number l → labels.new.items ≡ slice_set labels.old.items number (Some (record l { settled = true })) }
{
    let slot = &mut labels[number];
    slot.settle();
}

/// Has the number a label that is open?
pub fn is_open<C: Cost>(labels: &[Slot<C>], number: usize) -> bool
    requires { number < length labels.now }
    ensures { MatchBool result
        ((l : Label C) × HasLabel labels.now number l × (l.settled ≡ false))
        ((l : Label C) → HasLabel labels.now number l → l.settled ≡ true) }
{
    labels[number].is_open()
}

/// Would a label of this cost change what is known of the number?
pub fn improves<C: Cost>(labels: &[Slot<C>], next: usize, total: C) -> bool
    requires { next < length labels.now }
    ensures { MatchBool result
        ((l : Label C) → HasLabel labels.now next l → (l.settled ≡ false) × (C.value total <ℤ C.value l.cost))
        ((l : Label C) × HasLabel labels.now next l × IsWithin (by_cost C.value) l (C.value total)) }
{
    let Some(label) = labels[next].label() else {
        return true;
    };
    if label.settled {
        return false;
    }
    total < label.cost
}

/// As many nodes as labels can name. So many labels are more than any memory has.
const MOST_NODES: usize = 0x4000_0000_0000_0000;

/// Gives each of the nodes that were found since the last time the same label, or none.
pub fn fill<C: Copy, A: Allocator>(
    labels: &mut Vec<Slot<C>, A>,
    found: usize,
    slot: Slot<C>,
) -> Result<(), PathError>
    requires { length labels.old.items ≤ found }
    ensures filled { OnOk result (labels.new.items ≡ labels.old.items ++ replicate (found - length labels.old.items) slot) }
    ensures kept { OnErr result (labels.new.items ≡ labels.old.items) }
    ensures few { OnOk result (found ≤ 2 ^ 62) }
    ensures refused { IfErr result (λ e. e ≡ PathError.OutOfMemory) }
{
    if found > MOST_NODES {
        return Err(PathError::OutOfMemory);
    }
    labels.resize(found, slot)?;
    Ok(())
}

/// As many nodes as a queue can have, which keeps numbers of 32 bits: its entries are small then, and a
/// search spends most of its time among them.
const MOST_QUEUED: usize = 0x1_0000_0000;

/// Makes room for the labels of the nodes that were found, all of which may wait in a queue.
pub fn widen<C: Cost, A: Allocator>(
    labels: &mut Vec<Slot<C>, A>,
    found: usize,
) -> Result<(), PathError>
    requires { length labels.old.items ≤ found }
    ensures widened { OnOk result (Widened found labels.old.items labels.new.items) }
    ensures kept { OnErr result (labels.new.items ≡ labels.old.items) }
    ensures few { OnOk result (found ≤ 2 ^ 32) }
    ensures refused { IfErr result (λ e. e ≡ PathError.OutOfMemory) }
{
    if found > MOST_QUEUED {
        return Err(PathError::OutOfMemory);
    }
    fill(labels, found, Slot::none(C::zero()))
}

/// The number before this one on its path, or `None` where the path begins with it.
fn parent_of<C: Copy>(labels: &[Slot<C>], number: usize) -> Option<usize>
    requires { number < length labels.now }
    ensures { MatchOption result
        ((l : Label C) → HasLabel labels.now number l → l.depth ≡ 0)
        (λ parent. (l : Label C) × HasLabel labels.now number l × (l.parent ≡ parent) × (0 < l.depth)) }
{
    labels[number].parent()
}

/// The numbers on the path along parents to `last`, from the one that has depth 0 on.
pub fn path_to<C: Copy, A: Allocator + Copy>(
    alloc: A,
    labels: &[Slot<C>],
    last: usize,
) -> Result<Vec<usize, A>, PathError>
    requires { (above : List ℕ) × Climbs labels.now last above }
    ensures chain { IfOk result (λ numbers. IsChain labels.now last numbers.items) }
    ensures inside { IfOk result (λ numbers. (k : ℕ) → Contains numbers.items k → k < length labels.now) }
    ensures refused { IfErr result (λ e. e ≡ PathError.OutOfMemory) }
{
    let mut numbers = Vec::new(alloc);
    let mut at = last;
    numbers.push(at)?;
    'climb: while let Some(parent) = parent_of(labels, at) {
        at = parent;
        numbers.push(at)?;
    }
    numbers.reverse();
    Ok(numbers)
}
