//! What waits in a search by cost and estimate.
//!
//! A number stands in the queue once for each label that it was given, with the sum of the label's
//! cost and the estimate. The entries of labels that were lowered since are stale, and are passed over.

ghost use Rattle.std.specs.Prelude.{⊤, ◌≡◌, ◌<◌, ◌≤◌, ◌<ℤ◌, ◌≤ℤ◌, ◌+◌, ◌++◌, ◌*◌, ◌^◌, ◌∷◌, [], ℕ, pos, Contains, IfErr, IsPermutation, MatchOption, OnOk, length, ◌⊎◌};
ghost use Rattle.pf_core.specs.declared.labels.Label.{Label};
ghost use Rattle.pf_core.specs.Labels.{HasLabel};
ghost use Rattle.pf_informed.specs.Internal.Forest.{total_room, nat_of};
ghost use Rattle.pf_informed.specs.Internal.Waiting.{Entry, IsWaiting, IsQueue, IsSound, SumsFit, AreSteps, IsTaken, IsTakenOut, Relaxed};

use crate::labels::{current_cost, lowers};
use pf_base::{Cost, PathError};
use pf_core::labels::Label;
use pf_core::slot::Slot;
use pf_queue::CostQueue;
use std::alloc::Allocator;
use std::cmp::Reverse;
use std::marker::Model;

/// More entries than these are put in order in a bucket.
const MANY: usize = 1024;

/// What waits: sums, each with a number. A least sum comes first.
///
/// Most searches have many equal sums. So the entries of the least one are moved to a bucket at once,
/// and what is put in at that sum from then on goes there too and comes first, the last one before the
/// others. Where all costs are alike, the search then goes on along one way.
#[derive(Drop)]
pub(crate) struct Queue<C: Cost, A: Allocator> {
    /// Entries of one sum, the next one last.
    bucket: Vec<(C, u32), A>,
    /// The sum of the bucket, or of the last one.
    sum: C,
    /// All other entries.
    later: CostQueue<C, A>,
    /// May one of the others have a lesser sum than the bucket?
    is_below: bool,
}

impl<C: Cost, A: Allocator> Model for Queue<C, A> {
    ghost use Rattle.std.specs.Prelude.{◌++◌};
    ghost use Rattle.pf_informed.specs.Internal.Waiting.{IsBucket, Queued};

    ghost Value = { Queued C };

    ghost view = { λ q. record { entries = q.bucket.items ++ q.later.items; room = q.later.room } };

    ghost invariant = { λ q. IsBucket C.value q.bucket.items q.later.items q.sum q.is_below };
}

impl<C: Cost, A: Allocator> Queue<C, A> {
    /// Nothing waits yet.
    pub fn new(alloc: A) -> Self
    where
        A: Copy,
        ensures { result.entries ≡ [] }
    {
        Queue {
            bucket: Vec::new(alloc),
            sum: C::zero(),
            later: CostQueue::new(alloc),
            is_below: false,
        }
    }

    /// Makes room for so many entries more. The bucket has room for all.
    pub fn reserve(&mut self, additional: usize) -> Result<(), PathError>
        ensures entries { self.new.entries ≡ self.old.entries }
        ensures room { OnOk result (additional ≤ self.new.room) }
        ensures refused { IfErr result (λ e. e ≡ PathError.OutOfMemory) }
    {
        self.later.reserve(additional)?;
        self.bucket
            .reserve(self.later.len().saturating_add(additional))?;
        Ok(())
    }

    /// Puts in an entry, for which there is room.
    pub fn push(&mut self, sum: C, number: usize)
        requires few { number < 2 ^ 32 }
        requires room { 0 < self.old.room }
        ensures added { IsPermutation ((sum, number) ∷ self.old.entries) self.new.entries }
        ensures room { self.old.room ≤ self.new.room + 1 }
    {
        let is_below = sum < self.sum;
        if !is_below && !(self.sum < sum) && self.bucket.len() < self.bucket.capacity() {
            self.bucket.push_reserved((sum, number as u32));
            return;
        }
        if is_below {
            self.is_below = true;
        }
        self.later.push(sum, number as u32);
    }

    /// Fills the bucket with entries of the least sum, if it is empty. Of many, those of the greatest
    /// cost come first.
    fn fill_bucket(&mut self, estimates: &[C])
        ensures { IsPermutation self.old.entries self.new.entries }
    {
        if !self.bucket.is_empty() {
            return;
        }
        let Some(first) = self.later.least() else {
            return;
        };
        self.sum = first.0;
        self.is_below = false;
        gather(&mut self.bucket, &mut self.later, first.0);
        put_in_order(&mut self.bucket, estimates);
    }

    /// Takes out the first entry, whose sum is the least.
    pub fn take_first(&mut self, estimates: &[C]) -> Option<(C, u32)>
        ensures first { MatchOption result ((self.old.entries ≡ []) × (self.new.entries ≡ []))
            (λ e. IsPermutation self.old.entries (e ∷ self.new.entries) × (length self.new.entries + 1 ≡ length self.old.entries)) }
        ensures least { MatchOption result ⊤ (λ e. (f : Entry C) → Contains self.new.entries f → C.value e.0 ≤ℤ C.value f.0) }
    {
        self.fill_bucket(estimates);
        if self.is_below {
            return take_either(&mut self.bucket, &mut self.later, self.sum);
        }
        take_front(&mut self.bucket, &mut self.later, self.sum)
    }

    /// Takes out an entry: of the bucket, or else one of the least sum. The bucket is not filled.
    pub fn take_any(&mut self) -> Option<(C, u32)>
        ensures { MatchOption result ((self.old.entries ≡ []) × (self.new.entries ≡ []))
            (λ e. IsPermutation self.old.entries (e ∷ self.new.entries) × (length self.new.entries + 1 ≡ length self.old.entries)) }
    {
        if let Some(entry) = self.bucket.pop() {
            return Some(entry);
        }
        take_later(&mut self.later)
    }
}

/// Moves the first entries to the bucket, while their sum is this one and the bucket has room.
fn gather<C: Cost, A: Allocator>(bucket: &mut Vec<(C, u32), A>, later: &mut CostQueue<C, A>, sum: C)
    requires above { (e : Entry C) → Contains later.old.items e → C.value sum ≤ℤ C.value e.0 }
    ensures moved { IsPermutation (bucket.old.items ++ later.old.items) (bucket.new.items ++ later.new.items) }
    ensures alike { (e : Entry C) → Contains bucket.new.items e → Contains bucket.old.items e ⊎ (C.value e.0 ≡ C.value sum) }
    ensures above { (e : Entry C) → Contains later.new.items e → C.value sum ≤ℤ C.value e.0 }
{
    'entries: while bucket.len() < bucket.capacity() {
        let Some(entry) = later.least() else {
            return;
        };
        if sum < entry.0 {
            return;
        }
        later.take_first();
        bucket.push_reserved(entry);
    }
}

/// Puts entries of one sum in order, where they are many: the less the estimate, and so the greater the
/// cost, the farther behind.
fn put_in_order<C: Cost, A: Allocator>(bucket: &mut Vec<(C, u32), A>, estimates: &[C])
    ensures { IsPermutation bucket.old.items bucket.new.items }
{
    if bucket.len() > MANY {
        bucket.sort_unstable_by_key(|entry| Reverse(estimates.get(entry.1 as usize).copied()));
    }
}

/// Takes out an entry of the least sum.
fn take_later<C: Cost, A: Allocator>(later: &mut CostQueue<C, A>) -> Option<(C, u32)>
    ensures { MatchOption result ((later.old.items ≡ []) × (later.new.items ≡ []))
        (λ e. IsPermutation later.old.items (e ∷ later.new.items) × ((f : Entry C) → Contains later.new.items f → C.value e.0 ≤ℤ C.value f.0)) }
{
    let Some(first) = later.least() else {
        return None;
    };
    later.take_first();
    Some(first)
}

/// Takes out an entry of the least sum, if that is below this one.
fn take_below<C: Cost, A: Allocator>(later: &mut CostQueue<C, A>, sum: C) -> Option<(C, u32)>
    ensures { MatchOption result
        (IsPermutation later.old.items later.new.items × ((e : Entry C) → Contains later.new.items e → C.value sum ≤ℤ C.value e.0))
        (λ e. IsPermutation later.old.items (e ∷ later.new.items) × ((f : Entry C) → Contains later.new.items f → C.value e.0 ≤ℤ C.value f.0) × (C.value e.0 <ℤ C.value sum)) }
{
    let Some(first) = later.least() else {
        return None;
    };
    if !(first.0 < sum) {
        return None;
    }
    later.take_first();
    Some(first)
}

/// Takes out the last entry of the bucket, whose sum is this one, or where the bucket is empty one of
/// the others. None of these has a lesser sum.
fn take_front<C: Cost, A: Allocator>(
    bucket: &mut Vec<(C, u32), A>,
    later: &mut CostQueue<C, A>,
    sum: C,
) -> Option<(C, u32)>
    requires alike { (e : Entry C) → Contains bucket.old.items e → C.value e.0 ≡ C.value sum }
    requires above { (e : Entry C) → Contains later.old.items e → C.value sum ≤ℤ C.value e.0 }
    ensures { MatchOption result ((bucket.old.items ++ later.old.items ≡ []) × (bucket.new.items ++ later.new.items ≡ []))
        (λ e. IsTakenOut C.value e bucket.old.items later.old.items bucket.new.items later.new.items) }
{
    if let Some(entry) = bucket.pop() {
        return Some(entry);
    }
    take_later(later)
}

/// Takes out the last entry of the bucket, whose sum is this one, or one of the others where that has a
/// lesser sum or the bucket is empty.
fn take_either<C: Cost, A: Allocator>(
    bucket: &mut Vec<(C, u32), A>,
    later: &mut CostQueue<C, A>,
    sum: C,
) -> Option<(C, u32)>
    requires { (e : Entry C) → Contains bucket.old.items e → C.value e.0 ≡ C.value sum }
    ensures { MatchOption result ((bucket.old.items ++ later.old.items ≡ []) × (bucket.new.items ++ later.new.items ≡ []))
        (λ e. IsTakenOut C.value e bucket.old.items later.old.items bucket.new.items later.new.items) }
{
    if let Some(entry) = take_below(later, sum) {
        return Some(entry);
    }
    take_front(bucket, later, sum)
}

/// A number that is taken out of the queue, and the cost of its label.
#[derive(Drop)]
pub(crate) struct Taken<C> {
    pub number: usize,
    pub cost: C,
}

/// Takes out the number whose label and estimate cost least together among those that wait, with the
/// cost of its label. Stale entries are taken out on the way.
pub(crate) fn take_least<C: Cost, A: Allocator>(
    labels: &Vec<Slot<C>, A>,
    estimates: &Vec<C, A>,
    queue: &mut Queue<C, A>,
) -> Option<Taken<C>>
    requires queue { IsQueue C.value labels.now.items estimates.now.items queue.old.entries }
    requires sums { SumsFit C.value C.fits labels.now.items estimates.now.items }
    ensures queue { IsQueue C.value labels.now.items estimates.now.items queue.new.entries }
    ensures taken { MatchOption result ((k : ℕ) (l : Label C) → HasLabel labels.now.items k l → ¬ (IsWaiting C.value estimates.now.items queue.old.entries k l))
        (λ r. IsTaken C.value labels.now.items estimates.now.items r.number r.cost queue.old.entries queue.new.entries) }
    ensures fewer { MatchOption result (length queue.new.entries ≤ length queue.old.entries) (λ r. length queue.new.entries + 1 ≤ length queue.old.entries) }
{
    'entries: while let Some(entry) = queue.take_first(estimates) {
        let number = entry.1 as usize;
        if let Some(cost) = current_cost(labels, estimates, number, entry.0) {
            return Some(Taken { number, cost });
        }
    }
    None
}

/// Takes one step from the number `parent`, whose label is `label`: the label of the step's end is
/// lowered, if that makes it cheaper and its cost and estimate fit.
fn take_step<C: Cost, A: Allocator>(
    labels: &mut Vec<Slot<C>, A>,
    estimates: &Vec<C, A>,
    queue: &mut Queue<C, A>,
    parent: usize,
    label: &Label<C>,
    next: usize,
    price: C,
)
    requires room { 0 < queue.old.room }
    requires inside { next < length labels.old.items }
    requires price { pos 0 ≤ℤ C.value price }
    requires here { HasLabel labels.old.items parent label.now }
    requires sound { IsSound C.value C.fits labels.old.items estimates.now.items queue.old.entries }
    ensures sound { IsSound C.value C.fits labels.new.items estimates.now.items queue.new.entries }
    ensures relaxed { Relaxed C.value C.fits estimates.now.items parent (C.value label.now.cost) ((next, price) ∷ []) labels.old.items labels.new.items queue.old.entries queue.new.entries }
    ensures less { 2 * total_room C.value (nat_of (C.value C.greatest)) labels.new.items + length queue.new.entries
        ≤ 2 * total_room C.value (nat_of (C.value C.greatest)) labels.old.items + length queue.old.entries }
    ensures room { queue.old.room ≤ queue.new.room + 1 }
{
    let Some(cost) = label.cost.checked_add(&price) else {
        return;
    };
    if !lowers(labels, next, cost) {
        return;
    }
    if let Some(sum) = cost.checked_add(&estimates[next]) {
        queue.push(sum, next);
        labels[next] = Slot::behind(parent, &label.depth, cost);
    }
}

/// Takes the steps of a row from the number `parent`, whose label is `label`. There is room for the
/// entries.
pub(crate) fn relax<C: Cost, A: Allocator>(
    labels: &mut Vec<Slot<C>, A>,
    estimates: &Vec<C, A>,
    queue: &mut Queue<C, A>,
    parent: usize,
    label: &Label<C>,
    row: &[(usize, C)],
)
    requires room { length row.now ≤ queue.old.room }
    requires steps { AreSteps C.value (length labels.old.items) row.now }
    requires here { HasLabel labels.old.items parent label.now }
    requires sound { IsSound C.value C.fits labels.old.items estimates.now.items queue.old.entries }
    ensures sound { IsSound C.value C.fits labels.new.items estimates.now.items queue.new.entries }
    ensures relaxed { Relaxed C.value C.fits estimates.now.items parent (C.value label.now.cost) row.now labels.old.items labels.new.items queue.old.entries queue.new.entries }
    ensures less { 2 * total_room C.value (nat_of (C.value C.greatest)) labels.new.items + length queue.new.entries
        ≤ 2 * total_room C.value (nat_of (C.value C.greatest)) labels.old.items + length queue.old.entries }
{
    'steps: for (next, price) in row {
        take_step(labels, estimates, queue, parent, label, *next, *price);
    }
}
