//! What waits in a search by growing limits.
//!
//! As in the queue of the search by cost and estimate, a number stands in the lists once for each label
//! that it was given, and the entries of labels that were lowered since are passed over.

ghost use Rattle.std.specs.Prelude.{◌≡◌, ◌⊎◌, ◌≤◌, ◌≤ℤ◌, ◌<ℤ◌, ◌+◌, ◌++◌, ◌↔◌, [], Contains, IsPermutation, IfErr, IfOk, OnOk, MatchBool, MatchOption, length};
ghost use Rattle.pf_core.specs.declared.labels.Label.{Label};
ghost use Rattle.pf_core.specs.Labels.{HasLabel};
ghost use Rattle.pf_informed.specs.Internal.Waiting.{Entry, IsQueue, SumsFit};
ghost use Rattle.pf_informed.specs.Internal.Fringe.{listed, StillWait, NothingWaits, IsNextEntry, IsBelowWaiting, IsTakenWithin};

use crate::labels::current_cost;
use crate::queue::{Queue, Taken};
use pf_base::{Cost, PathError};
use pf_core::labels::label_of;
use pf_core::slot::Slot;
use std::alloc::Allocator;
use std::mem;

/// What waits, in two lists: `current` has what this round of the search still has to look at, the next
/// entry last, and `later` what it put off, since a label and the estimate of its node cost more together
/// than the limit. Both hold entries as those of the queue.
#[derive(Drop)]
pub(crate) struct FringeLists<C: Cost, A: Allocator> {
    pub current: Vec<(C, u32), A>,
    pub later: Vec<(C, u32), A>,
    pub limit: C,
}

/// Takes out the last entry that is not stale. Stale entries behind it are taken out on the way.
fn take_last<C: Cost, A: Allocator>(
    labels: &Vec<Slot<C>, A>,
    estimates: &Vec<C, A>,
    entries: &mut Vec<(C, u32), A>,
) -> Option<(C, u32)>
    requires queue { IsQueue C.value labels.now.items estimates.now.items entries.old.items }
    requires sums { SumsFit C.value C.fits labels.now.items estimates.now.items }
    ensures taken { MatchOption result
        ((entries.new.items ≡ []) × StillWait C.value labels.now.items estimates.now.items entries.old.items [])
        (λ e. IsNextEntry C.value labels.now.items estimates.now.items e entries.old.items entries.new.items) }
    ensures fewer { MatchOption result (entries.new.items ≡ []) (λ _. length entries.new.items + 1 ≤ length entries.old.items) }
{
    'entries: while let Some(entry) = entries.pop() {
        if current_cost(labels, estimates, entry.1 as usize, entry.0).is_some() {
            return Some(entry);
        }
    }
    None
}

/// The label's cost and the estimate together.
fn sum_of<C: Cost>(entry: &(C, u32)) -> C
    ensures { result ≡ entry.now.0 }
{
    entry.0
}

/// Keeps the entry of the lesser sum, and hands back the other.
fn keep_least<C: Cost>(least: &mut (C, u32), entry: (C, u32)) -> (C, u32)
    ensures least { C.value least.new.0 ≤ℤ C.value result.0 }
    ensures both { ((least.new ≡ least.old) × (result ≡ entry)) ⊎ ((least.new ≡ entry) × (result ≡ least.old)) }
{
    if is_less(sum_of(&entry), sum_of(least)) {
        mem::replace(least, entry)
    } else {
        entry
    }
}

/// Puts the elements from this place on in reverse order.
fn reverse_from<T>(elements: &mut [T], from: usize)
    requires { from ≤ length elements.old }
    ensures { IsPermutation elements.old elements.new }
{
    elements[from..].reverse();
}

/// Is the first of two sums less than the second?
fn is_less<C: Cost>(first: C, second: C) -> bool
    ensures { MatchBool result (C.value first <ℤ C.value second) (C.value second ≤ℤ C.value first) }
{
    first < second
}

impl<C: Cost, A: Allocator + Copy> FringeLists<C, A> {
    /// No entries yet.
    pub fn new(alloc: A, limit: C) -> Self
        ensures listed { listed result ≡ [] }
        ensures limit { result.limit ≡ limit }
    {
        FringeLists {
            current: Vec::new(alloc),
            later: Vec::new(alloc),
            limit,
        }
    }

    /// Moves what the queue holds to the front of this round, the least sum first.
    fn take_in(&mut self, queue: &mut Queue<C, A>) -> Result<(), PathError>
        ensures emptied { OnOk result (queue.new.entries ≡ []) }
        ensures same { OnOk result ((e : Entry C) → Contains (queue.old.entries ++ self.old.current.items) e ↔ Contains self.new.current.items e) }
        ensures later { OnOk result (self.new.later.items ≡ self.old.later.items) }
        ensures limit { OnOk result (self.new.limit ≡ self.old.limit) }
        ensures count { OnOk result (length queue.new.entries + length self.new.current.items ≡ length queue.old.entries + length self.old.current.items) }
        ensures refused { IfErr result (λ e. e ≡ PathError.OutOfMemory) }
    {
        let from = self.current.len();
        'entries: while let Some(entry) = queue.take_any() {
            self.current.push(entry)?;
        }
        reverse_from(&mut self.current, from);
        Ok(())
    }

    /// Takes out the next number of this round whose label and estimate are within the limit together,
    /// with the cost of its label. What is not within it is put off.
    fn take_within(
        &mut self,
        labels: &Vec<Slot<C>, A>,
        estimates: &Vec<C, A>,
    ) -> Result<Option<Taken<C>>, PathError>
        requires queue { IsQueue C.value labels.now.items estimates.now.items (listed self.old) }
        requires sums { SumsFit C.value C.fits labels.now.items estimates.now.items }
        ensures limit { OnOk result (self.new.limit ≡ self.old.limit) }
        ensures queue { OnOk result (IsQueue C.value labels.now.items estimates.now.items (listed self.new)) }
        ensures taken { IfOk result (λ r. MatchOption r
            ((self.new.current.items ≡ []) × StillWait C.value labels.now.items estimates.now.items (listed self.old) (listed self.new))
            (λ t. IsTakenWithin C.value labels.now.items estimates.now.items t.number t.cost self.new.limit (listed self.old) (listed self.new))) }
        ensures fewer { IfOk result (λ r. MatchOption r
            (length (listed self.new) ≤ length (listed self.old))
            (λ _. length (listed self.new) + 1 ≤ length (listed self.old))) }
        ensures refused { IfErr result (λ e. e ≡ PathError.OutOfMemory) }
    {
        'entries: while let Some(entry) = take_last(labels, estimates, &mut self.current) {
            if is_less(self.limit, sum_of(&entry)) {
                self.later.push(entry)?;
            } else {
                return Ok(Some(Taken {
                    number: entry.1 as usize,
                    cost: label_of(labels, entry.1 as usize).cost,
                }));
            }
        }
        Ok(None)
    }

    /// Begins a round with what was put off. The least sum there is the next limit, and the number that
    /// has it is taken out.
    fn raise_limit(
        &mut self,
        labels: &Vec<Slot<C>, A>,
        estimates: &Vec<C, A>,
    ) -> Result<Option<Taken<C>>, PathError>
        requires over { self.old.current.items ≡ [] }
        requires queue { IsQueue C.value labels.now.items estimates.now.items (listed self.old) }
        requires sums { SumsFit C.value C.fits labels.now.items estimates.now.items }
        ensures queue { OnOk result (IsQueue C.value labels.now.items estimates.now.items (listed self.new)) }
        ensures limit { OnOk result ((self.new.limit ≡ self.old.limit)
            ⊎ (C.fits (C.value self.new.limit) × IsBelowWaiting C.value labels.now.items estimates.now.items (listed self.old) self.new.limit)) }
        ensures taken { IfOk result (λ r. MatchOption r (NothingWaits C.value labels.now.items estimates.now.items (listed self.old))
            (λ t. IsTakenWithin C.value labels.now.items estimates.now.items t.number t.cost self.new.limit (listed self.old) (listed self.new))) }
        ensures fewer { IfOk result (λ r. MatchOption r
            (length (listed self.new) ≤ length (listed self.old))
            (λ _. length (listed self.new) + 1 ≤ length (listed self.old))) }
        ensures refused { IfErr result (λ e. e ≡ PathError.OutOfMemory) }
    {
        let Some(mut least) = take_last(labels, estimates, &mut self.later) else {
            return Ok(None);
        };
        'entries: while let Some(entry) = take_last(labels, estimates, &mut self.later) {
            self.current.push(keep_least(&mut least, entry))?;
        }
        self.limit = sum_of(&least);
        self.limit.known();
        let number = least.1 as usize;
        Ok(Some(Taken {
            number,
            cost: label_of(labels, number).cost,
        }))
    }

    /// Takes in what the queue holds, and takes out a number whose label and estimate are within the
    /// limit together, with the cost of its label. Where nothing that waits is within the limit, the
    /// limit is raised first, to the least sum that waits.
    pub fn take(
        &mut self,
        labels: &Vec<Slot<C>, A>,
        estimates: &Vec<C, A>,
        queue: &mut Queue<C, A>,
    ) -> Result<Option<Taken<C>>, PathError>
        requires queue { IsQueue C.value labels.now.items estimates.now.items (queue.old.entries ++ listed self.old) }
        requires sums { SumsFit C.value C.fits labels.now.items estimates.now.items }
        ensures queue { OnOk result (IsQueue C.value labels.now.items estimates.now.items (queue.new.entries ++ listed self.new)) }
        ensures limit { OnOk result ((self.new.limit ≡ self.old.limit)
            ⊎ (C.fits (C.value self.new.limit) × IsBelowWaiting C.value labels.now.items estimates.now.items (queue.old.entries ++ listed self.old) self.new.limit)) }
        ensures taken { IfOk result (λ r. MatchOption r (NothingWaits C.value labels.now.items estimates.now.items (queue.old.entries ++ listed self.old))
            (λ t. IsTakenWithin C.value labels.now.items estimates.now.items t.number t.cost self.new.limit (queue.old.entries ++ listed self.old) (queue.new.entries ++ listed self.new))) }
        ensures fewer { IfOk result (λ r. MatchOption r
            (length queue.new.entries + length (listed self.new) ≤ length queue.old.entries + length (listed self.old))
            (λ _. length queue.new.entries + length (listed self.new) + 1 ≤ length queue.old.entries + length (listed self.old))) }
        ensures refused { IfErr result (λ e. e ≡ PathError.OutOfMemory) }
    {
        self.take_in(queue)?;
        if let Some(taken) = self.take_within(labels, estimates)? {
            return Ok(Some(taken));
        }
        self.raise_limit(labels, estimates)
    }
}
