//! A search by cost and estimate, over numbers.

ghost use Rattle.std.specs.Prelude.{◌≡◌, ◌<◌, ◌≤◌, ◌+◌, false, [], ◌∷◌, IfErr, IfOk, OnOk, IsPermutation, All, IsSome, None, Some, length, slice_get};
ghost use Rattle.pf_core.specs.declared.labels.Label.{Label};
ghost use Rattle.pf_core.specs.Labels.{HasLabel};
ghost use Rattle.pf_informed.specs.Internal.Forest.{nat_of};
ghost use Rattle.pf_informed.specs.Internal.Informed.{Follows, work_left};
ghost use Rattle.pf_informed.specs.Internal.Led.{IsNew};
ghost use Rattle.pf_informed.specs.Internal.Waiting.{IsSound, AreSteps};

use crate::labels::make_room;
use crate::queue::{Queue, relax};
use pf_base::{Cost, PathError};
use pf_core::labels::label_of;
use pf_core::slot::Slot;
use std::alloc::Allocator;

/// What a search knows: the labels and the estimates by number, what waits, and the steps from the
/// number that was opened last.
#[derive(Drop)]
pub(crate) struct Search<C: Cost, A: Allocator> {
    pub labels: Vec<Slot<C>, A>,
    pub estimates: Vec<C, A>,
    pub queue: Queue<C, A>,
    pub row: Vec<(usize, C), A>,
}

impl<C: Cost, A: Allocator + Copy> Search<C, A> {
    /// A search that knows nothing yet.
    pub fn new(alloc: A) -> Self
        ensures { IsNew result }
    {
        Search {
            labels: Vec::new(alloc),
            estimates: Vec::new(alloc),
            queue: Queue::new(alloc),
            row: Vec::new(alloc),
        }
    }

    /// Begins at the number 0, once its estimate is known: its label costs nothing, and waits.
    pub fn begin(&mut self) -> Result<(), PathError>
        requires unlabelled { self.old.labels.items ≡ [] }
        requires estimated { length self.old.estimates.items ≡ 1 }
        requires nothing_waits { self.old.queue.entries ≡ [] }
        ensures estimates { self.new.estimates.items ≡ self.old.estimates.items }
        ensures labelled { OnOk result (self.new.labels.items ≡ Some (record { cost = C.zero; parent = 0; depth = 0; settled = false }) ∷ []) }
        ensures waiting { OnOk result ((h : C) × (slice_get self.old.estimates.items 0 ≡ Some h) × C.fits (C.value h) × IsPermutation ((h, 0) ∷ []) self.new.queue.entries) }
        ensures refused { IfErr result (λ e. e ≡ PathError.OutOfMemory) }
    {
        let estimate = self.estimates[0];
        estimate.known();
        self.queue.reserve(1)?;
        self.queue.push(estimate, 0);
        self.labels.push(Slot::first(C::zero()))?;
        Ok(())
    }

    /// Takes the steps of the row from a number, once the estimates of all numbers are known.
    pub fn follow(&mut self, number: usize) -> Result<(), PathError>
        requires steps { AreSteps C.value (length self.old.estimates.items) self.old.row.items }
        requires labelled { (l : Label C) × HasLabel self.old.labels.items number l }
        requires sound { IsSound C.value C.fits self.old.labels.items self.old.estimates.items self.old.queue.entries }
        ensures estimates { self.new.estimates.items ≡ self.old.estimates.items }
        ensures sound { OnOk result (IsSound C.value C.fits self.new.labels.items self.new.estimates.items self.new.queue.entries) }
        ensures followed { OnOk result ((l : Label C) → HasLabel self.old.labels.items number l
            → Follows C.value C.fits self.new.estimates.items number l self.old.row.items self.old.labels.items self.new.labels.items self.old.queue.entries self.new.queue.entries) }
        ensures wide { OnOk result (length self.new.labels.items ≡ length self.new.estimates.items) }
        ensures less { OnOk result (work_left C.value (nat_of (C.value C.greatest)) self.new.labels.items (length self.new.queue.entries)
            ≤ work_left C.value (nat_of (C.value C.greatest)) self.old.labels.items (length self.old.queue.entries)) }
        ensures refused { IfErr result (λ e. e ≡ PathError.OutOfMemory) }
    {
        self.queue.reserve(self.row.len())?;
        make_room(&mut self.labels, self.estimates.len())?;
        let label = label_of(&self.labels, number);
        relax(
            &mut self.labels,
            &self.estimates,
            &mut self.queue,
            number,
            &label,
            &self.row,
        );
        Ok(())
    }

    /// What is answered where nothing waits: no path, if each number has a label. A number has none where
    /// no cost to it fitted.
    pub fn no_path<T>(&self) -> Result<Option<T>, PathError>
        ensures none { IfOk result (λ answer. (answer ≡ None) × All (λ o. IsSome o) self.now.labels.items) }
        ensures past { IfErr result (λ e. (e ≡ PathError.CostOverflow) × ¬ (All (λ o. IsSome o) self.now.labels.items)) }
    {
        'slots: for slot in &self.labels {
            if slot.label().is_none() {
                return Err(PathError::CostOverflow);
            }
        }
        Ok(None)
    }
}
