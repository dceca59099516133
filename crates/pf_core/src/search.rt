//! A search by rising cost, over numbers.

ghost use Rattle.std.specs.Prelude.{◌≡◌, ◌<◌, ◌≤◌, ◌+◌, ◌+ℤ◌, ◌⊎◌, ℕ, ℤ, Bool, false, Err, Some, Contains, IfOk, IfErr, IfSome, MatchOption, OnOk, OnErr, length};
ghost use Rattle.pf_core.specs.declared.labels.Label.{Label};
ghost use Rattle.pf_core.specs.Labels.{HasLabel, by_cost, AllSettled, Follows, settled_count};
ghost use Rattle.pf_core.specs.Numbered.{Grows};
ghost use Rattle.pf_core.specs.Queue.{IsFront, IsOpen};
ghost use Rattle.pf_core.specs.Steps.{IsNonNegative};
ghost use Rattle.pf_core.specs.Search.{IsSound, IsLeast, IsSearch, Turned, StepOverflows, HasBarredStep, IsWithinRange};

use crate::labels::{label_of, settle, widen};
use crate::numbered::NumberedGraph;
use crate::queue::{least_open, relax};
use crate::slot::Slot;
use crate::sums::sums_fit;
use pf_base::{Cost, PathError};
use pf_queue::CostQueue;
use std::alloc::Allocator;

/// What a search knows: the labels by number, which of them wait, and the steps from the number that
/// was expanded last.
#[derive(Drop)]
pub struct Search<C: Cost, A: Allocator> {
    pub labels: Vec<Slot<C>, A>,
    pub queue: CostQueue<C, A>,
    pub row: Vec<(usize, C), A>,
}

impl<C: Cost, A: Allocator + Copy> Search<C, A> {
    /// A search from the number `start`, where `found` numbers are found: it alone has a label, which
    /// is open and costs nothing.
    pub fn begin(alloc: A, found: usize, start: usize) -> Result<Self, PathError>
        requires { start < found }
        ensures sound { IfOk result (λ s. IsSound C.value s.labels.items s.queue.items) }
        ensures wide { IfOk result (λ s. length s.labels.items ≡ found) }
        ensures first { IfOk result (λ s. HasLabel s.labels.items start (record { cost = C.zero; parent = 0; depth = 0; settled = false })) }
        ensures only { IfOk result (λ s. (k : ℕ) (l : Label C) → HasLabel s.labels.items k l → (k ≡ start) × (l ≡ record { cost = C.zero; parent = 0; depth = 0; settled = false })) }
        ensures none { IfOk result (λ s. settled_count s.labels.items ≡ 0) }
        ensures refused { IfErr result (λ e. e ≡ PathError.OutOfMemory) }
    {
        let nothing = C::zero();
        let mut labels = Vec::new(alloc);
        widen(&mut labels, found)?;
        labels[start] = Slot::first(nothing);
        let mut queue = CostQueue::new(alloc);
        queue.reserve(1)?;
        queue.push(nothing, start as u32);
        Ok(Search {
            labels,
            queue,
            row: Vec::new(alloc),
        })
    }

    /// The number of an open label that costs least, or `None` where all labels are settled.
    pub fn least(&mut self) -> Option<usize>
        requires { IsSound C.value self.old.labels.items self.old.queue.items }
        ensures same { self.new.labels.items ≡ self.old.labels.items }
        ensures sound { IsSound C.value self.new.labels.items self.new.queue.items }
        ensures least { MatchOption result (AllSettled self.old.labels.items) (λ k. (l : Label C) × IsLeast (by_cost C.value) self.old.labels.items k l) }
        ensures front { IfSome result (λ k. IsFront k self.new.queue.front) }
        ensures again { (k : ℕ) → IsFront k self.old.queue.front → IsOpen self.old.labels.items k → result ≡ Some k }
    {
        least_open(&self.labels, &mut self.queue)
    }

    /// Settles the number of an open label that costs least, and takes the steps from it. A cost
    /// overflow is answered where the end of a step has no label, and no sum to it fits. Whatever the
    /// turn is refused for, all is as before it, and it can be tried again.
    pub fn turn<G: NumberedGraph<C>>(
        &mut self,
        graph: &mut G,
        number: usize,
    ) -> Result<(), PathError>
        requires sound { IsSound C.value self.old.labels.items self.old.queue.items }
        requires wide { length self.old.labels.items ≡ G.node_count graph.old }
        requires least { (l : Label C) × IsLeast (by_cost C.value) self.old.labels.items number l }
        requires graph { (g : G.Graph) × G.explores graph.old g }
        ensures sound { IsSound C.value self.new.labels.items self.new.queue.items }
        ensures wide { length self.new.labels.items ≡ G.node_count graph.new }
        ensures grows { Grows (G.node_count graph.old) (G.node_count graph.new) (G.stands graph.old) (G.stands graph.new) }
        ensures graph { (g : G.Graph) → G.explores graph.old g → G.explores graph.new g }
        ensures turned { OnOk result ((l : Label C) → HasLabel self.old.labels.items number l → Turned number l self.old.labels.items self.new.labels.items) }
        ensures search { OnOk result ((g : G.Graph) → G.explores graph.old g → IsNonNegative (G.step g) → (root : ℕ → Bool)
            → IsSearch (by_cost C.value) (G.step g) root (G.stands graph.old) self.old.labels.items
            → IsSearch (by_cost C.value) (G.step g) root (G.stands graph.new) self.new.labels.items) }
        ensures kept { OnErr result ((G.node_count graph.new ≡ G.node_count graph.old)
            × (self.new.labels.items ≡ self.old.labels.items) × (self.new.queue.items ≡ self.old.queue.items) × (self.new.queue.front ≡ self.old.queue.front)) }
        ensures overflow { result ≡ Err PathError.CostOverflow → (g : G.Graph) → G.explores graph.old g → (x : G.Node) → G.stands graph.old number x
            → (l : Label C) → HasLabel self.old.labels.items number l → StepOverflows (G.step g) C.fits x (C.value l.cost) }
        ensures barred { result ≡ Err PathError.CostOverflow → (g : G.Graph) → G.explores graph.old g → (x : G.Node) → G.stands graph.old number x
            → (l : Label C) → HasLabel self.old.labels.items number l → HasBarredStep (G.step g) (G.stands graph.old) self.old.labels.items C.fits x (C.value l.cost) }
        ensures within { OnOk result ((g : G.Graph) → G.explores graph.old g → (x : G.Node) → G.stands graph.old number x → (l : Label C) → HasLabel self.old.labels.items number l
            → (y : G.Node) (z : ℤ) → G.step g x z y → IsWithinRange (G.step g) (G.stands graph.old) self.old.labels.items C.fits x (C.value l.cost) (G.stands graph.new) y) }
        ensures errors { IfErr result (λ e. (e ≡ PathError.OutOfMemory) ⊎ (e ≡ PathError.CostOverflow)) }
    {
        let before = graph.node_count();
        graph.expand(number, &mut self.row)?;
        if let Err(refusal) = self.follow(graph.node_count(), number) {
            graph.forget(before);
            return Err(refusal);
        }
        Ok(())
    }

    /// Settles the number and takes the steps of the row, once `found` numbers are found. Whatever this
    /// is refused for, labels and queue are as before it.
    fn follow(&mut self, found: usize, number: usize) -> Result<(), PathError>
        requires sound { IsSound C.value self.old.labels.items self.old.queue.items }
        requires wide { length self.old.labels.items ≤ found }
        requires least { (l : Label C) × IsLeast (by_cost C.value) self.old.labels.items number l }
        requires ends { (j : ℕ) (c : C) → Contains self.old.row.items (j, c) → j < found }
        ensures sound { IsSound C.value self.new.labels.items self.new.queue.items }
        ensures wide { OnOk result (length self.new.labels.items ≡ found) }
        ensures followed { OnOk result ((l : Label C) → HasLabel self.old.labels.items number l → Follows C.value C.fits found number l self.old.row.items self.old.labels.items self.new.labels.items) }
        ensures kept { OnErr result ((self.new.labels.items ≡ self.old.labels.items) × (self.new.queue.items ≡ self.old.queue.items) × (self.new.queue.front ≡ self.old.queue.front)) }
        ensures overflow { result ≡ Err PathError.CostOverflow → (l : Label C) → HasLabel self.old.labels.items number l
            → (j : ℕ) × (c : C) × Contains self.old.row.items (j, c) × ((m : Label C) → ¬ (HasLabel self.old.labels.items j m))
            × ((d : C) → Contains self.old.row.items (j, d) → ¬ (C.fits (C.value l.cost +ℤ C.value d))) }
        ensures errors { IfErr result (λ e. (e ≡ PathError.OutOfMemory) ⊎ (e ≡ PathError.CostOverflow)) }
    {
        let label = label_of(&self.labels, number);
        label.cost.known();
        if !sums_fit(&self.labels, &mut self.row, label.cost) {
            return Err(PathError::CostOverflow);
        }
        self.queue.reserve(self.row.len())?;
        widen(&mut self.labels, found)?;
        settle(&mut self.labels, number);
        relax(&mut self.labels, &mut self.queue, number, &label, &self.row);
        Ok(())
    }
}
