//! The candidates that are left, of which one is chosen.

ghost use Rattle.std.specs.Prelude.{◌≡◌, ◌⊎◌, ◌<◌, List, ℕ, [], true, false, None, length, Err, OnOk, OnErr, IfErr};
ghost use Rattle.std.specs.BinaryHeap.{IsHeap, heap_items};
ghost use Rattle.pf_yen.specs.Internal.Adjacency.{AdjacencyLists};
ghost use Rattle.pf_yen.specs.Internal.WholeGraphs.{IsWhole};
ghost use Rattle.pf_yen.specs.Internal.Classes.{IsPartition};
ghost use Rattle.pf_yen.specs.Internal.Candidates.{waiting_plans, chosen_plan, as_list};
ghost use Rattle.pf_yen.specs.Internal.PlanChanges.{first_cmp, plans_left, just_given, ArePlansKept, ComesFirst, GoesOn, IsPastAtFirst, ChosenOverflows, PlansOverflow};

use crate::adjacency::Adjacency;
use crate::candidate::Candidate;
use crate::classes::{least_of_class, split};
use crate::filtered::FilteredGraph;
use pf_base::{Cost, PathError};
use std::alloc::Allocator;
use std::collections::BinaryHeap;

/// The candidates that wait, the cheapest first, and the one that was chosen.
#[derive(Drop)]
pub struct Candidates<C: Cost, A: Allocator> {
    pub waiting: BinaryHeap<Candidate<C, A>, A>,
    pub chosen: Option<Candidate<C, A>>,
    /// Whether the path of the chosen candidate was given.
    pub is_given: bool,
    /// Whether a first path was looked for.
    pub has_begun: bool,
}

impl<C: Cost, A: Allocator + Copy> Candidates<C, A> {
    /// Looks for a cheapest one of all clean paths.
    fn begin(&mut self, alloc: A, adjacency: &Adjacency<C, A>) -> Result<(), PathError>
        requires whole { IsWhole C.value adjacency.now }
        requires some { 0 < length adjacency.now.rows }
        ensures waiting { heap_items self.new.waiting ≡ heap_items self.old.waiting }
        ensures is_given { self.new.is_given ≡ self.old.is_given }
        ensures begun { OnOk result (self.new.has_begun ≡ true) }
        ensures partition { OnOk result (IsPartition C.value adjacency.now (as_list (chosen_plan self.new.chosen)) []) }
        ensures kept { OnErr result ((self.new.chosen ≡ self.old.chosen) × (self.new.has_begun ≡ self.old.has_begun)) }
        ensures overflow { result ≡ Err PathError.CostOverflow → IsPastAtFirst C.value adjacency.now C.fits }
        ensures errors { IfErr result (λ e. (e ≡ PathError.OutOfMemory) ⊎ (e ≡ PathError.CostOverflow)) }
    {
        let mut filtered = FilteredGraph::new(alloc, adjacency)?;
        self.chosen = least_of_class(alloc, &mut filtered, 0)?;
        self.has_begun = true;
        Ok(())
    }

    /// Splits the class of the chosen candidate, if its path was given.
    fn split_given(&mut self, alloc: A, adjacency: &Adjacency<C, A>) -> Result<(), PathError>
        requires whole { IsWhole C.value adjacency.now }
        requires some { 0 < length adjacency.now.rows }
        requires partition { (before : List (List ℕ)) × IsPartition C.value adjacency.now (plans_left self.old) before }
        requires ordered { IsHeap (first_cmp C.cmp) (heap_items self.old.waiting) }
        ensures ordered { IsHeap (first_cmp C.cmp) (heap_items self.new.waiting) }
        ensures has_begun { self.new.has_begun ≡ self.old.has_begun }
        ensures goes_on { OnOk result (GoesOn C.value adjacency.now (plans_left self.old) (plans_left self.new) (just_given self.old)) }
        ensures first { OnOk result (ComesFirst C.value self.old.is_given self.old → ComesFirst C.value false self.new) }
        ensures is_given { OnOk result (self.new.is_given ≡ false) }
        ensures kept { OnErr result ((self.new.chosen ≡ self.old.chosen) × (heap_items self.new.waiting ≡ heap_items self.old.waiting) × (self.new.is_given ≡ self.old.is_given)) }
        ensures due { OnErr result (¬ (just_given self.old ≡ [])) }
        ensures overflow { result ≡ Err PathError.CostOverflow → ChosenOverflows C.value adjacency.now C.fits (chosen_plan self.old.chosen) }
        ensures errors { IfErr result (λ e. (e ≡ PathError.OutOfMemory) ⊎ (e ≡ PathError.CostOverflow)) }
    {
        if !self.is_given {
            return Ok(());
        }
        if let Some(chosen) = &self.chosen {
            let mut plans = BinaryHeap::from(split(alloc, adjacency, chosen)?);
            self.waiting.append(&mut plans)?;
        }
        self.chosen = None;
        self.is_given = false;
        Ok(())
    }

    /// Chooses the cheapest candidate, if none is chosen.
    fn choose_first(&mut self)
        requires ordered { IsHeap (first_cmp C.cmp) (heap_items self.old.waiting) }
        requires new { self.old.is_given ≡ false }
        ensures ordered { IsHeap (first_cmp C.cmp) (heap_items self.new.waiting) }
        ensures has_begun { self.new.has_begun ≡ self.old.has_begun }
        ensures is_given { self.new.is_given ≡ false }
        ensures goes_on { (adjacency : AdjacencyLists C) → GoesOn C.value adjacency (plans_left self.old) (plans_left self.new) [] }
        ensures first { ComesFirst C.value false self.old → ComesFirst C.value false self.new }
        ensures none { chosen_plan self.new.chosen ≡ None → waiting_plans (heap_items self.new.waiting) ≡ [] }
    {
        if self.chosen.is_none() {
            self.chosen = self.waiting.pop();
        }
    }

    /// Chooses the plan whose path is to be given next, if there is one. A refused call can be tried
    /// again: no plan is lost.
    pub fn choose(&mut self, alloc: A, adjacency: &Adjacency<C, A>) -> Result<(), PathError>
        requires whole { IsWhole C.value adjacency.now }
        requires some { 0 < length adjacency.now.rows }
        requires ordered { IsHeap (first_cmp C.cmp) (heap_items self.old.waiting) }
        requires partition { self.old.has_begun ≡ true → (before : List (List ℕ)) × IsPartition C.value adjacency.now (plans_left self.old) before }
        requires fresh { self.old.has_begun ≡ false → (heap_items self.old.waiting ≡ []) × (self.old.is_given ≡ false) }
        ensures ordered { IsHeap (first_cmp C.cmp) (heap_items self.new.waiting) }
        ensures begun { OnOk result ((self.new.has_begun ≡ true) × (self.new.is_given ≡ false)) }
        ensures none { OnOk result (chosen_plan self.new.chosen ≡ None → waiting_plans (heap_items self.new.waiting) ≡ []) }
        ensures first { OnOk result (ComesFirst C.value self.old.is_given self.old → self.old.has_begun ≡ true → ComesFirst C.value false self.new) }
        ensures goes_on { OnOk result (self.old.has_begun ≡ true → GoesOn C.value adjacency.now (plans_left self.old) (plans_left self.new) (just_given self.old)) }
        ensures begins { OnOk result (self.old.has_begun ≡ false → IsPartition C.value adjacency.now (plans_left self.new) [] × (waiting_plans (heap_items self.new.waiting) ≡ [])) }
        ensures kept { OnErr result (ArePlansKept self.old self.new) }
        ensures due { OnErr result (self.old.has_begun ≡ true → ¬ (just_given self.old ≡ [])) }
        ensures overflow { result ≡ Err PathError.CostOverflow → PlansOverflow C.value adjacency.now C.fits self.old }
        ensures errors { IfErr result (λ e. (e ≡ PathError.OutOfMemory) ⊎ (e ≡ PathError.CostOverflow)) }
    {
        if self.has_begun {
            self.split_given(alloc, adjacency)?;
            self.choose_first();
        } else {
            self.begin(alloc, adjacency)?;
        }
        Ok(())
    }
}
