//! The steps from a node, where of parallel steps the cheapest alone is kept.

ghost use Rattle.std.specs.Prelude.{◌≡◌, ◌⊎◌, ◌<◌, ◌≤ℤ◌, ◌++◌, ◌∷◌, [], ℕ, Some, OnOk, IfErr, MatchOption, length, slice_get, slice_set};
ghost use Rattle.pf_informed.specs.Internal.Rows.{IsCheapestOf};

use pf_base::{Cost, PathError};
use pf_core::row::Row;
use pf_deepening::widen::widen;
use std::alloc::Allocator;

/// The steps from one node, at most one to each number.
#[derive(Drop)]
pub(crate) struct CheapestRow<C: Copy, A: Allocator> {
    pub steps: Vec<(usize, C), A>,
    /// By number, where the step to it stands, if there is one: else it is of no meaning.
    pub places: Vec<usize, A>,
}

impl<C: Copy, A: Allocator + Copy> CheapestRow<C, A> {
    /// No steps.
    pub fn new(alloc: A) -> Self {
        CheapestRow {
            steps: Vec::new(alloc),
            places: Vec::new(alloc),
        }
    }
}

impl<C: Copy, A: Allocator> CheapestRow<C, A> {
    /// Where the step to a number stands.
    fn place_of(&self, number: usize) -> Option<usize>
        ensures { MatchOption result
            ((i : ℕ) (c : C) → slice_get self.now.steps.items i ≡ Some (number, c) → ¬ (slice_get self.now.places.items number ≡ Some i))
            (λ place. (c : C) × (slice_get self.now.steps.items place ≡ Some (number, c))) }
    {
        let Some(place) = self.places.get(number) else {
            return None;
        };
        let place = *place;
        if place < self.steps.len() && self.steps[place].0 == number {
            Some(place)
        } else {
            None
        }
    }

    /// Puts a step to a number to which there is none.
    fn put(&mut self, number: usize, cost: C) -> Result<(), PathError>
        ensures steps { OnOk result (self.new.steps.items ≡ self.old.steps.items ++ (number, cost) ∷ []) }
        ensures placed { OnOk result (slice_get self.new.places.items number ≡ Some (length self.old.steps.items)) }
        ensures others { OnOk result ((k i : ℕ) → ¬ (k ≡ number) → slice_get self.old.places.items k ≡ Some i → slice_get self.new.places.items k ≡ Some i) }
        ensures refused { IfErr result (λ e. e ≡ PathError.OutOfMemory) }
    {
        widen(&mut self.places, number, 0)?;
        self.places[number] = self.steps.len();
        self.steps.push((number, cost))?;
        Ok(())
    }
}

impl<C: Cost, A: Allocator> CheapestRow<C, A> {
    /// Lowers the cost of a step, if it is above this one.
    fn lower(&mut self, place: usize, cost: C)
        requires { place < length self.old.steps.items }
        ensures places { self.new.places.items ≡ self.old.places.items }
        ensures lowered { (n : ℕ) (d : C) → slice_get self.old.steps.items place ≡ Some (n, d)
            → ((self.new.steps.items ≡ self.old.steps.items) × (C.value d ≤ℤ C.value cost))
            ⊎ ((self.new.steps.items ≡ slice_set self.old.steps.items place (n, cost)) × (C.value cost ≤ℤ C.value d)) }
    {
        if cost < self.steps[place].1 {
            self.steps[place].1 = cost;
        }
    }
}

impl<C: Cost, A: Allocator> Row<C> for CheapestRow<C, A> {
    ghost holds = { λ row steps. IsCheapestOf C.value row.steps.items row.places.items steps };

    fn reset(&mut self) {
        self.steps.clear();
    }

    fn add(&mut self, number: usize, cost: C) -> Result<(), PathError> {
        match self.place_of(number) {
            Some(place) => {
                self.lower(place, cost);
                Ok(())
            }
            None => self.put(number, cost),
        }
    }
}
