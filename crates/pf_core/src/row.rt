//! Where the steps from a node are written.

ghost use Rattle.std.specs.Prelude.{◌≡◌, ◌++◌, [], ◌∷◌, ⊤, ℕ, List, OnOk, IfErr, map};

use pf_base::{Cost, PathError};
use std::alloc::Allocator;

/// A list of steps, each as the number of its end and its cost.
pub trait Row<C> {
    // The row has these steps.
    ghost holds: { Self → List (ℕ × C) → Type 0 };

    /// Takes all steps out.
    fn reset(&mut self)
        ensures { holds self.new [] };

    /// Puts a step at the end.
    fn add(&mut self, number: usize, cost: C) -> Result<(), PathError>
        ensures added { OnOk result ((steps : List (ℕ × C)) → holds self.old steps → holds self.new (steps ++ (number, cost) ∷ [])) }
        ensures refused { IfErr result (λ e. e ≡ PathError.OutOfMemory) };
}

impl<C: Cost, A: Allocator> Row<C> for Vec<(usize, C), A> {
    ghost holds = { λ row steps. row.items ≡ steps };

    fn reset(&mut self) {
        self.clear();
    }

    fn add(&mut self, number: usize, cost: C) -> Result<(), PathError> {
        self.push((number, cost))?;
        Ok(())
    }
}

/// Keeps the ends of the steps alone.
impl<C: Drop, A: Allocator> Row<C> for Vec<usize, A> {
    ghost holds = { λ row steps. row.items ≡ map (λ (s : ℕ × C). s.0) steps };

    fn reset(&mut self) {
        self.clear();
    }

    fn add(&mut self, number: usize, _cost: C) -> Result<(), PathError> {
        self.push(number)?;
        Ok(())
    }
}

/// Keeps no steps, for a search that goes by the numbers alone.
#[derive(Drop)]
pub struct NoRow;

impl<C: Drop> Row<C> for NoRow {
    ghost holds = { λ _ _. ⊤ };

    fn reset(&mut self) {}

    fn add(&mut self, _number: usize, _cost: C) -> Result<(), PathError> {
        Ok(())
    }
}
