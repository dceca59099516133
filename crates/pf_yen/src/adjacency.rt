//! What was learned of a graph: the steps from each number, and which numbers are goals.

ghost use Rattle.std.specs.Prelude.{◌≡◌, ◌<◌, [], ◌∷◌, ◌++◌, ⊤, length, OnOk, OnErr, IfErr, MatchOption};
ghost use Rattle.pf_yen.specs.Internal.Adjacency.{row_of, is_goal};
ghost use Rattle.pf_yen.specs.Internal.Reduced.{Leads};
ghost use Rattle.pf_yen.specs.Internal.Remaining.{AreRemaining};

use crate::reduced::{Guide, Reduced, guide_to_goals};
use crate::rows::Rows;
use pf_base::{Cost, PathError};
use std::alloc::Allocator;
use std::marker::Model;

/// The steps from each number, each as the number of its end and its cost, and whether the number is
/// a goal. The steps from a goal are left out. Beside them is noted what leads to the goals, where
/// that was looked for and found.
#[derive(Drop)]
pub struct Adjacency<C: Cost, A: Allocator> {
    rows: Rows<C, A>,
    goals: Vec<bool, A>,
    guide: Option<Guide<C, A>>,
    /// Whether what remains was looked for.
    is_looked_for: bool,
}

impl<C: Cost, A: Allocator> Model for Adjacency<C, A> {
    ghost use Rattle.std.specs.Prelude.{◌≡◌, ⊤, length, MatchOption};
    ghost use Rattle.pf_yen.specs.Internal.Adjacency.{AdjacencyLists, adjacency_code};
    ghost use Rattle.pf_yen.specs.Internal.Reduced.{Guides};

    ghost Value = { AdjacencyLists C };

    ghost coded = { adjacency_code C.code };

    ghost view = { λ s. record { rows = s.rows; goals = s.goals.items } };

    ghost invariant = { λ s. (length s.goals.items ≡ length s.rows) × MatchOption s.guide ⊤ (λ guide. Guides C.value C.fits (record { rows = s.rows; goals = s.goals.items }) guide) };
}

impl<C: Cost, A: Allocator> Adjacency<C, A> {
    /// Nothing is known.
    pub fn new(alloc: A) -> Self
    where
        A: Copy,
        ensures { result ≡ record { rows = []; goals = [] } }
    {
        Adjacency {
            rows: Rows::new(alloc),
            goals: Vec::new(alloc),
            guide: None,
            is_looked_for: false,
        }
    }

    /// Of how many numbers the steps are known.
    pub fn len(&self) -> usize
        ensures { result ≡ length self.now.rows }
    {
        self.rows.len()
    }

    /// The steps from a number.
    pub fn row(&self, number: usize) -> &[(usize, C)]
        requires { number < length self.now.rows }
        ensures { result.now ≡ row_of self.now number }
    {
        self.rows.row(number)
    }

    /// Is the number a goal?
    pub fn is_goal(&self, number: usize) -> bool
        requires { number < length self.now.rows }
        ensures { result ≡ is_goal self.now number }
    {
        self.goals[number]
    }

    /// Puts in what was learned of the next number. Where memory is refused, nothing changes.
    pub fn add(&mut self, row: &[(usize, C)], goal: bool) -> Result<(), PathError>
        ensures added { OnOk result (self.new ≡ record { rows = self.old.rows ++ row.now ∷ []; goals = self.old.goals ++ goal ∷ [] }) }
        ensures kept { OnErr result (self.new ≡ self.old) }
        ensures refused { IfErr result (λ e. e ≡ PathError.OutOfMemory) }
    {
        self.guide = None;
        self.is_looked_for = false;
        self.goals.push(goal)?;
        if let Err(refusal) = self.rows.add(row) {
            self.goals.pop();
            return Err(refusal);
        }
        Ok(())
    }

    /// Looks for what remains from each number to a goal and for reduced costs, unless that was done.
    pub fn note_remaining(&mut self, alloc: A) -> Result<(), PathError>
    where
        A: Copy,
        ensures same { self.new ≡ self.old }
        ensures refused { IfErr result (λ e. e ≡ PathError.OutOfMemory) }
    {
        if !self.is_looked_for {
            self.guide = guide_to_goals(alloc, self)?;
            self.is_looked_for = true;
        }
        Ok(())
    }

    /// What remains from each number to a goal, where that is known.
    pub fn remaining(&self) -> Option<&[Option<C>]>
        ensures { MatchOption result ⊤ (λ costs. AreRemaining C.value C.fits self.now costs.now) }
    {
        match &self.guide {
            Some(guide) => Some(&guide.remaining),
            None => None,
        }
    }

    /// The steps at reduced costs, where they are known.
    pub fn reduced(&self) -> Option<Reduced<'_, C, A>>
        ensures { MatchOption result ⊤ (λ led. Leads C.value C.fits self.now led.remaining.now led.rows.now) }
    {
        let guide = self.guide.as_ref()?;
        let rows = guide.reduced.as_ref()?;
        Some(Reduced {
            remaining: &guide.remaining,
            rows,
        })
    }
}
