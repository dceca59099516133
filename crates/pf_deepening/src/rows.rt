//! The steps from numbers, one row behind another.

ghost use Rattle.std.specs.Prelude.{◌≡◌, ◌↔◌, ◌⊎◌, ◌<◌, ◌+◌, ◌++◌, [], ℕ, IfOk, IfErr, OnOk, MatchOption, length, take};
ghost use Rattle.pf_deepening.specs.declared.rows.Span.{Span};
ghost use Rattle.pf_deepening.specs.Ways.{HasSpan};

use crate::widen::widen;
use pf_base::PathError;
use std::alloc::Allocator;

/// Where the steps from a number stand, from `begin` on and before `end`, and how many nodes had been
/// found when they were asked for.
#[derive(Clone, Copy)]
pub struct Span {
    pub begin: usize,
    pub end: usize,
    pub found: usize,
}

/// The steps from the numbers on the way.
#[derive(Drop)]
pub struct Rows<C: Copy, A: Allocator> {
    pub steps: Vec<(usize, C), A>,
    pub spans: Vec<Option<Span>, A>,
}

impl<C: Copy, A: Allocator + Copy> Rows<C, A> {
    /// No steps.
    pub fn new(alloc: A) -> Self
        ensures steps { result.steps.items ≡ [] }
        ensures spans { result.spans.items ≡ [] }
    {
        Rows {
            steps: Vec::new(alloc),
            spans: Vec::new(alloc),
        }
    }
}

impl<C: Copy, A: Allocator> Rows<C, A> {
    /// Where the steps from a number stand, if they are here.
    pub fn span(&self, number: usize) -> Option<Span>
        ensures { MatchOption result ((s : Span) → ¬ (HasSpan self.now.spans.items number s)) (λ s. HasSpan self.now.spans.items number s) }
    {
        match self.spans.get(number) {
            Some(span) => *span,
            None => None,
        }
    }

    /// Keeps the steps from a number, which were asked for when so many nodes had been found.
    pub fn keep(
        &mut self,
        number: usize,
        row: &[(usize, C)],
        found: usize,
    ) -> Result<Span, PathError>
        ensures steps { OnOk result (self.new.steps.items ≡ self.old.steps.items ++ row.now) }
        ensures span { IfOk result (λ s. (s.begin ≡ length self.old.steps.items) × (s.end ≡ length self.old.steps.items + length row.now) × (s.found ≡ found)) }
        ensures kept { IfOk result (λ s. HasSpan self.new.spans.items number s) }
        ensures others { OnOk result ((k : ℕ) (s : Span) → ¬ (k ≡ number) → HasSpan self.old.spans.items k s → HasSpan self.new.spans.items k s) }
        ensures from { IfOk result (λ r. (k : ℕ) (s : Span) → HasSpan self.new.spans.items k s → HasSpan self.old.spans.items k s ⊎ ((k ≡ number) × (s ≡ r))) }
        ensures refused { IfErr result (λ e. e ≡ PathError.OutOfMemory) }
    {
        let begin = self.steps.len();
        self.steps.extend_from_slice(row)?;
        let span = Span {
            begin,
            end: self.steps.len(),
            found,
        };
        widen(&mut self.spans, number, None)?;
        self.spans[number] = Some(span);
        Ok(span)
    }

    /// Takes the steps from a number out again, and all that stand from `begin` on.
    pub fn forget(&mut self, number: usize, begin: usize)
        requires { number < length self.old.spans.items }
        ensures steps { self.new.steps.items ≡ take begin self.old.steps.items }
        ensures spans { (k : ℕ) (s : Span) → HasSpan self.new.spans.items k s ↔ (HasSpan self.old.spans.items k s × ¬ (k ≡ number)) }
    {
        self.steps.truncate(begin);
        self.spans[number] = None;
    }
}
