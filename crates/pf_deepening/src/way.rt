//! The way that a search goes along.

ghost use Rattle.std.specs.Prelude.{⊤, ◌≡◌, ◌↔◌, ◌⊎◌, ◌<◌, ◌+◌, ◌∷◌, [], ℕ, List, None, false, OnOk, IfOk, IfErr, MatchBool, reverse};
ghost use Rattle.pf_deepening.specs.declared.way.Frame.{Frame};
ghost use Rattle.pf_deepening.specs.Ways.{IsMarked};

use crate::cut_off::CutOff;
use crate::marks::{mark, unmark};
use crate::rows::Span;
use pf_base::PathError;
use std::alloc::{AllocError, Allocator};

/// A node on the way: its number, the cost of the way to it, and the places of its steps that are left.
pub struct Frame<C: Copy> {
    pub number: usize,
    pub cost: C,
    pub at: usize,
    pub end: usize,
}

// By hand, since a derived clone goes field by field.
impl<C: Copy> Clone for Frame<C> {
    ghost is_clone = { λ x y. y ≡ x };

    ghost is_infallible = { λ _. ⊤ };

    fn clone(&self) -> Result<Self, AllocError> {
        Ok(*self)
    }
}

impl<C: Copy> Copy for Frame<C> {}

/// The way to a node: its frame, those below it from the start on, the marks of their numbers, and
/// what was cut off so far.
#[derive(Drop)]
pub struct Way<C: Copy, A: Allocator> {
    pub frame: Frame<C>,
    pub trail: Vec<Frame<C>, A>,
    pub marks: Vec<bool, A>,
    pub cut_off: CutOff<C>,
}

impl<C: Copy, A: Allocator + Copy> Way<C, A> {
    /// The way to the number 0 alone, whose steps stand at `span`.
    pub fn begin(alloc: A, cost: C, span: Span) -> Result<Self, PathError>
        ensures frame { IfOk result (λ way. way.frame ≡ record { number = 0; cost = cost; at = span.begin; end = span.end }) }
        ensures below { IfOk result (λ way. reverse way.trail.items ≡ []) }
        ensures marked { IfOk result (λ way. (k : ℕ) → IsMarked way.marks.items k ↔ (k ≡ 0)) }
        ensures cut_off { IfOk result (λ way. (way.cut_off.least ≡ None) × (way.cut_off.past ≡ false)) }
        ensures refused { IfErr result (λ e. e ≡ PathError.OutOfMemory) }
    {
        let mut marks = Vec::new(alloc);
        mark(&mut marks, 0)?;
        let frame = Frame {
            number: 0,
            cost,
            at: span.begin,
            end: span.end,
        };
        Ok(Way {
            frame,
            trail: Vec::new(alloc),
            marks,
            cut_off: CutOff::new(),
        })
    }
}

impl<C: Copy, A: Allocator> Way<C, A> {
    /// Goes back to the frame below, and to its next step. Where there is none, it answers `false`.
    pub fn leave(&mut self) -> bool
        requires marked { IsMarked self.old.marks.items self.old.frame.number }
        requires room { (f : Frame C) (fs : List (Frame C)) → reverse self.old.trail.items ≡ f ∷ fs → f.at < f.end }
        ensures cut_off { self.new.cut_off ≡ self.old.cut_off }
        ensures below { MatchBool result
            ((f : Frame C) × (fs : List (Frame C)) × (reverse self.old.trail.items ≡ f ∷ fs) × (self.new.frame ≡ record f { at = f.at + 1 }) × (reverse self.new.trail.items ≡ fs)
            × ((k : ℕ) → IsMarked self.new.marks.items k ↔ (IsMarked self.old.marks.items k × ¬ (k ≡ self.old.frame.number))))
            (reverse self.old.trail.items ≡ []) }
    {
        let Some(parent) = self.trail.pop() else {
            return false;
        };
        unmark(&mut self.marks, self.frame.number);
        self.frame = Frame {
            at: parent.at + 1,
            ..parent
        };
        true
    }

    /// Goes on to a number, whose steps stand at `span`.
    pub fn enter(&mut self, number: usize, cost: C, span: Span) -> Result<(), PathError>
        ensures frame { OnOk result (self.new.frame ≡ record { number = number; cost = cost; at = span.begin; end = span.end }) }
        ensures below { OnOk result (reverse self.new.trail.items ≡ self.old.frame ∷ reverse self.old.trail.items) }
        ensures marked { OnOk result ((k : ℕ) → IsMarked self.new.marks.items k ↔ (IsMarked self.old.marks.items k ⊎ (k ≡ number))) }
        ensures cut_off { self.new.cut_off ≡ self.old.cut_off }
        ensures refused { IfErr result (λ e. e ≡ PathError.OutOfMemory) }
    {
        mark(&mut self.marks, number)?;
        self.trail.push(self.frame)?;
        self.frame = Frame {
            number,
            cost,
            at: span.begin,
            end: span.end,
        };
        Ok(())
    }
}
