//! Labels as a search stores them: a cost and one word each.

ghost use Rattle.std.specs.Prelude.{◌≡◌, ◌+◌, ◌<◌, ◌^◌, ⊤, None, Some, false, true, MatchBool, MatchOption};
ghost use Rattle.pf_core.specs.declared.labels.Label.{Label};

use crate::depth::Depth;
use crate::labels::Label;
use std::alloc::AllocError;
use std::marker::Model;

/// What the word of a settled label has more than that of an open one.
const SETTLED: usize = 0x8000_0000_0000_0000;

/// The word of an open label at which a path begins. That of one behind number n is n + 2, and 0
/// stands for no label.
const FIRST: usize = 1;

/// A place for a label. A search goes over many, at random, so that each is as small as may be: its
/// depth, which is known to contracts alone, takes no room.
#[derive(Drop)]
pub struct Slot<C> {
    cost: C,
    word: usize,
    above: Depth,
}

impl<C> Model for Slot<C> {
    ghost use Rattle.std.specs.Prelude.{Option};
    ghost use Rattle.pf_core.specs.declared.labels.Label.{Label};

    ghost Value = { Option (Label C) };

    ghost use Rattle.pf_core.specs.Slots.{label_in};

    ghost view = { λ s. label_in s.cost s.word s.above };
}

impl<C: Copy> Slot<C> {
    /// A place with no label. The cost is of no meaning.
    pub fn none(cost: C) -> Self
        ensures { result ≡ None }
    {
        Slot {
            cost,
            word: 0,
            above: Depth::zero(),
        }
    }

    /// The open label of a node at which a path begins.
    pub fn first(cost: C) -> Self
        ensures { result ≡ Some (record { cost = cost; parent = 0; depth = 0; settled = false }) }
    {
        Slot {
            cost,
            word: FIRST,
            above: Depth::zero(),
        }
    }

    /// The open label of a node behind the number `parent`, whose depth is `above`.
    pub fn behind(parent: usize, above: &Depth, cost: C) -> Self
        requires { parent < 2 ^ 62 }
        ensures { result ≡ Some (record { cost = cost; parent = parent; depth = above.now + 1; settled = false }) }
    {
        Slot {
            cost,
            word: parent + 2,
            above: above.same(),
        }
    }

    /// The label, or `None` where there is none.
    pub fn label(&self) -> Option<Label<C>>
        ensures { result ≡ self.now }
    {
        let settled = self.word >= SETTLED;
        let word = if settled {
            self.word - SETTLED
        } else {
            self.word
        };
        if word == 0 {
            return None;
        }
        if word == FIRST {
            return Some(Label {
                cost: self.cost,
                parent: 0,
                depth: Depth::zero(),
                settled,
            });
        }
        Some(Label {
            cost: self.cost,
            parent: word - 2,
            depth: self.above.deeper(),
            settled,
        })
    }

    /// Is there a label, and is it open?
    pub fn is_open(&self) -> bool
        ensures { MatchBool result ((l : Label C) × (self.now ≡ Some l) × (l.settled ≡ false)) ((l : Label C) → self.now ≡ Some l → l.settled ≡ true) }
    {
        match self.label() {
            Some(label) => !label.settled,
            None => false,
        }
    }

    /// The number before, or `None` where the path begins here or there is no label.
    pub fn parent(&self) -> Option<usize>
        ensures { MatchOption result
            ((l : Label C) → self.now ≡ Some l → l.depth ≡ 0)
            (λ parent. (l : Label C) × (self.now ≡ Some l) × (l.parent ≡ parent) × (0 < l.depth)) }
    {
        let word = if self.word >= SETTLED {
            self.word - SETTLED
        } else {
            self.word
        };
        if word > FIRST { Some(word - 2) } else { None }
    }

    /// Settles the label, if there is one.
    pub fn settle(&mut self)
        ensures { MatchOption self.old (self.new ≡ None) (λ l. self.new ≡ Some (record l { settled = true })) }
    {
        if self.word > 0 && self.word < SETTLED {
            self.word += SETTLED;
        }
    }
}

impl<C: Copy> Clone for Slot<C> {
    ghost is_clone = { λ x y. y ≡ x };

    ghost is_infallible = { λ _. ⊤ };

    fn clone(&self) -> Result<Self, AllocError> {
        Ok(Slot {
            cost: self.cost,
            word: self.word,
            above: self.above.same(),
        })
    }
}
