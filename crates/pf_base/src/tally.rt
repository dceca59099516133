//! Counts that contracts alone see.

ghost use Rattle.std.specs.Prelude.{◌≡◌, ◌+◌};

use std::marker::Model;
use std::mem;
use std::snapshot::Snapshot;

/// A whole number, one step at a time.
#[derive(Drop)]
enum Count {
    Zero,
    Next(Snapshot<Count>),
}

/// A count of no size: a program cannot read it, and a contract sees the number of ticks.
///
/// A call that takes a `&mut Tally` says in its contract how often it does a thing, each time with
/// one tick.
#[derive(Drop)]
pub struct Tally {
    count: Snapshot<Count>,
}

impl Model for Tally {
    ghost use Rattle.std.specs.Prelude.{ℕ};
    ghost use Rattle.pf_base.specs.Tallies.{ticks_of};

    ghost Value = { ℕ };

    ghost view = { λ t. ticks_of t.count.value };
}

impl Tally {
    /// No tick yet.
    pub fn new() -> Self
        ensures { result ≡ 0 }
    {
        Tally {
            count: Snapshot::of(&Count::Zero),
        }
    }

    /// One tick more.
    pub fn tick(&mut self)
        ensures { self.new ≡ self.old + 1 }
    {
        let old = mem::replace(&mut self.count, Snapshot::of(&Count::Zero));
        let next = Count::Next(old);
        self.count = Snapshot::of(&next);
    }
}
