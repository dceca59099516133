//! Lists of numbers that contracts alone see.

ghost use Rattle.std.specs.Prelude.{◌≡◌, ◌↔◌, ◌+◌, ◌<◌, ◌^◌, ◌++◌, ◌∷◌, [], true, length};

use std::marker::Model;
use std::mem;
use std::snapshot::Snapshot;

/// Numbers, one behind the others.
#[derive(Drop)]
enum Numbers {
    Nothing,
    More(Snapshot<Numbers>, u32),
}

/// The numbers that were given, in order. A program can read how many there are, and a contract sees
/// them.
#[derive(Drop)]
pub struct Given {
    count: u32,
    numbers: Snapshot<Numbers>,
}

impl Model for Given {
    ghost use Rattle.std.specs.Prelude.{List, ℕ, ◌≡◌, length};
    ghost use Rattle.pf_discovery.specs.Given.{numbers_of};

    ghost Value = { List ℕ };

    ghost view = { λ s. numbers_of s.numbers.value };

    ghost invariant = { λ s. s.count ≡ length (numbers_of s.numbers.value) };
}

impl Given {
    /// No number yet.
    pub fn new() -> Self
        ensures { result ≡ [] }
    {
        Given {
            count: 0,
            numbers: Snapshot::of(&Numbers::Nothing),
        }
    }

    /// How many numbers were given.
    pub fn len(&self) -> usize
        ensures len { result ≡ length self.now }
        ensures small { result < 2 ^ 32 }
    {
        self.count as usize
    }

    /// Was no number given?
    pub fn is_empty(&self) -> bool
        ensures { (result ≡ true) ↔ (length self.now ≡ 0) }
    {
        self.count == 0
    }

    /// One number more.
    pub fn push(&mut self, number: u32)
        requires { length self.old + 1 < 2 ^ 32 }
        ensures { self.new ≡ self.old ++ number ∷ [] }
    {
        let old = mem::replace(&mut self.numbers, Snapshot::of(&Numbers::Nothing));
        let more = Numbers::More(old, number);
        self.numbers = Snapshot::of(&more);
        self.count += 1;
    }
}
