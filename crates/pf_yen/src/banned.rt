//! The numbers to which a path may not go on from its spur.

ghost use Rattle.std.specs.Prelude.{◌≡◌, ◌++◌, [], ◌∷◌, OnOk, IfOk, IfErr};
ghost use Rattle.pf_yen.specs.Internal.Classes.{is_in};
ghost use Rattle.pf_yen.specs.Internal.Marks.{AreMarked};

use pf_base::PathError;
use std::alloc::Allocator;
use std::marker::Model;
use std::mem;

/// Banned numbers, in the order in which they were put in. Each is marked too, so that whether a
/// number is banned is one look.
#[derive(Drop)]
pub struct Banned<A: Allocator> {
    numbers: Vec<usize, A>,
    marks: Vec<bool, A>,
}

impl<A: Allocator> Model for Banned<A> {
    ghost use Rattle.std.specs.Prelude.{List, ℕ};
    ghost use Rattle.std.specs.Coded.{coded_list, coded_ℕ};
    ghost use Rattle.pf_yen.specs.Internal.Marks.{AreMarked};

    ghost Value = { List ℕ };

    ghost coded = { coded_list coded_ℕ };

    ghost view = { λ s. s.numbers.items };

    ghost invariant = { λ s. AreMarked s.marks.items s.numbers.items };
}

/// Takes the marks of these numbers away, which are all that are marked.
fn clear_marks<A: Allocator>(marks: &mut Vec<bool, A>, numbers: &[usize])
    requires { AreMarked marks.old.items numbers.now }
    ensures { AreMarked marks.new.items [] }
{
    'numbers: for number in numbers {
        if *number < marks.len() {
            marks[*number] = false;
        }
    }
}

impl<A: Allocator> Banned<A> {
    /// No number of so many.
    pub fn nothing(alloc: A, count: usize) -> Result<Self, PathError>
    where
        A: Copy,
        ensures nothing { IfOk result (λ banned. banned ≡ []) }
        ensures refused { IfErr result (λ e. e ≡ PathError.OutOfMemory) }
    {
        let mut marks = Vec::new(alloc);
        marks.resize(count, false)?;
        Ok(Banned {
            numbers: Vec::new(alloc),
            marks,
        })
    }

    /// Is the number banned?
    pub fn has(&self, number: usize) -> bool
        ensures { result ≡ is_in self.now number }
    {
        if number < self.marks.len() {
            self.marks[number]
        } else {
            self.numbers.contains(&number)
        }
    }

    /// Bans one number more.
    pub fn add(&mut self, number: usize) -> Result<(), PathError>
        ensures added { OnOk result (self.new ≡ self.old ++ number ∷ []) }
        ensures refused { IfErr result (λ e. e ≡ PathError.OutOfMemory) }
    {
        self.numbers.push(number)?;
        if number < self.marks.len() {
            self.marks[number] = true;
        }
        Ok(())
    }

    /// Bans these numbers, where none is banned.
    pub fn add_all(&mut self, numbers: &[usize]) -> Result<(), PathError>
        requires { self.old ≡ [] }
        ensures added { OnOk result (self.new ≡ numbers.now) }
        ensures refused { IfErr result (λ e. e ≡ PathError.OutOfMemory) }
    {
        'numbers: for number in numbers {
            self.add(*number)?;
        }
        Ok(())
    }

    /// Moves the numbers out, so that none is banned.
    pub fn take(&mut self, alloc: A) -> Vec<usize, A>
        ensures taken { result.items ≡ self.old }
        ensures nothing { self.new ≡ [] }
    {
        clear_marks(&mut self.marks, &self.numbers);
        mem::replace(&mut self.numbers, Vec::new(alloc))
    }
}
