//! Rows of steps in one block.

ghost use Rattle.std.specs.Prelude.{◌≡◌, ◌<◌, ◌≤◌, ◌-◌, ◌++◌, [], ◌∷◌, length, take, drop, slice_index_or, OnOk, OnErr, IfErr};
ghost use Rattle.pf_yen.specs.Internal.Rows.{row_begin};

use pf_base::{Cost, PathError};
use std::alloc::Allocator;
use std::marker::Model;

/// Rows of steps, each as the number of its end and its cost. They stand one behind the other in one
/// block, so that none has room to spare.
#[derive(Drop)]
pub struct Rows<C: Cost, A: Allocator> {
    steps: Vec<(usize, C), A>,
    /// Where each row ends in the block.
    ends: Vec<usize, A>,
}

impl<C: Cost, A: Allocator> Model for Rows<C, A> {
    ghost use Rattle.std.specs.Prelude.{List, ℕ, length};
    ghost use Rattle.std.specs.Coded.{coded_list, coded×, coded_ℕ};
    ghost use Rattle.pf_yen.specs.Internal.Rows.{rows_from, AreEnds};

    ghost Value = { List (List (ℕ × C)) };

    ghost coded = { coded_list (coded_list (coded× coded_ℕ C.code)) };

    ghost view = { λ s. rows_from 0 s.ends.items s.steps.items };

    ghost invariant = { λ s. AreEnds 0 s.ends.items (length s.steps.items) };
}

/// Where a row begins, by the places at which rows end.
fn begin_of(ends: &[usize], number: usize) -> usize
    requires { number < length ends.now }
    ensures { result ≡ row_begin 0 ends.now number }
{
    if number == 0 { 0 } else { ends[number - 1] }
}

/// The steps of a block between two places.
fn part<C: Cost>(steps: &[(usize, C)], begin: usize, end: usize) -> &[(usize, C)]
    requires { (begin ≤ end) × (end ≤ length steps.now) }
    ensures { result.now ≡ take (end - begin) (drop begin steps.now) }
{
    &steps[begin..end]
}

impl<C: Cost, A: Allocator> Rows<C, A> {
    /// No row.
    pub fn new(alloc: A) -> Self
    where
        A: Copy,
        ensures { result ≡ [] }
    {
        Rows {
            steps: Vec::new(alloc),
            ends: Vec::new(alloc),
        }
    }

    /// How many rows there are.
    pub fn len(&self) -> usize
        ensures { result ≡ length self.now }
    {
        self.ends.len()
    }

    /// The steps of a row.
    pub fn row(&self, number: usize) -> &[(usize, C)]
        requires { number < length self.now }
        ensures { result.now ≡ slice_index_or self.now number [] }
    {
        let begin = begin_of(&self.ends, number);
        part(&self.steps, begin, self.ends[number])
    }

    /// Puts a row behind the others. Where memory is refused, nothing changes.
    pub fn add(&mut self, row: &[(usize, C)]) -> Result<(), PathError>
        ensures added { OnOk result (self.new ≡ self.old ++ row.now ∷ []) }
        ensures kept { OnErr result (self.new ≡ self.old) }
        ensures refused { IfErr result (λ e. e ≡ PathError.OutOfMemory) }
    {
        let begin = self.steps.len();
        self.steps.extend_from_slice(row)?;
        match self.ends.push(self.steps.len()) {
            Ok(()) => Ok(()),
            Err(_) => {
                self.steps.truncate(begin);
                Err(PathError::OutOfMemory)
            }
        }
    }
}
