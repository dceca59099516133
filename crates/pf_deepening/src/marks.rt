//! Which numbers are on the way.

ghost use Rattle.std.specs.Prelude.{◌≡◌, ◌↔◌, ◌⊎◌, ℕ, true, OnOk, IfErr};
ghost use Rattle.pf_deepening.specs.Ways.{IsMarked};

use crate::widen::widen;
use pf_base::PathError;
use std::alloc::Allocator;

/// Is the number marked?
pub fn is_marked<A: Allocator>(marks: &Vec<bool, A>, number: usize) -> bool
    ensures { (result ≡ true) ↔ IsMarked marks.now.items number }
{
    match marks.get(number) {
        Some(mark) => *mark,
        None => false,
    }
}

/// Marks a number.
pub fn mark<A: Allocator>(marks: &mut Vec<bool, A>, number: usize) -> Result<(), PathError>
    ensures marked { OnOk result ((k : ℕ) → IsMarked marks.new.items k ↔ (IsMarked marks.old.items k ⊎ (k ≡ number))) }
    ensures refused { IfErr result (λ e. e ≡ PathError.OutOfMemory) }
{
    widen(marks, number, false)?;
    marks[number] = true;
    Ok(())
}

/// Takes the mark of a number away.
pub fn unmark<A: Allocator>(marks: &mut Vec<bool, A>, number: usize)
    requires { IsMarked marks.old.items number }
    ensures { (k : ℕ) → IsMarked marks.new.items k ↔ (IsMarked marks.old.items k × ¬ (k ≡ number)) }
{
    marks[number] = false;
}
