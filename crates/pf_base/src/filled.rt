//! Lists of one value.

ghost use Rattle.std.specs.Prelude.{◌≡◌, [], ◌∷◌, length, replicate, IfOk, IfErr};
ghost use Rattle.pf_base.specs.declared.error.PathError.TheVariants.{OutOfMemory};

use crate::PathError;
use std::alloc::Allocator;

/// A list that has a value so many times.
pub fn filled<T, A>(alloc: A, count: usize, value: T) -> Result<Vec<T, A>, PathError>
where
    T: Copy,
    A: Allocator,
    ensures items { IfOk result (λ list. list.items ≡ replicate count value) }
    ensures len { IfOk result (λ list. length list.items ≡ count) }
    ensures refused { IfErr result (λ e. e ≡ OutOfMemory) }
{
    let mut list = Vec::new(alloc);
    list.resize(count, value)?;
    Ok(list)
}

/// A list of one value.
pub fn alone<T: Drop, A: Allocator + Copy>(alloc: A, value: T) -> Result<Vec<T, A>, PathError>
    ensures one { IfOk result (λ list. list.items ≡ value ∷ []) }
    ensures refused { IfErr result (λ e. e ≡ OutOfMemory) }
{
    let mut list = Vec::new(alloc);
    list.push(value)?;
    Ok(list)
}
